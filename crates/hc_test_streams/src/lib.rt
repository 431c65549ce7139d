//! Tests of what no text can say: streams that fail in between, and wires that follow a script.
#![tactic(auto)]

#[cfg(test)]
mod courses;
#[cfg(test)]
mod loops;
#[cfg(test)]
mod scripts;
#[cfg(test)]
mod streams;
