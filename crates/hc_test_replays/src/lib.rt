//! Tests of replays that no text can say: caches that begin with contents, and hostile streams.
#![tactic(auto)]

#[cfg(test)]
mod contents;
#[cfg(test)]
mod hostile;
#[cfg(test)]
mod reports;
