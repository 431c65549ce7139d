//! What happens where a consumer starts, and where it polls.
#![tactic(auto)]

mod candidate;
mod carry;
mod hole;
mod past;
mod plan;
pub mod poll;
mod read;
mod show;
mod shown;
pub mod start;
mod wait;
