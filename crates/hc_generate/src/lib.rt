//! The generator of schedules: events that are drawn from a seed, by what the cache wants and answers.
//! It knows no cache. Who drives it hands in what is wanted, steps the event that it makes, and tells it
//! the acts.
#![tactic(auto)]

mod action;
mod counts;
mod draws;
mod exchange;
mod generator;
mod hearing;
mod laws;
mod request;

pub use generator::Generator;
pub use laws::the_counts_are_the_summary;
