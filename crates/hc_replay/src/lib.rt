//! Schedules that are replayed on a cache, and schedules that are generated for one.
#![tactic(auto)]

mod generating;
mod replaying;
mod rounds;

pub use generating::{PROGRAM_LIMITS, generate};
pub use replaying::replay;
