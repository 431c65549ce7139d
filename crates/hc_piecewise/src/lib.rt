//! A schedule that is handed in piece by piece, where each piece is answered by its report.
#![tactic(auto)]

mod laws;
mod schedule;

pub use laws::pieces_are_as_one;
pub use schedule::Schedule;
