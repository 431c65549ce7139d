//! A schedule is read as it comes, each of its events is answered, and each answer is written before
//! the next event is answered.
#![tactic(auto)]

mod answering;
mod course;
mod reporting;
mod stop;
mod through;

pub use answering::Answering;
pub use course::Course;
pub use stop::Stop;
pub use through::{go_through, go_through_prefix, step_through};
