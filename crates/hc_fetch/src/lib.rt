//! One resource is read in parts, by several consumers of one cache, and its body is written in order.
#![tactic(auto)]

mod asking;
mod deciding;
mod ended;
mod fetching;
mod first;
mod gathering;
mod laws;
mod plan;
mod through;

pub use ended::FetchEnded;
pub use laws::what_is_written_is_the_body;
pub use plan::FetchPlan;
pub use through::fetch;
