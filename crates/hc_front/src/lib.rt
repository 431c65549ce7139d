//! A front before the cache: it answers requests on condition of a copy that the caller has.
#![tactic(auto)]

mod front;
mod laws;
mod replaying;
mod stepping;
mod watches;

pub use front::Front;
pub use laws::{conditions_go_on, fronts_change_nothing_else, satisfied_get_nothing};
pub use replaying::replay_front;
