//! What is kept by key, the line of a key, and who uses a representation.
#![tactic(auto)]

mod active;
mod keys;
mod line;
mod rows;
mod seat;
mod tournament;
mod way;

pub use active::ActiveEntry;
pub use hc_rules::{Admission, Plan};
pub use keys::KeyTable;
pub use line::{KeyLine, Seat};
pub use seat::Stand;
