//! The exchange table: what is open towards the origin, and what came and was not given yet.
#![tactic(auto)]

mod exchanges;
mod held;
mod role;
mod row;
mod rows;
mod wishes;

pub use exchanges::Exchanges;
pub use role::Role;
pub use row::{ExchangeView, Opening};
