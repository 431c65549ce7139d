//! A wire over sockets.
#![tactic(auto)]

mod adapter;
mod held;
mod patience;
mod socket;
mod table;

pub use adapter::MioWire;
pub use patience::Patience;
