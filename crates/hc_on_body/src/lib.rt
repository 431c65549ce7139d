//! What happens where bytes of an exchange come, and where it ends or breaks.
#![tactic(auto)]

pub mod piece;
pub mod stop;
