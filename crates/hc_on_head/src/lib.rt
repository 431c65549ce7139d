//! What happens where the head of an exchange comes, and where a key is doomed.
#![tactic(auto)]

mod arrival;
mod asked;
mod asker;
pub mod doom;
mod dooming;
mod found;
pub mod head;
mod join;
mod turn;
mod unstored;
