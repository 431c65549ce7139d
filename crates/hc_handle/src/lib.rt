//! What stands behind a handle that a program keeps: a cache, and what its last event led to.
#![tactic(auto)]

pub mod calls;
pub mod handle;
mod laws;
mod picture;
pub mod pointer;
pub mod session;
mod stepping;
mod texts;

pub use laws::texts_are_replayed;
