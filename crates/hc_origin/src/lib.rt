//! The test origin: each connection's first request is answered, and the connection closed.
#![tactic(auto)]

mod letters;
mod origin;
mod reply;
mod serve;
mod stop;

pub use serve::origin_on;
