//! The proxy: the cache between clients and an origin.
#![tactic(auto)]

mod carry;
mod handle;
mod laws;
mod network;
mod polls;
mod proxy;
mod record;
mod send;
mod serve;
mod starts;
mod stop;

pub use laws::{
    answers_are_owed, ends_are_as_said, ends_are_received, events_are_received, logs_are_as_said,
    loops_are_runs, starts_are_asked,
};
pub use serve::{serve_from, serve_on};
