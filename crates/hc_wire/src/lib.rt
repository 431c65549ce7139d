//! Connections of the proxy: the wire as a trait, and one that follows a script.
#![tactic(auto)]

mod connection;
mod event;
mod script;
mod scripted;
mod wire;

pub use event::{Address, WireError, WireEvent};
pub use script::ScriptWire;
pub use scripted::{Scripted, is_script};
pub use wire::{MOST_EVENTS, Wire};
