//! Events and acts as numbers and bytes: events are made of them, and acts are told in them.
#![tactic(auto)]

mod act;
mod copies;
mod detail;
mod event;
mod fields;
mod refused;
mod request;

pub use act::{ActNumbers, numbers_of};
pub use copies::{copy_act, put};
pub use event::{cancel, doom, end, fault, head, piece, poll, start};
pub use refused::CallRefusal;
pub use request::Asked;
