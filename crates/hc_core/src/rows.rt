//! What is done with what is kept: why an event is denied, and the handler of each that isn't.

pub(crate) mod answer;
pub(crate) mod begin;
pub(crate) mod contents;
mod gate;
