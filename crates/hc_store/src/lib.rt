//! Stores: slots, each with the record of a head and sparse bytes.
#![tactic(auto)]

mod backend;
mod entries;
mod entry;
mod error;
mod failing;
mod memory;
mod view;

pub use backend::{Backend, Slot};
pub use error::StoreError;
pub use failing::{Failing, Op};
pub use hc_rules::{Limits, SLOT_WEIGHT};
pub use memory::Memory;
pub use view::SlotView;
