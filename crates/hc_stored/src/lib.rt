//! The representations that are current or to which a consumer is bound, each with its slot in a store.
#![tactic(auto)]

mod entries;
mod entry;
mod one;
mod order;
mod ranges;
mod rows;
mod summary;
mod view;

pub use entries::Entries;
pub use view::EntryView;
