//! The cache: what is answered to each event, over a store.
#![tactic(auto)]

mod acts;
mod begin;
mod cache;
mod rows;

pub use acts::MOST_ACTS;
pub use begin::{ContentsError, ContentsRefused};
pub use cache::Cache;
