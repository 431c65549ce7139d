//! What a cache may begin with: representations and numbers as data, and whether they fit.
#![tactic(auto)]

mod contents;
mod item;
mod list;
mod seen;
mod unfit;

pub use contents::{Content, Contents};
pub use list::{ContentList, RunList};
pub use unfit::{Unfit, why_unfit};
