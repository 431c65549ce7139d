//! Entity tags (RFC 9110 section 8.8.3): their text, their comparison, and lists of them.
#![tactic(auto)]

mod leading;
mod list;
mod read;
mod tag;
mod text;

pub use list::{TagItems, TagList, read_tag_list};
pub use read::{read_tag, write_tag};
pub use tag::{Tag, strong_equal, weak_equal};
pub use text::{TagText, strong_in, tag_in};
