//! Ranges of bytes: Range and Content-Range of one range (RFC 9110 sections 14.1.2 and 14.4).
#![tactic(auto)]

mod range;
mod read;
mod span;
mod split;
mod write;

pub use range::{ContentRange, RangeSpec, Span};
pub use read::{read_content_range, read_range};
pub use span::resolve;
pub use write::{write_content_range, write_range};
