//! The directives of Cache-Control (RFC 9111 section 5.2) that the cache follows.
#![tactic(auto)]

mod directives;
mod element;
mod found;
mod seconds;

pub use directives::{Directives, read_request, read_response};
pub use seconds::read_delta_seconds;
