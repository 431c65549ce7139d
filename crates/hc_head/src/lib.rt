//! Heads of HTTP/1.1 messages (RFC 9112): where one ends, what its fields say of the message, and what a
//! whole head of a request or of an answer comes to.
#![tactic(auto)]

mod fields;
mod framing;
mod head;
mod laws;
mod lengths;
mod message;
mod request;
mod response;
mod scan;
mod start;

pub use framing::Framing;
pub use head::find_end;
pub use laws::{heads_are_read_by_equations, what_is_reported_has_a_spelling};
pub use message::{MsgError, WireRequest};
pub use request::call_of;
pub use response::{ParsedHead, reply_of};
pub use scan::{Scan, Sought, line_end};
pub use start::Start;
