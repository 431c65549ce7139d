//! HTTP/1.1 messages (RFC 9112): requests and answers that come in pieces, however they are cut, and
//! the bytes of those that are sent.
#![tactic(auto)]

mod answer;
mod call;
mod laws;
mod line;
mod look;
mod message;
mod reader;
mod requests;
mod trailer;
mod write;

pub use hc_head::{MsgError, WireRequest};
pub use laws::{
    bytes_are_read_one_way, chunk_lines_are_read_by_equations, what_bytes_report_has_a_spelling,
    what_stands_next_is_read,
};
pub use message::{Look, Taken, WirePart};
pub use reader::ResponseReader;
pub use requests::RequestReader;
pub use write::{
    write_chunk, write_chunk_size, write_closing_head, write_request, write_response_head,
};
