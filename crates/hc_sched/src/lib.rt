//! The text of schedules, read as a stream, and the text of reports.
#![tactic(auto)]

mod begun;
mod event;
mod feed;
mod field;
mod first;
mod laws;
mod parts;
mod piece;
mod place;
mod reader;
mod report;
mod schedule;
mod words;

pub use event::write_event;
pub use feed::Feed;
pub use laws::a_text_has_one_reading;
pub use report::write_acts;
pub use schedule::{Ended, FeedError, Refused, SchedRefusal, Timed};
