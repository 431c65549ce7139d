//! Where bytes come from and where they go: the traits `Source` and `Sink`, in memory and over std.
#![tactic(auto)]

mod adapters;
mod copies;
mod memory;
mod plain;
mod script;
mod sink;
mod source;

pub use adapters::{StdSink, StdSource};
pub use memory::{MemorySink, MemorySource};
pub use plain::{PlainSink, PlainSource};
pub use sink::{Sink, SinkError, write_all};
pub use source::{ReadError, Source, SourceFailed, read_all};
