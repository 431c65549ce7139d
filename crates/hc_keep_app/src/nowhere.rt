//! Where a record goes that nobody keeps.
use hc_io::{Sink, SinkError};

/// Takes what it is given, and keeps nothing.
#[derive(Drop)]
pub(crate) struct Nowhere;

impl Sink for Nowhere {
    ghost use Rattle.std.specs.Prelude.{None};

    ghost faults = { λ _. 0 };

    ghost taken = { λ _. None };

    fn write(&mut self, from: &[u8]) -> Result<usize, SinkError> {
        Ok(from.len())
    }
}
