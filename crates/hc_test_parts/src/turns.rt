//! Calls of whose turn it is, and of who is bound.
use crate::active::Binding;
use crate::keys::TwoKeys;
use crate::lines::Line;
use hc_test_frame::{Fault, Vector};
use std::alloc::Global;

/// A line, what is kept of two keys, and a representation.
#[derive(Drop)]
pub(crate) struct Turns {
    line: Line,
    keys: TwoKeys,
    binding: Binding,
}

impl Turns {
    /// Nobody waits or is bound.
    pub(crate) fn new(alloc: Global) -> Turns {
        Turns {
            line: Line::new(alloc),
            keys: TwoKeys::new(alloc),
            binding: Binding::new(alloc),
        }
    }

    /// Makes the call.
    pub(crate) fn note(&mut self, v: &Vector, to: &mut String) -> Result<(), Fault> {
        let name = v.name();
        if name.starts_with("line") {
            self.line.note(v, to)
        } else if name.starts_with("key") {
            self.keys.note(v, to)
        } else {
            self.binding.note(v, to)
        }
    }
}
