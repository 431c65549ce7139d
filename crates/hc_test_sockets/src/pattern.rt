//! The bytes that are moved.
use std::alloc::{AllocError, Global};

/// The bytes go round so many values. No size of a piece or of a buffer is a multiple of it, so that a
/// piece that is lost or comes twice is seen.
const ROUND: usize = 251;

/// The bytes that are moved, from any of them on.
#[derive(Drop)]
pub(crate) struct Pattern {
    bytes: Vec<u8>,
}

impl Pattern {
    /// One that shows at least so many bytes at a time.
    pub(crate) fn new(alloc: Global, len: usize) -> Result<Pattern, AllocError> {
        let mut bytes = Vec::new(alloc);
        for i in 0..len.saturating_add(ROUND) {
            bytes.push((i % ROUND) as u8)?;
        }
        Ok(Pattern { bytes })
    }

    /// Bytes behind the first `position` ones.
    pub(crate) fn behind(&self, position: usize) -> &[u8] {
        self.bytes.get(position % ROUND..).unwrap_or(&[])
    }
}
