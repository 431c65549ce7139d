//! Two stored heads.

use crate::error::BenchError;
use crate::rules::records::record_text;
use hc_record::{StoredHead, read_record};
use std::alloc::Global;

/// Two heads with the same fields.
#[derive(Drop)]
pub(crate) struct TwoHeads {
    first: StoredHead,
    second: StoredHead,
}

impl TwoHeads {
    pub(crate) fn new(alloc: Global) -> Result<TwoHeads, BenchError> {
        let first = head_of(alloc, 0)?;
        let second = head_of(alloc, 1)?;
        Ok(TwoHeads { first, second })
    }

    /// One of the heads, by turns.
    #[inline(never)]
    pub(crate) fn at(&self, round: u64) -> &StoredHead {
        if round % 2 == 0 {
            &self.first
        } else {
            &self.second
        }
    }
}

/// The head of the record of a round.
fn head_of(alloc: Global, round: u64) -> Result<StoredHead, BenchError> {
    read_record(alloc, record_text(round))?.ok_or(BenchError::Wrong)
}
