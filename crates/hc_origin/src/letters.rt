//! The bytes of the representations.
ghost use Rattle.std.specs.Prelude.{◌≡◌, IfOk};
ghost use Rattle.hc_origin.specs.Answering.{bytes_between};
ghost use Rattle.hc_origin.specs.Replies.{AreLetters, IsPiece};

use hc_text::NoMemory;
use hc_validate::origin_byte;
use std::alloc::Global;

/// So many bytes are offered at once, at most.
const MOST: usize = 16_384;

/// After so many bytes they begin again.
const PERIOD: u64 = 26;

/// The bytes of the representations, as many as are offered at once from any position on.
#[derive(Drop)]
pub(crate) struct Letters {
    bytes: Vec<u8>,
    ghost are: { AreLetters bytes.items },
}

impl Letters {
    pub(crate) fn new(alloc: Global) -> Result<Letters, NoMemory> {
        let mut bytes = Vec::new(alloc);
        for position in 0..MOST as u64 + PERIOD {
            bytes.push(origin_byte(position))?;
        }
        Ok(Letters { bytes })
    }

    /// The bytes from one position on, up to another, no more than are offered at once.
    pub(crate) fn part(&self, next: u64, end: u64) -> &[u8]
        ensures { IsPiece (bytes_between next end) result.now }
    {
        let from = (next % PERIOD) as usize;
        let len = end.saturating_sub(next).min(MOST as u64) as usize;
        &self.bytes[from..from + len]
    }
}
