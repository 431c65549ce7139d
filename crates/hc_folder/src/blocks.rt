//! All blocks of a record.
ghost use Rattle.std.specs.Prelude.{◌≡◌, ◌++◌, ◌≤◌, ℕ, List, vec_len, length, IfOk, IfErr};
ghost use Rattle.hc_folder.specs.Blocks.{blocks, HasText, AreShort};
ghost use Rattle.hc_folder.specs.Records.{IsReadAs, IsUnread};

use crate::block::{Taken, take_block};
use crate::sum::Sum;
use std::alloc::{AllocError, Global};

/// Why a record isn't read.
#[derive(Clone, Copy, Debug, PartialEq, Eq)]
pub enum RecordError {
    /// What stands behind so many bytes is no block, whatever follows the file.
    Broken { at: u64 },
    /// There was not enough memory.
    NoMemory,
}

impl From<AllocError> for RecordError {
    ghost use Rattle.std.specs.Prelude.{◌≡◌};
    ghost use Rattle.hc_folder.specs.declared.blocks.RecordError.TheVariants as error;

    ghost from_gives = { λ _ e. e ≡ error.NoMemory };

    fn from(_: AllocError) -> Self {
        RecordError::NoMemory
    }
}

/// The text of a record that stands behind what has this sum: of its whole blocks, up to where it was
/// cut.
pub fn read_record(alloc: Global, sum: Sum, file: &[u8]) -> Result<Vec<u8>, RecordError>
    ensures text { IfOk result (λ text. HasText sum file.now text.items) }
    ensures none { IfErr result (IsUnread sum file.now) }
    ensures shorter { IfOk result (λ text. vec_len text ≤ length file.now) }

    // No first part of a record is refused, and all of its whole blocks are read.
    ensures taken { (texts : List (List ℕ)) (more : List ℕ) → AreShort texts
        → file.now ++ more ≡ blocks sum texts → IsReadAs texts result }
{
    let mut text = Vec::new(alloc);
    let mut sum = sum;
    let mut rest = file;
    'turns: loop {
        match take_block(&sum, rest) {
            Taken::Whole(block) => {
                text.extend_from_slice(block.text)?;
                sum = block.sum;
                rest = block.rest;
            }
            Taken::Cut => return Ok(text),
            Taken::Broken => {
                return Err(RecordError::Broken {
                    at: (file.len() - rest.len()) as u64,
                });
            }
        }
    }
}
