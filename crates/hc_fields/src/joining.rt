//! Values joined by a comma and a space.
ghost use Rattle.std.specs.Prelude.{◌≡◌, ◌≤◌, ◌++◌, length, IfOk, All};
ghost use Rattle.hc_fields.specs.FieldList.{size_of};
ghost use Rattle.hc_fields.specs.Marks.{field_at, fields_at, separated_text, IsLineAt};

use crate::mark::Mark;
use hc_text::{Bytes, NoMemory};
use std::alloc::Global;

/// How many bytes the values have, each with a comma and a space before it.
fn separated_len(text: &[u8], marks: &[Mark]) -> usize
    requires lines { All (IsLineAt text.now) marks.now }
    requires few { length marks.now ≤ 80 }
    requires small { size_of (fields_at text.now marks.now) ≤ 49152 }
    ensures { result ≡ length (separated_text text.now marks.now) }
{
    let mut total = 0;
    for mark in marks {
        total += 2 + mark.value(text).len();
    }
    total
}

/// The first value, and those of the others, each behind a comma and a space.
pub(crate) fn join(
    alloc: Global,
    text: &[u8],
    first: &[u8],
    others: &[Mark],
) -> Result<Bytes, NoMemory>
    requires short { length first.now ≤ 49152 }
    requires lines { All (IsLineAt text.now) others.now }
    requires few { length others.now ≤ 80 }
    requires small { size_of (fields_at text.now others.now) ≤ 49152 }
    ensures { IfOk result (λ bytes. bytes ≡ first.now ++ separated_text text.now others.now) }
{
    let mut bytes = Vec::with_capacity(alloc, first.len() + separated_len(text, others))?;
    bytes.extend_from_slice(first).unwrap();
    for mark in others {
        bytes.extend_from_slice(b", ").unwrap();
        bytes.extend_from_slice(mark.value(text)).unwrap();
    }
    Ok(Bytes::of(bytes))
}
