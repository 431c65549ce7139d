//! Reading records.
ghost use Rattle.std.specs.Prelude.{IfOk, IfSome, IfNone, OnErr};
ghost use Rattle.hc_record.specs.Head.{Head, IsHead};
ghost use Rattle.hc_record.specs.Plain.{plain};
ghost use Rattle.hc_record.specs.Record.{IsRecordOf, HasFirstLines};

use crate::cursor::Cursor;
use crate::head::StoredHead;
use crate::joining::joining_tag;
use crate::parts::{is_own_tag, take_first_lines, take_tag_text};
use hc_text::NoMemory;
use std::alloc::Global;

/// The stored head whose record the text is, of either version. None exactly where the text is no
/// record.
///
/// The text is read once. Memory is asked for only where its first three lines are those of a record,
/// so want of memory may be told before a fault further on.
pub fn read_record(alloc: Global, text: &[u8]) -> Result<Option<StoredHead>, NoMemory>
    ensures found { IfOk result (λ read. IfSome read (λ head. IsRecordOf text.now (plain head))) }
    ensures none { IfOk result (λ read. IfNone read
        ((head : Head) → IsHead head → ¬ (IsRecordOf text.now head))) }
    ensures err { OnErr result (HasFirstLines text.now) }
{
    let mut rest = Cursor::new(text);
    let Some(first) = take_first_lines(&mut rest) else {
        return Ok(None);
    };
    let Some(tag) = take_tag_text(first.version, &mut rest) else {
        return Ok(None);
    };
    let Some(vary_fields) = rest.take_fields(alloc, first.numbers.vary_count)? else {
        return Ok(None);
    };
    let Some(fields) = rest.take_fields(alloc, first.numbers.count)? else {
        return Ok(None);
    };
    if !rest.is_at_end() || !fields.within_limits() {
        return Ok(None);
    }
    let joining = joining_tag(alloc, &fields)?;
    if !is_own_tag(first.version, tag, &joining) {
        return Ok(None);
    }
    Ok(Some(StoredHead {
        kind: first.seal.kind,
        total: first.seal.total,
        status: first.status,
        requested: first.numbers.requested,
        answered: first.numbers.answered,
        joining,
        vary_fields,
        fields,
    }))
}
