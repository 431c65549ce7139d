//! Heads as they are stored.
ghost use Rattle.std.specs.Prelude.{◌≡◌, ◌<◌, ◌^◌, IfOk};
ghost use Rattle.hc_record.specs.Plain.{plain};
ghost use Rattle.hc_state.specs.Renewals.{renewed_head};

use hc_fields::Fields;
use hc_record::StoredHead;
use hc_text::NoMemory;
use hc_validate::update;

/// The stored head, renewed by one that came with these fields and was asked for then (RFC 9111
/// section 3.2).
pub fn renewed(
    head: StoredHead,
    requested: u64,
    answered: u64,
    from: &Fields,
) -> Result<StoredHead, NoMemory>
    requires requested { requested < 2 ^ 62 }
    requires answered { answered < 2 ^ 62 }
    ensures { IfOk result
        (λ new. plain new ≡ renewed_head requested answered from.now (plain head)) }
{
    let fields = update(&head.fields, from)?;
    // That their count is a `usize` is known once it is asked for.
    let _count = fields.len();
    Ok(StoredHead {
        requested,
        answered,
        fields,
        kind: head.kind,
        total: head.total,
        status: head.status,
        joining: head.joining,
        vary_fields: head.vary_fields,
    })
}
