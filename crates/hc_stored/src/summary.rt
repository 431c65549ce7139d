//! What a head tells that is asked often.
ghost use Rattle.std.specs.Prelude.{◌≡◌, ◌≤◌, false, IfOk};
ghost use Rattle.std.specs.Option.{ForSome};
ghost use Rattle.hc_record.specs.Plain.{plain};

use crate::ranges::refuses_ranges;
use hc_etag::Tag;
use hc_fresh::HeadFacts;
use hc_record::{Kind, StoredHead};
use hc_text::NoMemory;

/// What a stored head tells that is asked often, so that its record isn't read for it.
#[derive(Drop)]
pub(crate) struct HeadSummary {
    pub(crate) facts: HeadFacts,
    pub(crate) status: u16,
    pub(crate) kind: Kind,
    pub(crate) total: Option<u64>,
    /// The tag by which other parts join. It is strong.
    pub(crate) tag: Option<Tag>,
    /// The origin takes no ranges (RFC 9110 section 14.3).
    pub(crate) refuses_ranges: bool,
    ghost strong: { ForSome tag (λ tag. tag.weak ≡ false) },
}

impl HeadSummary {
    ghost use Rattle.hc_stored.specs.Heads.{summary_of};
    ghost use Rattle.hc_stored.specs.Rows.{summary_in};

    /// What the head tells.
    pub(crate) fn of(head: &StoredHead) -> Result<HeadSummary, NoMemory>
        requires { head.now.requested ≤ head.now.answered }
        ensures { IfOk result (λ summary. summary_in summary ≡ summary_of (plain head.now)) }
    {
        let tag = match &head.joining {
            Some(tag) => Some(tag.copy()?),
            None => None,
        };
        Ok(HeadSummary {
            facts: HeadFacts::of(head),
            status: head.status,
            kind: head.kind,
            total: head.total,
            tag,
            refuses_ranges: refuses_ranges(&head.fields),
        })
    }
}
