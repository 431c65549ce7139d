//! What decides how a fetch ends, before its input does.
ghost use Rattle.std.specs.Prelude.{◌≡◌, ℕ, Option, IfSome, is_some};
ghost use Rattle.hc_fetch.specs.Deciding.{IsOwn, by_failure, by_head, fits, is_foreign};
ghost use Rattle.hc_fetch.specs.Firsts.{by_first, first_as};
ghost use Rattle.hc_fetch.specs.Heads.{Head};

use crate::ended::FetchEnded;
use crate::first::{First, total_of};
use crate::plan::FetchPlan;
use hc_event::{Act, Event};
use hc_fields::Fields;

/// Whether an event is foreign: the fetch starts and cancels its consumers itself.
pub(crate) fn is_foreign(event: &Event) -> bool
    ensures { result ≡ is_foreign event.now }
{
    matches!(event, Event::Start { .. } | Event::Cancel { .. })
}

/// A consumer fails.
pub(crate) fn failure_in(acts: &[Act]) -> Option<FetchEnded>
    ensures decides { result ≡ by_failure acts.now }
    ensures own { IfSome result IsOwn }
{
    for act in acts {
        if let Act::Failed { c, cause } = act {
            return Some(FetchEnded::Failed {
                c: *c,
                cause: *cause,
            });
        }
    }
    None
}

/// It is shown another representation than the first consumer was.
fn other(first: Option<First>, c: u64, r: u64) -> Option<FetchEnded>
    ensures decides { result ≡ by_first first c r }
    ensures own { IfSome result IsOwn }
{
    let first = first?;
    if r == first.r {
        None
    } else {
        Some(FetchEnded::Other {
            c,
            r,
            first: first.r,
        })
    }
}

impl FetchPlan {
    /// What a head decides that a consumer is shown, behind that of the first one.
    pub(crate) fn decision(
        &self,
        first: Option<First>,
        c: u64,
        r: u64,
        status: u16,
        fields: &Fields,
    ) -> Option<FetchEnded>
        ensures decides { (before : Option Head) → first ≡ first_as before → result
            ≡ by_head self.now before
            (record { c = c; r = r; status = status; fields = fields.now }) }
        ensures own { IfSome result IsOwn }
    {
        if self.fits(first.is_some(), c, status, fields) {
            other(first, c, r)
        } else {
            Some(FetchEnded::Status { c, status })
        }
    }

    /// Whether a consumer may be shown a head, once the first one was shown one, or before.
    fn fits(&self, is_shown: bool, c: u64, status: u16, fields: &Fields) -> bool
        ensures { (before : Option Head) (r : ℕ) → is_shown ≡ is_some before → result
            ≡ fits self.now before
            (record { c = c; r = r; status = status; fields = fields.now }) }
    {
        if c == 1 {
            status == 200 || (self.parts != 1 && total_of(status, fields).is_some())
        } else {
            is_shown && (status == 200 || status == 206)
        }
    }
}
