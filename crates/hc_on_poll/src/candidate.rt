//! The plan of a consumer, where what is current matters.
ghost use Rattle.std.specs.Prelude.{◌≡◌, ◌<◌, ◌^◌, nat_eq, IsSomeAnd};
ghost use Rattle.std.specs.HashMap.{get};
ghost use Rattle.hc_record.specs.Plain.{plain};
ghost use Rattle.hc_state.specs.Candidates.{DecidesOn};
ghost use Rattle.hc_state.specs.Good.{StandsBy};
ghost use Rattle.hc_on_poll.specs.Ready.{IsCurrentWith};

use hc_on_leave::writers::kind_of;
use hc_record::StoredHead;
use hc_rules::Plan;
use hc_state::Rows;
use hc_store::Backend;

/// What the consumer decides, whose turn is told with it counted in, where `r` is current for its key
/// and has this stored head. How it may be bound beside those who use `r`, is asked of these.
pub(crate) fn decide<B: Backend>(
    rows: &Rows<B>,
    now: u64,
    c: u64,
    turn: u64,
    r: u64,
    head: &StoredHead,
) -> Plan
    requires stands { ∥ StandsBy rows.now now ∥₁ }
    requires early { now < 2 ^ 62 }
    requires current { IsCurrentWith rows.now c r (plain head.now) }
    ensures { IsSomeAnd (get nat_eq rows.now.consumers c) (DecidesOn rows.now now c turn r result) }
{
    let consumer = rows.consumers.get(&c).unwrap();
    let entry = rows.entries.entry(r).unwrap();
    let facts = rows.entries.facts(r).unwrap();
    let current = consumer.current(head, facts, &rows.entries.bytes(r), now);
    let ranged = consumer.class.range.is_some();
    let kind = kind_of(rows, r, &entry);
    let admission = rows.entries.admission(r, kind, ranged, current.has_holes());
    consumer.decide(c, turn, &current, admission, now)
}
