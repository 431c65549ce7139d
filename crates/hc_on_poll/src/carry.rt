//! What is done for a consumer that reads nothing yet: its plan.
ghost use Rattle.std.specs.Prelude.{◌≡◌, ◌≤◌, ◌<◌, ◌^◌, true, is_some, nat_eq, IfSome, IsSomeAnd, OnOk};
ghost use Rattle.std.specs.HashMap.{get};
ghost use Rattle.hc_event.specs.Acts.{act_list, spare};
ghost use Rattle.hc_record.specs.Plain.{plain};
ghost use Rattle.hc_exch.specs.Exchanges.{next_of};
ghost use Rattle.hc_state.specs.Good.{StandsBy};
ghost use Rattle.hc_state.specs.Plans.{PlanViewIs, IsLookedAt, looks_at_stored, IsIdle, IsPlanOf, AnswersPoll};
ghost use Rattle.hc_state.specs.Frames.{KeepsFaults};
ghost use Rattle.hc_on_poll.specs.Ready.{IsCurrentWith, MayOpen, uses_stored};

use crate::candidate::decide;
use crate::hole::open_first_hole;
use crate::plan::{bypass, fetch, open_past, revalidate, wait_for_turn, wait_for_use};
use crate::show::bind;
use hc_event::{Acts, Cause, Need, Place};
use hc_on_leave::leave::fail;
use hc_on_leave::misread::misread_by;
use hc_record::StoredHead;
use hc_rules::{Plan, PlanView, plan_of};
use hc_state::{Rows, Transaction};
use hc_store::Backend;
use hc_text::NoMemory;

/// The plan of a consumer in line, or that has passed, is carried out. Where it depends on the
/// stored head of what is current, and that can't be read, the consumer fails.
pub(crate) fn carry_out<B: Backend>(
    rows: &mut Rows<B>,
    now: u64,
    c: u64,
    out: &mut Acts,
) -> Result<(), NoMemory>
    requires stands { ∥ StandsBy rows.old now ∥₁ }
    requires early { now < 2 ^ 62 }
    requires idle { IsSomeAnd (get nat_eq rows.old.consumers c) IsIdle }
    requires few { next_of rows.old.exchanges < 2 ^ 62 }
    requires room { 3 ≤ spare out.old }
    ensures answers { OnOk result
        (AnswersPoll rows.old rows.new (act_list out.old) (act_list out.new) now c) }
    ensures kept { KeepsFaults result rows.old rows.new (act_list out.old) (act_list out.new) }
{
    let consumer = rows.consumers.get(&c).unwrap();
    let looked = look_up(rows, now, c, consumer);
    let Some(r) = looked.current else {
        return carry_out_plan(rows, now, c, plan_of(&looked.view), None, out);
    };
    match rows.entries.head(r) {
        Ok(head) => {
            let plan = decide(rows, now, c, looked.view.turn, r, &head);
            carry_out_plan(rows, now, c, plan, Some(Stored { r, head }), out)
        }
        Err(error) => misread_by(rows, now, c, r, error, out),
    }
}

/// What the plan of a consumer looks at before any stored head is read.
#[derive(Clone, Copy)]
struct LookUp {
    /// All but what is current.
    view: PlanView,
    /// What is current for its key, where its plan depends on that.
    current: Option<u64>,
}

/// The key of a consumer is looked up, once.
fn look_up<B: Backend>(rows: &Rows<B>, now: u64, c: u64, consumer: &Transaction) -> LookUp
    ensures view { PlanViewIs rows.now now c result.view consumer.now }
    ensures current { IsLookedAt rows.now.keys result.view result.current consumer.now }
{
    let (passed, kept) = match consumer.place {
        Place::Passed { kept, .. } => (true, kept),
        _ => (false, None),
    };
    let (turn, current) = rows.keys.seen(&consumer.request.key, c);
    let view = PlanView {
        moment: now,
        since: consumer.since,
        c,
        class: consumer.class,
        passed,
        kept,
        turn,
        current: None,
    };
    let current = if looks_at_stored(&view) {
        current
    } else {
        None
    };
    LookUp { view, current }
}

/// What is current for the key of a consumer, with its stored head.
#[derive(Drop)]
struct Stored {
    r: u64,
    head: StoredHead,
}

/// A plan is carried out. Where it depends on what is current, that is passed.
fn carry_out_plan<B: Backend>(
    rows: &mut Rows<B>,
    now: u64,
    c: u64,
    plan: Plan,
    stored: Option<Stored>,
    out: &mut Acts,
) -> Result<(), NoMemory>
    requires opens { MayOpen rows.old }
    requires idle { IsSomeAnd (get nat_eq rows.old.consumers c) IsIdle }
    requires plan { IsPlanOf rows.old now c plan }
    requires used { uses_stored plan ≡ true → is_some stored ≡ true }
    requires current { IfSome stored (λ s. IsCurrentWith rows.old c s.r (plain s.head)) }
    requires room { 3 ≤ spare out.old }
    ensures answers { OnOk result
        (AnswersPoll rows.old rows.new (act_list out.old) (act_list out.new) now c) }
    ensures kept { KeepsFaults result rows.old rows.new (act_list out.old) (act_list out.new) }
{
    match plan {
        Plan::Direct(need) => open_past(rows, now, c, need, out),
        Plan::Turn(d) => {
            wait_for_turn(rows, c, d, out);
            Ok(())
        }
        Plan::Fetch(need) => match need {
            Need::Validate => revalidate(rows, now, c, &stored.unwrap().head, out),
            Need::Bypass => bypass(rows, now, c, out),
            _ => fetch(rows, now, c, need, out),
        },
        Plan::Bind { why, span } => {
            let stored = stored.unwrap();
            bind(rows, c, stored.r, stored.head, why, span, out)
        }
        Plan::FirstHole { span, hole } => {
            let stored = stored.unwrap();
            open_first_hole(rows, now, c, stored.r, &stored.head, span, hole, out)
        }
        Plan::Busy { d, .. } => {
            wait_for_use(rows, c, stored.unwrap().r, d, out);
            Ok(())
        }
        Plan::Miss => {
            fail(rows, now, c, Cause::Miss, out);
            Ok(())
        }
    }
}

/// Whether the plan depends on what is current: not where the consumer goes past the store, bypasses
/// what is stored, or waits in line for the turn of another.
fn looks_at_stored(view: &PlanView) -> bool
    ensures { result ≡ looks_at_stored view.now }
{
    let queues = !view.passed && view.turn != view.c && !view.class.only;
    !view.class.disabled && !view.class.bypassing && !queues
}
