//! The plan of a transaction that reads nothing yet.
ghost use Rattle.std.specs.Prelude.{◌≡◌, ◌≤◌, ◌<◌, ◌^◌, IfSome};
ghost use Rattle.hc_range.specs.Spans.{IsInOrder};
ghost use Rattle.hc_record.specs.Plain.{plain};
ghost use Rattle.hc_fresh.specs.Facts.{head_facts};
ghost use Rattle.hc_rules.specs.Plans.{plan_of};
ghost use Rattle.hc_txn.specs.Plans.{AreAdmissionsPlanned, candidate_by, current_by, has_holes, hole_in, plan_view_by};

use crate::transaction::Transaction;
use hc_event::Why;
use hc_fresh::{HeadFacts, allowed_to, vary_matches};
use hc_partial::first_hole;
use hc_range::Span;
use hc_record::StoredHead;
use hc_rules::{Admission, Candidate, Plan, PlanView, Wanted, plan_of, wanted_of};
use hc_sparse::Presence;

/// The current representation of the key, as the plan of a transaction sees it, whoever uses it.
#[derive(Clone, Copy)]
pub struct Current {
    /// Why its stored head may be shown without validation, if it may (RFC 9111 section 4).
    pub allowed: Option<Why>,
    /// Its Vary matches the request (RFC 9111 section 4.1).
    pub vary: bool,
    /// The interval that the request wants of it.
    pub wanted: Wanted,
    /// The first hole of that interval in what is stored, if it has one.
    pub hole: Option<Span>,
}

impl Current {
    /// Whether a byte of what is wanted isn't stored, or it isn't known how far that goes.
    pub fn has_holes(&self) -> bool
        ensures { result ≡ has_holes self.now }
    {
        match self.wanted {
            Wanted::TotalUnknown => true,
            Wanted::Unsatisfiable | Wanted::Interval(_) => self.hole.is_some(),
        }
    }

    /// The same in the words of the table, where one more may be bound so. Of those who use it the
    /// table is told whether one may join them, and else for whom one waits.
    fn admitting(&self, admission: Admission) -> Candidate
        ensures { result ≡ candidate_by admission self.now }
    {
        let behind = match admission {
            Admission::Behind(d) => Some(d),
            Admission::Shared | Admission::Reader | Admission::Exclusive => None,
        };
        Candidate {
            allowed: self.allowed,
            vary: self.vary,
            span: self.wanted,
            hole: self.hole,
            writer_group: matches!(admission, Admission::Shared),
            exclusive: behind,
            least_bound: behind,
        }
    }
}

impl Transaction {
    /// What is current for its key, as its plan sees it: the stored head, what that says of its
    /// freshness, and what is stored.
    pub fn current<P: Presence>(
        &self,
        head: &StoredHead,
        facts: &HeadFacts,
        store: &P,
        now: u64,
    ) -> Current
        requires reported { facts.now ≡ head_facts (plain head.now) }
        requires later { facts.now.answered ≤ now }
        requires early { now < 2 ^ 62 }
        requires small { facts.now.initial_age < 2 ^ 63 }
        requires ordered { IfSome self.now.class.range IsInOrder }
        ensures { result ≡ current_by now (P.cells store.now) (plain head.now) self.now }
    {
        let wanted = wanted_of(self.class.range, head.total);
        Current {
            allowed: allowed_to(facts, &self.facts, now),
            vary: vary_matches(head, &self.request),
            wanted,
            hole: hole_of(store, wanted),
        }
    }

    /// What is to be done for it, where its turn is told with this one counted in, and one more may be
    /// bound so to what is current: the first row of the plan that applies.
    pub fn decide(
        &self,
        c: u64,
        turn: u64,
        current: &Current,
        admission: Admission,
        now: u64,
    ) -> Plan
        ensures { result
            ≡ plan_of (plan_view_by now c turn (candidate_by admission current.now) self.now) }
    {
        plan_of(&PlanView {
            moment: now,
            since: self.since,
            c,
            class: self.class,
            passed: self.has_passed(),
            kept: self.kept(),
            turn,
            current: Some(current.admitting(admission)),
        })
    }
}

/// What is planned by how one more may be bound is what is planned by who is bound.
pub fn admissions_are_planned()
    ensures { AreAdmissionsPlanned }
{}

/// The first hole of the interval that is wanted, in what is stored.
fn hole_of<P: Presence>(store: &P, wanted: Wanted) -> Option<Span>
    ensures { result ≡ hole_in (P.cells store.now) wanted }
{
    match wanted {
        Wanted::Interval(span) => first_hole(store, span),
        Wanted::TotalUnknown | Wanted::Unsatisfiable => None,
    }
}
