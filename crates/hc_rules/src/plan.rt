//! What is to be done for a consumer that reads nothing yet.
ghost use Rattle.std.specs.Prelude.{◌≡◌};
ghost use Rattle.hc_rules.specs.Plans.{plan_of, bare_plan, is_back, queues, plan_on, alone_on, busy};

use crate::request::{RequestClass, Wanted};
use hc_event::{Need, Why};
use hc_range::Span;

/// Whoever waited for so many seconds goes past the store.
const LONGEST_WAIT: u64 = 20;

/// What is to be done for a consumer that reads nothing yet.
#[derive(Clone, Copy, Debug, PartialEq, Eq)]
pub enum Plan {
    /// It opens an exchange past the store.
    Direct(Need),
    /// It waits for the turn of this consumer.
    Turn(u64),
    /// It opens an exchange with the turn of its key.
    Fetch(Need),
    /// It reads the current representation: this span of it, or all that its writer group brings.
    Bind { why: Why, span: Option<Span> },
    /// It reads this span of the current representation, and opens an exchange for its first hole.
    FirstHole { span: Span, hole: Span },
    /// It waits for the consumer `d`, which uses the current representation, and keeps the exchange
    /// by whose 304 it may read, if it has one.
    Busy { d: u64, kept: Option<u64> },
    /// It fails, since it is for what is stored alone.
    Miss,
}

/// The current representation of the key, as a plan sees it for one consumer.
#[derive(Clone, Copy)]
pub struct Candidate {
    /// Why its stored head may be shown without validation, if it may (RFC 9111 section 4).
    pub allowed: Option<Why>,
    /// Its Vary matches the request (RFC 9111 section 4.1).
    pub vary: bool,
    /// The interval that the request wants of it.
    pub span: Wanted,
    /// The first hole of that interval in what is stored, if it has one.
    pub hole: Option<Span>,
    /// Its writer group is on.
    pub writer_group: bool,
    /// Its exclusive writer, if it has one.
    pub exclusive: Option<u64>,
    /// The least of the consumers that are bound to it, if there is one. While the writer group is
    /// on, these are its members.
    pub least_bound: Option<u64>,
}

/// What a plan looks at. Moments are whole seconds since 1970.
#[derive(Clone, Copy)]
pub struct PlanView {
    /// The moment of the poll.
    pub moment: u64,
    /// When the consumer started, or last started over.
    pub since: u64,
    /// The number of the consumer.
    pub c: u64,
    /// What its request asks of the cache.
    pub class: RequestClass,
    /// It has passed: it waits for the current representation.
    pub passed: bool,
    /// The exchange by whose 304 it may read, if it has one.
    pub kept: Option<u64>,
    /// Whose turn it is, this consumer counted in.
    pub turn: u64,
    /// The current representation, if there is one.
    pub current: Option<Candidate>,
}

/// The first row that applies, with two exceptions: a consumer that is for what is stored alone opens
/// nothing and waits for nobody, and who waited for 20 seconds goes past the store.
#[tactic(auto, unfolding(crate::specs::Plans::plan_of))]
pub fn plan_of(view: &PlanView) -> Plan
    ensures { result ≡ plan_of view.now }
{
    let plan = bare_plan(view);
    if view.class.only {
        return match plan {
            Plan::Bind { .. } => plan,
            _ => Plan::Miss,
        };
    }
    match plan {
        Plan::Turn(_) | Plan::Busy { .. }
            if view.moment.saturating_sub(view.since) >= LONGEST_WAIT => {
            Plan::Direct(Need::TimedOut)
        }
        _ => plan,
    }
}

/// The first row that applies.
fn bare_plan(view: &PlanView) -> Plan
    ensures { result ≡ bare_plan view.now }
{
    if view.class.disabled {
        return Plan::Direct(Need::Disabled);
    }
    if queues(view) {
        return Plan::Turn(view.turn);
    }
    if view.class.bypassing {
        return Plan::Fetch(Need::Bypass);
    }
    let Some(current) = &view.current else {
        return Plan::Fetch(Need::Miss);
    };
    if !current.vary {
        return Plan::Fetch(Need::Vary);
    }
    match view.kept.map(Why::Validated).or(current.allowed) {
        None => Plan::Fetch(Need::Validate),
        Some(why) => plan_on(view, current, why),
    }
}

/// Whether it waits for the turn of another: it hasn't passed, or it is back in line.
fn queues(view: &PlanView) -> bool
    ensures { result ≡ queues view.now }
{
    (!view.passed || is_back(view)) && view.turn != view.c && !view.class.only
}

/// Whether it is back in line: it may not read the current representation any more.
fn is_back(view: &PlanView) -> bool
    ensures { result ≡ is_back view.now }
{
    view.kept.is_none() && view.current.and_then(|current| current.allowed).is_none()
}

/// What is done with a representation that it may read.
fn plan_on(view: &PlanView, current: &Candidate, why: Why) -> Plan
    ensures { result ≡ plan_on view.now current.now why }
{
    if view.class.range.is_none() && current.writer_group {
        return Plan::Bind { why, span: None };
    }
    match current.span {
        Wanted::TotalUnknown => busy(view, current.least_bound),
        Wanted::Unsatisfiable => Plan::Direct(Need::Unsatisfied),
        Wanted::Interval(_) if current.writer_group => busy(view, current.least_bound),
        Wanted::Interval(span) => alone_on(view, current, why, span),
    }
}

/// What is done with an interval of it, while its writer group isn't on.
fn alone_on(view: &PlanView, current: &Candidate, why: Why, span: Span) -> Plan
    ensures { result ≡ alone_on view.now current.now why span }
{
    let kept = view.kept;
    if let Some(d) = current.exclusive {
        return Plan::Busy { d, kept };
    }
    match (current.hole, current.least_bound) {
        (None, _) => Plan::Bind {
            why,
            span: Some(span),
        },
        (Some(_), Some(d)) => Plan::Busy { d, kept },
        (Some(hole), None) => Plan::FirstHole { span, hole },
    }
}

/// It waits for the least consumer that uses the representation. No consumer has the number 0.
fn busy(view: &PlanView, least: Option<u64>) -> Plan
    ensures { result ≡ busy view.now least }
{
    Plan::Busy {
        d: least.unwrap_or(0),
        kept: view.kept,
    }
}
