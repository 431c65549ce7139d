//! Calls of `hc_rules` on views.
use crate::given::{is_yes, range_at};
use crate::words::{bound_at, cause_at, span_at, wanted_at, why_at};
use hc_rules::{
    Bound, Candidate, PlanView, ReadView, RequestClass, admission_of, least_bound, lesser, plan_of,
    read_step,
};
use hc_test_frame::{Fault, Vector, note};

/// Writes the value of the call. `NoSuchCall` where it is none of these.
pub(crate) fn call(v: &Vector, to: &mut String) -> Result<(), Fault> {
    match v.call() {
        "read_step nnnwnnn" | "read_step nnnwwnn" => report_step(v, to),
        "lesser nn" => note(&lesser(v.option(0), v.number(1)), to),
        _ => call_of_any_count(v, to),
    }
}

/// Writes the value of a call with more arguments or fewer. `NoSuchCall` where it is none of these.
fn call_of_any_count(v: &Vector, to: &mut String) -> Result<(), Fault> {
    match v.name() {
        "plan_of" => report_plan(v, to),
        "admission_of" => report_admission(v, to),
        "least_bound" => report_least(v, to),
        _ => Err(Fault::NoSuchCall),
    }
}

fn report_plan(v: &Vector, to: &mut String) -> Result<(), Fault> {
    let is_plan = v.call().starts_with("plan_of nnnwtwnn");
    let current = match v.argument_count() {
        8 if is_plan => None,
        15 if is_plan => Some(candidate_of(v)?),
        _ => return Err(Fault::NoSuchCall),
    };
    note(&plan_of(&plan_view_of(v, current)?), to)
}

/// The moment, since when, the consumer, its class, its range, whether it passed, what it kept and
/// whose turn it is.
fn plan_view_of(v: &Vector, current: Option<Candidate>) -> Result<PlanView, Fault> {
    let (disabled, only, bypassing) = match v.word(3) {
        "plain" => (false, false, false),
        "disabled" => (true, false, false),
        "only" => (false, true, false),
        "bypassing" => (false, false, true),
        _ => return Err(Fault::NoSuchCall),
    };
    let class = RequestClass {
        disabled,
        only,
        bypassing,
        range: range_at(v, 4)?,
    };
    Ok(PlanView {
        moment: v.number(0),
        since: v.number(1),
        c: v.number(2),
        class,
        passed: is_yes(v, 5)?,
        kept: v.option(6),
        turn: v.number(7),
        current,
    })
}

/// What is current: why it may be shown, whether Vary matches, what is wanted of it, its first hole,
/// whether the writer group is on, its exclusive writer and the least that is bound.
fn candidate_of(v: &Vector) -> Result<Candidate, Fault> {
    let allowed = if v.word(8).is_empty() {
        None
    } else {
        Some(why_at(v, 8)?)
    };
    Ok(Candidate {
        allowed,
        vary: is_yes(v, 9)?,
        span: wanted_at(v, 10)?,
        hole: span_at(v, 11)?,
        writer_group: is_yes(v, 12)?,
        exclusive: v.option(13),
        least_bound: v.option(14),
    })
}

/// Writes the step of the reading: the offset, the end, the end of what is stored there, whether bytes
/// are held, what failure is due, which exchange is read, and where the next stored byte is.
fn report_step(v: &Vector, to: &mut String) -> Result<(), Fault> {
    let due = if v.word(4).is_empty() {
        None
    } else {
        Some(cause_at(v, 4)?)
    };
    let view = ReadView {
        offset: v.number(0),
        hi: v.option(1),
        stored: v.option(2),
        held: is_yes(v, 3)?,
        due,
        source: v.option(5),
        next_stored: v.option(6),
    };
    note(&read_step(&view), to)
}

fn report_admission(v: &Vector, to: &mut String) -> Result<(), Fault> {
    let ranged = is_yes(v, 0)?;
    let holes = is_yes(v, 1)?;
    let bound = bound_from(v, 2)?;
    note(&admission_of(&bound, ranged, holes), to)
}

fn report_least(v: &Vector, to: &mut String) -> Result<(), Fault> {
    let bound = bound_from(v, 0)?;
    note(&least_bound(&bound), to)
}

/// Those who are bound, from this place on.
fn bound_from(v: &Vector, from: usize) -> Result<Vec<Bound>, Fault> {
    let mut bound = Vec::new(v.alloc());
    add_bound(v, from, &mut bound)?;
    Ok(bound)
}

fn add_bound(v: &Vector, from: usize, bound: &mut Vec<Bound>) -> Result<(), Fault> {
    for at in from..v.argument_count() {
        bound.push(bound_at(v, at)?)?;
    }
    Ok(())
}
