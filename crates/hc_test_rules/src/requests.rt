//! Calls of `hc_rules` on requests and on the heads of answers.
use crate::given::{event_at, fields_at, is_yes, range_at, request_at, response_at};
use crate::words::need_at;
use hc_etag::{Tag, read_tag};
use hc_range::Span;
use hc_rules::{
    Gate, HeadView, OpenExchange, RequestClass, class_of, content_range_of, fits_to_found,
    head_case, hole_answer, is_conditional, is_storable, length_of, refusal_of, route_of,
    wanted_of,
};
use hc_test_frame::{Fault, Vector, note};

/// Writes the value of the call. `NoSuchCall` where it is none of these.
pub(crate) fn call(v: &Vector, to: &mut String) -> Result<(), Fault> {
    match v.call() {
        "class_of t" => report_class(v, to),
        "wanted_of tn" => report_wanted(v, to),
        "refusal_of nnwt" => report_refusal(v, None, 3, to),
        "refusal_of nnwwwnnt" => report_refusal_of_exchange(v, to),
        "length_of wtt" => report_length(v, to),
        "content_range_of t" => report_content_range(v, to),
        "is_storable tt" => report_storable(v, to),
        "fits_to_found tt" => report_fit(v, to),
        "is_conditional wt" => report_conditional(v, to),
        "hole_answer tnnnt" => report_hole_answer(v, to),
        "route_of w" => report_route(v, to),
        "head_case wwnwwwwwww" => report_head_case(v, to),
        _ => Err(Fault::NoSuchCall),
    }
}

/// Writes what holds of the class of a request, and its range.
fn report_class(v: &Vector, to: &mut String) -> Result<(), Fault> {
    let request = request_at(v, 0)?;
    report_class_as(class_of(&request), to)
}

fn report_class_as(class: RequestClass, to: &mut String) -> Result<(), Fault> {
    if class.disabled {
        to.push_str("disabled ")?;
    }
    if class.only {
        to.push_str("only ")?;
    }
    if class.bypassing {
        to.push_str("bypassing ")?;
    }
    note(&class.range, to)
}

fn report_wanted(v: &Vector, to: &mut String) -> Result<(), Fault> {
    let range = range_at(v, 0)?;
    note(&wanted_of(range, v.option(1)), to)
}

/// Writes the refusal of the event at this place, behind the last start, how many are live, and whether
/// the consumer is.
fn report_refusal(
    v: &Vector,
    exchange: Option<OpenExchange>,
    at: usize,
    to: &mut String,
) -> Result<(), Fault> {
    let gate = Gate {
        last_start: v.number(0),
        live: v.number(1),
        is_live: is_yes(v, 2)?,
        exchange,
    };
    report_refusal_at(&gate, v, at, to)
}

fn report_refusal_at(gate: &Gate, v: &Vector, at: usize, to: &mut String) -> Result<(), Fault> {
    let event = event_at(v, at)?;
    note(&refusal_of(gate, &event), to)
}

/// Writes the refusal of an event of an open exchange: whether it has its head, whether a piece was asked
/// for, how many bytes came and how many were promised.
fn report_refusal_of_exchange(v: &Vector, to: &mut String) -> Result<(), Fault> {
    let exchange = OpenExchange {
        headed: is_yes(v, 3)?,
        asked: is_yes(v, 4)?,
        delivered: v.number(5),
        promised: v.option(6),
    };
    report_refusal(v, Some(exchange), 7, to)
}

fn report_length(v: &Vector, to: &mut String) -> Result<(), Fault> {
    let need = need_at(v, 0)?;
    let request = request_at(v, 1)?;
    let response = response_at(v, 2)?;
    note(&length_of(need, &request, &response), to)
}

fn report_content_range(v: &Vector, to: &mut String) -> Result<(), Fault> {
    let fields = fields_at(v, 0)?;
    note(&content_range_of(&fields), to)
}

fn report_storable(v: &Vector, to: &mut String) -> Result<(), Fault> {
    let request = request_at(v, 0)?;
    let response = response_at(v, 1)?;
    note(&is_storable(&request, &response), to)
}

fn report_fit(v: &Vector, to: &mut String) -> Result<(), Fault> {
    let range = range_at(v, 0)?;
    let response = response_at(v, 1)?;
    note(&fits_to_found(range, &response), to)
}

fn report_conditional(v: &Vector, to: &mut String) -> Result<(), Fault> {
    let need = need_at(v, 0)?;
    let request = request_at(v, 1)?;
    note(&is_conditional(need, &request), to)
}

/// Writes what an answer is to a hole of a representation with this tag and length.
fn report_hole_answer(v: &Vector, to: &mut String) -> Result<(), Fault> {
    match read_tag(v.alloc(), v.text(0))? {
        Some(tag) => report_hole_answer_with(&tag, v, to),
        None => Err(Fault::NoSuchCall),
    }
}

fn report_hole_answer_with(tag: &Tag, v: &Vector, to: &mut String) -> Result<(), Fault> {
    let hole = Span {
        lo: v.number(2),
        hi: v.number(3),
    };
    let answer = response_at(v, 4)?;
    note(&hole_answer(tag, v.number(1), hole, &answer), to)
}

fn report_route(v: &Vector, to: &mut String) -> Result<(), Fault> {
    note(&route_of(need_at(v, 0)?), to)
}

fn report_head_case(v: &Vector, to: &mut String) -> Result<(), Fault> {
    let view = head_view_of(v)?;
    note(&head_case(&view), to)
}

/// The need, whether a head was shown, the status, and seven answers about the head.
fn head_view_of(v: &Vector) -> Result<HeadView, Fault> {
    let status = v.number(2);
    if status > 999 {
        return Err(Fault::NoSuchCall);
    }
    let [bad, conditional, selects, storable, fits, joins, lost] = answers_at(v, 3)?;
    Ok(HeadView {
        need: need_at(v, 0)?,
        shown: is_yes(v, 1)?,
        status: status as u16,
        bad,
        conditional,
        selects,
        storable,
        fits,
        joins,
        lost,
    })
}

/// Seven answers, from this place on.
fn answers_at(v: &Vector, from: usize) -> Result<[bool; 7], Fault> {
    let mut answers = [false; 7];
    let mut at = from;
    for answer in &mut answers {
        *answer = is_yes(v, at)?;
        at = at.saturating_add(1);
    }
    Ok(answers)
}
