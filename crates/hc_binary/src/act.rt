//! Acts in numbers.
ghost use Rattle.std.specs.Prelude.{◌≡◌, min, length, ◌+◌, ◌-◌, ◌*◌, ◌^◌};
ghost use Rattle.hc_fields.specs.FieldList.{size_of};
ghost use Rattle.hc_fields.specs.Lines.{fields_text};
ghost use Rattle.hc_binary.specs.Numbers.{bytes_of, numbers_of, lines_length, opened_numbers, shown_numbers, sum_of};

use crate::detail::{
    cause_detail, lost_detail, need_detail, refusal_detail, wait_detail, why_detail,
};
use hc_event::{Act, Cause, Need, Refusal, Request, Wait, Why};
use hc_fields::Fields;

/// An act in numbers. What it doesn't have is 0.
#[repr(C)]
#[derive(Clone, Copy, Debug, PartialEq, Eq)]
pub struct ActNumbers {
    /// Which act it is, from 1, in the order of `Act`.
    pub kind: u32,
    /// Why it is done, from 1.
    pub detail: u32,
    pub consumer: u64,
    pub exchange: u64,
    pub representation: u64,
    /// Of the first byte given, or of the first to be given.
    pub position: u64,
    /// Behind the last byte to be given, where that is known.
    pub end: u64,
    /// What goes with the reason.
    pub first: u64,
    pub second: u64,
    /// How many bytes it has.
    pub length: u64,
    pub method_length: u64,
    pub target_length: u64,
    pub status: u32,
    /// 1 where the end is known.
    pub has_end: u32,
}

/// Of no act.
const NOTHING: ActNumbers = ActNumbers {
    kind: 0,
    detail: 0,
    consumer: 0,
    exchange: 0,
    representation: 0,
    position: 0,
    end: 0,
    first: 0,
    second: 0,
    length: 0,
    method_length: 0,
    target_length: 0,
    status: 0,
    has_end: 0,
};

/// How many bytes the lines of fields have.
fn lines_length(fields: &Fields) -> u64
    ensures value { result ≡ lines_length fields.now }
    ensures text { result ≡ length (fields_text fields.now) }
{
    (fields.size() + 3 * fields.len()) as u64
}

fn opened_numbers(x: u64, c: u64, need: Need, request: &Request) -> ActNumbers
    ensures value { result ≡ opened_numbers x c need request.now }
    ensures length { result.length
        ≡ min (length (bytes_of (Act.Opened x c need request.now))) (2 ^ 64 - 1) }
{
    let detail = need_detail(need);
    let method_length = request.method.bytes.len() as u64;
    let target_length = request.key.bytes.len() as u64;
    let lines = lines_length(&request.fields);
    ActNumbers {
        kind: 1,
        detail: detail.code,
        consumer: c,
        exchange: x,
        first: detail.first,
        second: detail.second,
        length: method_length
            .saturating_add(target_length)
            .saturating_add(lines),
        method_length,
        target_length,
        ..NOTHING
    }
}

fn shown_numbers(
    c: u64,
    r: u64,
    why: Why,
    status: u16,
    fields: &Fields,
    lo: u64,
    hi: Option<u64>,
) -> ActNumbers
    ensures value { result ≡ shown_numbers c r why status fields.now lo hi }
    ensures length { result.length
        ≡ min (length (bytes_of (Act.Shown c r why status fields.now lo hi))) (2 ^ 64 - 1) }
{
    let detail = why_detail(why);
    ActNumbers {
        kind: 4,
        detail: detail.code,
        consumer: c,
        exchange: detail.exchange,
        representation: r,
        position: lo,
        end: hi.unwrap_or(0),
        first: detail.first,
        second: detail.second,
        length: lines_length(fields),
        status: u32::from(status),
        has_end: u32::from(hi.is_some()),
        ..NOTHING
    }
}

fn failed_numbers(c: u64, cause: Cause) -> ActNumbers
    ensures { result ≡ numbers_of (Act.Failed c cause) }
{
    let detail = cause_detail(cause);
    ActNumbers {
        kind: 7,
        detail: detail.code,
        consumer: c,
        exchange: detail.exchange,
        representation: detail.representation,
        first: detail.first,
        second: detail.second,
        ..NOTHING
    }
}

fn pending_numbers(c: u64, wait: Wait) -> ActNumbers
    ensures { result ≡ numbers_of (Act.Pending c wait) }
{
    let detail = wait_detail(wait);
    ActNumbers {
        kind: 8,
        detail: detail.code,
        consumer: c,
        exchange: detail.exchange,
        first: detail.first,
        ..NOTHING
    }
}

fn denied_numbers(refusal: Refusal) -> ActNumbers
    ensures { result ≡ numbers_of (Act.Denied refusal) }
{
    let detail = refusal_detail(refusal);
    ActNumbers {
        kind: 11,
        detail: detail.code,
        first: detail.first,
        ..NOTHING
    }
}

/// An act in numbers. Its length is that of its bytes, or the largest number of 64 bits.
pub fn numbers_of(act: &Act) -> ActNumbers
    ensures value { result ≡ numbers_of act.now }
    ensures length { result.length ≡ min (length (bytes_of act.now)) (2 ^ 64 - 1) }
{
    match act {
        Act::Opened {
            x,
            c,
            need,
            request,
        } => opened_numbers(*x, *c, *need, request),
        Act::Ask { x } => ActNumbers {
            kind: 2,
            exchange: *x,
            ..NOTHING
        },
        Act::Close { x } => ActNumbers {
            kind: 3,
            exchange: *x,
            ..NOTHING
        },
        Act::Shown {
            c,
            r,
            why,
            status,
            fields,
            lo,
            hi,
        } => shown_numbers(*c, *r, *why, *status, fields, *lo, *hi),
        Act::Given { c, x, at, bytes } => ActNumbers {
            kind: 5,
            consumer: *c,
            exchange: *x,
            position: *at,
            length: bytes.len() as u64,
            ..NOTHING
        },
        Act::Ended { c } => ActNumbers {
            kind: 6,
            consumer: *c,
            ..NOTHING
        },
        Act::Failed { c, cause } => failed_numbers(*c, *cause),
        Act::Pending { c, wait } => pending_numbers(*c, *wait),
        Act::Lost { r, kind } => ActNumbers {
            kind: 9,
            detail: lost_detail(*kind).code,
            representation: *r,
            ..NOTHING
        },
        Act::Evicted { r } => ActNumbers {
            kind: 10,
            representation: *r,
            ..NOTHING
        },
        Act::Denied { refusal } => denied_numbers(*refusal),
    }
}
