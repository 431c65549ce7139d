//! The case of a head that comes.
ghost use Rattle.std.specs.Prelude.{◌≡◌, IfSome};
ghost use Rattle.hc_range.specs.Spans.{IsInOrder};
ghost use Rattle.hc_rules.specs.HeadCases.{head_case, direct_case, turn_case, first_case, later_case, is_conditional, is_storable, fits_to_found, fits_part};

use crate::need::{Route, route_of};
use crate::range_text::content_range_of;
use crate::status::{brings_part, brings_whole};
use crate::tag_text::strong_of;
use hc_cachectl::{read_request, read_response};
use hc_event::{Need, Request, Response};
use hc_range::{ContentRange, RangeSpec, resolve};

/// What a head is to the exchange that it answers, and to what is stored.
#[derive(Clone, Copy, Debug, PartialEq, Eq)]
pub enum HeadCase {
    /// Past the store: the head is bad.
    DirectBad,
    /// Past the store: its consumer is shown it.
    DirectTaken,
    /// In the turn: the head is bad.
    TurnBad,
    /// A 304 that selects the current representation, which it updates (RFC 9111 section 4.3.4).
    Validated,
    /// A 304 that doesn't.
    NotValidated,
    /// A server error: the exchange goes on past the store (RFC 9111 section 4.3.3).
    TurnServerError,
    /// A whole that founds a representation.
    FoundsWhole,
    /// A part that founds a representation (RFC 9111 section 3.3).
    FoundsRange,
    /// Anything else: the exchange goes on past the store.
    PassesBy,
    /// For a hole, before a head was shown: the head is bad.
    FirstBad,
    /// A part that brings bytes of the hole (RFC 9111 section 3.4).
    FirstJoins,
    /// A server error: the exchange goes on past the store.
    FirstServerError,
    /// Another representation is there now, or none.
    FirstChanged,
    /// A whole that founds a representation in place of that with the hole.
    FirstReplaced,
    /// Anything else: the exchange goes on past the store.
    FirstPassesBy,
    /// For a hole, after a head was shown: the head is bad.
    LaterBad,
    /// A part that brings bytes of the hole.
    LaterJoins,
    /// Anything else: what was shown can't be completed.
    LaterChanged,
}

/// What the case of a head depends on.
#[derive(Clone, Copy)]
pub struct HeadView {
    /// Why the exchange was opened.
    pub need: Need,
    /// Its consumer was shown a head.
    pub shown: bool,
    /// The status of the head, from 200 to 599.
    pub status: u16,
    /// The head is bad.
    pub bad: bool,
    /// The exchange asks whether a stored head still holds.
    pub conditional: bool,
    /// As a 304 the head selects what it was asked about, which is current.
    pub selects: bool,
    /// The head may be stored.
    pub storable: bool,
    /// As a part it is fit to found a representation for the consumer's range.
    pub fits: bool,
    /// It brings bytes of the hole from the same representation.
    pub joins: bool,
    /// What the head writes is lost.
    pub lost: bool,
}

/// The case of a head: the first row that applies.
#[tactic(auto, unfolding(crate::specs::HeadCases::head_case))]
pub fn head_case(view: &HeadView) -> HeadCase
    ensures { result ≡ head_case view.now }
{
    match route_of(view.need) {
        Route::Direct => direct_case(view),
        Route::Turn => turn_case(view),
        Route::Hole if view.shown => later_case(view),
        Route::Hole => first_case(view),
    }
}

/// Of an exchange past the store.
fn direct_case(view: &HeadView) -> HeadCase
    ensures { result ≡ direct_case view.now }
{
    if view.bad {
        HeadCase::DirectBad
    } else {
        HeadCase::DirectTaken
    }
}

/// Of an exchange that has the turn.
fn turn_case(view: &HeadView) -> HeadCase
    ensures { result ≡ turn_case view.now }
{
    match view.status {
        _ if view.bad => HeadCase::TurnBad,
        304 if view.conditional && view.selects && !view.lost => HeadCase::Validated,
        304 if view.conditional => HeadCase::NotValidated,
        500.. => HeadCase::TurnServerError,
        n if brings_whole(n) && view.storable && !view.lost => HeadCase::FoundsWhole,
        n if brings_part(n) && view.storable && view.fits && !view.lost => HeadCase::FoundsRange,
        _ => HeadCase::PassesBy,
    }
}

/// Of an exchange for a hole whose consumer was shown no head.
fn first_case(view: &HeadView) -> HeadCase
    ensures { result ≡ first_case view.now }
{
    match view.status {
        _ if view.bad => HeadCase::FirstBad,
        _ if view.joins => HeadCase::FirstJoins,
        500.. => HeadCase::FirstServerError,
        n if brings_part(n) || n == 304 || n == 416 => HeadCase::FirstChanged,
        n if brings_whole(n) && view.storable && !view.lost => HeadCase::FirstReplaced,
        _ => HeadCase::FirstPassesBy,
    }
}

/// Of an exchange for a hole whose consumer was shown a head.
fn later_case(view: &HeadView) -> HeadCase
    ensures { result ≡ later_case view.now }
{
    if view.bad {
        HeadCase::LaterBad
    } else if view.joins {
        HeadCase::LaterJoins
    } else {
        HeadCase::LaterChanged
    }
}

/// Whether an exchange with this need and request asks whether a stored head still holds: it
/// validates, and has If-None-Match or If-Modified-Since (RFC 9111 section 4.3.1).
pub fn is_conditional(need: Need, request: &Request) -> bool
    ensures { result ≡ is_conditional need request.now }
{
    need == Need::Validate
        && (request.fields.count(b"if-none-match") > 0
            || request.fields.count(b"if-modified-since") > 0)
}

/// Whether the answer to the request may be stored: a whole or a part to a GET, neither of them
/// with `no-store` (RFC 9111 section 3).
#[tactic(auto, unfolding(crate::specs::HeadCases::is_storable))]
pub fn is_storable(request: &Request, response: &Response) -> bool
    ensures { result ≡ is_storable request.now response.now }
{
    request.method.bytes.as_slice() == b"GET".as_slice()
        && (brings_whole(response.status) || brings_part(response.status))
        && !read_request(&request.fields).no_store
        && !read_response(&response.fields).no_store
}

/// Whether a part that may be stored is fit to found a representation for a consumer with this range:
/// it has one strong tag, its total is given, and it begins where the range does and isn't longer.
/// Without a range it isn't.
pub fn fits_to_found(range: Option<RangeSpec>, response: &Response) -> bool
    requires { IfSome range IsInOrder }
    ensures { result ≡ fits_to_found range response.now }
{
    let Some(asked) = range else {
        return false;
    };
    strong_of(&response.fields).is_some() && fits_part(asked, content_range_of(&response.fields))
}

/// Whether the part begins where the range does and isn't longer, and its total is given.
fn fits_part(asked: RangeSpec, reported: Option<ContentRange>) -> bool
    requires { IsInOrder asked }
    ensures { result ≡ fits_part asked reported }
{
    let Some(
        ContentRange::Part {
            first,
            last,
            total: Some(total),
        },
    ) = reported
    else {
        return false;
    };
    match resolve(asked, total) {
        None => false,
        Some(span) => first == span.lo && last < span.hi,
    }
}
