//! What a request is to the cache.
ghost use Rattle.std.specs.Prelude.{◌≡◌, IfSome, is_none};
ghost use Rattle.hc_range.specs.Spans.{IsInOrder};
ghost use Rattle.hc_cachectl.specs.Directives.{of_request};
ghost use Rattle.hc_rules.specs.Requests.{class_of, is_disabled, is_only, is_bypassing, wanted_of, has_condition, ranges_read, ranges_in};

use crate::range_text::asked_in;
use hc_cachectl::{Directives, read_request};
use hc_event::{Load, Request};
use hc_fields::{Fields, has_field};
use hc_range::{RangeSpec, Span, resolve};

/// What a request asks of the cache, told once when it comes.
#[derive(Clone, Copy, Debug, PartialEq, Eq)]
pub struct RequestClass {
    /// It goes past the cache.
    pub disabled: bool,
    /// It is for what is stored alone.
    pub only: bool,
    /// It goes past what is stored, which is then forgotten.
    pub bypassing: bool,
    /// The range that it asks for. A disabled request has none here.
    pub range: Option<RangeSpec>,
}

/// The interval of a body that is wanted.
#[derive(Clone, Copy, Debug, PartialEq, Eq)]
pub enum Wanted {
    /// It isn't known yet, since the length of the body isn't.
    TotalUnknown,
    /// The range can't be satisfied (RFC 9110 section 15.5.17).
    Unsatisfiable,
    /// These positions.
    Interval(Span),
}

/// What the request asks of the cache (RFC 9111 sections 5.2.1 and 5.4, RFC 9110 sections 13.1
/// and 14.2). Its directives and its ranges are read once.
#[tactic(auto, unfolding(crate::specs::Requests::class_of, crate::specs::Requests::range_of))]
pub fn class_of(request: &Request) -> RequestClass
    ensures class { result ≡ class_of request.now }
    ensures ordered { IfSome result.range IsInOrder }
{
    let said = read_request(&request.fields);
    let ranges = read_ranges(&request.fields);
    let disabled = is_disabled(request, &said, ranges.is_none());
    RequestClass {
        disabled,
        only: is_only(request, &said),
        bypassing: is_bypassing(request, &said),
        range: if disabled { None } else { ranges.flatten() },
    }
}

/// Whether it goes past the cache: its method isn't GET, its load is Disable, it has a condition of
/// its own or `no-store`, or a Range that stands twice or isn't one that is read.
#[tactic(auto, unfolding(crate::specs::Requests::is_disabled))]
fn is_disabled(request: &Request, said: &Directives, has_unreadable_range: bool) -> bool
    requires directives { said.now ≡ of_request request.now.fields }
    requires range { has_unreadable_range ≡ is_none (ranges_read (ranges_in request.now.fields)) }
    ensures { result ≡ is_disabled request.now }
{
    request.method.bytes.as_slice() != b"GET".as_slice()
        || request.load == Load::Disable
        || has_condition(&request.fields)
        || said.no_store
        || has_unreadable_range
}

/// Whether it is for what is stored alone.
#[tactic(auto, unfolding(crate::specs::Requests::is_only))]
fn is_only(request: &Request, said: &Directives) -> bool
    requires { said.now ≡ of_request request.now.fields }
    ensures { result ≡ is_only request.now }
{
    request.load == Load::Only || said.only_if_cached
}

/// Whether it goes past what is stored, which is then forgotten.
#[tactic(auto, unfolding(crate::specs::Requests::is_bypassing))]
fn is_bypassing(request: &Request, said: &Directives) -> bool
    requires { said.now ≡ of_request request.now.fields }
    ensures { result ≡ is_bypassing request.now }
{
    request.load == Load::Bypass || said.no_cache
}

/// The range that the fields ask for, if any. None where Range stands twice or isn't one that is read.
fn read_ranges(fields: &Fields) -> Option<Option<RangeSpec>>
    ensures value { result ≡ ranges_read (ranges_in fields.now) }
    ensures ordered { IfSome result (λ range. IfSome range IsInOrder) }
{
    match fields.count(b"range") {
        0 => Some(None),
        1 => Some(Some(asked_in(fields.get(b"range")?)?)),
        _ => None,
    }
}

/// Whether there is a condition of the caller's own.
fn has_condition(fields: &Fields) -> bool
    ensures { result ≡ has_condition fields.now }
{
    has_field(fields, b"if-match")
        || has_field(fields, b"if-unmodified-since")
        || has_field(fields, b"if-range")
        || has_field(fields, b"if-none-match")
        || has_field(fields, b"if-modified-since")
}

/// The interval that is wanted of a body of so many bytes, if that is known: the range, or all.
pub fn wanted_of(range: Option<RangeSpec>, total: Option<u64>) -> Wanted
    requires { IfSome range IsInOrder }
    ensures { result ≡ wanted_of range total }
{
    let Some(total) = total else {
        return Wanted::TotalUnknown;
    };
    let Some(asked) = range else {
        return Wanted::Interval(Span { lo: 0, hi: total });
    };
    match resolve(asked, total) {
        None => Wanted::Unsatisfiable,
        Some(span) => Wanted::Interval(span),
    }
}
