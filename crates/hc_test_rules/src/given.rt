//! Events, requests, answers, ranges and stored heads as arguments.
ghost use Rattle.std.specs.Prelude.{◌≡◌, ◌+◌, ◌≤◌, ◌^◌, Some, false, length, IfOk, IfSome, OnOk};
ghost use Rattle.std.specs.Option.{ForSome};
ghost use Rattle.hc_fields.specs.FieldList.{IsFieldList, IsWithinLimits};
ghost use Rattle.hc_range.specs.Spans.{IsInOrder};
ghost use Rattle.hc_record.specs.Head.{joining_of, opaque_of};
ghost use Rattle.hc_sched.specs.Feeding.{lines_in};

use hc_etag::Tag;
use hc_event::{Event, Request, Response};
use hc_fields::Fields;
use hc_range::{RangeSpec, read_range};
use hc_record::{Kind, StoredHead, joining_tag};
use hc_sched::{Feed, Timed};
use hc_test_frame::{Fault, Vector, fields_of};
use std::alloc::Global;

/// Heads came at this moment where no other is told.
pub(crate) const CAME: u64 = 1000;

/// The most bytes of a schedule.
pub(crate) const MOST: usize = 1 << 40;

/// The event that the text at this place spells, as an item of a schedule.
pub(crate) fn event_at(v: &Vector, at: usize) -> Result<Event, Fault> {
    let mut events = Vec::new(v.alloc());
    read_events(v.alloc(), v.text(at), &mut events)?;
    last_of(&mut events)
}

/// Adds the events of the schedule that the text is.
fn read_events(alloc: Global, text: &[u8], events: &mut Vec<Timed>) -> Result<(), Fault> {
    if text.len() > MOST {
        return Err(Fault::NoSuchCall);
    }
    feed_all(&mut Feed::new(alloc), text, events)
}

/// Feeds the text, which must be a schedule, and its end.
fn feed_all(feed: &mut Feed, text: &[u8], events: &mut Vec<Timed>) -> Result<(), Fault>
    requires { lines_in feed.old + length text.now ≤ 2 ^ 60 }
{
    let fed = feed.feed(text, events);
    if fed.is_err() || feed.finish().is_err() {
        return Err(Fault::NoSuchCall);
    }
    Ok(())
}

/// Takes out the last event.
fn last_of(events: &mut Vec<Timed>) -> Result<Event, Fault> {
    match events.pop() {
        Some(timed) => Ok(timed.event),
        None => Err(Fault::NoSuchCall),
    }
}

/// The request that the text at this place starts with.
pub(crate) fn request_at(v: &Vector, at: usize) -> Result<Request, Fault> {
    match event_at(v, at)? {
        Event::Start { request, .. } => Ok(request),
        _ => Err(Fault::NoSuchCall),
    }
}

/// The head of an answer that the text at this place is.
pub(crate) fn response_at(v: &Vector, at: usize) -> Result<Response, Fault> {
    match event_at(v, at)? {
        Event::Head { response, .. } => Ok(response),
        _ => Err(Fault::NoSuchCall),
    }
}

/// The fields that the text at this place lists, a line `name: value` each.
pub(crate) fn fields_at(v: &Vector, at: usize) -> Result<Fields, Fault> {
    Ok(fields_of(v.alloc(), v.text(at))?)
}

/// The range that the text at this place asks for, none where it is empty.
pub(crate) fn range_at(v: &Vector, at: usize) -> Result<Option<RangeSpec>, Fault>
    ensures { IfOk result (λ range. IfSome range IsInOrder) }
{
    match read_range(v.text(at)) {
        Some(RangeSpec::FromTo(first, last)) if first > last => Err(Fault::NoSuchCall),
        None if !v.text(at).is_empty() => Err(Fault::NoSuchCall),
        range => Ok(range),
    }
}

/// Whether the word at this place is `yes`, where it is that or `no`.
pub(crate) fn is_yes(v: &Vector, at: usize) -> Result<bool, Fault> {
    match v.word(at) {
        "yes" => Ok(true),
        "no" => Ok(false),
        _ => Err(Fault::NoSuchCall),
    }
}

/// A stored head that was asked for and came at these moments, with the fields at one place, and with those
/// at another, if there is one, of the request that it is for.
#[tactic(auto, unfolding(hc_rules::specs::Statuses::brings_whole))]
pub(crate) fn head_of(
    v: &Vector,
    requested: u64,
    answered: u64,
    at: usize,
    vary_at: Option<usize>,
) -> Result<StoredHead, Fault>
    ensures came { IfOk result (λ head. head.requested ≤ head.answered) }
    ensures length { IfOk result (λ head. head.total ≡ Some 6) }
{
    if requested > answered || answered >= 1 << 62 {
        return Err(Fault::NoSuchCall);
    }
    let vary_fields = vary_fields_at(v, vary_at)?;
    let fields = fields_at(v, at)?;
    let joining = joining_in(v.alloc(), &fields)?;
    Ok(StoredHead {
        kind: Kind::Whole,
        total: Some(6),
        status: 200,
        requested,
        answered,
        joining,
        vary_fields,
        fields,
    })
}

/// The fields that the text at this place lists, at most 80. None where there is no place.
fn vary_fields_at(v: &Vector, at: Option<usize>) -> Result<Fields, Fault>
    ensures { IfOk result IsFieldList }
{
    let fields = listed_at(v, at)?;
    if fields.len() > 80 {
        return Err(Fault::NoSuchCall);
    }
    Ok(fields)
}

fn listed_at(v: &Vector, at: Option<usize>) -> Result<Fields, Fault> {
    match at {
        Some(at) => fields_at(v, at),
        None => Ok(Fields::new(v.alloc())?),
    }
}

/// The tag by which answers join the one with these fields, which must be within limits.
fn joining_in(alloc: Global, fields: &Fields) -> Result<Option<Tag>, Fault>
    ensures value { IfOk result (λ tag. opaque_of tag ≡ joining_of fields.now) }
    ensures strong { IfOk result (λ tag. ForSome tag (λ tag. tag.weak ≡ false)) }
    ensures list { OnOk result (IsFieldList fields.now) }
    ensures within_limits { OnOk result (IsWithinLimits fields.now) }
{
    if !fields.within_limits() {
        return Err(Fault::NoSuchCall);
    }
    Ok(joining_tag(alloc, fields)?)
}

/// A stored head that came at the moment 1000, whose body has six bytes, with the fields at this place.
pub(crate) fn head_at(v: &Vector, at: usize) -> Result<StoredHead, Fault>
    ensures came { IfOk result (λ head. head.requested ≤ head.answered) }
    ensures length { IfOk result (λ head. head.total ≡ Some 6) }
{
    head_of(v, CAME, CAME, at, None)
}
