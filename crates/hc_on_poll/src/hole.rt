//! Exchanges for holes of what is stored.
ghost use Rattle.std.specs.Prelude.{◌≡◌, ◌≤◌, ◌<◌, ◌^◌, nat_eq, true, unwrap_or, IsSomeAnd, IfOk, OnOk};
ghost use Rattle.std.specs.HashMap.{get};
ghost use Rattle.hc_event.specs.Acts.{act_list, spare};
ghost use Rattle.hc_fields.specs.FieldList.{IsWithinLimits};
ghost use Rattle.hc_range.specs.Spans.{IsWithin};
ghost use Rattle.hc_record.specs.Plain.{plain};
ghost use Rattle.hc_stored.specs.Entries.{shelf_of};
ghost use Rattle.hc_stored.specs.Shelf.{head_at};
ghost use Rattle.hc_stored.specs.Views.{admits_first};
ghost use Rattle.hc_exch.specs.Exchanges.{next_of};
ghost use Rattle.hc_model.specs.Moves.{hole_request};
ghost use Rattle.hc_state.specs.Plans.{IsRequestWithinLimits, AnswersFirst, AnswersFilling};
ghost use Rattle.hc_state.specs.Reads.{AnswersHole, IsInLength, IsShownAt};
ghost use Rattle.hc_state.specs.Frames.{AddsNoFault, KeepsFaults};
ghost use Rattle.hc_on_poll.specs.Ready.{IsCurrentWith, MayOpen, MayPass};

use crate::plan::open;
use hc_event::{Acts, Need, Request};
use hc_exch::Role;
use hc_on_leave::misread::misread_by;
use hc_range::{Span, write_range};
use hc_record::StoredHead;
use hc_state::{Rows, bind_first, own};
use hc_store::Backend;
use hc_text::NoMemory;
use hc_validate::set_field;

/// A consumer is bound to what is current as the only one, and opens an exchange for the first
/// hole of what it wants.
pub(crate) fn open_first_hole<B: Backend>(
    rows: &mut Rows<B>,
    now: u64,
    c: u64,
    r: u64,
    head: &StoredHead,
    span: Span,
    hole: Span,
    out: &mut Acts,
) -> Result<(), NoMemory>
    requires passes { IsSomeAnd (get nat_eq rows.old.consumers c) (MayPass rows.old.keys c) }
    requires within_limits { IsSomeAnd (get nat_eq rows.old.consumers c) IsRequestWithinLimits }
    requires current { IsCurrentWith rows.old c r (plain head.now) }
    requires admits { admits_first c ((shelf_of rows.old.entries).kept r) ≡ true }
    requires hole { IsSomeAnd head.now.total (IsWithin hole) }
    requires few { next_of rows.old.exchanges < 2 ^ 62 }
    requires room { 2 ≤ spare out.old }
    ensures answers { OnOk result (IsSomeAnd (get nat_eq rows.old.consumers c)
        (AnswersFirst rows.old rows.new (act_list out.old) (act_list out.new)
        now c (plain head.now) span hole)) }
    ensures kept { AddsNoFault result rows.old rows.new (act_list out.old) (act_list out.new) }
{
    let consumer = rows.consumers.get(&c).unwrap();
    let request = hole_request(head, &consumer.request, hole)?;
    let need = Need::Hole {
        from: hole.lo,
        to: hole.hi,
    };
    let x = rows
        .exchanges
        .launch(c, Role::Hole { r }, need, &request, now)?;
    rows.entries.bind_first(r, c)?;
    rows.keys.away(&request.key, c);
    bind_first(&mut rows.consumers, c, r, span, x);
    open(x, c, need, request, out);
    Ok(())
}

/// A consumer that reads on opens an exchange for the hole that it stands before.
pub(crate) fn open_later_hole<B: Backend>(
    rows: &mut Rows<B>,
    now: u64,
    c: u64,
    r: u64,
    hole: Span,
    out: &mut Acts,
) -> Result<(), NoMemory>
    requires opens { MayOpen rows.old }
    requires shown { IsSomeAnd (get nat_eq rows.old.consumers c) (IsShownAt r) }
    requires hole { IsSomeAnd (head_at (shelf_of rows.old.entries) r) (IsInLength hole) }
    requires room { 2 ≤ spare out.old }
    ensures answers { OnOk result (IsSomeAnd (get nat_eq rows.old.consumers c)
        (AnswersHole rows.old rows.new (act_list out.old) (act_list out.new) now c r hole)) }
    ensures kept { KeepsFaults result rows.old rows.new (act_list out.old) (act_list out.new) }
{
    match rows.entries.head(r) {
        Ok(head) => fill_later_hole(rows, now, c, r, &head, hole, out),
        Err(error) => misread_by(rows, now, c, r, error, out),
    }
}

/// A consumer that reads on opens an exchange for a hole of what has this stored head.
fn fill_later_hole<B: Backend>(
    rows: &mut Rows<B>,
    now: u64,
    c: u64,
    r: u64,
    head: &StoredHead,
    hole: Span,
    out: &mut Acts,
) -> Result<(), NoMemory>
    requires shown { IsSomeAnd (get nat_eq rows.old.consumers c) (IsShownAt r) }
    requires within_limits { IsSomeAnd (get nat_eq rows.old.consumers c) IsRequestWithinLimits }
    requires within { IsSomeAnd head.now.total (IsWithin hole) }
    requires few { next_of rows.old.exchanges < 2 ^ 62 }
    requires room { 2 ≤ spare out.old }
    ensures answers { OnOk result (IsSomeAnd (get nat_eq rows.old.consumers c)
        (AnswersFilling rows.old rows.new (act_list out.old) (act_list out.new)
        now c (plain head.now) hole)) }
    ensures kept { AddsNoFault result rows.old rows.new (act_list out.old) (act_list out.new) }
{
    let consumer = rows.consumers.get(&c).unwrap();
    let request = hole_request(head, &consumer.request, hole)?;
    let need = Need::Hole {
        from: hole.lo,
        to: hole.hi,
    };
    let x = rows
        .exchanges
        .launch(c, Role::Hole { r }, need, &request, now)?;
    own(&mut rows.consumers, c, x);
    open(x, c, need, request, out);
    Ok(())
}

/// The request for a hole, as long as the tag is that of what is stored (RFC 9110 sections 13.1.5
/// and 14.2).
fn hole_request(head: &StoredHead, asked: &Request, hole: Span) -> Result<Request, NoMemory>
    requires within_limits { IsWithinLimits asked.now.fields }
    requires within { IsSomeAnd head.now.total (IsWithin hole) }
    ensures { IfOk result (λ made. made
        ≡ hole_request (plain head.now) asked.now hole (unwrap_or head.now.total 0)) }
{
    let mut request = asked.copy()?;
    let mut range = Vec::new(request.fields.allocator());
    write_range(hole, head.total.unwrap_or(0), &mut range)?;
    set_field(&mut request.fields, b"range", range.as_slice())?;
    let tag = head.fields.get(b"etag").unwrap_or(b"".as_slice());
    set_field(&mut request.fields, b"if-range", tag)?;
    Ok(request)
}
