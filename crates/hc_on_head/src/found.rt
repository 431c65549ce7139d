//! Heads that found a representation.
ghost use Rattle.std.specs.Prelude.{◌≡◌, ◌+◌, ◌≤◌, Some, None, Err, true, false, nat_eq, is_some, IfOk, IsSomeAnd, OnOk, OnErr};
ghost use Rattle.std.specs.HashMap.{get};
ghost use Rattle.hc_event.specs.Acts.{act_list, spare};
ghost use Rattle.hc_record.specs.Plain.{plain};
ghost use Rattle.hc_rules.specs.Lengths.{is_bad};
ghost use Rattle.hc_rules.specs.Refusals.{head_refusal};
ghost use Rattle.hc_store.specs.Causes.{HasCause, IsWithin};
ghost use Rattle.hc_store.specs.declared.error.StoreError.TheVariants as errors;
ghost use Rattle.hc_stored.specs.Entries.{shelf_of};
ghost use Rattle.hc_exch.specs.Exchanges.{table_of};
ghost use Rattle.hc_exch.specs.Known.{is_open, length_by};
ghost use Rattle.hc_exch.specs.declared.row.Open.{Open};
ghost use Rattle.hc_model.specs.Heads.{total_of_part};
ghost use Rattle.hc_state.specs.Founding.{MayFound, IsFounding, BeginsFounding, head_by, is_shared_by, part_by};
ghost use Rattle.hc_state.specs.Heads.{IsTimely};
ghost use Rattle.hc_state.specs.Renewals.{IsUnrenewed};
ghost use Rattle.hc_state.specs.Stands.{AnswersCase, Stands, open_at};
ghost use Rattle.hc_on_head.specs.Comings.{FoundsBy, MayCome};
ghost use Rattle.hc_state.specs.Frames.{KeepsFaults};

use crate::arrival::Arrival;
use crate::asker::fall_back;
use crate::unstored::have_answer;
use hc_event::{Act, Acts, Place, Response};
use hc_exch::Role;
use hc_on_leave::acts::put;
use hc_on_leave::evict::{let_some_go, make_room};
use hc_on_leave::lose::lost_kind;
use hc_range::ContentRange;
use hc_record::{Kind, StoredHead};
use hc_rules::{HeadCase, Wanted, Write, brings_part, content_range_of, length_of, wanted_of};
use hc_state::{Founding, Rows, founded_head, read_founded};
use hc_store::{Backend, StoreError};
use hc_text::NoMemory;

/// An answer founds a representation. With it this isn't used any more, nor is what was
/// current. Where the store refuses it, the answer goes on past the store.
pub(crate) fn found<B: Backend>(
    rows: &mut Rows<B>,
    case: HeadCase,
    heard: Arrival,
    response: &Response,
    goes: Option<u64>,
    out: &mut Acts,
) -> Result<(), NoMemory>
    requires comes { MayCome rows.old heard }
    requires timely { IsTimely heard.now (table_of rows.old.exchanges heard.x).running }
    requires good { is_bad (length_by (table_of rows.old.exchanges heard.x).running
        response.now) ≡ false }
    requires founds { FoundsBy case response.now }
    requires room { 2 ≤ spare out.old }
    ensures answers { OnOk result (AnswersCase rows.old rows.new (act_list out.old)
        (act_list out.new) heard.now heard.x response.now case goes) }
    ensures kept { KeepsFaults result rows.old rows.new (act_list out.old) (act_list out.new) }
{
    let founding = founding(rows, case, heard, response)?;
    let current = rows.keys.current(&founding.key);
    fall_back(rows, heard.c, Place::Direct(heard.x));
    let_some_go(rows, heard.now, goes);
    let_some_go(rows, heard.now, current);
    let reported = out.list().len();
    make_room(rows, heard.now, Write::Slot, out);
    let Err(error) = found_with(rows, heard, response, founding) else {
        return Ok(());
    };
    let (Ok(kind), Ok(answer)) = (lost_kind(error), response.copy()) else {
        // Where memory is wanted, what made room isn't told.
        out.truncate(reported);
        return Err(NoMemory);
    };
    have_answer(rows, heard, response, answer);
    put(out, Act::Lost { r: heard.x, kind });
    Ok(())
}

/// What the answer founds.
fn founding<B: Backend>(
    rows: &Rows<B>,
    case: HeadCase,
    heard: Arrival,
    response: &Response,
) -> Result<Founding, NoMemory>
    requires comes { MayCome rows.now heard }
    requires timely { IsTimely heard.now (table_of rows.now.exchanges heard.x).running }
    requires may { MayFound response.now }
    ensures { IfOk result (λ founding. IsSomeAnd (get nat_eq rows.now.consumers heard.c) (λ k.
        (o : Open) → (table_of rows.now.exchanges heard.x).running ≡ Some o
        → IsFounding o k case heard.now response.now founding)) }
{
    let head = head_founded(rows, heard, response)?;
    let key = rows.exchanges.opening(heard.x).unwrap().request.key.copy()?;
    let shared = is_shared(case);
    let (lo, hi) = part_founded(rows, heard.c, shared, head.total);
    Ok(Founding {
        key,
        head,
        shared,
        lo,
        hi,
    })
}

/// The head of what is founded.
fn head_founded<B: Backend>(
    rows: &Rows<B>,
    heard: Arrival,
    response: &Response,
) -> Result<StoredHead, NoMemory>
    requires running { is_open heard.x (table_of rows.now.exchanges) ≡ true }
    requires timely { IsTimely heard.now (table_of rows.now.exchanges heard.x).running }
    requires may { MayFound response.now }
    ensures { IfOk result (λ head. (o : Open)
        → (table_of rows.now.exchanges heard.x).running ≡ Some o
        → plain head ≡ head_by o heard.now response.now) }
{
    let opening = rows.exchanges.opening(heard.x).unwrap();
    let promise = length_of(*opening.need, opening.request, response).promise();
    let total = if brings_part(response.status) {
        total_of(content_range_of(&response.fields))
    } else {
        promise
    };
    // Where nothing is promised, all of it is there.
    let kind = if promise == Some(0) {
        Kind::Whole
    } else {
        Kind::Growing
    };
    founded_head(
        opening.request,
        response,
        opening.moment,
        heard.now,
        kind,
        total,
    )
}

/// What the consumer reads of what is founded for it, from where to where.
fn part_founded<B: Backend>(
    rows: &Rows<B>,
    c: u64,
    shared: bool,
    total: Option<u64>,
) -> (u64, Option<u64>)
    requires stands { ∥ Stands rows.now ∥₁ }
    requires live { is_some (get nat_eq rows.now.consumers c) ≡ true }
    ensures { IsSomeAnd (get nat_eq rows.now.consumers c)
        (λ k. (result.0, result.1) ≡ part_by shared k.class.range total) }
{
    let consumer = rows.consumers.get(&c).unwrap();
    if shared {
        return (0, total);
    }
    match wanted_of(consumer.class.range, total) {
        Wanted::Interval(span) => (span.lo, Some(span.hi)),
        _ => (0, total),
    }
}

/// A slot for what is founded, where the store takes it: that is current then, its exchange
/// brings it, and the consumer reads it.
fn found_with<B: Backend>(
    rows: &mut Rows<B>,
    heard: Arrival,
    response: &Response,
    founding: Founding,
) -> Result<(), StoreError>
    requires accepted { head_refusal (open_at rows.old heard.x) ≡ None }
    requires good { is_bad (length_by (table_of rows.old.exchanges heard.x).running
        response.now) ≡ false }
    requires new { (shelf_of rows.old.entries).kept heard.x ≡ None }
    requires moments { founding.head.requested ≤ founding.head.answered }
    ensures ok { OnOk result (BeginsFounding rows.old rows.new heard.x heard.c founding
        response.now) }
    ensures err { (result ≡ Err errors.NoMemory → ⊥)
        → OnErr result (IsUnrenewed rows.old rows.new) }
    ensures within { IsWithin (shelf_of rows.old.entries).limits 0
        ((shelf_of rows.old.entries).used + 32768) result }
    ensures cause { HasCause (shelf_of rows.old.entries).faults
        (shelf_of rows.new.entries).faults result }
{
    let (x, c) = (heard.x, heard.c);
    let (shared, lo, hi) = (founding.shared, founding.lo, founding.hi);
    let writer = if shared { Some(x) } else { None };
    rows.entries
        .found(x, founding.key, &founding.head, c, !shared, writer)?;
    let opening = rows.exchanges.opening(x).unwrap();
    rows.keys.make_current(&opening.request.key, x)?;
    rows.exchanges.turn_into(x, Role::Body { r: x });
    rows.exchanges.head(x, response);
    read_founded(&mut rows.consumers, c, x, shared, lo, hi);
    Ok(())
}

/// Others read with its consumer what is founded.
fn is_shared(case: HeadCase) -> bool
    ensures { result ≡ is_shared_by case }
{
    !matches!(case, HeadCase::FoundsRange)
}

/// The length of the whole, where a part tells it.
fn total_of(range: Option<ContentRange>) -> Option<u64>
    ensures { result ≡ total_of_part range }
{
    match range {
        Some(ContentRange::Part { total, .. }) => total,
        _ => None,
    }
}
