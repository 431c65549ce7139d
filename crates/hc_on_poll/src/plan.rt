//! What a consumer does that reads nothing yet: it waits, fails, or opens an exchange.
ghost use Rattle.std.specs.Prelude.{◌≡◌, ◌≢◌, ◌+◌, ◌≤◌, ◌<◌, ◌^◌, ◌++◌, ◌∷◌, [], ℕ, nat_eq, IsSomeAnd, IfOk, OnOk};
ghost use Rattle.std.specs.HashMap.{get};
ghost use Rattle.hc_event.specs.Acts.{act_list, spare};
ghost use Rattle.hc_event.specs.declared.act.Act.TheVariants as act;
ghost use Rattle.hc_event.specs.declared.act.Need.TheVariants as needs;
ghost use Rattle.hc_event.specs.declared.act.Wait.TheVariants as waits;
ghost use Rattle.hc_record.specs.Plain.{plain};
ghost use Rattle.hc_exch.specs.Exchanges.{next_of};
ghost use Rattle.hc_model.specs.Moves.{Waits};
ghost use Rattle.hc_state.specs.Changes.{ChangesAt};
ghost use Rattle.hc_txn.specs.Transactions.{lined_up};
ghost use Rattle.hc_state.specs.Stands.{AnswersMove};
ghost use Rattle.hc_state.specs.Plans.{IsOfItsKey, HasCurrent, StandsInLine, StandsPassed, AnswersOpening, AnswersValidating};
ghost use Rattle.hc_rules.specs.declared.need.Route.TheVariants as route;
ghost use Rattle.hc_rules.specs.Needs.{route_of};
ghost use Rattle.hc_state.specs.Frames.{AddsNoFault, KeepsExchanges};
ghost use Rattle.hc_on_poll.specs.Keeps.{HasBegun, KeepsBesideLine};
ghost use Rattle.hc_on_poll.specs.Ready.{MayAsk, MayLeaveLine, MayOpen, MayPass, MayQueue};

use crate::wait::wait;
use hc_event::{Act, Acts, Need, Place, Request, Wait};
use hc_exch::Role;
use hc_on_leave::acts::put;
use hc_on_leave::evict::let_some_go;
use hc_on_leave::leave::leave_line;
use hc_record::StoredHead;
use hc_state::{Rows, let_pass, line_up, read_past, take_turn};
use hc_store::Backend;
use hc_text::NoMemory;
use hc_validate::conditional;

/// A consumer waits in line for the turn of another.
pub(crate) fn wait_for_turn<B: Backend>(rows: &mut Rows<B>, c: u64, d: u64, out: &mut Acts)
    requires queues { IsSomeAnd (get nat_eq rows.old.consumers c) (MayQueue rows.old.keys c) }
    requires room { 1 ≤ spare out.old }
    ensures answers { (now want : ℕ) → AnswersMove rows.old rows.new (act_list out.old)
        (act_list out.new) now c want (Waits (waits.Turn d)) }
    ensures keeps { KeepsExchanges rows.old rows.new }
{
    queue_again(rows, c);
    wait(c, Wait::Turn(d), out);
}

/// A consumer that had passed is in line again.
fn queue_again<B: Backend>(rows: &mut Rows<B>, c: u64)
    requires queues { IsSomeAnd (get nat_eq rows.old.consumers c) (MayQueue rows.old.keys c) }
    ensures stands { StandsInLine rows.old rows.new c }
    ensures consumer { ChangesAt rows.old.consumers rows.new.consumers c lined_up }
    ensures rest { KeepsBesideLine rows.old rows.new }
{
    let consumer = rows.consumers.get(&c).unwrap();
    if let Place::Passed { .. } = consumer.place {
        rows.keys.back(&consumer.request.key, c);
        line_up(&mut rows.consumers, c);
    }
}

/// A consumer waits for another, which uses what is current.
pub(crate) fn wait_for_use<B: Backend>(rows: &mut Rows<B>, c: u64, r: u64, d: u64, out: &mut Acts)
    requires passes { IsSomeAnd (get nat_eq rows.old.consumers c) (MayPass rows.old.keys c) }
    requires current { IsSomeAnd (get nat_eq rows.old.consumers c) (HasCurrent rows.old.keys r) }
    requires room { 1 ≤ spare out.old }
    ensures answers { (now want : ℕ) → AnswersMove rows.old rows.new (act_list out.old)
        (act_list out.new) now c want (Waits (waits.Busy d)) }
    ensures keeps { KeepsExchanges rows.old rows.new }
{
    pass(rows, c, r);
    wait(c, Wait::Busy(d), out);
}

/// A consumer in line waits for the body of what is current, outside of the line.
fn pass<B: Backend>(rows: &mut Rows<B>, c: u64, r: u64)
    requires passes { IsSomeAnd (get nat_eq rows.old.consumers c) (MayPass rows.old.keys c) }
    ensures stands { StandsPassed rows.old rows.new c r }
    ensures keeps { KeepsExchanges rows.old rows.new }
{
    let consumer = rows.consumers.get(&c).unwrap();
    if let Place::Line = consumer.place {
        rows.keys.pass(&consumer.request.key, c);
        let_pass(&mut rows.consumers, c, r);
    }
}

/// A consumer goes past the store: it opens its exchange, and stands in no line.
pub(crate) fn open_past<B: Backend>(
    rows: &mut Rows<B>,
    now: u64,
    c: u64,
    need: Need,
    out: &mut Acts,
) -> Result<(), NoMemory>
    requires leaves { IsSomeAnd (get nat_eq rows.old.consumers c) (MayLeaveLine rows.old.keys c) }
    requires past { route_of need ≡ route.Direct }
    requires few { next_of rows.old.exchanges < 2 ^ 62 }
    requires room { 2 ≤ spare out.old }
    ensures answers { OnOk result (IsSomeAnd (get nat_eq rows.old.consumers c)
        (AnswersOpening rows.old rows.new (act_list out.old) (act_list out.new) now c need)) }
    ensures kept { AddsNoFault result rows.old rows.new (act_list out.old) (act_list out.new) }
{
    let consumer = rows.consumers.get(&c).unwrap();
    let request = consumer.request.copy()?;
    let x = rows.exchanges.launch(c, Role::Direct, need, &request, now)?;
    leave_line(rows, c);
    read_past(&mut rows.consumers, c, x);
    open(x, c, need, request, out);
    Ok(())
}

/// The consumer whose turn it is asks the origin with its request as it is.
pub(crate) fn fetch<B: Backend>(
    rows: &mut Rows<B>,
    now: u64,
    c: u64,
    need: Need,
    out: &mut Acts,
) -> Result<(), NoMemory>
    requires opens { MayOpen rows.old }
    requires asks { IsSomeAnd (get nat_eq rows.old.consumers c) (MayAsk rows.old.keys c) }
    requires turns { route_of need ≡ route.Turn }
    requires uses { need ≢ needs.Bypass }
    requires room { 2 ≤ spare out.old }
    ensures answers { OnOk result (IsSomeAnd (get nat_eq rows.old.consumers c)
        (AnswersOpening rows.old rows.new (act_list out.old) (act_list out.new) now c need)) }
    ensures kept { AddsNoFault result rows.old rows.new (act_list out.old) (act_list out.new) }
{
    let consumer = rows.consumers.get(&c).unwrap();
    let request = consumer.request.copy()?;
    let x = begin_turn(rows, now, c, need, &request)?;
    open(x, c, need, request, out);
    Ok(())
}

/// The consumer whose turn it is asks the origin whether what is current still holds.
pub(crate) fn revalidate<B: Backend>(
    rows: &mut Rows<B>,
    now: u64,
    c: u64,
    head: &StoredHead,
    out: &mut Acts,
) -> Result<(), NoMemory>
    requires opens { MayOpen rows.old }
    requires asks { IsSomeAnd (get nat_eq rows.old.consumers c) (MayAsk rows.old.keys c) }
    requires room { 2 ≤ spare out.old }
    ensures answers { OnOk result (IsSomeAnd (get nat_eq rows.old.consumers c)
        (AnswersValidating rows.old rows.new (act_list out.old) (act_list out.new)
        now c (plain head.now))) }
    ensures kept { AddsNoFault result rows.old rows.new (act_list out.old) (act_list out.new) }
{
    let consumer = rows.consumers.get(&c).unwrap();
    let request = conditional(head, &consumer.request)?;
    let x = begin_turn(rows, now, c, Need::Validate, &request)?;
    open(x, c, Need::Validate, request, out);
    Ok(())
}

/// The consumer whose turn it is bypasses what is stored: that is let go.
pub(crate) fn bypass<B: Backend>(
    rows: &mut Rows<B>,
    now: u64,
    c: u64,
    out: &mut Acts,
) -> Result<(), NoMemory>
    requires opens { MayOpen rows.old }
    requires asks { IsSomeAnd (get nat_eq rows.old.consumers c) (MayAsk rows.old.keys c) }
    requires room { 2 ≤ spare out.old }
    ensures answers { OnOk result (IsSomeAnd (get nat_eq rows.old.consumers c)
        (AnswersOpening rows.old rows.new (act_list out.old) (act_list out.new) now c
        needs.Bypass)) }
    ensures kept { AddsNoFault result rows.old rows.new (act_list out.old) (act_list out.new) }
{
    let consumer = rows.consumers.get(&c).unwrap();
    let request = consumer.request.copy()?;
    let current = rows.keys.current(&request.key);
    let x = begin_turn(rows, now, c, Need::Bypass, &request)?;
    let_some_go(rows, now, current);
    open(x, c, Need::Bypass, request, out);
    Ok(())
}

/// The consumer whose turn it is opens its exchange, which is about what is current.
fn begin_turn<B: Backend>(
    rows: &mut Rows<B>,
    now: u64,
    c: u64,
    need: Need,
    request: &Request,
) -> Result<u64, NoMemory>
    requires opens { MayOpen rows.old }
    requires asks { IsSomeAnd (get nat_eq rows.old.consumers c) (MayAsk rows.old.keys c) }
    requires key { IsSomeAnd (get nat_eq rows.old.consumers c) (IsOfItsKey request.now) }
    requires turns { route_of need ≡ route.Turn }
    ensures begun { IfOk result (HasBegun rows.old rows.new now c need request.now) }
    ensures entries { rows.new.entries ≡ rows.old.entries }
{
    let aim = rows.keys.current(&request.key);
    queue_again(rows, c);
    let x = rows
        .exchanges
        .launch(c, Role::Turn { aim }, need, request, now)?;
    rows.keys.hold(&request.key, c);
    take_turn(&mut rows.consumers, c, x);
    Ok(x)
}

/// An exchange is opened, for whose head its consumer waits.
pub(crate) fn open(x: u64, c: u64, need: Need, request: Request, out: &mut Acts)
    requires { 2 ≤ spare out.old }
    ensures { act_list out.new ≡ act_list out.old
        ++ act.Opened x c need request ∷ act.Pending c (waits.Head x) ∷ [] }
{
    put(
        out,
        Act::Opened {
            x,
            c,
            need,
            request,
        },
    );
    wait(c, Wait::Head(x), out);
}
