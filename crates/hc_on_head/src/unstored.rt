//! Heads of which nothing is stored.
ghost use Rattle.std.specs.Prelude.{◌≡◌, ◌+◌, ◌≤◌, ◌++◌, List, None, true, false, map, nat_eq, IsSomeAnd, OnOk};
ghost use Rattle.std.specs.HashMap.{get};
ghost use Rattle.hc_event.specs.Acts.{act_list, spare};
ghost use Rattle.hc_event.specs.declared.act.Act.{Act};
ghost use Rattle.hc_event.specs.declared.act.Act.TheVariants as act;
ghost use Rattle.hc_stored.specs.Entries.{shelf_of};
ghost use Rattle.hc_rules.specs.declared.heads.HeadCase.{HeadCase};
ghost use Rattle.hc_rules.specs.Lengths.{is_bad};
ghost use Rattle.hc_rules.specs.Refusals.{head_refusal};
ghost use Rattle.hc_exch.specs.Exchanges.{table_of, Becomes};
ghost use Rattle.hc_exch.specs.Known.{is_open, without_exchange, length_by};
ghost use Rattle.hc_model.specs.Effects.{with_answer};
ghost use Rattle.hc_model.specs.Rows.{Tables, Exchange, Consumer};
ghost use Rattle.hc_rules.specs.declared.room.Limits.{Limits};
ghost use Rattle.hc_state.specs.Handlers.{IsInKey};
ghost use Rattle.hc_state.specs.Heads.{IsReadAlone, EndsInRange, end_of_answer, unless_over, puts_down, goes_past, starts_anew, breaks_off, broken_by};
ghost use Rattle.hc_state.specs.Stands.{AnswersCase, RowsStand, open_at};
ghost use Rattle.hc_on_head.specs.Comings.{MayCome};
ghost use Rattle.hc_on_head.specs.Frames.{ChangesExchanges};

use crate::arrival::Arrival;
use crate::asker::{fall_back, send_back};
use hc_event::{Act, Acts, Cause, Place, Response};
use hc_exch::Role;
use hc_on_leave::acts::put;
use hc_on_leave::evict::let_some_go;
use hc_rules::{Length, length_of};
use hc_state::{Rows, make_due, take_answer};
use hc_store::Backend;
use hc_text::NoMemory;

/// A bad head: whoever waits for it is to fail.
pub fn put_down<B: Backend>(rows: &mut Rows<B>, heard: Arrival, response: &Response, out: &mut Acts)
    requires comes { MayCome rows.old heard }
    requires room { 1 ≤ spare out.old }
    ensures answers { (g : HeadCase) → puts_down g ≡ true → AnswersCase rows.old rows.new
        (act_list out.old) (act_list out.new) heard.now heard.x response.now g None }
    ensures faults { (shelf_of rows.new.entries).faults ≡ (shelf_of rows.old.entries).faults }
{
    fall_back(rows, heard.c, Place::Down(Cause::BadHead(heard.x)));
    refuse(rows, heard.x, response, out);
}

/// An answer that isn't stored goes on past the store. With it this isn't used any more.
pub fn go_past<B: Backend>(
    rows: &mut Rows<B>,
    heard: Arrival,
    response: &Response,
    goes: Option<u64>,
) -> Result<(), NoMemory>
    requires comes { MayCome rows.old heard }
    requires good { is_bad (length_by (table_of rows.old.exchanges heard.x).running
        response.now) ≡ false }
    ensures answers { OnOk result ((g : HeadCase) (before : List Act) → goes_past g ≡ true
        → AnswersCase rows.old rows.new before before heard.now heard.x response.now
        g goes) }
    ensures faults { (shelf_of rows.new.entries).faults ≡ (shelf_of rows.old.entries).faults }
{
    fall_back(rows, heard.c, Place::Direct(heard.x));
    answer_past(rows, heard, response)?;
    let_some_go(rows, heard.now, goes);
    Ok(())
}

/// What is stored isn't what was asked about: it isn't used any more, and whoever waited for
/// the head starts over.
pub fn start_anew<B: Backend>(
    rows: &mut Rows<B>,
    heard: Arrival,
    response: &Response,
    goes: Option<u64>,
    out: &mut Acts,
)
    requires comes { MayCome rows.old heard }
    requires waits { IsSomeAnd (get nat_eq rows.old.consumers heard.c)
        (IsInKey rows.old.keys heard.c) }
    requires room { 1 ≤ spare out.old }
    ensures answers { (g : HeadCase) → starts_anew g ≡ true → AnswersCase rows.old rows.new
        (act_list out.old) (act_list out.new) heard.now heard.x response.now g goes }
    ensures faults { (shelf_of rows.new.entries).faults ≡ (shelf_of rows.old.entries).faults }
{
    send_back(rows, heard.now, heard.c);
    refuse(rows, heard.x, response, out);
    let_some_go(rows, heard.now, goes);
}

/// What was shown can't be completed, for this cause. With it this isn't used any more.
pub fn close_hole<B: Backend>(
    rows: &mut Rows<B>,
    heard: Arrival,
    response: &Response,
    cause: Cause,
    goes: Option<u64>,
    out: &mut Acts,
)
    requires comes { MayCome rows.old heard }
    requires room { 1 ≤ spare out.old }
    ensures answers { (g : HeadCase) → breaks_off g ≡ true → cause ≡ broken_by heard.x g
        → AnswersCase rows.old rows.new (act_list out.old) (act_list out.new) heard.now heard.x
        response.now g goes }
    ensures faults { (shelf_of rows.new.entries).faults ≡ (shelf_of rows.old.entries).faults }
{
    make_due(&mut rows.consumers, heard.c, cause);
    refuse(rows, heard.x, response, out);
    let_some_go(rows, heard.now, goes);
}

/// Whoever reads the exchange past the store has its answer.
pub fn answer_past<B: Backend>(
    rows: &mut Rows<B>,
    heard: Arrival,
    response: &Response,
) -> Result<(), NoMemory>
    requires accepted { head_refusal (open_at rows.old heard.x) ≡ None }
    requires good { is_bad (length_by (table_of rows.old.exchanges heard.x).running
        response.now) ≡ false }
    ensures stands { OnOk result ((limits : Limits) (t : Tables) (w : Exchange) (k : Consumer)
        → IsReadAlone t heard.x w k → w.c ≡ heard.c → RowsStand limits rows.old t
        → RowsStand limits rows.new
        (with_answer heard.now heard.x response.now w.joined w t)) }
    ensures faults { (shelf_of rows.new.entries).faults ≡ (shelf_of rows.old.entries).faults }
{
    let answer = response.copy()?;
    have_answer(rows, heard, response, answer);
    Ok(())
}

/// Whoever reads the exchange past the store has this copy of its answer.
pub fn have_answer<B: Backend>(
    rows: &mut Rows<B>,
    heard: Arrival,
    response: &Response,
    answer: Response,
)
    requires accepted { head_refusal (open_at rows.old heard.x) ≡ None }
    requires good { is_bad (length_by (table_of rows.old.exchanges heard.x).running
        response.now) ≡ false }
    requires copied { answer ≡ response.now }
    ensures stands { (limits : Limits) (t : Tables) (w : Exchange) (k : Consumer)
        → IsReadAlone t heard.x w k → w.c ≡ heard.c → RowsStand limits rows.old t
        → RowsStand limits rows.new
        (with_answer heard.now heard.x response.now w.joined w t) }
    ensures faults { (shelf_of rows.new.entries).faults ≡ (shelf_of rows.old.entries).faults }
{
    let opening = rows.exchanges.opening(heard.x).unwrap();
    let length = length_of(*opening.need, opening.request, response);
    rows.exchanges.turn_into(heard.x, Role::Direct);
    rows.exchanges.head(heard.x, response);
    let end = end_of(length);
    take_answer(&mut rows.consumers, heard.c, answer, length.base(), end);
}

/// An exchange whose answer isn't used is closed, and that is told, unless it is over with its
/// head.
pub fn refuse<B: Backend>(rows: &mut Rows<B>, x: u64, response: &Response, out: &mut Acts)
    requires running { is_open x (table_of rows.old.exchanges) ≡ true }
    requires room { 1 ≤ spare out.old }
    ensures acts { act_list out.new ≡ act_list out.old ++ map act.Close (unless_over x
        (length_by (table_of rows.old.exchanges x).running response.now)) }
    ensures room { spare out.old ≤ spare out.new + 1 }
    ensures closed { Becomes without_exchange x rows.old.exchanges rows.new.exchanges }
    ensures rest { ChangesExchanges rows.old rows.new }
{
    let opening = rows.exchanges.opening(x).unwrap();
    let length = length_of(*opening.need, opening.request, response);
    if length.promise() != Some(0) {
        put(out, Act::Close { x });
    }
    rows.exchanges.close(x);
}

/// Where the body ends, where that is told.
fn end_of(length: Length) -> Option<u64>
    requires { EndsInRange length }
    ensures { result ≡ end_of_answer length }
{
    let promised = length.promise()?;
    Some(length.base() + promised)
}
