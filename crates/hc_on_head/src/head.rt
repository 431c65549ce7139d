//! The head of an exchange, by its case.
ghost use Rattle.std.specs.Prelude.{◌≡◌, ◌≤◌, ◌&&◌, Some, None, true, nat_eq, is_some, OnOk, OnErr};
ghost use Rattle.std.specs.HashMap.{get};
ghost use Rattle.hc_event.specs.Acts.{act_list, spare};
ghost use Rattle.hc_event.specs.declared.event.Event.TheVariants.{Head};
ghost use Rattle.hc_rules.specs.HeadCases.{head_case};
ghost use Rattle.hc_rules.specs.Refusals.{head_refusal};
ghost use Rattle.hc_stored.specs.Entries.{shelf_of};
ghost use Rattle.hc_entry.specs.Keys.{kept_of};
ghost use Rattle.hc_exch.specs.declared.row.Open.{Open};
ghost use Rattle.hc_exch.specs.Exchanges.{table_of};
ghost use Rattle.hc_exch.specs.Known.{is_open};
ghost use Rattle.hc_fields.specs.FieldList.{IsWithinLimits};
ghost use Rattle.hc_model.specs.Live.{most_live};
ghost use Rattle.hc_txn.specs.declared.transaction.Transaction.{Transaction as Consumer};
ghost use Rattle.hc_state.specs.Heads.{IsTimely, aim_in, kept_at, joins_kept, heard_view, let_go_by, is_past_case, changes_by};
ghost use Rattle.hc_state.specs.Stands.{Answers, AnswersCase, Stands, open_at};
ghost use Rattle.hc_on_head.specs.Comings.{FitsCase, MayCome, is_unused};
ghost use Rattle.hc_state.specs.Frames.{KeepsFaults};

use crate::arrival::Arrival;
use crate::dooming::take_dooming;
use crate::found::found;
use crate::join::join;
use crate::turn::validate;
use crate::unstored::{answer_past, close_hole, go_past, put_down, start_anew};
use hc_event::{Acts, Cause, Need, Response, is_safe};
use hc_exch::Role;
use hc_partial::{HoleAnswer, accepts};
use hc_range::Span;
use hc_rules::{
    HeadCase, HeadView, fits_to_found, head_case, is_conditional, is_storable, length_of,
};
use hc_state::Rows;
use hc_store::Backend;
use hc_text::NoMemory;

/// The head of an exchange, by its case.
pub fn take_head<B: Backend>(
    rows: &mut Rows<B>,
    now: u64,
    x: u64,
    response: &Response,
    out: &mut Acts,
) -> Result<(), NoMemory>
    requires stands { ∥ Stands rows.old ∥₁ }
    requires accepted { head_refusal (open_at rows.old x) ≡ None }
    requires timely { IsTimely now (table_of rows.old.exchanges x).running }
    requires within_limits { IsWithinLimits response.now.fields }
    requires room { most_live ≤ spare out.old }
    ensures answers { OnOk result (Answers rows.old rows.new (act_list out.old) (act_list out.new)
        now (Head x response.now)) }
    ensures faults { (shelf_of rows.old.entries).faults ≤ (shelf_of rows.new.entries).faults }
    ensures kept { OnErr result (act_list out.new ≡ act_list out.old) }
{
    let view = rows.exchanges.view(x).unwrap();
    let heard = Arrival { now, x, c: view.c };
    let aim = aim_of(view.role);
    let case = case_of(rows, heard, response, aim);
    if dooms(rows, case, x, response) {
        return take_dooming(rows, case, heard, response, out);
    }
    if let HeadCase::NotValidated = case {
        // Whether it selects what is stored is looked at only then.
        return validate(rows, heard, response, aim, out);
    }
    let goes = let_go_by(rows, case, x, response.status, aim);
    take_case(rows, case, heard, response, goes, out)
}

/// A head that dooms nothing, by its case. With it this isn't used any more.
fn take_case<B: Backend>(
    rows: &mut Rows<B>,
    case: HeadCase,
    heard: Arrival,
    response: &Response,
    goes: Option<u64>,
    out: &mut Acts,
) -> Result<(), NoMemory>
    requires comes { MayCome rows.old heard }
    requires timely { IsTimely heard.now (table_of rows.old.exchanges heard.x).running }
    requires fits { FitsCase rows.old heard case response.now }
    requires room { 2 ≤ spare out.old }
    ensures answers { OnOk result (AnswersCase rows.old rows.new (act_list out.old)
        (act_list out.new) heard.now heard.x response.now case goes) }
    ensures kept { KeepsFaults result rows.old rows.new (act_list out.old) (act_list out.new) }
{
    match case {
        HeadCase::DirectTaken => answer_past(rows, heard, response),
        HeadCase::TurnServerError
        | HeadCase::PassesBy
        | HeadCase::FirstServerError
        | HeadCase::FirstPassesBy => go_past(rows, heard, response, goes),
        HeadCase::FoundsWhole | HeadCase::FoundsRange | HeadCase::FirstReplaced => {
            found(rows, case, heard, response, goes, out)
        }
        HeadCase::FirstJoins | HeadCase::LaterJoins => {
            let role = rows.exchanges.view(heard.x).unwrap().role;
            join(rows, heard, response, aim_of(role).unwrap(), out)
        }
        HeadCase::DirectBad
        | HeadCase::TurnBad
        | HeadCase::FirstBad
        | HeadCase::FirstChanged
        | HeadCase::LaterBad
        | HeadCase::LaterChanged => {
            close_unused(rows, case, heard, response, goes, out);
            Ok(())
        }
        // What a 304 selects was looked at before.
        HeadCase::Validated | HeadCase::NotValidated => unreachable!(),
    }
}

/// An answer that isn't used: its exchange is closed. With it this isn't used any more.
fn close_unused<B: Backend>(
    rows: &mut Rows<B>,
    case: HeadCase,
    heard: Arrival,
    response: &Response,
    goes: Option<u64>,
    out: &mut Acts,
)
    requires comes { MayCome rows.old heard }
    requires fits { FitsCase rows.old heard case response.now }
    requires unused { is_unused case ≡ true }
    requires room { 1 ≤ spare out.old }
    ensures answers { AnswersCase rows.old rows.new (act_list out.old)
        (act_list out.new) heard.now heard.x response.now case goes }
    ensures faults { (shelf_of rows.new.entries).faults ≡ (shelf_of rows.old.entries).faults }
{
    match case {
        HeadCase::DirectBad | HeadCase::TurnBad | HeadCase::FirstBad => {
            put_down(rows, heard, response, out);
        }
        HeadCase::FirstChanged => start_anew(rows, heard, response, goes, out),
        HeadCase::LaterBad => {
            let cause = Cause::BadHead(heard.x);
            close_hole(rows, heard, response, cause, goes, out);
        }
        HeadCase::LaterChanged => {
            let cause = Cause::Changed(heard.x);
            close_hole(rows, heard, response, cause, goes, out);
        }
        _ => unreachable!(),
    }
}

/// The case of the head, but that a 304 isn't said to select what is stored.
fn case_of<B: Backend>(
    rows: &Rows<B>,
    heard: Arrival,
    response: &Response,
    aim: Option<u64>,
) -> HeadCase
    requires stands { ∥ Stands rows.now ∥₁ }
    requires running { is_open heard.x (table_of rows.now.exchanges) ≡ true }
    requires live { is_some (get nat_eq rows.now.consumers heard.c) ≡ true }
    ensures { (o : Open) (k : Consumer)
        → (table_of rows.now.exchanges heard.x).running ≡ Some o
        → get nat_eq rows.now.consumers heard.c ≡ Some k → result ≡ head_case
        (heard_view o k (kept_at (shelf_of rows.now.entries) aim) response.now) }
{
    let opening = rows.exchanges.opening(heard.x).unwrap();
    let consumer = rows.consumers.get(&heard.c).unwrap();
    let (need, request) = (*opening.need, opening.request);
    head_case(&HeadView {
        need,
        shown: consumer.shown,
        status: response.status,
        bad: length_of(need, request, response).is_bad(),
        conditional: is_conditional(need, request),
        selects: false,
        storable: is_storable(request, response),
        fits: fits_to_found(consumer.class.range, response),
        joins: joins_hole(rows, need, aim, response),
        lost: false,
    })
}

/// The answer brings bytes of the hole of what its exchange was opened about.
fn joins_hole<B: Backend>(rows: &Rows<B>, need: Need, aim: Option<u64>, response: &Response) -> bool
    ensures { result ≡ joins_kept need (kept_at (shelf_of rows.now.entries) aim) response.now }
{
    let (Need::Hole { from, to }, Some(r)) = (need, aim) else {
        return false;
    };
    let Some(entry) = rows.entries.entry(r) else {
        return false;
    };
    let (Some(tag), Some(total)) = (rows.entries.tag(r), entry.total) else {
        return false;
    };
    let answer = accepts(tag, total, Span { lo: from, hi: to }, response);
    matches!(answer, HoleAnswer::Joins)
}

/// The answer to an unsafe request, even a bad one, may have changed what is stored for its key:
/// that is doomed (RFC 9111 section 4.4).
fn dooms<B: Backend>(rows: &Rows<B>, case: HeadCase, x: u64, response: &Response) -> bool
    requires running { is_open x (table_of rows.now.exchanges) ≡ true }
    ensures { (o : Open) → (table_of rows.now.exchanges x).running ≡ Some o
        → result ≡ (is_past_case case && changes_by o.request response.now) }
{
    let opening = rows.exchanges.opening(x).unwrap();
    match case {
        HeadCase::DirectBad | HeadCase::DirectTaken => response.status < 400
            && !is_safe(&opening.request.method),
        _ => false,
    }
}

/// What isn't used any more where a head is of this case, but for what is current where it
/// founds something else.
fn let_go_by<B: Backend>(
    rows: &Rows<B>,
    case: HeadCase,
    x: u64,
    status: u16,
    aim: Option<u64>,
) -> Option<u64>
    requires running { is_open x (table_of rows.now.exchanges) ≡ true }
    ensures { (o : Open) → (table_of rows.now.exchanges x).running ≡ Some o
        → result ≡ let_go_by (kept_of rows.now.keys o.request.key).current aim status case }
{
    match case {
        HeadCase::PassesBy => {
            let opening = rows.exchanges.opening(x).unwrap();
            rows.keys.current(&opening.request.key)
        }
        HeadCase::NotValidated
        | HeadCase::FirstChanged
        | HeadCase::FirstReplaced
        | HeadCase::FirstPassesBy => aim,
        HeadCase::LaterChanged if status < 500 => aim,
        _ => None,
    }
}

/// What an exchange that waits for its head was opened about.
fn aim_of(role: Role) -> Option<u64>
    ensures { result ≡ aim_in role }
{
    match role {
        Role::Turn { aim } => aim,
        Role::Hole { r } => Some(r),
        _ => None,
    }
}
