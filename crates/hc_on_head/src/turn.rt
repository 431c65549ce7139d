//! 304s that may be about what is stored.
ghost use Rattle.std.specs.Prelude.{◌≡◌, ◌≤◌, true, Some, None, nat_eq, if◌then◌else◌, IfOk, IsSomeAnd, OnOk, OnErr};
ghost use Rattle.std.specs.HashMap.{get};
ghost use Rattle.hc_event.specs.Acts.{act_list, spare};
ghost use Rattle.hc_rules.specs.Lengths.{is_same_number};
ghost use Rattle.hc_record.specs.Plain.{plain};
ghost use Rattle.hc_stored.specs.Entries.{shelf_of};
ghost use Rattle.hc_entry.specs.Keys.{kept_of};
ghost use Rattle.hc_exch.specs.declared.row.Open.{Open};
ghost use Rattle.hc_exch.specs.Exchanges.{table_of};
ghost use Rattle.hc_exch.specs.Known.{is_open};
ghost use Rattle.hc_state.specs.Handlers.{IsInKey};
ghost use Rattle.hc_state.specs.Heads.{IsTimely};
ghost use Rattle.hc_state.specs.Renewals.{IsRenewed, IsSelected};
ghost use Rattle.hc_state.specs.Stands.{AnswersUnselected};
ghost use Rattle.hc_on_head.specs.Comings.{MayCome, MayRenew};
ghost use Rattle.hc_state.specs.Frames.{KeepsFaults};
ghost use Rattle.hc_on_head.specs.Frames.{FailsUnrenewed};

use crate::arrival::Arrival;
use crate::asked::lose_asked;
use crate::asker::let_through;
use crate::unstored::{refuse, start_anew};
use hc_event::{Acts, Response};
use hc_record::StoredHead;
use hc_state::{Rows, renewed};
use hc_store::{Backend, StoreError};
use hc_text::NoMemory;
use hc_validate::selects;

/// A 304 of an exchange that has the turn. Where it is about what is current still, that is
/// updated, and whoever asked may read it (RFC 9111 section 4.3.4). Else that isn't used any
/// more, and whoever asked starts over.
pub(crate) fn validate<B: Backend>(
    rows: &mut Rows<B>,
    heard: Arrival,
    response: &Response,
    aim: Option<u64>,
    out: &mut Acts,
) -> Result<(), NoMemory>
    requires comes { MayCome rows.old heard }
    requires timely { IsTimely heard.now (table_of rows.old.exchanges heard.x).running }
    requires waits { IsSomeAnd (get nat_eq rows.old.consumers heard.c)
        (IsInKey rows.old.keys heard.c) }
    requires room { 3 ≤ spare out.old }
    ensures answers { OnOk result (AnswersUnselected rows.old rows.new (act_list out.old)
        (act_list out.new) heard.now heard.x response.now aim) }
    ensures kept { KeepsFaults result rows.old rows.new (act_list out.old) (act_list out.new) }
    ensures memory { OnErr result
        ((shelf_of rows.new.entries).faults ≡ (shelf_of rows.old.entries).faults) }
{
    let Some(r) = still_current(rows, heard.x, aim) else {
        start_anew(rows, heard, response, aim, out);
        return Ok(());
    };
    match select(rows, heard, response, r) {
        Ok(true) => {
            let_through(rows, heard.c, r, heard.x);
            refuse(rows, heard.x, response, out);
            Ok(())
        }
        Ok(false) => {
            start_anew(rows, heard, response, aim, out);
            Ok(())
        }
        Err(StoreError::Fault) => {
            lose_asked(rows, heard, response, r, out);
            Ok(())
        }
        Err(StoreError::NoMemory) => Err(NoMemory),
        // No limit is set to heads.
        Err(StoreError::TooLarge | StoreError::Full) => unreachable!(),
    }
}

/// What the exchange was opened about, where that is current still.
fn still_current<B: Backend>(rows: &Rows<B>, x: u64, aim: Option<u64>) -> Option<u64>
    requires running { is_open x (table_of rows.now.exchanges) ≡ true }
    ensures { (o : Open) → (table_of rows.now.exchanges x).running ≡ Some o → result
        ≡ (if is_same_number (kept_of rows.now.keys o.request.key).current aim
        then aim else None) }
{
    let opening = rows.exchanges.opening(x).unwrap();
    let current = rows.keys.current(&opening.request.key)?;
    let aim = aim?;
    if current == aim { Some(aim) } else { None }
}

/// Whether the 304 selects what is stored, which it then updates.
fn select<B: Backend>(
    rows: &mut Rows<B>,
    heard: Arrival,
    response: &Response,
    r: u64,
) -> Result<bool, StoreError>
    requires may { MayRenew rows.old heard r }
    ensures ok { IfOk result (IsSelected rows.old rows.new heard.x heard.now r response.now) }
    ensures fails { FailsUnrenewed result rows.old rows.new }
{
    let head = rows.entries.head(r)?;
    if !selects(&head, response) {
        return Ok(false);
    }
    renew(rows, heard, response, r, head)?;
    Ok(true)
}

/// What is stored has this head, renewed by the one that came.
pub(crate) fn renew<B: Backend>(
    rows: &mut Rows<B>,
    heard: Arrival,
    response: &Response,
    r: u64,
    head: StoredHead,
) -> Result<(), StoreError>
    requires may { MayRenew rows.old heard r }
    ensures ok { OnOk result (IsRenewed rows.old rows.new heard.x heard.now r (plain head)
        response.now) }
    ensures fails { FailsUnrenewed result rows.old rows.new }
{
    let requested = rows.exchanges.opening(heard.x).unwrap().moment;
    let head = renewed(head, requested, heard.now, &response.fields)?;
    rows.entries.update(r, &head)
}
