//! Heads that bring bytes of holes of what is stored.
ghost use Rattle.std.specs.Prelude.{◌≡◌, ◌≤◌, ◌↔◌, IsTrue, Some, true, false, is_some, nat_eq, OnOk, OnErr};
ghost use Rattle.std.specs.HashMap.{get};
ghost use Rattle.hc_event.specs.Acts.{act_list, spare};
ghost use Rattle.hc_rules.specs.Lengths.{is_bad};
ghost use Rattle.hc_rules.specs.Refusals.{head_refusal};
ghost use Rattle.hc_stored.specs.Entries.{shelf_of};
ghost use Rattle.hc_stored.specs.Kept.{Kept};
ghost use Rattle.hc_stored.specs.Shelf.{is_kept};
ghost use Rattle.hc_stored.specs.Views.{is_lost_at};
ghost use Rattle.hc_exch.specs.Exchanges.{table_of};
ghost use Rattle.hc_exch.specs.Known.{is_open, length_by};
ghost use Rattle.hc_state.specs.Heads.{IsTimely};
ghost use Rattle.hc_model.specs.RepresentationRows.{is_last_part};
ghost use Rattle.hc_rules.specs.RangeTexts.{content_range_of};
ghost use Rattle.hc_state.specs.Joining.{AnswersJoins, Brings, IsGrowing, LacksOnly, ResumesIs, Shares};
ghost use Rattle.hc_state.specs.Stands.{open_at};
ghost use Rattle.hc_on_head.specs.Comings.{AsksAbout, MayCome, MayRenew};
ghost use Rattle.hc_state.specs.Frames.{KeepsFaults};
ghost use Rattle.hc_on_head.specs.Frames.{FailsUnrenewed};

use crate::arrival::Arrival;
use crate::turn::renew;
use hc_event::{Acts, LostKind, Need, Response};
use hc_exch::Role;
use hc_on_leave::gone::leave_key;
use hc_on_leave::seal::lose_to;
use hc_range::ContentRange;
use hc_record::Kind;
use hc_rules::content_range_of;
use hc_state::{Rows, disown};
use hc_store::{Backend, StoreError};
use hc_text::NoMemory;

/// The exchange brings bytes of a hole of what is stored, which its head updates, unless a write
/// of that was refused before (RFC 9111 section 3.4). If the update is lost, whoever asked goes
/// on alone.
pub(crate) fn join<B: Backend>(
    rows: &mut Rows<B>,
    heard: Arrival,
    response: &Response,
    r: u64,
    out: &mut Acts,
) -> Result<(), NoMemory>
    requires comes { MayCome rows.old heard }
    requires timely { IsTimely heard.now (table_of rows.old.exchanges heard.x).running }
    requires about { AsksAbout rows.old heard r }
    requires good { is_bad (length_by (table_of rows.old.exchanges heard.x).running
        response.now) ≡ false }
    requires room { 1 ≤ spare out.old }
    ensures answers { OnOk result (AnswersJoins rows.old rows.new (act_list out.old)
        (act_list out.new) heard.now heard.x response.now) }
    ensures kept { KeepsFaults result rows.old rows.new (act_list out.old) (act_list out.new) }
    ensures memory { OnErr result
        ((shelf_of rows.new.entries).faults ≡ (shelf_of rows.old.entries).faults) }
{
    if is_lost(rows, r) {
        bring(rows, heard, response, r);
        return Ok(());
    }
    let resumes = resumes(rows, heard, response, r);
    match renew_growing(rows, heard, response, r) {
        Ok(()) => {
            bring(rows, heard, response, r);
            if resumes {
                share(rows, heard, r)?;
            }
            Ok(())
        }
        Err(StoreError::Fault) => {
            lose_to(rows, heard.now, r, Some(heard.c), LostKind::Fault, out);
            bring(rows, heard, response, r);
            Ok(())
        }
        Err(StoreError::NoMemory) => Err(NoMemory),
        // No limit is set to heads.
        Err(StoreError::TooLarge | StoreError::Full) => unreachable!(),
    }
}

/// A write of the representation was refused before.
fn is_lost<B: Backend>(rows: &Rows<B>, r: u64) -> bool
    requires there { is_kept (shelf_of rows.now.entries) r ≡ true }
    ensures { (k : Kept) → (shelf_of rows.now.entries).kept r ≡ Some k → result ≡ k.is_lost }
{
    rows.entries.entry(r).unwrap().is_lost
}

/// The stored head is renewed by the one that came, and says that more comes.
fn renew_growing<B: Backend>(
    rows: &mut Rows<B>,
    heard: Arrival,
    response: &Response,
    r: u64,
) -> Result<(), StoreError>
    requires may { MayRenew rows.old heard r }
    ensures ok { OnOk result (IsGrowing rows.old rows.new heard.x heard.now r response.now) }
    ensures fails { FailsUnrenewed result rows.old rows.new }
{
    let mut head = rows.entries.head(r)?;
    head.kind = Kind::Growing;
    renew(rows, heard, response, r, head)
}

/// The exchange brings the representation from now on, and whoever waited for its head waits for
/// its key no more.
fn bring<B: Backend>(rows: &mut Rows<B>, heard: Arrival, response: &Response, r: u64)
    requires live { is_some (get nat_eq rows.old.consumers heard.c) ≡ true }
    requires accepted { head_refusal (open_at rows.old heard.x) ≡ None }
    requires good { is_bad (length_by (table_of rows.old.exchanges heard.x).running
        response.now) ≡ false }
    ensures { Brings rows.old rows.new heard.c heard.x r response.now }
{
    let consumer = rows.consumers.get(&heard.c).unwrap();
    leave_key(&mut rows.keys, &consumer.request.key, heard.c);
    rows.exchanges.turn_into(heard.x, Role::Body { r });
    rows.exchanges.head(heard.x, response);
}

/// The exchange writes the representation for several from now on.
fn share<B: Backend>(rows: &mut Rows<B>, heard: Arrival, r: u64) -> Result<(), NoMemory>
    requires there { is_kept (shelf_of rows.old.entries) r ≡ true }
    requires fresh { is_lost_at ((shelf_of rows.old.entries).kept r) ≡ false }
    ensures shares { OnOk result (Shares rows.old rows.new heard.c heard.x r) }
    ensures faults { (shelf_of rows.new.entries).faults ≡ (shelf_of rows.old.entries).faults }
{
    rows.entries.set_writer(r, heard.x)?;
    disown(&mut rows.consumers, heard.c);
    Ok(())
}

/// The exchange brings all that is missing, for a consumer that asks for the whole: others may
/// read it too.
fn resumes<B: Backend>(rows: &Rows<B>, heard: Arrival, response: &Response, r: u64) -> bool
    requires there { is_kept (shelf_of rows.now.entries) r ≡ true }
    requires live { is_some (get nat_eq rows.now.consumers heard.c) ≡ true }
    requires running { is_open heard.x (table_of rows.now.exchanges) ≡ true }
    ensures { ResumesIs rows.now heard.c heard.x r response.now result }
{
    let opening = rows.exchanges.opening(heard.x).unwrap();
    let Need::Hole { from, .. } = *opening.need else {
        return false;
    };
    let consumer = rows.consumers.get(&heard.c).unwrap();
    if consumer.class.range.is_some() {
        return false;
    }
    lacks_only(rows, r, from, response)
}

/// All that is missing of the representation is the part that the head tells, from there on.
fn lacks_only<B: Backend>(rows: &Rows<B>, r: u64, from: u64, response: &Response) -> bool
    requires there { is_kept (shelf_of rows.now.entries) r ≡ true }
    ensures { IsTrue result ↔ LacksOnly from response.now ((shelf_of rows.now.entries).kept r) }
{
    let entry = rows.entries.entry(r).unwrap();
    if entry.size != from {
        return false;
    }
    if !ends_with(entry.total, response) {
        return false;
    }
    rows.entries.covers(r, 0, from)
}

/// The part that the head tells is the last one of so many bytes.
fn ends_with(total: Option<u64>, response: &Response) -> bool
    ensures { result ≡ is_last_part total (content_range_of response.now.fields) }
{
    match (total, content_range_of(&response.fields)) {
        (Some(total), Some(ContentRange::Part { last, .. })) => last + 1 == total,
        _ => false,
    }
}
