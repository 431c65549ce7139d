//! What a 304 may be about, where it can't be read or updated.
ghost use Rattle.std.specs.Prelude.{◌≡◌, ◌≤◌, ℕ, true, nat_eq, IsSomeAnd};
ghost use Rattle.std.specs.HashMap.{get};
ghost use Rattle.hc_event.specs.Acts.{act_list, spare};
ghost use Rattle.hc_stored.specs.Entries.{shelf_of};
ghost use Rattle.hc_state.specs.Handlers.{IsInKey};
ghost use Rattle.hc_state.specs.DetachedReaders.{AnswersLosing};
ghost use Rattle.hc_state.specs.Stored.{is_usable_kept};
ghost use Rattle.hc_on_head.specs.Comings.{MayCome};

use crate::arrival::Arrival;
use crate::asker::send_back;
use crate::unstored::refuse;
use hc_event::{Acts, LostKind, Response};
use hc_on_leave::lose::lose_group;
use hc_on_leave::seal::lose_to;
use hc_on_leave::writer_group::writer_group;
use hc_on_leave::writers::exclusive;
use hc_state::Rows;
use hc_store::Backend;

/// What a 304 may be about can't be read or updated: it is lost, and whoever asked starts over.
pub fn lose_asked<B: Backend>(
    rows: &mut Rows<B>,
    heard: Arrival,
    response: &Response,
    r: u64,
    out: &mut Acts,
)
    requires comes { MayCome rows.old heard }
    requires current { is_usable_kept ((shelf_of rows.old.entries).kept r) ≡ true }
    requires waits { IsSomeAnd (get nat_eq rows.old.consumers heard.c)
        (IsInKey rows.old.keys heard.c) }
    requires room { 3 ≤ spare out.old }
    ensures answers { (faults : ℕ) → AnswersLosing rows.old rows.new (act_list out.old)
        (act_list out.new) faults heard.now heard.x r response.now }
    ensures faults { (shelf_of rows.new.entries).faults ≡ (shelf_of rows.old.entries).faults }
{
    let writer_group = writer_group(rows, r);
    let alone = exclusive(rows, r);
    send_back(rows, heard.now, heard.c);
    refuse(rows, heard.x, response, out);
    match writer_group {
        Some(x) => lose_group(rows, heard.now, r, x, LostKind::Fault, out),
        None => lose_to(rows, heard.now, r, alone, LostKind::Fault, out),
    }
}
