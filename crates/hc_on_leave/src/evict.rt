//! What is let go, and what gives way.
ghost use Rattle.std.specs.Prelude.{◌≡◌};
ghost use Rattle.hc_event.specs.Acts.{act_list, spare};
ghost use Rattle.hc_entry.specs.Keys.{line_of};
ghost use Rattle.hc_entry.specs.Lines.{is_in};
ghost use Rattle.hc_stored.specs.Entries.{shelf_of};
ghost use Rattle.hc_model.specs.Effects.{let_go, let_some_go};
ghost use Rattle.hc_model.specs.LettingGo.{MayMakeRoom, MayLetGo, giving_way};
ghost use Rattle.hc_model.specs.Rows.{Tables};
ghost use Rattle.hc_rules.specs.declared.room.Limits.{Limits};
ghost use Rattle.hc_state.specs.Changes.{ChangesAmong, over_if_passed};
ghost use Rattle.hc_state.specs.Room.{HasActs, LeavesActs, room_for_write, GivesWay, Appends};
ghost use Rattle.hc_state.specs.Stands.{RowsStand};
ghost use Rattle.hc_state.specs.Stored.{is_usable_kept};
ghost use Rattle.hc_on_leave.specs.Leaves.{KeepsAround};

use crate::acts::put;
use hc_entry::KeyTable;
use hc_event::{Act, Acts};
use hc_rules::{Room, Write};
use hc_state::{Rows, Transaction, start_over_if_passed};
use hc_store::Backend;
use hc_text::Key;
use std::collections::HashMap;

/// A representation isn't used for new consumers any more: whoever waits for it starts over.
pub(crate) fn let_go<B: Backend>(rows: &mut Rows<B>, now: u64, r: u64)
    ensures stands { (limits : Limits) (t : Tables) → MayLetGo t → RowsStand limits rows.old t
        → RowsStand limits rows.new (let_go now r t) }
    ensures around { KeepsAround rows.old rows.new }
{
    if !is_current(rows, r) {
        return;
    }
    let Some(key) = rows.entries.key(r) else {
        return;
    };
    start_passed_over(&mut rows.consumers, &rows.keys, key, now);
    rows.keys.passed_back(key);
    rows.keys.clear_current(key);
    rows.entries.forget(r);
}

/// There is one, and it is let go.
pub fn let_some_go<B: Backend>(rows: &mut Rows<B>, now: u64, r: Option<u64>)
    ensures stands { (limits : Limits) (t : Tables) → MayLetGo t → RowsStand limits rows.old t
        → RowsStand limits rows.new (let_some_go now r t) }
    ensures last_start { rows.new.last_start ≡ rows.old.last_start }
    ensures exchanges { rows.new.exchanges ≡ rows.old.exchanges }
    ensures faults { (shelf_of rows.new.entries).faults ≡ (shelf_of rows.old.entries).faults }
{
    if let Some(r) = r {
        let_go(rows, now, r);
    }
}

/// Idle representations give way to a write, as few as make room for it, where that can be.
pub fn make_room<B: Backend>(rows: &mut Rows<B>, now: u64, write: Write, out: &mut Acts)
    requires fits { HasActs (spare out.old) (room_for_write rows.old write) }
    ensures gives { (limits : Limits) (t : Tables) → MayMakeRoom t → RowsStand limits rows.old t
        → GivesWay limits rows.new t now (giving_way limits t write)
        (act_list out.old) (act_list out.new) }
    ensures appends { Appends (act_list out.old) (act_list out.new) }
    ensures room { LeavesActs (spare out.old) (spare out.new) (room_for_write rows.old write) }
    ensures last_start { rows.new.last_start ≡ rows.old.last_start }
    ensures exchanges { rows.new.exchanges ≡ rows.old.exchanges }
    ensures faults { (shelf_of rows.new.entries).faults ≡ (shelf_of rows.old.entries).faults }
{
    let Room::After(count) = rows.entries.room(write) else {
        return;
    };
    for i in 0..count {
        let Some(r) = rows.entries.first_idle() else {
            return;
        };
        put(out, Act::Evicted { r });
        let_go(rows, now, r);
    }
}

/// Whether the representation is current for its key.
pub fn is_current<B: Backend>(rows: &Rows<B>, r: u64) -> bool
    ensures { result ≡ is_usable_kept ((shelf_of rows.now.entries).kept r) }
{
    match rows.entries.entry(r) {
        Some(entry) => !entry.is_gone,
        None => false,
    }
}

/// Whoever has passed for the key starts over.
fn start_passed_over(
    consumers: &mut HashMap<u64, Transaction>,
    keys: &KeyTable,
    key: &Key,
    now: u64,
)
    ensures { ChangesAmong consumers.old consumers.new (λ c. is_in c (line_of keys.now key.now))
        (over_if_passed now) }
{
    for i in 0..keys.seats(key) {
        if let Some(c) = keys.seated(key, i) {
            start_over_if_passed(consumers, c, now);
        }
    }
}
