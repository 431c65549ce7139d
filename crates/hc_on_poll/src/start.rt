//! A start.
ghost use Rattle.std.specs.Prelude.{◌≡◌, ◌<◌, List, false, OnOk};
ghost use Rattle.hc_event.specs.declared.event.Event.TheVariants.{Start};
ghost use Rattle.hc_event.specs.declared.act.Act.{Act};
ghost use Rattle.hc_stored.specs.Entries.{shelf_of};
ghost use Rattle.hc_entry.specs.Keys.{line_of};
ghost use Rattle.hc_entry.specs.Lines.{is_in};
ghost use Rattle.hc_state.specs.Handlers.{IsEntered, KeepsRows};
ghost use Rattle.hc_state.specs.Stands.{Answers, Stands};

use hc_event::Request;
use hc_state::{Rows, Transaction};
use hc_store::Backend;
use hc_text::{Key, NoMemory};

/// A consumer starts: where it waits with others, it stands in line.
pub fn start<B: Backend>(
    rows: &mut Rows<B>,
    now: u64,
    c: u64,
    request: &Request,
) -> Result<(), NoMemory>
    requires stands { ∥ Stands rows.old ∥₁ }
    requires ascending { rows.old.last_start < c }
    ensures answers { OnOk result ((before : List Act)
        → Answers rows.old rows.new before before now (Start c request.now)) }
    ensures exchanges { rows.new.exchanges ≡ rows.old.exchanges }
    ensures faults { (shelf_of rows.new.entries).faults ≡ (shelf_of rows.old.entries).faults }
{
    let consumer = Transaction::new(request, now)?;
    let queues = consumer.queues();
    rows.consumers.insert(c, consumer)?;
    enter_line(rows, c, &request.key, queues)?;
    rows.last_start = c;
    Ok(())
}

/// A consumer stands in line, where it waits with others.
fn enter_line<B: Backend>(
    rows: &mut Rows<B>,
    c: u64,
    key: &Key,
    queues: bool,
) -> Result<(), NoMemory>
    requires { is_in c (line_of rows.old.keys key.now) ≡ false }
    ensures line { OnOk result (IsEntered queues c key.now rows.old.keys rows.new.keys) }
    ensures rest { KeepsRows rows.old rows.new }
{
    if queues {
        rows.keys.enter(key, c)?;
    }
    Ok(())
}
