//! The exchange that writes a representation for several.
ghost use Rattle.std.specs.Prelude.{◌≡◌, ◌<◌, Some, None};
ghost use Rattle.hc_stored.specs.Entries.{shelf_of};
ghost use Rattle.hc_exch.specs.Exchanges.{table_of};
ghost use Rattle.hc_state.specs.Leaving.{if_running, group_by, writer_group_of};

use hc_state::Rows;
use hc_store::Backend;
use hc_stored::EntryView;

/// The exchange of the writer group of a representation, as long as that is on.
pub fn writer_group<B: Backend>(rows: &Rows<B>, r: u64) -> Option<u64>
    ensures { result ≡ writer_group_of (table_of rows.now.exchanges)
        ((shelf_of rows.now.entries).kept r) }
{
    group_in(rows, &rows.entries.entry(r)?)
}

/// The same, by what is told of the representation.
pub fn group_in<B: Backend>(rows: &Rows<B>, entry: &EntryView) -> Option<u64>
    ensures { result ≡ group_by (table_of rows.now.exchanges) entry.now }
{
    if entry.is_lost {
        return None;
    }
    if_running(rows, entry.writer)
}

/// The exchange, if there is one and it is open.
pub fn if_running<B: Backend>(rows: &Rows<B>, x: Option<u64>) -> Option<u64>
    ensures { result ≡ if_running (table_of rows.now.exchanges) x }
{
    let view = rows.exchanges.view(x?)?;
    Some(view.x)
}
