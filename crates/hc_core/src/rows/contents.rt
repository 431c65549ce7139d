//! What is left of what is kept, as a cache may begin with it.
ghost use Rattle.std.specs.Prelude.{◌≡◌, ◌+◌, ◌-◌, ◌≤◌, ◌<◌, ◌^◌, ℕ, true, length, map, IfOk};
ghost use Rattle.hc_sparse.specs.Cells.{EndsBy};
ghost use Rattle.hc_store.specs.Causes.{HasCause, HasNoLimit};
ghost use Rattle.hc_stored.specs.Entries.{shelf_of};
ghost use Rattle.hc_stored.specs.Shelf.{Stays, idle, is_kept, cells_at};
ghost use Rattle.hc_contents.specs.PlainContents.{plain_item};
ghost use Rattle.hc_model.specs.Contents.{runs_from};
ghost use Rattle.hc_state.specs.Remains.{AreContentsOf, IsContentOf};

use hc_contents::{Content, ContentList, RunList};
use hc_sparse::Run;
use hc_store::{Backend, StoreError};
use hc_stored::Entries;
use std::alloc::Global;

/// No byte is at this position, or behind it.
const END: u64 = 1 << 62;

/// The idle ones, first the one to which none was bound for longest.
pub(crate) fn items_of<B: Backend>(entries: &mut Entries<B>) -> Result<ContentList, StoreError>
    ensures items { IfOk result (λ items. AreContentsOf (shelf_of entries.old)
        (idle (shelf_of entries.old)) (map plain_item items)) }
    ensures same { Stays (shelf_of entries.old) (shelf_of entries.new) }
    ensures no_limit { HasNoLimit result }
    ensures cause { HasCause (shelf_of entries.old).faults (shelf_of entries.new).faults
        result }
{
    let idle = entries.idle()?;
    let alloc = *idle.allocator();
    let mut items = ContentList::new(alloc);
    for r in &idle {
        items.push(content_of(entries, *r, alloc)?)?;
    }
    Ok(items)
}

/// One of them: its key, its head as it is kept, and its bytes.
fn content_of<B: Backend>(
    entries: &mut Entries<B>,
    r: u64,
    alloc: Global,
) -> Result<Content, StoreError>
    requires { is_kept (shelf_of entries.old) r ≡ true }
    ensures item { IfOk result
        (λ item. IsContentOf (shelf_of entries.old) r (plain_item item)) }
    ensures same { Stays (shelf_of entries.old) (shelf_of entries.new) }
    ensures no_limit { HasNoLimit result }
    ensures cause { HasCause (shelf_of entries.old).faults (shelf_of entries.new).faults
        result }
{
    let key = entries.key(r).unwrap().copy()?;
    let head = entries.head(r)?;
    let runs = runs_of(entries, r, alloc)?;
    Ok(Content { key, r, head, runs })
}

/// Its bytes as the longest runs.
fn runs_of<B: Backend>(
    entries: &mut Entries<B>,
    r: u64,
    alloc: Global,
) -> Result<RunList, StoreError>
    requires { is_kept (shelf_of entries.old) r ≡ true }
    ensures runs { IfOk result (λ runs. (n : ℕ)
        → EndsBy n (cells_at (shelf_of entries.old) r)
        → runs ≡ runs_from (cells_at (shelf_of entries.old) r) 0 n) }
    ensures same { Stays (shelf_of entries.old) (shelf_of entries.new) }
    ensures no_limit { HasNoLimit result }
    ensures cause { HasCause (shelf_of entries.old).faults (shelf_of entries.new).faults
        result }
{
    let mut runs = RunList::new(alloc);
    let mut p = 0;
    'runs: while let Some(at) = entries.next_present(r, p) {
        let Some(run) = entries.run_at(r, at, (END - at) as usize)? else {
            unreachable!()
        };
        p = at + count_of(&run);
        runs.push(run)?;
    }
    Ok(runs)
}

fn count_of(run: &Run) -> u64
    ensures { result ≡ length run.now.bytes }
{
    run.bytes.len() as u64
}
