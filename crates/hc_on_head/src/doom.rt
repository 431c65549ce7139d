//! What a doom does.
ghost use Rattle.std.specs.Prelude.{◌≡◌, ◌≤◌, ℕ, true, nat_eq, nat_le, IfSome, option_and_then};
ghost use Rattle.std.specs.HashMap.{get, hash_map_len};
ghost use Rattle.hc_event.specs.Acts.{act_list, spare};
ghost use Rattle.hc_event.specs.declared.event.Event.TheVariants.{Doom};
ghost use Rattle.hc_stored.specs.Entries.{shelf_of};
ghost use Rattle.hc_entry.specs.Keys.{line_of, seated_at, Becomes};
ghost use Rattle.hc_entry.specs.Kept.{on_line};
ghost use Rattle.hc_entry.specs.Lines.{is_in, all_back};
ghost use Rattle.hc_exch.specs.Exchanges.{table_of};
ghost use Rattle.hc_exch.specs.Known.{is_open};
ghost use Rattle.hc_model.specs.Effects.{woken};
ghost use Rattle.hc_model.specs.Lawful.{Lawful};
ghost use Rattle.hc_model.specs.Rows.{Tables};
ghost use Rattle.hc_rules.specs.declared.room.Limits.{Limits};
ghost use Rattle.hc_state.specs.Changes.{ChangesAt, ChangesAmong};
ghost use Rattle.hc_txn.specs.Transactions.{once_over};
ghost use Rattle.hc_state.specs.Dooms.{awaited_by, IsAwaited, IsToClose, IsNext, AreAtMost, behind, nearer, Closes, IsUnheard, KeepsLine, KeepsSomeLine, IsUser, Unbinds, IsDoomed};
ghost use Rattle.hc_state.specs.Stands.{Answers, RowsStand, Stands};
ghost use Rattle.hc_state.specs.Stored.{KeepsEntries};
ghost use Rattle.hc_state.specs.Frames.{KeepsExchanges};
ghost use Rattle.hc_on_head.specs.Frames.{ChangesExchanges};

use hc_event::Acts;
use hc_on_leave::close::close;
use hc_on_leave::evict::let_some_go;
use hc_on_leave::gone::unbind_from;
use hc_rules::lesser;
use hc_state::{Rows, awaited, start_over};
use hc_store::Backend;
use hc_text::Key;

/// A doom comes for the key.
pub fn take_doom<B: Backend>(rows: &mut Rows<B>, now: u64, key: &Key, out: &mut Acts)
    requires stands { ∥ Stands rows.old ∥₁ }
    requires room { hash_map_len rows.old.consumers ≤ spare out.old }
    ensures answers { Answers rows.old rows.new (act_list out.old) (act_list out.new) now
        (Doom key.now) }
    ensures faults { (shelf_of rows.new.entries).faults ≡ (shelf_of rows.old.entries).faults }
{
    doom(rows, now, key, None, out);
}

/// The key is doomed: whoever waits for it starts over, and what is current is let go. The
/// exchanges are closed for whose heads they wait, as is the one whose head is refused at the same
/// time, if there is one.
pub(crate) fn doom<B: Backend>(
    rows: &mut Rows<B>,
    now: u64,
    key: &Key,
    refused: Option<u64>,
    out: &mut Acts,
)
    requires stands { ∥ Stands rows.old ∥₁ }
    requires unheard { IfSome refused (IsUnheard (table_of rows.old.exchanges) key.now) }
    requires room { hash_map_len rows.old.consumers ≤ spare out.old }
    ensures doomed { (limits : Limits) (t : Tables) → Lawful t → RowsStand limits rows.old t
        → IsDoomed limits rows.new t (act_list out.old) (act_list out.new) now key.now refused }
    ensures faults { (shelf_of rows.new.entries).faults ≡ (shelf_of rows.old.entries).faults }
{
    let current = rows.keys.current(key);
    close_awaited(rows, key, refused, out);
    wake(rows, now, key);
    let_some_go(rows, now, current);
}

/// Whoever waits for the key starts over, and is bound to nothing any more.
fn wake<B: Backend>(rows: &mut Rows<B>, now: u64, key: &Key)
    requires waits { ∥ KeepsSomeLine rows.old key.now ∥₁ }
    ensures consumers { ChangesAmong rows.old.consumers rows.new.consumers
        (λ c. is_in c (line_of rows.old.keys key.now)) (once_over now) }
    ensures keys { Becomes (on_line all_back) key.now rows.old.keys rows.new.keys }
    ensures entries { (t : Tables) → Lawful t → KeepsLine rows.old t key.now
        → KeepsEntries (woken now key.now t) (shelf_of rows.new.entries) }
    ensures bounded { (shelf_of rows.new.entries).limits ≡ (shelf_of rows.old.entries).limits }
    ensures rest { KeepsExchanges rows.old rows.new }
{
    for i in 0..rows.keys.seats(key) {
        if let Some(c) = rows.keys.seated(key, i) {
            wake_one(rows, now, c);
        }
    }
    rows.keys.all_back(key);
}

/// A consumer starts over, and is bound to nothing any more.
fn wake_one<B: Backend>(rows: &mut Rows<B>, now: u64, c: u64)
    requires { IsUser (get nat_eq rows.old.consumers c) c (shelf_of rows.old.entries) }
    ensures over { ChangesAt rows.old.consumers rows.new.consumers c (once_over now) }
    ensures unbound { Unbinds (get nat_eq rows.old.consumers c) c
        (shelf_of rows.old.entries) (shelf_of rows.new.entries) }
    ensures keys { rows.new.keys ≡ rows.old.keys }
    ensures rest { KeepsExchanges rows.old rows.new }
{
    if let Some(consumer) = rows.consumers.get(&c) {
        unbind_from(&mut rows.entries, consumer.place, c);
    }
    start_over(&mut rows.consumers, c, now);
}

/// Closes, in ascending order of their numbers, the exchanges for whose heads those wait who wait
/// for the key, and the refused one.
fn close_awaited<B: Backend>(rows: &mut Rows<B>, key: &Key, refused: Option<u64>, out: &mut Acts)
    requires running { (x : ℕ) → IsToClose rows.old key.now refused x
        → is_open x (table_of rows.old.exchanges) ≡ true }
    requires few { AreAtMost (spare out.old) (IsToClose rows.old key.now refused) }
    ensures closes { Closes rows.old rows.new.exchanges key.now refused
        (act_list out.old) (act_list out.new) }
    ensures rest { ChangesExchanges rows.old rows.new }
{
    let mut last = None;
    while let Some(x) = next_to_close(rows, key, refused, last) {
        close(rows, x, out);
        last = Some(x);
    }
}

/// The least one that is to be closed, behind the last that was, if one was.
fn next_to_close<B: Backend>(
    rows: &Rows<B>,
    key: &Key,
    refused: Option<u64>,
    last: Option<u64>,
) -> Option<u64>
    ensures { IsNext (IsToClose rows.now key.now refused) (behind last) result }
{
    let mut next = nearer(None, refused, last);
    for i in 0..rows.keys.seats(key) {
        next = nearer(next, awaited_at(rows, key, i), last);
    }
    next
}

/// The exchange for whose head the consumer of a seat waits.
fn awaited_at<B: Backend>(rows: &Rows<B>, key: &Key, i: usize) -> Option<u64>
    ensures there { result
        ≡ option_and_then (awaited_by rows.now) (seated_at rows.now.keys key.now i) }
    ensures inside { IfSome result (λ x. IsAwaited rows.now key.now x) }
{
    let c = rows.keys.seated(key, i)?;
    awaited(rows.consumers.get(&c)?.place)
}

/// The lesser of both, where there is a second one and it comes behind the last.
fn nearer(next: Option<u64>, x: Option<u64>, last: Option<u64>) -> Option<u64>
    ensures { result ≡ nearer (behind last) next x }
{
    match x {
        Some(x) if comes_behind(x, last) => lesser(next, x),
        _ => next,
    }
}

/// Whether the number comes behind the last, if there was one.
fn comes_behind(x: u64, last: Option<u64>) -> bool
    ensures { result ≡ nat_le (behind last) x }
{
    match last {
        Some(last) => x > last,
        None => true,
    }
}
