//! Calls of what is kept of representations, over a store.
ghost use Rattle.std.specs.Prelude.{◌≡◌, true};
ghost use Rattle.hc_stored.specs.Entries.{shelf_of};
ghost use Rattle.hc_stored.specs.Shelf.{is_kept};

use crate::samples::{Sample, fails_of, limits_of};
use crate::values::{report_read, report_some};
use hc_record::{Kind, StoredHead};
use hc_rules::Write;
use hc_sparse::{Presence, Span2};
use hc_store::{Backend, Failing, Memory, StoreError};
use hc_stored::Entries;
use hc_test_frame::{Fault, Vector, note, quote};
use hc_text::{Key, NoMemory};

/// Past the last position that there may be.
const END: u64 = 1 << 62;

/// Representations over a store in memory that fails where it is told to.
#[derive(Drop)]
pub(crate) struct Shelf {
    entries: Option<Entries<Failing<Memory>>>,
}

impl Shelf {
    /// There is no store.
    pub(crate) fn new() -> Shelf {
        Shelf { entries: None }
    }

    /// Makes the call, and writes what it answers.
    pub(crate) fn note(
        &mut self,
        sample: &Sample,
        v: &Vector,
        to: &mut String,
    ) -> Result<(), Fault> {
        match v.call() {
            call if call.starts_with("entries_new nn") => self.begin(v, to),
            _ => self.report_of_entries(sample, v, to),
        }
    }

    fn report_of_entries(
        &mut self,
        sample: &Sample,
        v: &Vector,
        to: &mut String,
    ) -> Result<(), Fault> {
        match &mut self.entries {
            Some(entries) => call_of_all(entries, sample, v, to),
            None => Err(Fault::NoSuchCall),
        }
    }

    fn begin(&mut self, v: &Vector, to: &mut String) -> Result<(), Fault> {
        let limits = limits_of(v);
        let store = Failing::new(Memory::new(v.alloc(), limits), fails_of(v)?);
        self.entries = Some(Entries::new(store, limits, v.alloc())?);
        to.push_str("nothing")?;
        Ok(())
    }
}

/// Makes a call of all, which tells of them or founds one more, or else a call of one.
fn call_of_all<B: Backend>(
    entries: &mut Entries<B>,
    sample: &Sample,
    v: &Vector,
    to: &mut String,
) -> Result<(), Fault> {
    match v.call() {
        "entries_used" => note(&(entries.used(), entries.store().used()), to),
        "entries_first_idle" => note(&entries.first_idle(), to),
        "entries_room_for_slot" => note(&entries.room(Write::Slot), to),
        "entries_room_for_piece nn" => {
            let stored = v.number(0);
            let count = v.number(1);
            note(&entries.room(Write::Piece { stored, count }), to)
        }
        "entries_found nn" => report_some(&found(entries, sample, v)?, to),
        _ => call_of_one(entries, sample, v, to),
    }
}

/// Makes a call that tells of one, or else one that needs what is kept of it.
fn call_of_one<B: Backend>(
    entries: &mut Entries<B>,
    sample: &Sample,
    v: &Vector,
    to: &mut String,
) -> Result<(), Fault> {
    let r = v.number(0);
    match v.call() {
        "entries_entry n" => note(&entries.entry(r), to),
        "entries_total_and_kind n" => note(&total_and_kind(entries, r), to),
        "entries_bound n" => note(&entries.bound(r), to),
        "entries_key n" => report_key(entries.key(r), to),
        "entries_tag_is_weak n" => note(&tag_is_weak(entries, r), to),
        "entries_answered n" => note(&answered(entries, r), to),
        "entries_covers nnn" => report_some(&covers(entries, r, v.number(1), v.number(2)), to),
        _ => change(entries, sample, v, to),
    }
}

fn total_and_kind<B: Backend>(entries: &Entries<B>, r: u64) -> Option<(Option<u64>, Kind)> {
    let view = entries.entry(r)?;
    Some((view.total, view.kind))
}

fn tag_is_weak<B: Backend>(entries: &Entries<B>, r: u64) -> Option<bool> {
    Some(entries.tag(r)?.weak)
}

fn answered<B: Backend>(entries: &Entries<B>, r: u64) -> Option<u64> {
    Some(entries.facts(r)?.answered)
}

fn report_key(key: Option<&Key>, to: &mut String) -> Result<(), Fault> {
    match key {
        Some(key) => quote(key.bytes.as_slice(), to)?,
        None => to.push_str("None")?,
    }
    Ok(())
}

/// Makes a call that reads or changes the head or the bytes of one, or else one of its users.
fn change<B: Backend>(
    entries: &mut Entries<B>,
    sample: &Sample,
    v: &Vector,
    to: &mut String,
) -> Result<(), Fault> {
    let r = v.number(0);
    if entries.entry(r).is_none() {
        return Err(Fault::NoSuchCall);
    }
    match v.call() {
        "entries_put nnt" => report_some(&put(entries, r, v.number(1), v.text(2)), to),
        "entries_update n" => note(&entries.update(r, &sample.head), to),
        "entries_seal n" => note(&entries.seal(r, Kind::Truncated, Some(7)), to),
        "entries_head n" => report_head(entries, r, to),
        "entries_run nn" => report_run(entries, r, v.number(1), to),
        _ => change_users(entries, r, v, to),
    }
}

/// Reads the head of one, and writes its status.
fn report_head<B: Backend>(entries: &mut Entries<B>, r: u64, to: &mut String) -> Result<(), Fault>
    requires { is_kept (shelf_of entries.old) r ≡ true }
{
    let read = entries.head(r);
    note(&status_of(&read), to)
}

fn status_of(read: &Result<StoredHead, StoreError>) -> Result<u16, StoreError> {
    match read {
        Ok(head) => Ok(head.status),
        Err(error) => Err(*error),
    }
}

/// Reads some bytes of one, and writes them.
fn report_run<B: Backend>(
    entries: &mut Entries<B>,
    r: u64,
    p: u64,
    to: &mut String,
) -> Result<(), Fault>
    requires { is_kept (shelf_of entries.old) r ≡ true }
{
    let read = entries.run_at(r, p, 9);
    report_read(&read, to)
}

/// Makes a call that changes who uses one, and writes what it answers.
fn change_users<B: Backend>(
    entries: &mut Entries<B>,
    r: u64,
    v: &Vector,
    to: &mut String,
) -> Result<(), Fault>
    requires { is_kept (shelf_of entries.old) r ≡ true }
{
    let n = v.number(1);
    match v.call() {
        "entries_bind nn" => report_some(&bind(entries, r, n), to),
        "entries_bind_first nn" => report_some(&bind_first(entries, r, n), to),
        "entries_unbind n" => report_some(&unbind(entries, r), to),
        _ => {
            lose(entries, r, v)?;
            to.push_str("done")?;
            Ok(())
        }
    }
}

/// Makes a call that changes who uses one, and that answers nothing.
fn lose<B: Backend>(entries: &mut Entries<B>, r: u64, v: &Vector) -> Result<(), Fault>
    requires { is_kept (shelf_of entries.old) r ≡ true }
{
    match v.call() {
        "entries_forget n" => entries.forget(r),
        "entries_lose nn" => entries.lose(r, v.option(1)),
        "entries_set_writer nn" => match entries.entry(r) {
            Some(entry) if !entry.is_lost => entries.set_writer(r, v.number(1))?,
            _ => return Err(Fault::NoSuchCall),
        },
        _ => return Err(Fault::NoSuchCall),
    }
    Ok(())
}

/// Founds one to which a consumer is bound, alone, or says that it is kept already.
fn found<B: Backend>(
    entries: &mut Entries<B>,
    sample: &Sample,
    v: &Vector,
) -> Result<Option<Result<(), StoreError>>, Fault> {
    let r = v.number(0);
    if entries.entry(r).is_some() {
        return Ok(None);
    }
    let key = sample.key.copy()?;
    Ok(Some(entries.found(r, key, &sample.head, v.number(1), true, Some(9))))
}

/// Puts bytes at positions that are absent, or says that they aren't.
fn put<B: Backend>(
    entries: &mut Entries<B>,
    r: u64,
    at: u64,
    bytes: &[u8],
) -> Option<Result<(), StoreError>>
    requires { is_kept (shelf_of entries.old) r ≡ true }
{
    let len = bytes.len() as u64;
    if len == 0 || len > END || at > END - len {
        return None;
    }
    match entries.next_present(r, at) {
        Some(n) if n < at + len => None,
        _ => Some(entries.put(r, at, 1, bytes, Some(Kind::Whole))),
    }
}

/// Whether all these bytes are there, told in both ways.
fn covers<B: Backend>(entries: &Entries<B>, r: u64, lo: u64, hi: u64) -> Option<(bool, bool)> {
    entries.entry(r)?;
    let reported = entries.covers(r, lo, hi);
    Some((reported, entries.bytes(r).covers(Span2 { lo, hi })))
}

/// Binds one to a representation to which another is bound, or nobody.
fn bind<B: Backend>(entries: &mut Entries<B>, r: u64, c: u64) -> Option<Result<(), NoMemory>> {
    if entries.entry(r)?.is_gone {
        return None;
    }
    match entries.bound(r) {
        [] => Some(entries.bind(r, c)),
        [other] if *other != c => Some(entries.bind(r, c)),
        _ => None,
    }
}

/// Binds one that comes alone to a representation to which nobody is bound.
fn bind_first<B: Backend>(
    entries: &mut Entries<B>,
    r: u64,
    c: u64,
) -> Option<Result<(), NoMemory>> {
    let view = entries.entry(r)?;
    if view.is_gone || view.first.is_some() {
        return None;
    }
    match entries.bound(r) {
        [] => Some(entries.bind_first(r, c)),
        _ => None,
    }
}

/// The last one that is bound leaves.
fn unbind<B: Backend>(entries: &mut Entries<B>, r: u64) -> Option<u64> {
    let c = match entries.bound(r) {
        [c] => *c,
        _ => return None,
    };
    entries.unbind(r, c, true);
    Some(c)
}
