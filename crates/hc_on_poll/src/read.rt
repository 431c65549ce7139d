//! What a poll does for a consumer that reads what is stored.
ghost use Rattle.std.specs.Prelude.{◌≡◌, ◌+◌, ◌≤◌, ◌<◌, ◌^◌, ◌++◌, ◌&&◌, nat_eq, length, true, IsSomeAnd, OnOk};
ghost use Rattle.std.specs.Option.{option_or};
ghost use Rattle.std.specs.HashMap.{get};
ghost use Rattle.hc_event.specs.Acts.{act_list, spare};
ghost use Rattle.hc_event.specs.declared.event.Event.TheVariants.{Poll};
ghost use Rattle.hc_stored.specs.Entries.{shelf_of};
ghost use Rattle.hc_stored.specs.Shelf.{is_kept};
ghost use Rattle.hc_exch.specs.Exchanges.{table_of, Becomes};
ghost use Rattle.hc_exch.specs.Known.{is_open, with_asking};
ghost use Rattle.hc_model.specs.Currents.{is_number};
ghost use Rattle.hc_model.specs.Moves.{acts_of};
ghost use Rattle.hc_state.specs.Changes.{ChangesAt};
ghost use Rattle.hc_txn.specs.Transactions.{once_given};
ghost use Rattle.hc_state.specs.Leaving.{if_running, group_by};
ghost use Rattle.hc_state.specs.Stands.{Answers, KeepsRest};
ghost use Rattle.hc_state.specs.Handlers.{most, given_acts, asks_or_waits, asked_in};
ghost use Rattle.hc_state.specs.Reads.{headless_own, held_own};
ghost use Rattle.hc_state.specs.Frames.{KeepsFaults};
ghost use Rattle.hc_on_poll.specs.Ready.{MayOpen};
ghost use Rattle.hc_on_poll.specs.Readers.{is_held, reader_of, NextReadIs, Reads, ReadsUnstored};

use crate::hole::open_later_hole;
use crate::shown::is_headless;
use crate::wait::wait;
use hc_event::{Act, Acts, Cause, Wait};
use hc_on_leave::acts::put;
use hc_on_leave::leave::{end_reading, fail};
use hc_on_leave::misread::misread_by;
use hc_on_leave::writer_group::{group_in, if_running};
use hc_rules::ReadStep;
use hc_state::{Rows, Transaction, count_given};
use hc_store::Backend;
use hc_stored::EntryView;
use hc_text::{Bytes, NoMemory};

/// Who reads what is stored and was shown its head, as the reading looks at it.
#[derive(Clone, Copy)]
pub(crate) struct Reader {
    pub(crate) c: u64,
    /// The representation that it reads.
    pub(crate) r: u64,
    /// Where it stands in that.
    pub(crate) offset: u64,
    /// Where what it reads ends, if that is known.
    pub(crate) hi: Option<u64>,
    /// The exchange that is its own.
    pub(crate) own: Option<u64>,
    /// The failure that is due.
    pub(crate) due: Option<Cause>,
}

impl Reader {
    /// The consumer as a reader of the representation.
    pub(crate) fn of(c: u64, r: u64, consumer: &Transaction) -> Reader
        requires { consumer.now.lo + consumer.now.given < 2 ^ 63 }
        ensures { result ≡ reader_of c r consumer.now }
    {
        Reader {
            c,
            r,
            offset: consumer.offset(),
            hi: consumer.hi,
            own: consumer.own,
            due: consumer.due,
        }
    }
}

/// A consumer reads on that is bound and was shown its head.
pub(crate) fn read_bound<B: Backend>(
    rows: &mut Rows<B>,
    now: u64,
    reader: Reader,
    want: u32,
    out: &mut Acts,
) -> Result<(), NoMemory>
    requires opens { MayOpen rows.old }
    requires reads { IsSomeAnd (get nat_eq rows.old.consumers reader.c) (Reads reader) }
    requires wants { 0 < want }
    requires room { 3 ≤ spare out.old }
    ensures answers { OnOk result (Answers rows.old rows.new (act_list out.old) (act_list out.new)
        now (Poll reader.c want)) }
    ensures kept { KeepsFaults result rows.old rows.new (act_list out.old) (act_list out.new) }
{
    if let Some(x) = headless_own(rows, reader.own) {
        wait(reader.c, Wait::Head(x), out);
        return Ok(());
    }
    let count = most(reader.hi, reader.offset, want);
    if count == 0 {
        end_reading(rows, now, reader.c, out);
        return Ok(());
    }
    match rows.entries.run_at(reader.r, reader.offset, count) {
        Ok(Some(run)) => {
            give(rows, reader.c, run.x, run.at, run.bytes, out);
            Ok(())
        }
        Ok(None) => read_on(rows, now, reader, want, out),
        Err(error) => misread_by(rows, now, reader.c, reader.r, error, out),
    }
}

/// A consumer reads on that waits for no head and isn't at the end, where nothing is stored.
fn read_on<B: Backend>(
    rows: &mut Rows<B>,
    now: u64,
    reader: Reader,
    want: u32,
    out: &mut Acts,
) -> Result<(), NoMemory>
    requires opens { MayOpen rows.old }
    requires reads { IsSomeAnd (get nat_eq rows.old.consumers reader.c)
        (ReadsUnstored rows.old reader) }
    requires wants { 0 < want }
    requires room { 3 ≤ spare out.old }
    ensures answers { OnOk result (Answers rows.old rows.new (act_list out.old) (act_list out.new)
        now (Poll reader.c want)) }
    ensures kept { KeepsFaults result rows.old rows.new (act_list out.old) (act_list out.new) }
{
    match next_read(rows, reader) {
        ReadStep::Held => {
            let x = reader.own.unwrap();
            let count = most(reader.hi, reader.offset, want);
            let bytes = rows.exchanges.take_held(x, count)?;
            give(rows, reader.c, x, reader.offset, bytes, out);
            Ok(())
        }
        ReadStep::Failed(cause) => {
            fail(rows, now, reader.c, cause, out);
            Ok(())
        }
        ReadStep::Waits(x) => {
            ask(rows, reader.c, x, out);
            Ok(())
        }
        ReadStep::Hole(hole) => open_later_hole(rows, now, reader.c, reader.r, hole, out),
        // It isn't at its end, and nothing is stored there.
        ReadStep::Ended | ReadStep::Stored { .. } => unreachable!(),
    }
}

/// The exchange of its own for whose head the consumer waits.
fn headless_own<B: Backend>(rows: &Rows<B>, own: Option<u64>) -> Option<u64>
    ensures { result ≡ headless_own (table_of rows.now.exchanges) own }
{
    let x = own?;
    if is_headless(rows, x) { Some(x) } else { None }
}

/// What the transaction does next, where nothing is stored.
fn next_read<B: Backend>(rows: &Rows<B>, reader: Reader) -> ReadStep
    requires there { is_kept (shelf_of rows.now.entries) reader.r ≡ true }
    requires reads { IsSomeAnd (get nat_eq rows.now.consumers reader.c)
        (ReadsUnstored rows.now reader) }
    requires small { reader.offset < 2 ^ 63 }
    ensures { IsSomeAnd (get nat_eq rows.now.consumers reader.c)
        (NextReadIs rows.now reader result) }
{
    let consumer = rows.consumers.get(&reader.c).unwrap();
    let entry = rows.entries.entry(reader.r).unwrap();
    let held = is_held(rows, &entry, reader);
    let source = source(rows, &entry, reader.own);
    consumer.next_read(&rows.entries.bytes(reader.r), held, source)
}

/// Whether bytes are held for the consumer, which goes on alone with what is lost.
fn is_held<B: Backend>(rows: &Rows<B>, entry: &EntryView, reader: Reader) -> bool
    ensures { result ≡ is_held (table_of rows.now.exchanges) entry.now reader }
{
    goes_alone(entry, reader.c) && held_own(rows, reader.own) > 0
}

/// The consumer goes on alone with the representation, which is lost.
fn goes_alone(entry: &EntryView, c: u64) -> bool
    ensures { result ≡ (entry.now.is_lost && is_number entry.now.alone c) }
{
    entry.is_lost && entry.alone == Some(c)
}

/// How many bytes of the consumer's own exchange are held for it.
fn held_own<B: Backend>(rows: &Rows<B>, own: Option<u64>) -> usize
    ensures { result ≡ held_own (table_of rows.now.exchanges) own }
{
    match own {
        Some(x) => rows.exchanges.held(x),
        None => 0,
    }
}

/// The open exchange that a consumer of the representation reads from: its own, or that of the
/// writer group.
fn source<B: Backend>(rows: &Rows<B>, entry: &EntryView, own: Option<u64>) -> Option<u64>
    ensures { result ≡ option_or (if_running (table_of rows.now.exchanges) own)
        (group_by (table_of rows.now.exchanges) entry.now) }
{
    let own = if_running(rows, own);
    if own.is_some() {
        return own;
    }
    group_in(rows, entry)
}

/// A consumer is given these bytes of an exchange.
pub(crate) fn give<B: Backend>(
    rows: &mut Rows<B>,
    c: u64,
    x: u64,
    at: u64,
    bytes: Bytes,
    out: &mut Acts,
)
    requires fits { IsSomeAnd (get nat_eq rows.old.consumers c)
        (λ k. k.given + length bytes ≤ 2 ^ 62) }
    requires room { 1 ≤ spare out.old }
    ensures acts { act_list out.new ≡ act_list out.old ++ given_acts c x at bytes }
    ensures consumers { ChangesAt rows.old.consumers rows.new.consumers c
        (once_given (length bytes)) }
    ensures rest { KeepsRest rows.old rows.new }
    ensures exchanges { rows.new.exchanges ≡ rows.old.exchanges }
{
    count_given(&mut rows.consumers, c, bytes.len() as u64);
    put(out, Act::Given { c, x, at, bytes });
}

/// A consumer waits for the next bytes of an exchange, which are asked for where they aren't
/// yet.
pub(crate) fn ask<B: Backend>(rows: &mut Rows<B>, c: u64, x: u64, out: &mut Acts)
    requires running { is_open x (table_of rows.old.exchanges) ≡ true }
    requires room { 2 ≤ spare out.old }
    ensures acts { act_list out.new ≡ act_list out.old
        ++ acts_of c (asks_or_waits (asked_in (table_of rows.old.exchanges x).running) x) }
    ensures asked { Becomes with_asking x rows.old.exchanges rows.new.exchanges }
    ensures consumers { rows.new.consumers ≡ rows.old.consumers }
    ensures rest { KeepsRest rows.old rows.new }
{
    let view = rows.exchanges.view(x).unwrap();
    if !view.asked {
        put(out, Act::Ask { x });
        rows.exchanges.ask(x);
    }
    wait(c, Wait::Body(x), out);
}

/// As many bytes as are wanted, and not past the end.
pub(crate) fn most(hi: Option<u64>, offset: u64, want: u32) -> usize
    requires { offset ≤ 2 ^ 62 }
    ensures { result ≡ most hi offset want }
{
    let wanted = offset + u64::from(want);
    let end = match hi {
        Some(hi) => hi.min(wanted),
        None => wanted,
    };
    end.saturating_sub(offset) as usize
}
