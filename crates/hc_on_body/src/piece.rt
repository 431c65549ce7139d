//! Pieces of exchanges.
ghost use Rattle.std.specs.Prelude.{◌≡◌, ◌+◌, ◌≤◌, ◌<◌, ◌^◌, ◌++◌, ◌∷◌, ◌↔◌, [], IsTrue, ℕ, List, length, take, true, Ok, Some, None, OnOk, OnErr};
ghost use Rattle.hc_sparse.specs.Cells.{AreAbsent, Covers, cells_with};
ghost use Rattle.hc_store.specs.Causes.{HasCause, IsWithin};
ghost use Rattle.hc_event.specs.Acts.{act_list, spare};
ghost use Rattle.hc_event.specs.declared.act.Act.{Act};
ghost use Rattle.hc_event.specs.declared.act.Act.TheVariants as act;
ghost use Rattle.hc_event.specs.declared.act.LostKind.{LostKind};
ghost use Rattle.hc_event.specs.declared.event.Event.TheVariants.{Piece};
ghost use Rattle.hc_rules.specs.Refusals.{piece_refusal};
ghost use Rattle.hc_stored.specs.Entries.{shelf_of};
ghost use Rattle.hc_stored.specs.Kept.{Kept};
ghost use Rattle.hc_stored.specs.Shelf as shelf;
ghost use Rattle.hc_stored.specs.Shelf.{cells_at, size_at};
ghost use Rattle.hc_stored.specs.Views.{view_of};
ghost use Rattle.hc_exch.specs.declared.row.Open.{Open};
ghost use Rattle.hc_exch.specs.Exchanges.{table_of};
ghost use Rattle.hc_exch.specs.Known.{is_all};
ghost use Rattle.hc_model.specs.Effects.{as_gone, lost_to};
ghost use Rattle.hc_model.specs.Rows.{Tables, Exchange, Representation};
ghost use Rattle.hc_rules.specs.declared.room.Limits.{Limits};
ghost use Rattle.hc_state.specs.Pieces.{stored_by, larger_view, IsLastKind, PutsPiece};
ghost use Rattle.hc_state.specs.Refused.{brought_lost, own_loss, LosesPiece, MayLoseOwn, MayLosePiece, RefusesPiece};
ghost use Rattle.hc_state.specs.Stands.{RowsStand, Stays, Answers, Stands, open_at};
ghost use Rattle.hc_state.specs.Stopped.{KeepsBesideEntries};
ghost use Rattle.hc_state.specs.Stops.{kind_left, IsViewOf};
ghost use Rattle.hc_on_body.specs.Arrivals.{HasPlace, IsPieceFor, MayBring};

use hc_event::{Acts, LostKind};
use hc_exch::{ExchangeView, Role};
use hc_on_leave::close::close;
use hc_on_leave::evict::make_room;
use hc_on_leave::lose::{lose_shared, lost_kind};
use hc_on_leave::seal::lose_to;
use hc_on_leave::writer_group::writer_group;
use hc_on_leave::writers::exclusive;
use hc_record::Kind;
use hc_rules::Write;
use hc_state::Rows;
use hc_store::{Backend, StoreError};
use hc_text::NoMemory;

/// A piece of an exchange: what is stored grows by it, or it is held until it is read.
pub fn take_piece<B: Backend>(
    rows: &mut Rows<B>,
    now: u64,
    x: u64,
    bytes: &[u8],
    out: &mut Acts,
) -> Result<(), NoMemory>
    requires stands { ∥ Stands rows.old ∥₁ }
    requires accepted { piece_refusal (open_at rows.old x) (length bytes.now) ≡ None }
    requires short { length bytes.now ≤ 65536 }
    requires room { 4 ≤ spare out.old }
    ensures answers { OnOk result (Answers rows.old rows.new (act_list out.old) (act_list out.new)
        now (Piece x bytes.now)) }
    ensures faults { (shelf_of rows.old.entries).faults ≤ (shelf_of rows.new.entries).faults }
    ensures kept { OnErr result (act_list out.new ≡ act_list out.old) }
{
    let Some(r) = stored_by(rows, x) else {
        return hold_piece(rows, x, bytes);
    };
    let count = out.list().len();
    let taken = grow(rows, now, x, r, bytes, out);
    if taken.is_err() {
        out.truncate(count);
    }
    taken
}

/// The representation grows by a piece. Where the store refuses that, it is lost.
fn grow<B: Backend>(
    rows: &mut Rows<B>,
    now: u64,
    x: u64,
    r: u64,
    bytes: &[u8],
    out: &mut Acts,
) -> Result<(), NoMemory>
    requires comes { IsPieceFor rows.old x (length bytes.now) (Some r) }
    requires room { 4 ≤ spare out.old }
    ensures answers { OnOk result (Answers rows.old rows.new (act_list out.old) (act_list out.new)
        now (Piece x bytes.now)) }
    ensures faults { (shelf_of rows.old.entries).faults ≤ (shelf_of rows.new.entries).faults }
    ensures front { take (length (act_list out.old)) (act_list out.new) ≡ act_list out.old }
{
    let writer_group = writer_group(rows, r).is_some();
    let alone = exclusive(rows, r);
    match store_piece(rows, now, x, r, bytes, out)? {
        None => Ok(()),
        Some(kind) if writer_group => lose_shared_piece(rows, now, x, r, bytes, kind, out),
        Some(kind) => lose_own_piece(rows, now, x, r, alone, bytes, kind, out),
    }
}

/// A piece of who writes alone was refused: what is stored is lost, and it goes on with what
/// comes, which is held for it.
fn lose_own_piece<B: Backend>(
    rows: &mut Rows<B>,
    now: u64,
    x: u64,
    r: u64,
    alone: Option<u64>,
    bytes: &[u8],
    kind: LostKind,
    out: &mut Acts,
) -> Result<(), NoMemory>
    requires may { MayBring rows.old x r (length bytes.now) }
    requires room { 1 ≤ spare out.old }
    ensures lost { OnOk result ((limits : Limits) (t : Tables) (w : Exchange) (v : Representation)
        → MayLoseOwn t now r x w v alone → RowsStand limits rows.old t
        → RowsStand limits rows.new (brought_lost now r x w bytes.now (as_gone (lost_to alone v))
        (own_loss now r v alone t))) }
    ensures acts { act_list out.new ≡ act_list out.old ++ act.Lost r kind ∷ [] }
    ensures faults { (shelf_of rows.new.entries).faults ≡ (shelf_of rows.old.entries).faults }
{
    lose_to(rows, now, r, alone, kind, out);
    rows.exchanges.piece(x, bytes, true)?;
    Ok(())
}

/// A piece that is written for several was refused: what is stored is lost. Who has read all of
/// that goes on with what comes, which is held for it; where nobody does, the exchange is closed.
fn lose_shared_piece<B: Backend>(
    rows: &mut Rows<B>,
    now: u64,
    x: u64,
    r: u64,
    bytes: &[u8],
    kind: LostKind,
    out: &mut Acts,
) -> Result<(), NoMemory>
    requires may { MayBring rows.old x r (length bytes.now) }
    requires room { 2 ≤ spare out.old }
    ensures lost { OnOk result ((limits : Limits) (t : Tables) (w : Exchange) (v : Representation)
        → MayLosePiece t now r x w v → RowsStand limits rows.old t → LosesPiece limits rows.new t
        (act_list out.old) (act_list out.new) now r x bytes.now w v kind) }
    ensures front { take (length (act_list out.old)) (act_list out.new) ≡ act_list out.old }
    ensures faults { (shelf_of rows.new.entries).faults ≡ (shelf_of rows.old.entries).faults }
{
    let detached_reader = lose_shared(rows, now, r, x, kind, out);
    let over = rows.exchanges.piece(x, bytes, detached_reader.is_some())?;
    if detached_reader.is_some() {
        return Ok(());
    }
    if !over {
        close(rows, x, out);
    }
    Ok(())
}

/// The representation that grows by what the exchange brings. None where that goes past the
/// store, or was lost.
pub(crate) fn stored_by<B: Backend>(rows: &Rows<B>, x: u64) -> Option<u64>
    ensures { result ≡ stored_by rows.now x }
{
    let Role::Body { r } = rows.exchanges.view(x)?.role else {
        return None;
    };
    if rows.entries.entry(r)?.is_lost {
        return None;
    }
    Some(r)
}

/// A piece of which nothing is stored: it is held until it is read. Past the store that is by
/// whom it was asked for, and of what was lost by its detached reader.
pub(crate) fn hold_piece<B: Backend>(
    rows: &mut Rows<B>,
    x: u64,
    bytes: &[u8],
) -> Result<(), NoMemory>
    requires comes { IsPieceFor rows.old x (length bytes.now) None }
    ensures answers { OnOk result ((now : ℕ) (before : List Act)
        → Answers rows.old rows.new before before now (Piece x bytes.now)) }
    ensures faults { (shelf_of rows.new.entries).faults ≡ (shelf_of rows.old.entries).faults }
    ensures err { OnErr result (Stays rows.old rows.new) }
{
    rows.exchanges.piece(x, bytes, true)?;
    Ok(())
}

/// What is idle makes room for a piece, and then it is stored. Where the store refuses that, it
/// isn't counted yet, and this is why.
pub(crate) fn store_piece<B: Backend>(
    rows: &mut Rows<B>,
    now: u64,
    x: u64,
    r: u64,
    bytes: &[u8],
    out: &mut Acts,
) -> Result<Option<LostKind>, NoMemory>
    requires comes { IsPieceFor rows.old x (length bytes.now) (Some r) }
    requires room { 4 ≤ spare out.old }
    ensures answers { result ≡ Ok None → Answers rows.old rows.new (act_list out.old)
        (act_list out.new) now (Piece x bytes.now) }
    ensures refused { (kind : LostKind) → result ≡ Ok (Some kind) → RefusesPiece rows.old
        rows.new now x r bytes.now kind (act_list out.old) (act_list out.new) (spare out.new) }
    ensures faults { (shelf_of rows.old.entries).faults ≤ (shelf_of rows.new.entries).faults }
    ensures front { take (length (act_list out.old)) (act_list out.new) ≡ act_list out.old }
{
    let entry = rows.entries.entry(r).unwrap();
    let count = bytes.len() as u64;
    let write = Write::Piece {
        stored: entry.size,
        count,
    };
    make_room(rows, now, write, out);
    if let Err(error) = put_piece(rows, x, r, bytes) {
        return Ok(Some(lost_kind(error)?));
    }
    rows.exchanges.piece(x, bytes, false)?;
    Ok(None)
}

/// The bytes are put where the front of their exchange is, with what the representation is where
/// they are its last.
fn put_piece<B: Backend>(rows: &mut Rows<B>, x: u64, r: u64, bytes: &[u8]) -> Result<(), StoreError>
    requires may { MayBring rows.old x r (length bytes.now) }
    requires absent { (o : Open) → (table_of rows.old.exchanges x).running ≡ Some o
        → AreAbsent (cells_at (shelf_of rows.old.entries) r) (o.base + o.delivered)
        (o.base + o.delivered + length bytes.now) }
    ensures ok { OnOk result ((o : Open) → (table_of rows.old.exchanges x).running ≡ Some o
        → PutsPiece rows.old rows.new x r o bytes.now) }
    ensures err { OnErr result
        (shelf.Stays (shelf_of rows.old.entries) (shelf_of rows.new.entries)) }
    ensures within { IsWithin (shelf_of rows.old.entries).limits
        (size_at (shelf_of rows.old.entries) r + length bytes.now)
        ((shelf_of rows.old.entries).used + length bytes.now) result }
    ensures cause { HasCause (shelf_of rows.old.entries).faults
        (shelf_of rows.new.entries).faults result }
    ensures rest { KeepsBesideEntries rows.old rows.new }
{
    let view = rows.exchanges.view(x).unwrap();
    let at = view.base + view.delivered;
    let last = last_kind(rows, r, &view, bytes.len() as u64);
    rows.entries.put(r, at, x, bytes, last)
}

/// What is stored of the representation once its exchange is over with so many bytes more, or
/// nothing where it isn't.
fn last_kind<B: Backend>(rows: &Rows<B>, r: u64, view: &ExchangeView, count: u64) -> Option<Kind>
    requires place { HasPlace (shelf_of rows.now.entries) r
        (view.now.base + view.now.delivered) count }
    ensures { (x : ℕ) (bytes : List ℕ) (v : Representation) (k : Kept)
        → length bytes ≡ count → (shelf_of rows.now.entries).kept r ≡ Some k
        → IsViewOf v (cells_with (view.now.base + view.now.delivered) x bytes k.cells)
        (larger_view count (view_of k))
        → IsLastKind (is_all view.now.promised (view.now.delivered + count)) v result }
{
    let Some(promised) = view.promised else {
        return None;
    };
    if promised != view.delivered + count {
        return None;
    }
    Some(kind_with(rows, r, view.base + view.delivered, count))
}

/// What is stored of it with so many bytes more from a position on, of which nothing more comes.
fn kind_with<B: Backend>(rows: &Rows<B>, r: u64, at: u64, count: u64) -> Kind
    requires place { HasPlace (shelf_of rows.now.entries) r at count }
    ensures { (x : ℕ) (bytes : List ℕ) (v : Representation) (k : Kept)
        → length bytes ≡ count → (shelf_of rows.now.entries).kept r ≡ Some k
        → IsViewOf v (cells_with at x bytes k.cells) (larger_view count (view_of k))
        → result ≡ kind_left v }
{
    let entry = rows.entries.entry(r).unwrap();
    if let Some(total) = entry.total {
        if covers_with(rows, r, at, count, total) {
            return Kind::Whole;
        }
    }
    if covers_with(rows, r, at, count, entry.size + count) {
        Kind::Truncated
    } else {
        Kind::Ranges
    }
}

/// Whether all positions from 0 to below the end are present, with so many more from one on.
fn covers_with<B: Backend>(rows: &Rows<B>, r: u64, at: u64, count: u64, end: u64) -> bool
    requires place { HasPlace (shelf_of rows.now.entries) r at count }
    ensures { (x : ℕ) (bytes : List ℕ) → length bytes ≡ count
        → IsTrue result ↔ Covers (cells_with at x bytes (cells_at (shelf_of rows.now.entries) r))
        0 end }
{
    rows.entries.covers(r, 0, at.min(end)) && rows.entries.covers(r, at + count, end)
}
