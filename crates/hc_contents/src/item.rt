//! Whether an item is right in itself.
ghost use Rattle.std.specs.Prelude.{◌≡◌, ◌<◌, ◌^◌, ◌==◌, ◌&&◌, not, nat_lt, nat_le, List, length};
ghost use Rattle.std.specs.List.{list_any};
ghost use Rattle.hc_sparse.specs.Runs.{end_of};
ghost use Rattle.hc_sparse.specs.declared.run.Run.{Run};
ghost use Rattle.hc_model.specs.Tables.{last_end, bytes_in};
ghost use Rattle.hc_model.specs.Beginnings.{kind_of_runs, is_whole, needs_tag};
ghost use Rattle.hc_contents.specs.Fit.{could_come, is_right, extent_of};
ghost use Rattle.hc_contents.specs.PlainContents.{plain_item};

use crate::contents::Content;
use hc_fields::has_field;
use hc_record::{Kind, StoredHead};
use hc_rules::brings_part;
use hc_sparse::Run;

/// Where some runs end, and how many bytes they have.
#[derive(Clone, Copy)]
pub(crate) struct Extent {
    pub(crate) end: u64,
    pub(crate) bytes: u64,
}

/// Whether its runs rise and end by its length, have no more bytes than they may, and are of its
/// kind, and its head is one that could have come by this moment.
pub(crate) fn is_right(item: &Content, now: u64, most: u64) -> bool
    ensures { result ≡ is_right now most (plain_item item.now) }
{
    let Some(total) = item.head.total else {
        return false;
    };
    let Some(extent) = extent_of(item.runs.as_slice(), total) else {
        return false;
    };
    item.head.kind == kind_of(extent, total) && extent.bytes <= most && has_right_head(item, now)
}

/// Where the runs end, if they rise without overlap, each has a byte, where two touch they are of
/// different exchanges, and all end by the length.
fn extent_of(runs: &[Run], total: u64) -> Option<Extent>
    requires { total < 2 ^ 62 }
    ensures { result ≡ extent_of runs.now total }
{
    let mut extent = Extent { end: 0, bytes: 0 };
    let mut x = 0;
    for run in runs {
        if !comes_behind(run, extent.end, x) || !ends_by(run, total) {
            return None;
        }
        let count = count_of(run);
        extent = Extent {
            end: run.at + count,
            bytes: extent.bytes + count,
        };
        x = run.x;
    }
    Some(extent)
}

/// Whether a run has a byte and comes behind what ends there, and doesn't go on with it, which is of
/// the exchange `x`.
fn comes_behind(run: &Run, end: u64, x: u64) -> bool
    ensures { result ≡ (nat_le end run.now.at && nat_lt 0 (length run.now.bytes)
        && not (run.now.at == end && run.now.x == x)) }
{
    run.at >= end && count_of(run) > 0 && !(run.at == end && run.x == x)
}

/// Whether it ends by this position.
fn ends_by(run: &Run, total: u64) -> bool
    ensures { result ≡ nat_le (end_of run.now) total }
{
    run.at <= total && count_of(run) <= total - run.at
}

/// How many bytes a run has.
pub(crate) fn count_of(run: &Run) -> u64
    ensures { result ≡ length run.now.bytes }
{
    run.bytes.len() as u64
}

/// The kind of what has such runs and such a length.
fn kind_of(extent: Extent, total: u64) -> Kind
    ensures { (runs : List Run) → extent.end ≡ last_end runs → extent.bytes ≡ bytes_in runs
        → result ≡ kind_of_runs runs total }
{
    let is_prefix = extent.end == extent.bytes;
    if is_prefix && extent.bytes == total {
        Kind::Whole
    } else if is_prefix && extent.bytes > 0 {
        Kind::Truncated
    } else {
        Kind::Ranges
    }
}

/// Whether the head is one that could have come by this moment.
fn has_right_head(item: &Content, now: u64) -> bool
    ensures { result ≡ could_come now (plain_item item.now) }
{
    let head = &item.head;
    (head.joining.is_some() || !needs_tag(item))
        && head.requested <= head.answered
        && head.answered <= now
        && !has_field(&head.fields, b"content-length")
        && !has_field(&head.fields, b"content-range")
}

/// Whether only by its tag could it have come to be, or be completed.
fn needs_tag(item: &Content) -> bool
    ensures { result ≡ needs_tag (plain_item item.now) }
{
    !is_whole(item.head.kind) || brings_part(item.head.status) || has_joined(item)
}

/// Whether all of it is stored.
fn is_whole(kind: Kind) -> bool
    ensures { result ≡ is_whole kind }
{
    matches!(kind, Kind::Whole)
}

/// Whether another exchange than its founder brought some of it.
fn has_joined(item: &Content) -> bool
    ensures { result ≡ list_any (λ (run : Run). not (run.x == item.now.r)) item.now.runs }
{
    item.runs.as_slice().iter().any(|run| run.x != item.r)
}
