//! Whether a cache may begin with contents.
ghost use Rattle.std.specs.Prelude.{◌≡◌, ◌+◌, ◌<◌, ◌≤◌, ◌^◌, ℕ, List, [], map, drop, length, nat_le, is_none, IfOk, IfSome, IfNone};
ghost use Rattle.hc_rules.specs.Rooms.{weight_of};
ghost use Rattle.hc_model.specs.Beginnings.{is_good, may_begin, weights_of};
ghost use Rattle.hc_model.specs.Entries as model;
ghost use Rattle.hc_model.specs.Tables.{bytes_in};
ghost use Rattle.hc_contents.specs.Fit.{is_fit, count_good, has_good_numbers, unfit_of};
ghost use Rattle.hc_contents.specs.Known.{Knows};
ghost use Rattle.hc_contents.specs.PlainContents.{plain_contents, plain_item};

use crate::contents::{Content, Contents};
use crate::item::{count_of, is_right};
use crate::seen::Seen;
use hc_rules::{Limits, SLOT_WEIGHT};
use hc_target::is_target;
use hc_text::NoMemory;
use std::alloc::Global;

/// Why a cache can't begin with contents.
#[derive(Clone, Copy, Debug, PartialEq, Eq)]
pub enum Unfit {
    /// The item at this place, from 0, isn't good. Where each is, the place is behind the last, and
    /// the moment or a number is too large.
    BadContent { i: u64 },
    /// All of it weighs more than it may.
    Full,
}

/// Moments and numbers of consumers are below this.
const LIMIT: u64 = 1 << 62;

/// A cache begins with no higher number of the next exchange.
const LAST_NEXT: u64 = 1 << 60;

/// Why a cache that may hold so much can't begin with these contents, if it can't.
pub fn why_unfit(
    contents: &Contents,
    limits: Limits,
    alloc: Global,
) -> Result<Option<Unfit>, NoMemory>
    ensures why { IfOk result (λ why. why ≡ unfit_of limits (plain_contents contents.entry.now)) }
    ensures begins { IfOk result
        (λ why. is_none why ≡ may_begin limits (plain_contents contents.entry.now)) }
{
    let items = contents.items.as_slice();
    let good = count_good(contents, limits, alloc)?;
    let bad = Unfit::BadContent { i: good as u64 };
    if good < items.len() {
        return Ok(Some(bad));
    }
    if !has_good_numbers(contents) {
        return Ok(Some(bad));
    }
    if !fits(items, limits.max_total) {
        return Ok(Some(Unfit::Full));
    }
    Ok(None)
}

/// How many items stand before the first that isn't good.
fn count_good(contents: &Contents, limits: Limits, alloc: Global) -> Result<usize, NoMemory>
    ensures { IfOk result (λ good. good ≡ count_good limits (plain_contents contents.entry.now) []
        (map plain_item contents.entry.now.items)) }
{
    let items = contents.items.as_slice();
    let mut seen = Seen::new(items, alloc)?;
    for (i, item) in items.iter().enumerate() {
        let good = is_good(contents, limits, &seen, i, item)?;
        if !good {
            return Ok(i);
        }
        seen.add(item)?;
    }
    Ok(items.len())
}

/// Whether the item at this place is good, where those before it were seen. Its key is read last.
fn is_good(
    contents: &Contents,
    limits: Limits,
    seen: &Seen,
    i: usize,
    item: &Content,
) -> Result<bool, NoMemory>
    ensures { IfOk result (λ good. (earlier items : List model.Content)
        → Knows seen.now earlier items → i < length items
        → good ≡ is_good limits (plain_contents contents.entry.now) earlier
        (plain_item item.now) (drop (i + 1) items)) }
{
    if !is_fit(contents, limits, seen, i, item) {
        return Ok(false);
    }
    let has_target = is_target(*item.key.bytes.allocator(), item.key.bytes.as_slice())?;
    Ok(has_target)
}

/// Whether it is good, but for that its key is to be a target.
fn is_fit(contents: &Contents, limits: Limits, seen: &Seen, i: usize, item: &Content) -> bool
    ensures { (earlier items : List model.Content) → Knows seen.now earlier items
        → i < length items → result ≡ is_fit limits (plain_contents contents.entry.now) earlier
        (plain_item item.now) (drop (i + 1) items) }
{
    seen.is_apart(i, item, contents.next_exchange) && is_right(item, contents.now, limits.max_entry)
}

/// Whether the moment and the numbers are within those with which a cache may begin.
fn has_good_numbers(contents: &Contents) -> bool
    ensures { result ≡ has_good_numbers (plain_contents contents.entry.now) }
{
    contents.now < LIMIT
        && contents.last_consumer < LIMIT
        && (1..=LAST_NEXT).contains(&contents.next_exchange)
}

/// Whether all items weigh at most so much.
fn fits(items: &[Content], most: u64) -> bool
    ensures { result ≡ nat_le (weights_of (map plain_item items.now)) most }
{
    let mut left = most;
    for item in items {
        let Some(rest) = rest_behind(item, left) else {
            return false;
        };
        left = rest;
    }
    true
}

/// How much is left of so much beside what the item weighs.
fn rest_behind(item: &Content, most: u64) -> Option<u64>
    ensures some { IfSome result (λ rest. weight_of (bytes_in item.now.runs) + rest ≡ most) }
    ensures none { IfNone result (most < weight_of (bytes_in item.now.runs)) }
{
    let mut left = most.checked_sub(SLOT_WEIGHT)?;
    for run in item.runs.as_slice() {
        left = left.checked_sub(count_of(run))?;
    }
    Some(left)
}
