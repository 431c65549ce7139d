//! Blocks by their number, which is that of their positions divided by their length.
ghost use Rattle.std.specs.Prelude.{◌≡◌, ◌+◌, ◌≤◌, ◌<◌, ◌%◌, ◌^◌, ℕ, length, None, true, Some, IfSome, IsNone, OnOk, OnErr};
ghost use Rattle.std.specs.Ordering.{nat_cmp};
ghost use Rattle.std.specs.BTreeMap.{get};
ghost use Rattle.hc_sparse.specs.Extents.{claimed_marks, end_of, AreFree, Reaches, IsNextMark, IsExtentAt};
ghost use Rattle.hc_sparse.specs.BlockMaps.{marks, AreBelow, AreWithin, HaveSame, IsFirstFrom};

use crate::block::{Block, LEN};
use crate::extents::{Extent, rest_of};
use hc_text::NoMemory;
use std::alloc::Global;
use std::collections::BTreeMap;

/// Positions of one exchange from one on, to no further than its block's end.
pub(crate) fn extent_in(blocks: &BTreeMap<u64, Block>, p: u64) -> Option<Extent>
    requires below { AreBelow blocks.now }
    requires within { AreWithin (marks blocks.now) (2 ^ 63) }
    ensures none { IsNone result → marks blocks.now p ≡ None }
    ensures some { IfSome result (IsExtentAt (marks blocks.now) p) }
{
    let o = (p % LEN as u64) as usize;
    let extent = blocks.get(&(p / LEN as u64))?.extent(o)?;
    let skipped = o - extent.at;
    Some(rest_of(extent, p as usize, skipped))
}

/// Where those bytes end.
pub(crate) fn end_in(blocks: &BTreeMap<u64, Block>, p: u64) -> Option<u64>
    requires { AreBelow blocks.now }
    ensures none { IsNone result → marks blocks.now p ≡ None }
    ensures some { IfSome result (λ end. Reaches (marks blocks.now) p end) }
{
    let o = (p % LEN as u64) as usize;
    let extent = blocks.get(&(p / LEN as u64))?.extent(o)?;
    Some(p + (extent.at + extent.len - o) as u64)
}

/// Gives positions of one block, which nobody has, to an exchange, all of them or none.
pub(crate) fn put_part(
    alloc: Global,
    blocks: &mut BTreeMap<u64, Block>,
    new: Extent,
) -> Result<(), NoMemory>
    requires free { AreFree (marks blocks.old) new.at (end_of new) }
    requires some { 0 < new.len }
    requires within { new.at % 4096 + new.len ≤ 4096 }
    requires end { end_of new ≤ 2 ^ 62 }
    requires below { AreBelow blocks.old }
    ensures below { AreBelow blocks.new }
    ensures ok { OnOk result ((q : ℕ) → marks blocks.new q
        ≡ claimed_marks new.at new.len new.x new.from (marks blocks.old) q) }
    ensures err { OnErr result (HaveSame blocks.old blocks.new) }
{
    let n = (new.at / LEN) as u64;
    let extent = Extent {
        at: new.at % LEN,
        ..new
    };
    if let Some(block) = blocks.get_mut(&n) {
        block.make_room()?;
        block.claim(extent);
        return Ok(());
    }
    let mut block = Block::new(alloc)?;
    block.claim(extent);
    blocks.insert(n, block)?;
    Ok(())
}

/// How many of so many positions from one on are in its block.
pub(crate) fn part_len(p: u64, len: usize) -> usize
    requires { 0 < len }
    ensures some { 0 < result }
    ensures most { result ≤ len }
    ensures within { p % 4096 + result ≤ 4096 }
    ensures up_to_end { result < len → p % 4096 + result ≡ 4096 }
{
    len.min(LEN - (p % LEN as u64) as usize)
}

/// The least position from one on that somebody has.
pub(crate) fn next_in(blocks: &BTreeMap<u64, Block>, p: u64) -> Option<u64>
    requires { AreBelow blocks.now }
    ensures next { IsNextMark (marks blocks.now) p result }
    ensures below { IfSome result (λ n. n < 2 ^ 62) }
{
    let mut from = p;
    loop {
        let (n, block) = block_from(blocks, from / LEN as u64)?;
        let start = n * LEN as u64;
        if let Some(o) = block.next(from.saturating_sub(start) as usize) {
            return Some(start + o as u64);
        }
        from = start + LEN as u64;
    }
}

/// The block with the least number from one on.
fn block_from(blocks: &BTreeMap<u64, Block>, n: u64) -> Option<(u64, &Block)>
    ensures none { IsNone result → (m : ℕ) → n ≤ m → get nat_cmp blocks.now m ≡ None }
    ensures some { IfSome result (λ found. IsFirstFrom blocks.now n found.0 found.1.now) }
{
    let (number, block) = blocks.range(n..).next()?;
    Some((*number, block))
}
