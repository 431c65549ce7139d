//! A block: whose its offsets are.
ghost use Rattle.std.specs.Prelude.{◌≡◌, ◌+◌, ◌≤◌, ◌<◌, ℕ, None, true, IfOk, IfSome, IsNone, OnOk};
ghost use Rattle.hc_sparse.specs.Extents.{ascend};

use crate::extents::{Extent, claim, extent_from, extent_with};
use hc_text::NoMemory;
use std::alloc::Global;

/// How many positions a block has.
pub(crate) const LEN: usize = 4096;

/// The extents of a block, which tell whose its offsets are and where their bytes stand.
#[derive(Drop)]
pub(crate) struct Block {
    extents: Vec<Extent>,
    ghost ascends: { ascend 0 extents.items ≡ true },
}

impl Block {
    ghost use Rattle.hc_sparse.specs.Extents.{claimed_marks, AreFree, end_of, IsExtentFrom, IsNextMark};
    ghost use Rattle.hc_sparse.specs.Blocks.{marks_in, has_spare};

    /// Nobody has anything, and there is room for an extent.
    pub(crate) fn new(alloc: Global) -> Result<Block, NoMemory>
        ensures marks { IfOk result (λ block. (o : ℕ) → marks_in block o ≡ None) }
        ensures spare { IfOk result (λ block. has_spare block ≡ true) }
    {
        let extents = Vec::with_capacity(alloc, 1)?;
        Ok(Block { extents })
    }

    /// The extent that has an offset.
    pub(crate) fn extent(&self, o: usize) -> Option<Extent>
        ensures none { IsNone result → marks_in self.now o ≡ None }
        ensures some { IfSome result
            (λ extent. IsExtentFrom self.now.extents.items o extent × (extent.at ≤ o)) }
    {
        let extent = extent_with(self.extents.as_slice(), o)?;
        Some(*extent)
    }

    /// The least offset from one on that somebody has.
    pub(crate) fn next(&self, o: usize) -> Option<usize>
        ensures next { IsNextMark (marks_in self.now) o result }
        ensures below { IfSome result (λ n. n < 4096) }
    {
        let extent = extent_from(self.extents.as_slice(), o)?;
        Some(extent.at.max(o))
    }

    /// Makes room for an extent more.
    pub(crate) fn make_room(&mut self) -> Result<(), NoMemory>
        ensures marks { (q : ℕ) → marks_in self.new q ≡ marks_in self.old q }
        ensures spare { OnOk result (has_spare self.new ≡ true) }
    {
        self.extents.reserve(1)?;
        Ok(())
    }

    /// Makes offsets that nobody has an exchange's.
    pub(crate) fn claim(&mut self, extent: Extent)
        requires free { AreFree (marks_in self.old) extent.at (end_of extent) }
        requires some { 0 < extent.len }
        requires within { end_of extent ≤ 4096 }
        requires spare { has_spare self.old ≡ true }
        ensures { (q : ℕ) → marks_in self.new q
            ≡ claimed_marks extent.at extent.len extent.x extent.from (marks_in self.old) q }
    {
        claim(&mut self.extents, extent);
    }
}
