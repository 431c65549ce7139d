//! What sparse bytes are, however they are kept.
ghost use Rattle.std.specs.Prelude.{◌≡◌, ◌+◌, ◌≤◌, ◌<◌, ◌^◌, ◌↔◌, IsTrue, ℕ, length, is_some, true, IfOk, IfSome, OnOk, OnErr};
ghost use Rattle.hc_sparse.specs.Cells.{Cells, AreAbsent, Covers, IsNext, cells_with, size};
ghost use Rattle.hc_sparse.specs.Stretch.{stretch};

use crate::run::Run;
use hc_text::NoMemory;

/// The positions from `lo` to below `hi`.
#[derive(Clone, Copy, Debug, PartialEq, Eq)]
pub struct Span2 {
    pub lo: u64,
    pub hi: u64,
}

/// Tells which positions are present.
pub trait Presence {
    /// What is at each position.
    ghost cells: { Self → Cells };

    /// Whether all positions of the span are present. An empty span is covered.
    fn covers(&self, span: Span2) -> bool
        ensures { IsTrue result ↔ Covers (cells self.now) span.lo span.hi };

    /// The least present position that is not below `p`.
    fn next_present(&self, p: u64) -> Option<u64>
        ensures next { IsNext (cells self.now) p result }

        // So nothing is at 2^62 or past it.
        ensures below { IfSome result (λ n. n < 2 ^ 62) };
}

/// Bytes at any positions below 2^62, each with the exchange that delivered it.
pub trait SparseBytes: Presence {
    /// Puts bytes of the exchange `x` at absent positions from `at` on, all of them or, where there
    /// is not enough memory, none.
    fn put(&mut self, at: u64, x: u64, bytes: &[u8]) -> Result<(), NoMemory>
        requires absent { AreAbsent (Self.cells self.old) at (at + length bytes.now) }
        requires end { at + length bytes.now ≤ 2 ^ 62 }
        ensures ok { OnOk result
            (Self.cells self.new ≡ cells_with at x bytes.now (Self.cells self.old)) }
        ensures err { OnErr result (Self.cells self.new ≡ Self.cells self.old) }

        // No bytes need no memory.
        ensures no_memory { OnErr result (0 < length bytes.now) };

    /// The longest stretch from `p` on that one exchange delivered, at most `want` bytes long. None
    /// where `p` is absent, which needs no memory.
    fn run_at(&self, p: u64, want: usize) -> Result<Option<Run>, NoMemory>
        requires { 0 < want }
        ensures ok { IfOk result (λ run. run ≡ stretch (Self.cells self.now) p want) }
        ensures no_memory { OnErr result (is_some (Self.cells self.now p) ≡ true) };

    /// How many positions are present.
    fn size(&self) -> u64
        ensures { result ≡ size (Self.cells self.now) };
}
