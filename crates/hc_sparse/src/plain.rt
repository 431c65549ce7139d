//! Sparse bytes as a list of runs.
ghost use Rattle.std.specs.Prelude.{◌≡◌, true};
ghost use Rattle.hc_sparse.specs.Cells.{nothing, size};
ghost use Rattle.hc_sparse.specs.Runs.{cells_of, ascend};

use crate::parts::{Parts, covered, stretch_at};
use crate::presence::{Presence, Span2, SparseBytes};
use crate::run::Run;
use crate::runs::{put_run, rest_of, run_from, run_with};
use hc_text::NoMemory;
use std::alloc::Global;

/// Sparse bytes as runs in the order of their positions: a put in the middle moves the runs behind it.
#[derive(Drop)]
pub struct PlainSparse {
    runs: Vec<Run>,
    count: u64,
    ghost ascends: { ascend 0 runs.items ≡ true },
    ghost counts: { count ≡ size (cells_of runs.items) },
}

impl PlainSparse {
    /// Nothing is anywhere.
    pub fn new(alloc: Global) -> PlainSparse
        ensures { ⟦<PlainSparse as Presence>⟧.cells result ≡ nothing }
    {
        PlainSparse {
            runs: Vec::new(alloc),
            count: 0,
        }
    }
}

impl Presence for PlainSparse {
    ghost use Rattle.hc_sparse.specs.Plain.{plain_cells};

    ghost cells = { plain_cells };

    fn covers(&self, span: Span2) -> bool {
        covered(self, span)
    }

    fn next_present(&self, p: u64) -> Option<u64> {
        let run = run_from(self.runs.as_slice(), p)?;
        Some(run.at.max(p))
    }
}

impl Parts for PlainSparse {
    ghost use Rattle.hc_sparse.specs.Plain.{plain_cells};

    ghost kept = { plain_cells };

    fn part(&self, p: u64) -> Option<(u64, &[u8])> {
        let run = run_with(self.runs.as_slice(), p)?;
        Some((run.x, rest_of(run, p)))
    }

    fn end(&self, p: u64) -> Option<u64> {
        let run = run_with(self.runs.as_slice(), p)?;
        Some(p + rest_of(run, p).len() as u64)
    }
}

impl SparseBytes for PlainSparse {
    fn put(&mut self, at: u64, x: u64, bytes: &[u8]) -> Result<(), NoMemory> {
        if bytes.is_empty() {
            return Ok(());
        }
        put_run(&mut self.runs, at, x, bytes)?;
        self.count += bytes.len() as u64;
        Ok(())
    }

    fn run_at(&self, p: u64, want: usize) -> Result<Option<Run>, NoMemory> {
        stretch_at(*self.runs.allocator(), self, p, want, 0)
    }

    fn size(&self) -> u64 {
        self.count
    }
}
