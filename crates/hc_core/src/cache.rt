//! The cache: what it keeps of the past.
ghost use Rattle.std.specs.Prelude.{◌≡◌, false};
ghost use Rattle.std.proofs.Props.{props};
ghost use Rattle.hc_state.specs.Good.{IsGood};

mod begin;
mod contents;
mod step;
mod stepping;
mod views;

use hc_state::Rows;
use hc_store::Backend;

/// A cache over a store. Moments are whole seconds since 1970.
#[derive(Drop)]
pub struct Cache<B: Backend> {
    /// Memory was refused in a step: it answers nothing any more.
    failed: bool,
    last_moment: u64,
    steps: u64,
    /// How many bytes pieces had so far.
    received: u64,
    rows: Rows<B>,
    ghost good: { failed ≡ false → IsGood rows received last_moment steps } by { Prim.hlevel props },
}
