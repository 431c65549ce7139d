//! Sparse bytes: at each position a byte and the exchange that delivered it, or nothing.
#![tactic(auto)]

mod block;
mod blocks;
mod extents;
mod growing;
mod law;
mod ops;
mod parts;
mod places;
mod plain;
mod presence;
mod run;
mod runs;
mod spans;
mod sparse;

pub use law::{a_put_lengthens_what_reaches_it, a_stretch_is_the_longest};
pub use ops::{SparseAnswer, SparseAnswers, SparseOp, run_ops};
pub use plain::PlainSparse;
pub use presence::{Presence, Span2, SparseBytes};
pub use run::Run;
pub use sparse::Sparse;
