//! The frame of the programs of vectors: lines that name a call of the libraries and its arguments, and
//! are written again with the value that came.
#![tactic(auto)]

mod calls;
mod fault;
mod lines;
mod values;
mod vector;

pub use calls::{Calls, report_all};
pub use fault::Fault;
pub use lines::fields_of;
pub use values::{note, quote, show};
pub use vector::{Vector, read_vector};
