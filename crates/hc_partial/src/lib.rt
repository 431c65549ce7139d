//! Stitching: a span that is read in part from the store and in part from the origin.
#![tactic(auto)]

mod holes;
mod stitch;

pub use hc_rules::{HoleAnswer, ReadStep};
pub use holes::{first_hole, hole_end, stored_end};
pub use stitch::{Part, accepts, next};
