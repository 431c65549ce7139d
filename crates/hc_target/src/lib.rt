//! What a target is: a web URL without a fragment, in the one spelling that the URL Standard gives it.
#![tactic(auto)]

mod target;

pub use target::is_target;
