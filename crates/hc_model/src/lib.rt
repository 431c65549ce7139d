//! The definitions over histories: what a run of the cache is, without queue, store or state.
#![tactic(auto)]
