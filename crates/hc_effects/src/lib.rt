//! What one event does to the tables of a run, and what it leaves alone: lemmas, over the definitions
//! of `hc_model`, on which the occasions of the cache and the laws of runs stand.
#![tactic(auto)]
