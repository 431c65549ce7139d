//! Calls of a store, and of what is kept over one.
use crate::entries::Shelf;
use crate::samples::Sample;
use crate::stores::Cupboard;
use hc_test_frame::{Fault, Vector};
use std::alloc::Global;

/// A store, representations over another, and what both are given.
#[derive(Drop)]
pub(crate) struct Stored {
    sample: Sample,
    cupboard: Cupboard,
    shelf: Shelf,
}

impl Stored {
    /// There is no store.
    pub(crate) fn new(alloc: Global) -> Result<Stored, Fault> {
        let sample = Sample::new(alloc)?;
        Ok(Stored {
            sample,
            cupboard: Cupboard::new(),
            shelf: Shelf::new(),
        })
    }

    /// Makes the call.
    pub(crate) fn note(&mut self, v: &Vector, to: &mut String) -> Result<(), Fault> {
        if v.name().starts_with("store") {
            self.cupboard.note(&self.sample, v, to)
        } else {
            self.shelf.note(&self.sample, v, to)
        }
    }
}
