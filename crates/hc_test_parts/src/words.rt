//! Calls of the words of HTTP: texts, tags, ranges, directives, fields, records and methods.
//!
//! Calls on fields are made on one list, which stays from line to line.

mod directives;
mod fields;
mod heads;
mod lists;
mod methods;
mod ranges;
mod records;
mod tags;
mod tally;
mod texts;

use hc_fields::Fields;
use hc_test_frame::{Fault, Vector};
use std::alloc::Global;

/// The list of fields that calls change.
#[derive(Drop)]
pub(crate) struct Words {
    fields: Fields,
}

impl Words {
    /// The list is empty.
    pub(crate) fn new(alloc: Global) -> Result<Words, Fault> {
        let fields = Fields::new(alloc)?;
        Ok(Words { fields })
    }

    /// Makes the call.
    pub(crate) fn note(&mut self, v: &Vector, to: &mut String) -> Result<(), Fault> {
        let is_reported = texts::call(v, to)?
            || tags::call(v, to)?
            || ranges::call(v, to)?
            || directives::call(v, to)?
            || fields::ask(&self.fields, v, to)?
            || fields::change(&mut self.fields, v, to)?
            || records::call(v, to)?
            || methods::call(v, to)?;
        if is_reported {
            Ok(())
        } else {
            Err(Fault::NoSuchCall)
        }
    }
}
