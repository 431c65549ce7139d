//! The requests of a fetch.
ghost use Rattle.std.specs.Prelude.{◌≡◌, ◌<◌, ◌≤◌, ◌-◌, ◌*◌, ◌^◌, ◌∷◌, [], IfOk, OnOk};
ghost use Rattle.hc_fetch.specs.Plans.{first_start, last_position, part_count, part_start, range_field, fields_for, request_of};

use crate::plan::FetchPlan;
use hc_event::{Event, Load, Request};
use hc_fields::Fields;
use hc_text::{MethodName, NoMemory, write_number};
use hc_validate::set_field;
use std::alloc::Global;

impl FetchPlan {
    /// How many parts there are of so many bytes.
    pub(crate) fn part_count(&self, total: u64) -> u64
        requires total { total < 2 ^ 62 }
        requires size { (1 ≤ self.now.size) × (self.now.size ≤ 2 ^ 40) }
        ensures { result ≡ part_count self.now total }
    {
        self.parts.min((total + (self.size - 1)) / self.size)
    }

    /// The first consumer starts.
    pub(crate) fn first_start(&self, alloc: Global) -> Result<Event, NoMemory>
        requires size { (1 ≤ self.now.size) × (self.now.size ≤ 2 ^ 40) }
        ensures { IfOk result (λ event. event ≡ first_start self.now) }
    {
        let range = if self.parts == 1 {
            None
        } else {
            Some((0, self.size - 1))
        };
        self.start(alloc, 1, range)
    }

    /// The consumer of this part starts, of so many bytes in all.
    pub(crate) fn part_start(&self, alloc: Global, total: u64, part: u64) -> Result<Event, NoMemory>
        requires total { total < 2 ^ 62 }
        requires size { (1 ≤ self.now.size) × (self.now.size ≤ 2 ^ 40) }
        requires part { (1 ≤ part) × (part ≤ 1000) }
        ensures { IfOk result (λ event. event ≡ part_start self.now total part) }
    {
        let last = if part == self.part_count(total) {
            total.saturating_sub(1)
        } else {
            part * self.size - 1
        };
        self.start(alloc, part, Some(((part - 1) * self.size, last)))
    }

    /// A consumer asks for the bytes from one position to another, or for all.
    fn start(&self, alloc: Global, c: u64, range: Option<(u64, u64)>) -> Result<Event, NoMemory>
        ensures { IfOk result
            (λ event. event ≡ Event.Start c (request_of self.now (fields_for range))) }
    {
        let mut fields = Fields::new(alloc)?;
        if let Some((first, last)) = range {
            set_range(alloc, &mut fields, first, last)?;
        }
        let method = MethodName {
            bytes: Vec::from_slice(alloc, b"GET")?,
        };
        let request = Request {
            method,
            key: self.key.copy()?,
            load: Load::Normal,
            fields,
        };
        Ok(Event::Start { c, request })
    }
}

/// The one field asks for the bytes from one position to another.
fn set_range(alloc: Global, fields: &mut Fields, first: u64, last: u64) -> Result<(), NoMemory>
    requires none { fields.old ≡ [] }
    ensures { OnOk result (fields.new ≡ range_field first last ∷ []) }
{
    let mut text = Vec::from_slice(alloc, b"bytes=")?;
    write_number(first, &mut text)?;
    text.push(b'-')?;
    write_number(last, &mut text)?;
    set_field(fields, b"range", text.as_slice())
}
