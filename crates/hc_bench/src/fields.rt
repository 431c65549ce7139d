//! Lists of `hc_fields`, made and looked up.
ghost use Rattle.std.specs.Prelude.{◌≤◌};

use crate::error::{BenchError, expect};
use crate::words::{number_of, times_of};
use hc_fields::Fields;
use std::alloc::Global;

/// The most fields of a list.
pub(crate) const MOST: u64 = 80;

/// The value of each field.
pub(crate) const VALUE: &[u8] = b"twenty bytes or so..";

/// `FIELDS COUNT`.
pub(crate) fn run(alloc: Global, words: &[String]) -> Result<(), BenchError> {
    let [count, times] = words else {
        return Err(BenchError::Usage);
    };
    let count = number_of(count.as_str(), 1, MOST)?;
    for _round in 0..times_of(times.as_str())? {
        expect(look_up(alloc, count)? == count)?;
    }
    Ok(())
}

/// Makes a list of `count` fields, and answers how many of their names it has.
fn look_up(alloc: Global, count: u64) -> Result<u64, BenchError> {
    let mut fields = Fields::new(alloc)?;
    append(&mut fields, count)?;
    Ok(found_in(&fields, count))
}

/// Appends the first `count` fields.
fn append(fields: &mut Fields, count: u64) -> Result<(), BenchError> {
    for place in 0..count {
        fields.append(&name_at(place), VALUE)?;
    }
    Ok(())
}

/// How many of the first `count` names the list has.
fn found_in(fields: &Fields, count: u64) -> u64 {
    let mut found = 0u64;
    for place in 0..count {
        if fields.get(&name_at(place)).is_some() {
            found = found.wrapping_add(1);
        }
    }
    found
}

/// The name of the field that comes at this place. No two of the first 80 are equal, and they come in
/// no order.
pub(crate) fn name_at(place: u64) -> [u8; 8] {
    let number = place.wrapping_mul(37) % 81;
    let tens = b'0' + (number / 10) as u8;
    let ones = b'0' + (number % 10) as u8;
    [b'f', b'i', b'e', b'l', b'd', b'-', tens, ones]
}
