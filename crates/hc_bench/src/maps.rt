//! Maps of `http_header`, made and looked up.

use crate::error::{BenchError, expect};
use crate::fields::{MOST, VALUE, name_at};
use crate::words::{number_of, times_of};
use http_header::{HeaderMap, HeaderName, HeaderValue};
use std::alloc::Global;

/// `FIELDS COUNT`.
pub(crate) fn run(alloc: Global, words: &[String]) -> Result<(), BenchError> {
    let [count, times] = words else {
        return Err(BenchError::Usage);
    };
    let count = number_of(count.as_str(), 1, MOST)?;
    for _round in 0..times_of(times.as_str())? {
        expect(look_up(alloc, count)? == count)?;
    }
    Ok(())
}

/// Makes a map of `count` fields, and answers how many of their names it has.
fn look_up(alloc: Global, count: u64) -> Result<u64, BenchError> {
    let mut map = HeaderMap::new(alloc);
    append(alloc, &mut map, count)?;
    Ok(found_in(&map, count))
}

/// Appends the first `count` fields.
fn append(alloc: Global, map: &mut HeaderMap, count: u64) -> Result<(), BenchError> {
    for place in 0..count {
        add(alloc, map, place)?;
    }
    Ok(())
}

/// Adds the field that comes at this place.
fn add(alloc: Global, map: &mut HeaderMap, place: u64) -> Result<(), BenchError> {
    let name = HeaderName::from_bytes(alloc, &name_at(place))?;
    let value = HeaderValue::from_bytes(alloc, VALUE)?;
    map.append(name, value)?;
    Ok(())
}

/// How many of the first `count` names the map has.
fn found_in(map: &HeaderMap, count: u64) -> u64 {
    let mut found = 0u64;
    for place in 0..count {
        if map.get(name_at(place).as_slice()).is_some() {
            found = found.wrapping_add(1);
        }
    }
    found
}
