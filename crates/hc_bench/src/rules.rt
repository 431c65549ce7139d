//! Calls of the rules of HTTP.

mod freshness;
mod heads;
mod ranges;
mod records;
mod tags;
pub(crate) mod two_heads;
mod validation;

use crate::error::BenchError;
use crate::words::times_of;
use std::alloc::Global;
use two_heads::TwoHeads;

/// `CALL COUNT`.
///
/// What a round reads is picked by its number, in functions that are not inlined: so the optimiser
/// can neither make the call before the loop nor know its answer.
pub(crate) fn run(alloc: Global, words: &[String]) -> Result<(), BenchError> {
    let [call, times] = words else {
        return Err(BenchError::Usage);
    };
    let times = times_of(times.as_str())?;
    match call.as_str() {
        "read-tag" => tags::read_tags(alloc, times),
        "read-tag-list" => tags::read_tag_lists(alloc, times),
        "weak-equal" => tags::compare_tags(alloc, times),
        "read-range" => ranges::read_ranges(times),
        "read-content-range" => ranges::read_content_ranges(times),
        "resolve" => ranges::resolve_ranges(times),
        "read-record" => records::read_records(alloc, times),
        "allowed-to" => freshness::allow_by_facts(times),
        call => write(alloc, call, times),
    }
}

/// A call that writes, or else one that is made with heads.
fn write(alloc: Global, call: &str, times: u64) -> Result<(), BenchError> {
    let mut to = Vec::new(alloc);
    write_to(alloc, call, times, &mut to)
}

fn write_to(alloc: Global, call: &str, times: u64, to: &mut Vec<u8>) -> Result<(), BenchError> {
    match call {
        "write-tag" => tags::write_tags(alloc, times, to),
        "write-range" => ranges::write_ranges(times, to),
        "write-content-range" => ranges::write_content_ranges(times, to),
        _ => with_heads(alloc, call, times, to),
    }
}

/// A call that is made with heads.
fn with_heads(alloc: Global, call: &str, times: u64, to: &mut Vec<u8>) -> Result<(), BenchError> {
    let heads = TwoHeads::new(alloc)?;
    with_two_heads(alloc, &heads, call, times, to)
}

fn with_two_heads(
    alloc: Global,
    heads: &TwoHeads,
    call: &str,
    times: u64,
    to: &mut Vec<u8>,
) -> Result<(), BenchError> {
    match call {
        "read-response" => heads::read_responses(heads, times),
        "read-request" => heads::read_requests(heads, times),
        "copy-fields" => heads::copy_fields(heads, times),
        "write-lines" => heads::write_lines(heads, times, to),
        "write-record" => records::write_records(heads, times, to),
        "conditional" => validation::make_conditional(alloc, heads, times),
        "shown" => validation::show(heads, times),
        "update" => validation::update_fields(heads, times),
        "head-facts" => freshness::keep_facts(heads, times),
        "allowed" => freshness::allow(alloc, heads, times),
        _ => Err(BenchError::Usage),
    }
}
