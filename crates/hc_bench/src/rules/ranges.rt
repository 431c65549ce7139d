//! Calls on byte ranges.
ghost use Rattle.hc_range.specs.Spans.{IsInOrder, IsWithin};

use crate::error::{BenchError, expect};
use hc_range::{
    ContentRange, RangeSpec, Span, read_content_range, read_range, resolve, write_content_range,
    write_range,
};

/// The length of the representation.
const TOTAL: u64 = 1234;

/// `read_range` of a range with a last position or without.
pub(super) fn read_ranges(times: u64) -> Result<(), BenchError> {
    for round in 0..times {
        let (text, asked) = range_case(round);
        expect(read_range(text) == Some(asked))?;
    }
    Ok(())
}

/// A range, and what it asks for.
#[inline(never)]
fn range_case(round: u64) -> (&'static [u8], RangeSpec) {
    if round % 2 == 0 {
        (b"bytes=500-999", RangeSpec::FromTo(500, 999))
    } else {
        (b"bytes=734-", RangeSpec::From(734))
    }
}

/// `read_content_range` of a part.
pub(super) fn read_content_ranges(times: u64) -> Result<(), BenchError> {
    for round in 0..times {
        let (text, range) = content_range_case(round);
        expect(read_content_range(text) == Some(range))?;
    }
    Ok(())
}

/// A text, and what it tells.
#[inline(never)]
fn content_range_case(round: u64) -> (&'static [u8], ContentRange) {
    let total = Some(TOTAL);
    if round % 2 == 0 {
        let range = ContentRange::Part {
            first: 500,
            last: 999,
            total,
        };
        (b"bytes 500-999/1234", range)
    } else {
        let range = ContentRange::Part {
            first: 734,
            last: 1233,
            total,
        };
        (b"bytes 734-1233/1234", range)
    }
}

/// `resolve` of a range with a first and a last position or a suffix.
pub(super) fn resolve_ranges(times: u64) -> Result<(), BenchError> {
    for round in 0..times {
        let (asked, span) = resolve_case(round);
        expect(resolve(asked, TOTAL) == Some(span))?;
    }
    Ok(())
}

/// What is asked for, and where that is.
#[inline(never)]
fn resolve_case(round: u64) -> (RangeSpec, Span)
    ensures { IsInOrder result.0 }
{
    if round % 2 == 0 {
        (RangeSpec::FromTo(500, 999), Span { lo: 500, hi: 1000 })
    } else {
        (RangeSpec::Last(500), Span { lo: 734, hi: 1234 })
    }
}

/// How long the text is that asks for a span of `span_at`.
const RANGE_LEN: usize = 13;

/// `write_range` of a span.
pub(super) fn write_ranges(times: u64, to: &mut Vec<u8>) -> Result<(), BenchError> {
    for round in 0..times {
        to.clear();
        write_range(span_at(round), TOTAL, to)?;
        expect(to.len() == RANGE_LEN)?;
    }
    Ok(())
}

/// How long the text is that tells a span of `span_at`.
const CONTENT_RANGE_LEN: usize = 18;

/// `write_content_range` of a span.
pub(super) fn write_content_ranges(times: u64, to: &mut Vec<u8>) -> Result<(), BenchError> {
    for round in 0..times {
        to.clear();
        write_content_range(span_at(round), TOTAL, to)?;
        expect(to.len() == CONTENT_RANGE_LEN)?;
    }
    Ok(())
}

/// A span whose first and last position have three digits each.
#[inline(never)]
fn span_at(round: u64) -> Span
    ensures { IsWithin result TOTAL }
{
    if round % 2 == 0 {
        Span { lo: 500, hi: 1000 }
    } else {
        Span { lo: 100, hi: 400 }
    }
}
