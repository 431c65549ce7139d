//! Calls on the fields of heads.

use crate::error::{BenchError, expect};
use crate::rules::two_heads::TwoHeads;
use hc_cachectl::{Directives, read_request, read_response};
use hc_fields::Fields;

/// What the heads ask of a cache.
const DIRECTIVES: Directives = Directives {
    max_age: Some(3600),
    no_store: false,
    no_cache: false,
    must_revalidate: true,
    only_if_cached: false,
    min_fresh: None,
    max_stale: None,
};

/// How many fields the heads have.
pub(super) const FIELD_COUNT: usize = 7;

/// How many bytes the lines of the fields have.
const LINES_LEN: usize = 266;

/// `read_response` of the fields of a head.
pub(super) fn read_responses(heads: &TwoHeads, times: u64) -> Result<(), BenchError> {
    for round in 0..times {
        expect(read_response(&heads.at(round).fields) == DIRECTIVES)?;
    }
    Ok(())
}

/// `read_request` of the same fields.
pub(super) fn read_requests(heads: &TwoHeads, times: u64) -> Result<(), BenchError> {
    for round in 0..times {
        expect(read_request(&heads.at(round).fields) == DIRECTIVES)?;
    }
    Ok(())
}

/// `copy` of the fields of a head.
pub(super) fn copy_fields(heads: &TwoHeads, times: u64) -> Result<(), BenchError> {
    for round in 0..times {
        copy(&heads.at(round).fields)?;
    }
    Ok(())
}

fn copy(fields: &Fields) -> Result<(), BenchError> {
    let copy = fields.copy()?;
    expect(copy.len() == FIELD_COUNT)
}

/// `write_lines` of the fields of a head.
pub(super) fn write_lines(
    heads: &TwoHeads,
    times: u64,
    to: &mut Vec<u8>,
) -> Result<(), BenchError> {
    for round in 0..times {
        to.clear();
        heads.at(round).fields.write_lines(to)?;
        expect(to.len() == LINES_LEN)?;
    }
    Ok(())
}
