//! Calls on records.

use crate::error::{BenchError, expect};
use crate::rules::heads::FIELD_COUNT;
use crate::rules::two_heads::TwoHeads;
use hc_record::{StoredHead, read_record, write_record};
use std::alloc::Global;

/// How many bytes the records of the heads have.
const RECORD_LEN: usize = 397;

const FIRST: &str = "record 2\nW 00000000000000012563\n200 1700000000 1700000001 1 7\n\
tag \"33a64df551425fcc55e4d42a148795d9f25f89d4\"\naccept-encoding: gzip\n\
cache-control: public, max-age=3600, must-revalidate\ncontent-length: 12563\n\
content-type: text/html; charset=utf-8\ndate: Tue, 14 Nov 2023 22:13:20 GMT\n\
etag: \"33a64df551425fcc55e4d42a148795d9f25f89d4\"\n\
last-modified: Mon, 13 Nov 2023 08:00:00 GMT\nvary: accept-encoding\n";

const SECOND: &str = "record 2\nW 00000000000000012563\n200 1700000020 1700000022 1 7\n\
tag \"33a64df551425fcc55e4d42a148795d9f25f89d4\"\naccept-encoding: gzip\n\
cache-control: public, max-age=3600, must-revalidate\ncontent-length: 12563\n\
content-type: text/html; charset=utf-8\ndate: Tue, 14 Nov 2023 22:13:20 GMT\n\
etag: \"33a64df551425fcc55e4d42a148795d9f25f89d4\"\n\
last-modified: Mon, 13 Nov 2023 08:00:00 GMT\nvary: accept-encoding\n";

/// `write_record` of a head.
pub(super) fn write_records(
    heads: &TwoHeads,
    times: u64,
    to: &mut Vec<u8>,
) -> Result<(), BenchError> {
    for round in 0..times {
        to.clear();
        write_record(heads.at(round), to)?;
        expect(to.len() == RECORD_LEN)?;
    }
    Ok(())
}

/// `read_record` of a record.
pub(super) fn read_records(alloc: Global, times: u64) -> Result<(), BenchError> {
    for round in 0..times {
        read(alloc, record_text(round))?;
    }
    Ok(())
}

fn read(alloc: Global, text: &[u8]) -> Result<(), BenchError> {
    let read = read_record(alloc, text)?;
    expect(is_right(&read))
}

/// Whether a head was read, and has all fields.
fn is_right(read: &Option<StoredHead>) -> bool {
    match read {
        Some(head) => head.fields.len() == FIELD_COUNT,
        None => false,
    }
}

/// The record of a typical head, with other moments by turns.
#[inline(never)]
pub(super) fn record_text(round: u64) -> &'static [u8] {
    let text = if round % 2 == 0 { FIRST } else { SECOND };
    text.as_bytes()
}
