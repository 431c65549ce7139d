//! Calls of stitching, over bytes that are kept.
use crate::samples::response_of;
use hc_etag::read_tag;
use hc_partial::{accepts, first_hole, next};
use hc_range::Span;
use hc_sparse::Presence;
use hc_test_frame::{Fault, Vector, note};

/// Makes the call.
pub(crate) fn call<P: Presence>(store: &P, v: &Vector, to: &mut String) -> Result<(), Fault> {
    match v.call() {
        "next_part n" => note(&next(store, v.number(0)), to),
        "first_hole nn" => {
            let (lo, hi) = (v.number(0), v.number(1));
            note(&first_hole(store, Span { lo, hi }), to)
        }
        "accepts nnntnt" => report_answer(v, to),
        _ => Err(Fault::NoSuchCall),
    }
}

/// Writes what an answer is to a hole, of a representation of so many bytes and with such a tag.
fn report_answer(v: &Vector, to: &mut String) -> Result<(), Fault> {
    let hole = Span {
        lo: v.number(0),
        hi: v.number(1),
    };
    let tag = read_tag(v.alloc(), v.text(3))?.ok_or(Fault::NoSuchCall)?;
    let answer = response_of(v.number(4), v, 5)?;
    note(&accepts(&tag, v.number(2), hole, &answer), to)
}
