//! Whether an answer fills a hole of a representation.
ghost use Rattle.std.specs.Prelude.{◌≡◌};
ghost use Rattle.hc_etag.specs.Tags.{value_of};
ghost use Rattle.hc_rules.specs.Joins.{joins, hole_answer, fills};

use crate::range_text::content_range_of;
use crate::status::{brings_part, brings_whole};
use crate::tag_text::strongly_equals;
use hc_cachectl::read_response;
use hc_etag::Tag;
use hc_event::Response;
use hc_range::{ContentRange, Span};

/// What an answer is to the hole of a representation.
#[derive(Clone, Copy, Debug, PartialEq, Eq)]
pub enum HoleAnswer {
    /// It brings bytes of the hole, from its start on, of the same representation.
    Joins,
    /// It brings a whole, which is a representation of its own.
    Replaced,
    /// It is any other answer.
    Other,
}

/// What the answer is to the hole of a representation with this tag, whose whole length is `total`
/// bytes (RFC 9110 section 15.3.7.3).
#[tactic(auto, unfolding(crate::specs::Joins::hole_answer))]
pub fn hole_answer(tag: &Tag, total: u64, hole: Span, answer: &Response) -> HoleAnswer
    ensures { result ≡ hole_answer (value_of tag.now) total hole answer.now }
{
    if joins(tag, total, hole, answer) {
        return HoleAnswer::Joins;
    }
    if brings_whole(answer.status) {
        return HoleAnswer::Replaced;
    }
    HoleAnswer::Other
}

/// Whether the answer brings bytes of the hole.
#[tactic(auto, unfolding(crate::specs::Joins::joins))]
fn joins(tag: &Tag, total: u64, hole: Span, answer: &Response) -> bool
    ensures { result ≡ joins (value_of tag.now) total hole answer.now }
{
    brings_part(answer.status)
        && strongly_equals(&answer.fields, tag)
        && fills(content_range_of(&answer.fields), total, hole)
        && !read_response(&answer.fields).no_store
}

/// Whether the part begins where the hole does and isn't longer, and its total is given and this.
fn fills(reported: Option<ContentRange>, whole: u64, hole: Span) -> bool
    ensures { result ≡ fills reported whole hole }
{
    let Some(ContentRange::Part { first, last, total }) = reported else {
        return false;
    };
    total == Some(whole) && first == hole.lo && last < hole.hi
}
