//! Ranges read from text.
ghost use Rattle.std.specs.Prelude.{◌≡◌, ℕ, ◌<◌, ◌≤◌, ◌↔◌, IsTrue, codes, Some, IfSome, Option};
ghost use Rattle.hc_range.specs.declared.range.RangeSpec.{RangeSpec};
ghost use Rattle.hc_range.specs.declared.range.ContentRange.{ContentRange};
ghost use Rattle.hc_range.specs.Ranges.{SpellsRange, SpellsSpec, SpellsPositions, SpellsTotal, SpellsResponse, SpellsContentRange};

use crate::range::{ContentRange, RangeSpec};
use crate::split::split_once;
use hc_text::read_number;

/// How many bytes stand before the range.
const UNIT_LEN: usize = 6;

/// The one range that a Range field asks for: `bytes=` in any case, then `a-b` with a at most b,
/// `a-` or `-n`, without white space. It is None exactly where the text is none of these.
pub fn read_range(text: &[u8]) -> Option<RangeSpec>
    ensures found { IfSome result (SpellsRange text.now) }
    ensures spelled { (asked : RangeSpec) → SpellsRange text.now asked → result ≡ Some asked }
{
    let (unit, spec) = text.split_at_checked(UNIT_LEN)?;
    if !unit.eq_ignore_ascii_case(b"bytes=") {
        return None;
    }
    read_spec(spec)
}

/// The range after the unit.
fn read_spec(text: &[u8]) -> Option<RangeSpec>
    ensures found { IfSome result (SpellsSpec text.now) }
    ensures spelled { (asked : RangeSpec) → SpellsSpec text.now asked → result ≡ Some asked }
{
    let (first, last) = split_once(text, b'-')?;
    if first.is_empty() {
        let n = read_number(last)?;
        return Some(RangeSpec::Last(n));
    }
    if last.is_empty() {
        let first = read_number(first)?;
        return Some(RangeSpec::From(first));
    }
    let (first, last) = read_positions(text)?;
    Some(RangeSpec::FromTo(first, last))
}

/// A first and a last position.
fn read_positions(text: &[u8]) -> Option<(u64, u64)>
    ensures found { IfSome result (λ p. SpellsPositions text.now p.0 p.1) }
    ensures spelled { (first last : ℕ) → SpellsPositions text.now first last
        → result ≡ Some (first, last) }
{
    let (first, last) = split_once(text, b'-')?;
    let first = read_number(first)?;
    let last = read_number(last)?;
    if first > last {
        return None;
    }
    Some((first, last))
}

/// What a Content-Range field tells: `bytes ` in any case, then `a-b/t`, `a-b/*` or `*/t`, with one
/// space, a at most b, and b below t. It is None exactly where the text is none of these.
pub fn read_content_range(text: &[u8]) -> Option<ContentRange>
    ensures found { IfSome result (SpellsContentRange text.now) }
    ensures spelled { (range : ContentRange) → SpellsContentRange text.now range
        → result ≡ Some range }
{
    let (unit, response) = text.split_at_checked(UNIT_LEN)?;
    if !unit.eq_ignore_ascii_case(b"bytes ") {
        return None;
    }
    read_response(response)
}

/// What stands after the unit.
fn read_response(text: &[u8]) -> Option<ContentRange>
    ensures found { IfSome result (SpellsResponse text.now) }
    ensures spelled { (range : ContentRange) → SpellsResponse text.now range → result ≡ Some range }
{
    let (positions, length) = split_once(text, b'/')?;
    if is_asterisk(positions) {
        let total = read_number(length)?;
        return Some(ContentRange::Unsatisfied { total });
    }
    let (first, last) = read_positions(positions)?;
    let total = read_total(length, last)?;
    Some(ContentRange::Part { first, last, total })
}

/// The whole length, or an asterisk for one that isn't known.
fn read_total(text: &[u8], last: u64) -> Option<Option<u64>>
    ensures found { IfSome result (SpellsTotal text.now last) }
    ensures spelled { (total : Option ℕ) → SpellsTotal text.now last total → result ≡ Some total }
{
    if is_asterisk(text) {
        return Some(None);
    }
    let total = read_number(text)?;
    if total <= last {
        return None;
    }
    Some(Some(total))
}

/// Whether the text is an asterisk.
fn is_asterisk(text: &[u8]) -> bool
    ensures { IsTrue result ↔ (text.now ≡ codes "*") }
{
    text == b"*".as_slice()
}
