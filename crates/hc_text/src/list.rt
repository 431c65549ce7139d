//! Lists of elements between commas.
ghost use Rattle.std.specs.Prelude.{◌≡◌, ◌≢◌, ℕ, ◌<◌, ◌≤◌, Bool, true, false, [], length, drop, slice_range, slice_index, IfSome, IfNone};
ghost use Rattle.hc_text.specs.Elements.{elements, is_blank, cut_pieces, begin_with, trim_end, comma, Outside, Within};
ghost use Rattle.hc_text.specs.Items.{IsNextItem};

use crate::blank::is_blank;

/// An element of a list: its bytes stand from `start` up to `end`, and the rest of the list begins
/// at `next`.
#[derive(Clone, Copy, Debug, PartialEq, Eq)]
pub struct Item {
    pub start: usize,
    pub end: usize,
    pub next: usize,
}

/// The first element of the list that `text` has from `from` on (RFC 9110 section 5.6.1).
///
/// Elements stand between commas outside quoted strings. Spaces and tabs round an element are no
/// part of it, and empty elements are skipped. Within quotes a backslash takes the next byte with
/// it, and a quote that is never closed runs to the end.
pub fn next_item(text: &[u8], from: usize) -> Option<Item>
    ensures found { IfSome result (IsNextItem text.now from) }
    ensures none { IfNone result (elements (drop from text.now) ≡ []) }
{
    let start = first_start(text, from)?;
    let stop = piece_end(text, start);
    let end = trimmed_end(text, start, stop);
    let next = text.len().min(stop + 1);
    Some(Item { start, end, next })
}

/// Where the first element that isn't empty begins, at or after `from`.
fn first_start(text: &[u8], from: usize) -> Option<usize>
    ensures bounds { IfSome result (λ start. (from ≤ start) × (start < length text.now)) }
    ensures begins { IfSome result (λ start. (is_blank (slice_index text.now start) ≡ false)
        × (slice_index text.now start ≢ comma)) }
    ensures skipped { IfSome result (λ start.
        elements (drop from text.now) ≡ elements (drop start text.now)) }
    ensures none { IfNone result (elements (drop from text.now) ≡ []) }
{
    for at in from..text.len() {
        if !is_blank(text[at]) && text[at] != b',' {
            return Some(at);
        }
    }
    None
}

/// Where the piece ends that begins at `start`: at the next comma outside quoted strings, or at
/// the end of the text.
fn piece_end(text: &[u8], start: usize) -> usize
    requires { start ≤ length text.now }
    ensures bounds { (start ≤ result) × (result ≤ length text.now) }
    ensures piece { cut_pieces Outside (drop start text.now)
        ≡ begin_with (slice_range text.now start result)
        (cut_pieces Outside (drop result text.now)) }
    ensures ends { result < length text.now → slice_index text.now result ≡ comma }
{
    let mut at = start;
    while at < text.len() && text[at] != b',' {
        at = if text[at] == b'"' {
            string_end(text, at + 1)
        } else {
            at + 1
        };
    }
    at
}

/// Where the quoted string ends whose opening quote stands just before `start`: after its closing
/// quote, or at the end of the text.
fn string_end(text: &[u8], start: usize) -> usize
    requires { start ≤ length text.now }
    ensures bounds { (start ≤ result) × (result ≤ length text.now) }
    ensures string { cut_pieces Within (drop start text.now)
        ≡ begin_with (slice_range text.now start result)
        (cut_pieces Outside (drop result text.now)) }
{
    let mut taken = false;
    for at in start..text.len() {
        if taken {
            taken = false;
        } else if text[at] == b'"' {
            return at + 1;
        } else {
            taken = text[at] == b'\\';
        }
    }
    text.len()
}

/// Where the piece from `start` up to `stop` ends without the blanks at its end.
fn trimmed_end(text: &[u8], start: usize, stop: usize) -> usize
    requires bounds { (start < stop) × (stop ≤ length text.now) }
    requires begins { is_blank (slice_index text.now start) ≡ false }
    ensures bounds { (start < result) × (result ≤ stop) }
    ensures trimmed { trim_end (slice_range text.now start stop)
        ≡ slice_range text.now start result }
    ensures blanks { (k : ℕ) → result ≤ k → k < stop → is_blank (slice_index text.now k) ≡ true }
{
    let mut end = stop;
    while is_blank(text[end - 1]) {
        end -= 1;
    }
    end
}
