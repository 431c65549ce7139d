//! The first line of an item.
ghost use Rattle.std.specs.Prelude.{◌≡◌, ◌+◌, ◌≤◌, length, IsTrue, IfSome, OnSome, option_map};
ghost use Rattle.std.specs.List.{list_all};
ghost use Rattle.http_header.specs.Token.{is_token_byte};
ghost use Rattle.hc_sched.specs.FirstLines.{is_method, is_word, load_of, how_of, start_of, poll_of, head_of, piece_of, doom_of, first_of};
ghost use Rattle.hc_sched.specs.Lent.{as_first, Suits};

use crate::piece::is_piece_text;
use crate::words::{numbered, plain, plain_within};
use hc_event::{Event, Load};
use hc_text::{cut, lacks};
use http_header::is_token_char;

/// A piece has at most this many bytes, and a consumer asks for at most as many.
const MOST_BYTES: u64 = 65_536;

/// An item has at most this many fields.
const MOST_FIELDS: u64 = 64;

/// A request of the consumer `c`, with `count` field lines to come.
#[derive(Drop)]
pub(crate) struct Start<'a> {
    pub(crate) c: u64,
    pub(crate) method: &'a [u8],
    pub(crate) load: Load,
    pub(crate) target: &'a [u8],
    pub(crate) count: u64,
}

/// What the first line of an item says. A target is any word: whether it is one is tested apart.
#[derive(Drop)]
pub(crate) enum First<'a> {
    /// The moment is set.
    Sets(u64),
    /// A request is made.
    Starts(Start<'a>),
    /// The head of the exchange `x`, with `count` field lines to come.
    Heads { x: u64, status: u16, count: u64 },
    /// A piece of the exchange `x`, by its text.
    Brings { x: u64, text: &'a [u8] },
    /// All entries of a target are forgotten.
    Dooms(&'a [u8]),
    /// An event of numbers alone.
    Reports(Event),
}

/// Whether each byte may stand in a token (RFC 9110 section 5.6.2).
fn is_token_text(text: &[u8]) -> bool
    ensures { result ≡ list_all is_token_byte text.now }
{
    text.iter().all(|b| is_token_char(*b))
}

/// Whether the text is a method of a schedule: a token of 1 to 15 bytes other than `CONNECT`.
#[tactic(auto, unfolding(crate::specs::FirstLines::is_method))]
fn is_method(text: &[u8]) -> bool
    ensures value { result ≡ is_method text.now }
    ensures short { IsTrue result → length text.now ≤ 15 }
{
    is_token_text(text) && 1 <= text.len() && text.len() <= 15 && text != b"CONNECT".as_slice()
}

/// Whether the text is one or more bytes without a space.
#[tactic(auto, unfolding(crate::specs::FirstLines::is_word))]
fn is_word(text: &[u8]) -> bool
    ensures { result ≡ is_word text.now }
{
    1 <= text.len() && lacks(text, b' ')
}

#[tactic(auto, unfolding(crate::specs::FirstLines::load_of))]
fn read_load(word: &[u8]) -> Option<Load>
    ensures value { result ≡ load_of word.now }
    ensures short { OnSome result (length word.now ≤ 8) }
{
    if word == b"normal".as_slice() {
        Some(Load::Normal)
    } else if word == b"validate".as_slice() {
        Some(Load::Validate)
    } else if word == b"bypass".as_slice() {
        Some(Load::Bypass)
    } else if word == b"skip".as_slice() {
        Some(Load::Skip)
    } else if word == b"only".as_slice() {
        Some(Load::Only)
    } else if word == b"disable".as_slice() {
        Some(Load::Disable)
    } else {
        None
    }
}

/// `LOAD TARGET K`.
#[tactic(auto, unfolding(crate::specs::FirstLines::how_of))]
fn read_how(words: &[u8]) -> Option<(Load, &[u8], u64)>
    ensures value { option_map (λ how. (how.0, how.1.now, how.2)) result ≡ how_of words.now }
    ensures few { IfSome result (λ how. how.2 ≤ 64) }
    ensures short { IfSome result (λ how. length words.now ≤ length how.1.now + 29) }
{
    let (word, rest) = cut(words, b' ')?;
    let load = read_load(word)?;
    let (target, rest) = cut(rest, b' ')?;
    let count = plain_within(rest, 0, MOST_FIELDS)?;
    if is_word(target) {
        Some((load, target, count))
    } else {
        None
    }
}

/// `C METHOD LOAD TARGET K`.
#[tactic(auto, unfolding(crate::specs::FirstLines::start_of))]
fn read_start(words: &[u8]) -> Option<First<'_>>
    ensures value { option_map as_first result ≡ start_of words.now }
    ensures suits { IfSome result (λ first. Suits (as_first first) (length words.now + 6)) }
{
    let (c, rest) = numbered(words)?;
    let (method, rest) = cut(rest, b' ')?;
    let (load, target, count) = read_how(rest)?;
    if !is_method(method) {
        return None;
    }
    Some(First::Starts(Start {
        c,
        method,
        load,
        target,
        count,
    }))
}

/// `C WANT`.
#[tactic(auto, unfolding(crate::specs::FirstLines::poll_of))]
fn read_poll(words: &[u8]) -> Option<First<'_>>
    ensures value { option_map as_first result ≡ poll_of words.now }
    ensures suits { IfSome result (λ first. Suits (as_first first) (length words.now + 6)) }
{
    let (c, rest) = numbered(words)?;
    let want = plain_within(rest, 0, MOST_BYTES)?;
    Some(First::Reports(Event::Poll {
        c,
        want: want as u32,
    }))
}

/// `X STATUS K`.
#[tactic(auto, unfolding(crate::specs::FirstLines::head_of))]
fn read_head(words: &[u8]) -> Option<First<'_>>
    ensures value { option_map as_first result ≡ head_of words.now }
    ensures suits { IfSome result (λ first. Suits (as_first first) (length words.now + 6)) }
{
    let (x, rest) = numbered(words)?;
    let (status, rest) = cut(rest, b' ')?;
    let status = plain_within(status, 200, 599)?;
    let count = plain_within(rest, 0, MOST_FIELDS)?;
    Some(First::Heads {
        x,
        status: status as u16,
        count,
    })
}

/// `X HEX`.
#[tactic(auto, unfolding(crate::specs::FirstLines::piece_of))]
fn read_piece(words: &[u8]) -> Option<First<'_>>
    ensures value { option_map as_first result ≡ piece_of words.now }
    ensures suits { IfSome result (λ first. Suits (as_first first) (length words.now + 6)) }
{
    let (x, text) = numbered(words)?;
    if is_piece_text(text) {
        Some(First::Brings { x, text })
    } else {
        None
    }
}

#[tactic(auto, unfolding(crate::specs::FirstLines::doom_of))]
fn read_doom(words: &[u8]) -> Option<First<'_>>
    ensures value { option_map as_first result ≡ doom_of words.now }
    ensures suits { IfSome result (λ first. Suits (as_first first) (length words.now + 6)) }
{
    if is_word(words) {
        Some(First::Dooms(words))
    } else {
        None
    }
}

/// What the line says as the first line of an item, or None where it is none.
#[tactic(auto, unfolding(hc_text::specs::Texts::behind, crate::specs::FirstLines::first_of))]
pub(crate) fn read_first(line: &[u8]) -> Option<First<'_>>
    ensures value { option_map as_first result ≡ first_of line.now }
    ensures suits { IfSome result (λ first. Suits (as_first first) (length line.now)) }
{
    if let Some(words) = line.strip_prefix(b"poll ") {
        return read_poll(words);
    }
    if let Some(words) = line.strip_prefix(b"piece ") {
        return read_piece(words);
    }
    if let Some(words) = line.strip_prefix(b"at ") {
        return Some(First::Sets(plain(words)?));
    }
    if let Some(words) = line.strip_prefix(b"start ") {
        return read_start(words);
    }
    if let Some(words) = line.strip_prefix(b"head ") {
        return read_head(words);
    }
    if let Some(words) = line.strip_prefix(b"end ") {
        return Some(First::Reports(Event::End { x: plain(words)? }));
    }
    if let Some(words) = line.strip_prefix(b"fault ") {
        return Some(First::Reports(Event::Fault { x: plain(words)? }));
    }
    if let Some(words) = line.strip_prefix(b"cancel ") {
        return Some(First::Reports(Event::Cancel { c: plain(words)? }));
    }
    if let Some(words) = line.strip_prefix(b"doom ") {
        return read_doom(words);
    }
    None
}
