//! Words of a line.
ghost use Rattle.std.specs.Prelude.{◌≡◌, ◌+◌, ◌≤◌, length, IfSome, OnSome, option_map};
ghost use Rattle.hc_sched.specs.Words.{number_and_rest, plain_of, plain_within};

use hc_text::{cut, read_plain};

/// The number whose plain decimal the text is.
#[tactic(auto, using(crate::proofs::Plain::plain_of_is))]
pub(crate) fn plain(text: &[u8]) -> Option<u64>
    ensures value { result ≡ plain_of text.now }
    ensures short { OnSome result (length text.now ≤ 19) }
{
    read_plain(text)
}

/// The number from `low` to `high` whose plain decimal the text is.
#[tactic(auto, unfolding(crate::specs::Words::plain_within))]
pub(crate) fn plain_within(text: &[u8], low: u64, high: u64) -> Option<u64>
    ensures value { result ≡ plain_within low high text.now }
    ensures within { IfSome result (λ n. (low ≤ n) × (n ≤ high)) }
    ensures short { OnSome result (length text.now ≤ 19) }
{
    let n = plain(text)?;
    if low <= n && n <= high { Some(n) } else { None }
}

/// The number that the words begin with, and what stands behind its space.
#[tactic(auto, unfolding(crate::specs::Words::number_and_rest))]
pub(crate) fn numbered(words: &[u8]) -> Option<(u64, &[u8])>
    ensures value { option_map (λ parts. (parts.0, parts.1.now)) result
        ≡ number_and_rest words.now }
    ensures short { IfSome result (λ parts. length words.now ≤ length parts.1.now + 20) }
{
    let (number, rest) = cut(words, b' ')?;
    let n = plain(number)?;
    Some((n, rest))
}
