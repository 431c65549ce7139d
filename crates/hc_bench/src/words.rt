//! Numbers in words.
ghost use Rattle.std.specs.Prelude.{◌≤◌, ◌^◌, IfOk};

use crate::error::BenchError;
use hc_text::read_plain;

/// The most rounds.
const MOST_TIMES: u64 = 1 << 32;

/// How many rounds the word asks for.
pub(crate) fn times_of(word: &str) -> Result<u64, BenchError>
    ensures { IfOk result (λ times. times ≤ 2 ^ 32) }
{
    number_of(word, 0, MOST_TIMES)
}

/// The number of the word, from `least` to `most`.
pub(crate) fn number_of(word: &str, least: u64, most: u64) -> Result<u64, BenchError>
    ensures { IfOk result (λ n. n ≤ most) }
{
    match read_plain(word.as_bytes()) {
        Some(n) if least <= n && n <= most => Ok(n),
        _ => Err(BenchError::Usage),
    }
}
