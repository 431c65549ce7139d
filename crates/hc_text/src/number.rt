//! Numbers in decimal, below 2^62.
ghost use Rattle.std.specs.Prelude.{◌≡◌, ℕ, true, false, MatchOption, ◌<◌, ◌^◌, ◌++◌, drop, IfSome, IfNone, OnOk, OnErr, vec_len, vec_capacity, ◌+◌, ◌≤◌};
ghost use Rattle.std.specs.Fmt.{decimal};
ghost use Rattle.std.specs.Char.{is_ascii_digit, digit_value};
ghost use Rattle.hc_text.specs.Numbers.{IsPlain, IsNumber};

use crate::memory::NoMemory;
use itoa::Buffer;

/// Numbers are below this.
const LIMIT: u64 = 1 << 62;

/// The most digits of a number, leading zeros among them.
const MOST_DIGITS: usize = 20;

/// The value of 1 to 20 digits, where it is below 2^62. Leading zeros are allowed.
///
/// Each byte is looked at once, since a record has five numbers and is read often.
pub fn read_number(text: &[u8]) -> Option<u64>
    ensures found { IfSome result (IsNumber text.now) }
    ensures none { IfNone result ((n : ℕ) → ¬ (IsNumber text.now n)) }
{
    if text.is_empty() || text.len() > MOST_DIGITS {
        return None;
    }
    let mut n = 0;
    for b in text {
        let digit = digit_of(*b)?;
        if n > (LIMIT - 1) / 10 {
            return None;
        }
        n = n * 10 + digit;
    }
    if n < LIMIT { Some(n) } else { None }
}

/// The number below 2^62 whose plain decimal the text is: as `read_number`, without leading zeros.
pub fn read_plain(text: &[u8]) -> Option<u64>
    ensures found { IfSome result (IsPlain text.now) }
    ensures none { IfNone result ((n : ℕ) → ¬ (IsPlain text.now n)) }
{
    if text.len() > 1 && text[0] == b'0' {
        return None;
    }
    read_number(text)
}

/// Appends the plain decimal of the number, or nothing. `read_plain` reads it back.
pub fn write_number(n: u64, to: &mut Vec<u8>) -> Result<(), NoMemory>
    ensures ok { OnOk result (to.new.items ≡ to.old.items ++ decimal n) }
    ensures err { OnErr result (to.new.items ≡ to.old.items) }
    ensures read_back { OnOk result (n < 2 ^ 62 → IsPlain (drop (vec_len to.old) to.new.items) n) }

    // With room for 20 bytes it succeeds, so a caller may ask for the room of several numbers at once.
    ensures full { OnErr result (vec_capacity to.old < vec_len to.old + 20) }
    ensures capacity { vec_capacity to.old ≤ vec_capacity to.new }
    ensures len { vec_len to.new ≤ vec_len to.old + 20 }
{
    let mut buffer = Buffer::new();
    to.extend_from_slice(buffer.format(n).as_bytes())?;
    Ok(())
}

/// The value of a decimal digit.
fn digit_of(b: u8) -> Option<u64>
    ensures { MatchOption result (is_ascii_digit b ≡ false)
        (λ digit. (is_ascii_digit b ≡ true) × (digit ≡ digit_value b) × (digit < 10)) }
{
    if !b.is_ascii_digit() {
        return None;
    }
    Some(u64::from(b - b'0'))
}
