//! Numbers of seconds in arguments.
ghost use Rattle.std.specs.Prelude.{◌≡◌, ◌≤◌, ◌+◌, ◌*◌, min, true, false, IfSome, MatchOption};
ghost use Rattle.std.specs.Char.{is_ascii_digit, digit_value};
ghost use Rattle.std.specs.Option.{option_and_then};
ghost use Rattle.hc_cachectl.specs.Seconds.{GrowsBy, most_seconds, plain_seconds, quoted_content, seconds_of};

/// More seconds count as this many (RFC 9111 section 1.2.2).
pub(crate) const MOST: u64 = 1 << 31;

/// The seconds that an argument tells by one or more digits, however many, themselves or in a
/// quoted string.
pub(crate) fn read_seconds(argument: &[u8]) -> Option<u64>
    ensures { result ≡ seconds_of argument.now }
{
    match argument {
        [b'"', text @ ..] => read_quoted(text),
        _ => read_delta_seconds(argument),
    }
}

/// The seconds that one or more digits tell, however many (RFC 9111 section 1.2.2): 2^31 above that.
pub fn read_delta_seconds(digits: &[u8]) -> Option<u64>
    ensures value { result ≡ plain_seconds digits.now }
    ensures capped { IfSome result (λ n. n ≤ most_seconds) }
{
    let mut seconds = None;
    for &digit in digits {
        seconds = Some(with_digit(seconds.unwrap_or(0), digit)?);
    }
    seconds
}

/// The seconds that the digits of a quoted string tell, of which the opening quote is left out.
fn read_quoted(text: &[u8]) -> Option<u64>
    ensures { result ≡ option_and_then plain_seconds (quoted_content text.now) }
{
    let mut seconds = None;
    let mut at = 0;
    while at + 1 < text.len() && text[at] != b'"' {
        if text[at] == b'\\' {
            at += 1;
        }
        seconds = Some(with_digit(seconds.unwrap_or(0), text[at])?);
        at += 1;
    }
    if at + 1 == text.len() && text[at] == b'"' {
        seconds
    } else {
        None
    }
}

/// The seconds with one more digit, None where it isn't one.
fn with_digit(seconds: u64, digit: u8) -> Option<u64>
    requires { seconds ≤ most_seconds }
    ensures { MatchOption result (is_ascii_digit digit ≡ false) (GrowsBy digit seconds) }
{
    if digit.is_ascii_digit() {
        let more = seconds * 10 + u64::from(digit - b'0');
        Some(more.min(MOST))
    } else {
        None
    }
}
