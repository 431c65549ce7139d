//! What a request begins with.
ghost use Rattle.std.specs.Prelude.{◌≡◌, ◌++◌, ◌∷◌, ℕ, List};
ghost use Rattle.hc_head.specs.Starts.{goes_on_as_method, goes_on_from, goes_on_by};

use http_header::is_token_char;

/// How far the beginning of a request has come (RFC 9112 sections 2.2 and 3).
#[derive(Clone, Copy, Debug, PartialEq, Eq)]
pub enum Start {
    /// There were only empty lines so far.
    Before,
    /// The same, behind the carriage return of another line.
    BeforeReturn,
    /// Within the method, of which so many bytes came.
    Method(u8),
    /// Behind the method and its space: nothing more is looked at.
    Past,
}

/// A method has at most this many bytes.
const MOST_METHOD: u8 = 15;

/// Behind one more byte, where so many of a method came.
fn method_byte(count: u8, b: u8) -> Option<Start>
    ensures { (more : List ℕ) → goes_on_by result more ≡ goes_on_as_method count (b ∷ more) }
{
    if b == b' ' {
        return if count == 0 { None } else { Some(Start::Past) };
    }
    if is_token_char(b) && count < MOST_METHOD {
        Some(Start::Method(count + 1))
    } else {
        None
    }
}

impl Start {
    /// Behind one more byte, None where no request goes on so.
    fn byte(self, b: u8) -> Option<Start>
        ensures { (more : List ℕ) → goes_on_by result more ≡ goes_on_from self (b ∷ more) }
    {
        match (self, b) {
            (Start::Past, _) => Some(Start::Past),
            (Start::Method(count), _) => method_byte(count, b),
            (Start::Before | Start::BeforeReturn, b'\n') => Some(Start::Before),
            (Start::BeforeReturn, _) => None,
            (Start::Before, b'\r') => Some(Start::BeforeReturn),
            (Start::Before, _) => method_byte(0, b),
        }
    }

    /// Behind these bytes, None where no request goes on so. Behind the method none is looked at.
    pub fn behind(self, bytes: &[u8]) -> Option<Start>
        ensures { (more : List ℕ) → goes_on_by result more ≡ goes_on_from self (bytes.now ++ more) }
    {
        let mut start = self;
        for b in bytes {
            if start == Start::Past {
                return Some(start);
            }
            start = start.byte(*b)?;
        }
        Some(start)
    }
}
