//! An image that is read from its front.
ghost use Rattle.std.specs.Prelude.{◌≡◌, ◌≢◌, ◌<◌, ◌∷◌, ◌++◌, List, ℕ, true, length, position, ◌==◌, MatchOption};
ghost use Rattle.hc_text.specs.Texts.{IsSmall, lacks};
ghost use Rattle.hc_record.specs.Lines.{number_and_end};
ghost use Rattle.hc_record.specs.Reading.{Takes};

use hc_text::read_plain;
use memchr::memchr;
use std::marker::Model;

/// What is left of a text.
#[derive(Drop)]
pub(crate) struct Cursor<'a> {
    rest: &'a [u8],
}

impl<'a> Model for Cursor<'a> {
    ghost use Rattle.std.specs.Prelude.{ℕ, List};

    ghost Value = { List ℕ };

    ghost view = { λ c. c.rest.now };
}

impl<'a> Cursor<'a> {
    /// The whole text.
    pub(crate) fn new(text: &'a [u8]) -> Self
        ensures { result ≡ text.now }
    {
        Cursor { rest: text }
    }

    /// All that is left.
    pub(crate) fn rest(&self) -> &'a [u8]
        ensures { result.now ≡ self.now }
    {
        self.rest
    }

    /// Takes these bytes from the front, if they stand there.
    pub(crate) fn take_bytes(&mut self, bytes: &[u8]) -> Option<()>
        ensures { MatchOption result ((after : List ℕ) → bytes.now ++ after ≢ self.old)
            (λ _. bytes.now ++ self.new ≡ self.old) }
    {
        let rest = self.rest.strip_prefix(bytes)?;
        self.rest = rest;
        Some(())
    }

    /// Takes what stands before the first of these bytes, and that byte.
    pub(crate) fn take_to(&mut self, end: u8) -> Option<&'a [u8]>
        ensures { MatchOption result (lacks end self.old ≡ true)
            (λ text. (lacks end text.now ≡ true) × (text.now ++ end ∷ self.new ≡ self.old)) }
    {
        let rest = self.rest;
        let at = place_of(end, rest)?;
        self.rest = &rest[at + 1..];
        Some(&rest[..at])
    }

    /// Takes a plain number and the byte behind it, which is no digit.
    pub(crate) fn take_number(&mut self, end: u8) -> Option<u64>
        requires { end < 48 }
        ensures { Takes (number_and_end end) IsSmall self.old self.new result }
    {
        read_plain(self.take_to(end)?)
    }

    /// Takes so many bytes and a line feed.
    pub(crate) fn take_block(&mut self, count: u64) -> Option<&'a [u8]>
        ensures { MatchOption result
            ((bytes after : List ℕ) → length bytes ≡ count → bytes ++ 10 ∷ after ≢ self.old)
            (λ bytes. (length bytes.now ≡ count) × (bytes.now ++ 10 ∷ self.new ≡ self.old)) }
    {
        let rest = self.rest;
        if count >= rest.len() as u64 {
            return None;
        }
        let (bytes, behind) = rest.split_at(count as usize);
        let (end, behind) = behind.split_first()?;
        if *end != b'\n' {
            return None;
        }
        self.rest = behind;
        Some(bytes)
    }
}

/// Where such a byte stands first.
fn place_of(byte: u8, text: &[u8]) -> Option<usize>
    ensures { result ≡ position (λ b. b == byte) text.now }
{
    memchr(byte, text)
}
