//! A text that is read from its front.
ghost use Rattle.std.specs.Prelude.{◌≡◌, ◌≢◌, ◌<◌, ◌↔◌, ◌∷◌, ◌++◌, [], ℕ, List, Option, true, length, IsTrue, IfOk, IfSome, IfNone, MatchOption, ⊤, position, ◌==◌, ◌+◌, take, drop};
ghost use Rattle.std.specs.Char.{is_ascii_digit};
ghost use Rattle.std.specs.Fmt.{decimal};
ghost use Rattle.std.specs.List.{list_all};
ghost use Rattle.std.specs.Str.Parse.{digits_value};
ghost use Rattle.hc_text.specs.Numbers.{IsPlain};
ghost use Rattle.hc_record.specs.Lines.{number_and_end, IsSmall, kind_byte, total_text, IsSmallTotal, version_line};
ghost use Rattle.hc_fields.specs.Lines.{fields_text};
ghost use Rattle.hc_record.specs.Parts.{IsListOf};
ghost use Rattle.hc_record.specs.Reading.{Takes, lacks};

use crate::kind::Kind;
use crate::version::Version;
use hc_fields::Fields;
use hc_text::{NoMemory, read_number};
use memchr::memchr;
use std::alloc::Global;
use std::marker::Model;

/// Numbers are below this.
const LIMIT: u64 = 1 << 62;

/// What is left of a text.
#[derive(Drop)]
pub(crate) struct Cursor<'a> {
    rest: &'a [u8],
}

impl<'a> Model for Cursor<'a> {
    ghost use Rattle.std.specs.Prelude.{ℕ, List};

    ghost Value = { List ℕ };

    ghost view = { λ c. c.rest.now };
}

impl<'a> Cursor<'a> {
    /// The whole text.
    pub(crate) fn new(text: &'a [u8]) -> Self
        ensures { result ≡ text.now }
    {
        Cursor { rest: text }
    }

    /// Whether nothing is left.
    pub(crate) fn is_at_end(&self) -> bool
        ensures { IsTrue result ↔ (self.now ≡ []) }
    {
        self.rest.is_empty()
    }

    /// Takes these bytes from the front, if they stand there.
    pub(crate) fn take_bytes(&mut self, bytes: &[u8]) -> Option<()>
        ensures taken { MatchOption result ((after : List ℕ) → bytes.now ++ after ≢ self.old)
            (λ _. bytes.now ++ self.new ≡ self.old) }
        ensures stays { IfNone result (self.new ≡ self.old) }
    {
        let rest = self.rest.strip_prefix(bytes)?;
        self.rest = rest;
        Some(())
    }

    /// Takes what stands before the next line feed, and that byte.
    pub(crate) fn take_line(&mut self) -> Option<&'a [u8]>
        ensures { MatchOption result (lacks 10 self.old ≡ true)
            (λ text. (lacks 10 text.now ≡ true) × (text.now ++ 10 ∷ self.new ≡ self.old)) }
    {
        let rest = self.rest;
        let at = feed_place(rest)?;
        self.rest = &rest[at + 1..];
        Some(&rest[..at])
    }

    /// Takes a plain number and the byte behind it, which is no digit.
    pub(crate) fn take_number(&mut self, end: u8) -> Option<u64>
        requires { end < 48 }
        ensures { Takes (number_and_end end) IsSmall self.old self.new result }
    {
        let rest = self.rest;
        let (n, len) = number_before(rest, end)?;
        self.rest = &rest[len + 1..];
        Some(n)
    }

    /// Takes the line of a version.
    pub(crate) fn take_version(&mut self) -> Option<Version>
        ensures { Takes version_line (λ _. ⊤) self.old self.new result }
    {
        if let Some(()) = self.take_bytes(b"record 2\n") {
            return Some(Version::Second);
        }
        self.take_bytes(b"record 1\n")?;
        Some(Version::First)
    }

    /// Takes this many field lines.
    pub(crate) fn take_fields(
        &mut self,
        alloc: Global,
        count: u64,
    ) -> Result<Option<Fields>, NoMemory>
        ensures { IfOk result (λ read. Takes fields_text (IsListOf count) self.old self.new read) }
    {
        let Some((fields, len)) = Fields::read_lines(alloc, self.rest, count)? else {
            return Ok(None);
        };
        self.rest = &self.rest[len..];
        Ok(Some(fields))
    }

    /// Takes the byte of a kind.
    pub(crate) fn take_kind(&mut self) -> Option<Kind>
        ensures { Takes (λ kind. kind_byte kind ∷ []) (λ _. ⊤) self.old self.new result }
    {
        let (first, rest) = self.rest.split_first()?;
        let kind = Kind::from_byte(*first)?;
        self.rest = rest;
        Some(kind)
    }

    /// Takes the 20 bytes of a total.
    pub(crate) fn take_total(&mut self) -> Option<Option<u64>>
        ensures { Takes total_text IsSmallTotal self.old self.new result }
    {
        if self.rest.len() < 20 {
            return None;
        }
        let (text, rest) = self.rest.split_at(20);
        let total = read_total(text)?;
        self.rest = rest;
        Some(total)
    }
}

/// The plain number that stands before the first such byte, which is no digit, and how many digits it has.
// Finds the byte and reads the digits at once.
fn number_before(text: &[u8], end: u8) -> Option<(u64, usize)>
    requires { end < 48 }
    ensures found { IfSome result (λ read. IsPlain (take read.1 text.now) read.0
        × (take read.1 text.now ++ end ∷ drop (read.1 + 1) text.now ≡ text.now)) }
    ensures none { IfNone result ((n : ℕ) (after : List ℕ)
        → IsSmall n → decimal n ++ end ∷ after ≢ text.now) }
{
    let mut n = 0;
    for (i, b) in text.iter().enumerate() {
        if *b == end {
            return if is_plain(n, &text[..i]) {
                Some((n, i))
            } else {
                None
            };
        }
        if !b.is_ascii_digit() || n > (LIMIT - 1) / 10 {
            return None;
        }
        n = n * 10 + u64::from(*b - b'0');
    }
    None
}

/// Whether the digits are the plain decimal of their value, which is below 2^62.
fn is_plain(n: u64, digits: &[u8]) -> bool
    requires digits { list_all is_ascii_digit digits.now ≡ true }
    requires value { n ≡ digits_value 10 digits.now }
    ensures { IsTrue result ↔ IsPlain digits.now n }
{
    if digits.is_empty() {
        return false;
    }
    if digits[0] == b'0' {
        return digits.len() == 1;
    }
    n < LIMIT
}

/// Where the first line feed stands.
fn feed_place(text: &[u8]) -> Option<usize>
    ensures { result ≡ position (λ b. b == 10) text.now }
{
    memchr(b'\n', text)
}

/// The total of these 20 bytes.
fn read_total(text: &[u8]) -> Option<Option<u64>>
    requires { length text.now ≡ 20 }
    ensures { MatchOption result
        ((total : Option ℕ) → IsSmallTotal total → total_text total ≢ text.now)
        (λ total. IsSmallTotal total × (total_text total ≡ text.now)) }
{
    if text == b"--------------------".as_slice() {
        return Some(None);
    }
    match read_number(text) {
        Some(total) => Some(Some(total)),
        None => None,
    }
}
