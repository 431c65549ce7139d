//! The lines of a record before its fields.
ghost use Rattle.std.specs.Prelude.{◌≡◌, ◌≢◌, ◌↔◌, ◌||◌, ◌∷◌, [], ◌++◌, ℕ, List, true, false, IsTrue, IfSome, IfNone, MatchOption};
ghost use Rattle.hc_etag.specs.Etags.{quote};
ghost use Rattle.hc_rules.specs.Statuses.{brings_whole, brings_part};
ghost use Rattle.hc_record.specs.Head.{opaque_of};
ghost use Rattle.hc_record.specs.Lines.{joining_text, tag_line};
ghost use Rattle.hc_record.specs.Parts.{seal_text, IsSmallSeal, numbers_text, AreSmall, first_text, AreFirst, ReportsSame};
ghost use Rattle.hc_record.specs.Reading.{Takes, lacks};

use crate::cursor::Cursor;
use crate::kind::Kind;
use crate::version::Version;
use hc_etag::Tag;
use hc_rules::{brings_part, brings_whole};

/// Kind and total.
#[derive(Clone, Copy)]
pub(crate) struct Seal {
    pub(crate) kind: Kind,
    pub(crate) total: Option<u64>,
}

/// Status, moments and counts of fields.
#[derive(Clone, Copy)]
pub(crate) struct Numbers {
    pub(crate) status: u64,
    pub(crate) requested: u64,
    pub(crate) answered: u64,
    pub(crate) vary_count: u64,
    pub(crate) count: u64,
}

/// The first three lines, and the status as that of a founding head.
#[derive(Clone, Copy)]
pub(crate) struct FirstLines {
    pub(crate) version: Version,
    pub(crate) seal: Seal,
    pub(crate) numbers: Numbers,
    pub(crate) status: u16,
}

/// The status of a founding head, which brings a whole or a part.
#[tactic(auto, using(hc_rules::proofs::Statuses::past_no_whole, hc_rules::proofs::Statuses::past_no_part))]
fn status_of(number: u64) -> Option<u16>
    ensures { MatchOption result ((brings_whole number || brings_part number) ≡ false)
        (λ status. (status ≡ number) × IsTrue (brings_whole status || brings_part status)) }
{
    let Ok(status) = u16::try_from(number) else {
        return None;
    };
    if brings_whole(status) || brings_part(status) {
        Some(status)
    } else {
        None
    }
}

/// Takes the first three lines.
pub(crate) fn take_first_lines(text: &mut Cursor<'_>) -> Option<FirstLines>
    ensures { Takes first_text AreFirst text.old text.new result }
{
    let version = text.take_version()?;
    let seal = take_seal(text)?;
    let numbers = take_numbers(text)?;
    let status = status_of(numbers.status)?;
    Some(FirstLines {
        version,
        seal,
        numbers,
        status,
    })
}

/// Takes the line of the tag, where the version has one, and gives the tag's text.
pub(crate) fn take_tag_text<'a>(version: Version, text: &mut Cursor<'a>) -> Option<&'a [u8]>
    ensures found { IfSome result (λ tag. (lacks 10 tag.now ≡ true)
        × (tag_line version tag.now ++ text.new ≡ text.old)) }
    ensures none { IfNone result ((tag after : List ℕ)
        → lacks 10 tag ≡ true → tag_line version tag ++ after ≢ text.old) }
{
    match version {
        Version::First => Some(b""),
        Version::Second => {
            text.take_bytes(b"tag ")?;
            text.take_line()
        }
    }
}

/// Whether the text is that of the joining tag, where the version tells one.
pub(crate) fn is_own_tag(version: Version, text: &[u8], joining: &Option<Tag>) -> bool
    ensures { ReportsSame version text.now (joining_text (opaque_of joining.now)) result }
{
    match version {
        Version::First => true,
        Version::Second => is_joining_text(text, joining),
    }
}

/// Whether the text is that of the joining tag.
fn is_joining_text(text: &[u8], joining: &Option<Tag>) -> bool
    ensures { IsTrue result ↔ (text.now ≡ joining_text (opaque_of joining.now)) }
{
    match joining {
        None => text == b"-".as_slice(),
        Some(tag) => is_quoted(text, tag.opaque.as_slice()),
    }
}

/// Whether the text is these bytes between two quotes.
fn is_quoted(text: &[u8], inside: &[u8]) -> bool
    ensures { IsTrue result ↔ (text.now ≡ quote ∷ inside.now ++ quote ∷ []) }
{
    let Some((first, rest)) = text.split_first() else {
        return false;
    };
    let Some((last, found)) = rest.split_last() else {
        return false;
    };
    *first == b'"' && *last == b'"' && found == inside
}

/// Takes the line of kind and total.
pub(crate) fn take_seal(text: &mut Cursor<'_>) -> Option<Seal>
    ensures { Takes seal_text IsSmallSeal text.old text.new result }
{
    let kind = text.take_kind()?;
    text.take_bytes(b" ")?;
    let total = text.take_total()?;
    text.take_bytes(b"\n")?;
    Some(Seal { kind, total })
}

/// Takes the line of numbers.
pub(crate) fn take_numbers(text: &mut Cursor<'_>) -> Option<Numbers>
    ensures { Takes numbers_text AreSmall text.old text.new result }
{
    let status = text.take_number(b' ')?;
    let requested = text.take_number(b' ')?;
    let answered = text.take_number(b' ')?;
    let vary_count = text.take_number(b' ')?;
    let count = text.take_number(b'\n')?;
    Some(Numbers {
        status,
        requested,
        answered,
        vary_count,
        count,
    })
}
