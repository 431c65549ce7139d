//! Spans as text.
ghost use Rattle.std.specs.Prelude.{◌≡◌, ◌++◌, ◌-◌, Some, OnOk, OnErr};
ghost use Rattle.hc_range.specs.Ranges.{SpellsRange, SpellsContentRange};
ghost use Rattle.hc_range.specs.declared.range.ContentRange.TheVariants.{Part};
ghost use Rattle.hc_range.specs.Spans.{IsWithin, range_text, content_range_text, asked_by, resolved_span};

use crate::range::Span;
use hc_text::{NoMemory, write_number};

/// Appends the Range field's text that asks for the span of a representation of length `total`, or
/// nothing: without the end, where that is the length. It is read back as that span.
#[tactic(auto, using(crate::proofs::RangeLemmas::range_text_spells))]
pub fn write_range(span: Span, total: u64, to: &mut Vec<u8>) -> Result<(), NoMemory>
    requires { IsWithin span total }
    ensures ok { OnOk result (to.new.items ≡ to.old.items ++ range_text span total) }
    ensures err { OnErr result (to.new.items ≡ to.old.items) }
    ensures read_back { SpellsRange (range_text span total) (asked_by span total) }
    ensures resolved_back { resolved_span (asked_by span total) total ≡ Some span }
{
    to.reserve(47)?;
    to.extend_from_slice(b"bytes=")?;
    write_number(span.lo, to)?;
    to.push(b'-')?;
    if span.hi < total {
        write_number(span.hi - 1, to)?;
    }
    Ok(())
}

/// Appends the Content-Range field's text that tells the span and the length, or nothing. It is
/// read back as they are.
#[tactic(auto, using(crate::proofs::RangeLemmas::content_range_text_spells))]
pub fn write_content_range(span: Span, total: u64, to: &mut Vec<u8>) -> Result<(), NoMemory>
    requires { IsWithin span total }
    ensures ok { OnOk result (to.new.items ≡ to.old.items ++ content_range_text span total) }
    ensures err { OnErr result (to.new.items ≡ to.old.items) }
    ensures read_back { SpellsContentRange (content_range_text span total)
        (Part span.lo (span.hi - 1) (Some total)) }
{
    to.reserve(68)?;
    to.extend_from_slice(b"bytes ")?;
    write_number(span.lo, to)?;
    to.push(b'-')?;
    write_number(span.hi - 1, to)?;
    to.push(b'/')?;
    write_number(total, to)?;
    Ok(())
}
