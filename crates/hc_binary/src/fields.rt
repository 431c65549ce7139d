//! Fields as lines of a text, in any order and case.
ghost use Rattle.std.specs.Prelude.{◌≡◌, ◌≢◌, ◌+◌, ◌<◌, ◌++◌, true, false, length, drop, Ok, Err, Some, None, IfOk, MatchResult, OnOk, IsErrOf, option_map};
ghost use Rattle.hc_sched.specs.FieldLines.{field_parts};
ghost use Rattle.hc_fields.specs.FieldList.{IsWithinLimits};
ghost use Rattle.hc_binary.specs.FieldTexts.{fields_of, line_behind, read_on, IsRead, IsRest};

use crate::refused::CallRefusal;
use hc_fields::{FieldError, Fields};
use hc_text::cut;
use std::alloc::Global;

/// The name and the value of a line `NAME: VALUE`.
#[tactic(auto, unfolding(hc_text::specs::Texts::behind, hc_sched::specs::FieldLines::field_parts))]
fn named(line: &[u8]) -> Option<(&[u8], &[u8])>
    ensures { option_map (λ field. (field.0.now, field.1.now)) result ≡ field_parts line.now }
{
    let (name, rest) = cut(line, b':')?;
    let value = rest.strip_prefix(b" ")?;
    Some((name, value))
}

/// Why a field is refused.
fn refused_by(e: FieldError) -> CallRefusal
    ensures memory { e ≡ FieldError.NoMemory → result ≡ CallRefusal.NoMemory }
    ensures others { e ≢ FieldError.NoMemory → result ≡ CallRefusal.BadFields }
{
    match e {
        FieldError::NoMemory => CallRefusal::NoMemory,
        _ => CallRefusal::BadFields,
    }
}

/// The field of a line comes behind these.
#[tactic(auto, unfolding(crate::specs::FieldTexts::line_behind))]
fn read_line(fields: &mut Fields, line: &[u8]) -> Result<(), CallRefusal>
    ensures read { IsRead (line_behind fields.old line.now) fields.new result }
    ensures within_limits { OnOk result (IsWithinLimits fields.new) }
{
    let Some((name, value)) = named(line) else {
        return Err(CallRefusal::BadFields);
    };
    if let Err(e) = fields.append(name, value) {
        return Err(refused_by(e));
    }
    if fields.within_limits() {
        Ok(())
    } else {
        Err(CallRefusal::BadFields)
    }
}

/// The fields whose lines the text is.
pub(crate) fn read_fields(alloc: Global, text: &[u8]) -> Result<Fields, CallRefusal>
    ensures value { MatchResult result (λ fields. fields_of text.now ≡ Some fields)
        (λ e. e ≢ CallRefusal.NoMemory
        → (e ≡ CallRefusal.BadFields) × (fields_of text.now ≡ None)) }
    ensures within_limits { IfOk result (λ fields. IsWithinLimits fields) }
{
    let mut fields = Fields::new(alloc)?;
    let mut rest = text;
    while let Some((line, after)) = cut(rest, b'\n') {
        read_line(&mut fields, line)?;
        rest = after;
    }
    if rest.is_empty() {
        Ok(fields)
    } else {
        Err(CallRefusal::BadFields)
    }
}
