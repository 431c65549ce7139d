//! What is shown of a stored head.
ghost use Rattle.std.specs.Option.{ForSome};
ghost use Rattle.std.specs.Prelude.{◌≡◌, ◌≤◌, ◌<◌, ◌-◌, ◌+◌, true, length, IsSomeAnd, IfOk, OnOk, codes};
ghost use Rattle.std.specs.Fmt.{decimal};
ghost use Rattle.http_header.specs.Token.{IsToken, lowercase};
ghost use Rattle.hc_fields.specs.FieldList.{size_of};
ghost use Rattle.hc_range.specs.Spans.{IsWithin};
ghost use Rattle.hc_record.specs.Plain.{plain};
ghost use Rattle.hc_validate.specs.Updates.{with_one};
ghost use Rattle.hc_validate.specs.Showing.{part_of, shown_response, with_age, with_length, with_range};

use crate::setting::set_field;
use hc_event::{Response, Why};
use hc_fields::Fields;
use hc_range::{Span, write_content_range};
use hc_record::StoredHead;
use hc_text::NoMemory;
use itoa::Buffer;

/// The head that a consumer is shown of a stored one (RFC 9110 sections 14.4 and 15.3.7): a 206 of the
/// span where the consumer is `ranged` and has one, and else a 200, with `content-length` where the
/// total is known. An answer that isn't validated has its age (RFC 9111 section 5.1).
pub fn shown(
    head: StoredHead,
    why: Why,
    span: Option<Span>,
    ranged: bool,
) -> Result<Response, NoMemory>
    requires { ranged ≡ true → ForSome span (λ s. IsSomeAnd head.total (IsWithin s)) }
    ensures { IfOk result (λ response. response ≡ shown_response (plain head) why span ranged) }
{
    let mut fields = head.fields;
    add_age(&mut fields, why)?;
    match (span, head.total) {
        (Some(span), Some(total)) if ranged => {
            add_range(&mut fields, span, total)?;
            Ok(Response {
                status: 206,
                fields,
            })
        }
        (_, total) => {
            if let Some(total) = total {
                set_number(&mut fields, b"content-length", total)?;
            }
            Ok(Response {
                status: 200,
                fields,
            })
        }
    }
}

/// The age of an answer that isn't validated takes the place of any that is stored.
fn add_age(fields: &mut Fields, why: Why) -> Result<(), NoMemory>
    requires few { length fields.old ≤ 64 }
    requires small { size_of fields.old ≤ 32768 }
    ensures ok { OnOk result (fields.new ≡ with_age why fields.old) }
    ensures few_after { OnOk result (length fields.new ≤ 65) }
    ensures small_after { OnOk result (size_of fields.new ≤ 33000) }
{
    match why {
        Why::Fresh { age, .. } | Why::StaleAllowed { age, .. } => set_number(fields, b"age", age),
        Why::Fetched(_) | Why::Validated(_) => Ok(()),
    }
}

/// The length and the place of a part take the place of any that are stored.
pub(crate) fn add_range(fields: &mut Fields, span: Span, total: u64) -> Result<(), NoMemory>
    requires within { IsWithin span total }
    requires few { length fields.old ≤ 65 }
    requires small { size_of fields.old ≤ 33000 }
    ensures ok { OnOk result (fields.new ≡ with_range span total fields.old) }
{
    set_number(fields, b"content-length", span.hi - span.lo)?;
    let mut text = Vec::new(fields.allocator());
    write_content_range(span, total, &mut text)?;
    set_field(fields, b"content-range", text.as_slice())
}

/// A number takes the place of all values of a name.
pub(crate) fn set_number(fields: &mut Fields, name: &[u8], number: u64) -> Result<(), NoMemory>
    requires name { IsToken name.now }
    requires few { length fields.old ≤ 78 }
    requires small { size_of fields.old + length name.now ≤ 48000 }
    ensures ok { OnOk result (fields.new
        ≡ with_one (lowercase name.now) (decimal number) fields.old) }
    ensures count { OnOk result (length fields.new ≤ length fields.old + 1) }
    ensures size { OnOk result (size_of fields.new ≤ size_of fields.old + (length name.now + 20)) }
{
    let mut buffer = Buffer::new();
    set_field(fields, name, buffer.format(number).as_bytes())
}
