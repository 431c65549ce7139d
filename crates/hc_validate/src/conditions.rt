//! The requests that the cache makes by itself.
ghost use Rattle.std.specs.Option.{ForSome};
ghost use Rattle.std.specs.Prelude.{◌≡◌, ◌≤◌, ◌<◌, ◌+◌, true, length, IfOk, OnOk, OnErr, option_copied};
ghost use Rattle.http_header.specs.Token.{IsToken, lowercase};
ghost use Rattle.hc_fields.specs.FieldList.{IsWithinLimits, is_own_value, size_of};
ghost use Rattle.hc_range.specs.Spans.{IsWithin};
ghost use Rattle.hc_record.specs.Plain.{plain};
ghost use Rattle.hc_validate.specs.Conditions.{conditional, with_condition};

use crate::setting::set_field;
use crate::tags::tag_of;
use hc_event::Request;
use hc_fields::Fields;
use hc_fresh::date_in;
use hc_record::StoredHead;
use hc_text::NoMemory;

/// The request on condition that what is stored has changed (RFC 9111 section 4.3.1): with
/// `if-none-match` where the stored ETag is one readable tag, and with `if-modified-since` where the
/// stored Last-Modified is a readable date, each as it is stored.
pub fn conditional(head: &StoredHead, request: &Request) -> Result<Request, NoMemory>
    requires { IsWithinLimits request.now.fields }
    ensures { IfOk result (λ made. made ≡ conditional (plain head.now) request.now) }
{
    let mut fields = request.fields.copy()?;
    let has_tag = tag_of(&head.fields).is_some();
    add_condition(
        &mut fields,
        has_tag,
        b"if-none-match",
        head.fields.get(b"etag"),
    )?;
    let has_date = date_in(&head.fields, b"last-modified").is_some();
    let modified = head.fields.get(b"last-modified");
    add_condition(&mut fields, has_date, b"if-modified-since", modified)?;
    Ok(Request {
        method: request.method.copy()?,
        key: request.key.copy()?,
        load: request.load,
        fields,
    })
}

/// Adds a condition with this value, where there is one and it applies.
fn add_condition(
    fields: &mut Fields,
    applies: bool,
    name: &[u8],
    value: Option<&[u8]>,
) -> Result<(), NoMemory>
    requires name { IsToken name.now }
    requires value { ForSome (option_copied value)
        (λ v. (is_own_value v ≡ true) × (length v ≤ 8192)) }
    requires few { length fields.old < 80 }
    requires small { applies ≡ true → ForSome (option_copied value)
        (λ v. size_of fields.old + (length name.now + length v) ≤ 49152) }
    ensures ok { OnOk result (fields.new
        ≡ with_condition applies (lowercase name.now) (option_copied value.entry) fields.old) }
    ensures count { OnOk result (length fields.new ≤ length fields.old + 1) }
    ensures size { OnOk result (size_of fields.new
        ≤ size_of fields.old + (length name.now + 8192)) }
{
    match value {
        Some(value) if applies => set_field(fields, name, value),
        _ => Ok(()),
    }
}
