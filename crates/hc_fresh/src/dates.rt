//! Dates of a stored head.
ghost use Rattle.std.specs.Prelude.{◌≡◌, ◌<◌, ◌≤◌, ◌^◌, length, IfSome, OnSome};
ghost use Rattle.std.specs.Option.{ForSome};
ghost use Rattle.http_header.specs.Token.{lowercase};
ghost use Rattle.hc_fields.specs.FirstValues.{first_value};
ghost use Rattle.hc_record.specs.Plain.{plain};
ghost use Rattle.hc_fresh.specs.Ages.{date_in, date_of};

use hc_fields::Fields;
use hc_record::StoredHead;
use httpdate::HttpDate;

/// The second that the first value of a name shows, where it is a date (RFC 9110 section 5.6.7).
pub fn date_in(fields: &Fields, name: &[u8]) -> Option<u64>
    ensures value { result ≡ date_in (lowercase name.now) fields.now }
    ensures small { IfSome result (λ second. second < 2 ^ 38) }

    // A date has at most 33 bytes.
    ensures short { OnSome result
        (ForSome (first_value (lowercase name.now) fields.now) (λ text. length text ≤ 33)) }
{
    let text = fields.get(name)?;
    match HttpDate::parse_ascii(text) {
        Ok(date) => Some(date.unix_secs()),
        Err(_) => None,
    }
}

/// When the head was made, as it says, or when it came.
pub(crate) fn date_of(head: &StoredHead) -> u64
    ensures value { result ≡ date_of (plain head.now) }
    ensures small { result < 2 ^ 62 }
{
    date_in(&head.fields, b"date").unwrap_or(head.answered)
}
