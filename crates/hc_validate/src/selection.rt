//! Whether an answer is about what is stored.
ghost use Rattle.std.specs.Prelude.{◌≡◌, option_map};
ghost use Rattle.hc_etag.specs.PlainTags.{plain_tag};
ghost use Rattle.hc_record.specs.Plain.{plain};
ghost use Rattle.hc_validate.specs.Selection.{selects, selects_by};

use crate::tags::tag_of;
use hc_cachectl::read_response;
use hc_etag::TagText;
use hc_event::Response;
use hc_fields::has_field;
use hc_record::StoredHead;

/// Whether the answer to a conditional request is about the stored head (RFC 9111 section 4.3.4): a 304
/// without `no-store` that has no ETag, or one readable tag that fits the stored one, by the strong
/// comparison where it is strong and by the weak one where it is weak.
pub fn selects(head: &StoredHead, answer: &Response) -> bool
    ensures { result ≡ selects (plain head.now) answer.now }
{
    if answer.status != 304 || read_response(&answer.fields).no_store {
        return false;
    }
    if !has_field(&answer.fields, b"etag") {
        return true;
    }
    selects_by(tag_of(&answer.fields), tag_of(&head.fields))
}

/// Whether a new tag fits the stored one.
fn selects_by(new: Option<TagText<'_>>, stored: Option<TagText<'_>>) -> bool
    ensures { result
        ≡ selects_by (option_map plain_tag new.entry) (option_map plain_tag stored.entry) }
{
    match (new, stored) {
        (Some(new), Some(stored)) => { (new.weak || !stored.weak) && new.opaque == stored.opaque }
        _ => false,
    }
}
