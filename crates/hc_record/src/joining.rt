//! The tag by which parts join a representation.
ghost use Rattle.std.specs.Prelude.{◌≡◌, ◌∷◌, [], List, ℕ, Bool, false, codes, IfOk, OnErr, is_some, option_copied};
ghost use Rattle.std.specs.Option.{ForSome};
ghost use Rattle.hc_etag.specs.Etags.{tag_text, IsOpaque};
ghost use Rattle.hc_fields.specs.FieldList.{values_of};
ghost use Rattle.hc_fields.specs.FirstValues.{only_of};
ghost use Rattle.hc_record.specs.Head.{joining_of, opaque_of};
ghost use Rattle.hc_record.specs.Lines.{joining_text};

use hc_etag::{Tag, strong_in};
use hc_fields::Fields;
use hc_text::{Bytes, NoMemory};
use std::alloc::Global;

/// The tag of the field `etag`, where it stands exactly once, is an entity tag (RFC 9110 section
/// 8.8.3) and isn't weak: parts with this tag join the representation (section 15.3.7.3).
///
/// Memory is asked for only where it is there.
pub fn joining_tag(alloc: Global, fields: &Fields) -> Result<Option<Tag>, NoMemory>
    ensures value { IfOk result (λ tag. opaque_of tag ≡ joining_of fields.now) }
    ensures strong { IfOk result (λ tag. ForSome tag (λ tag. tag.weak ≡ false)) }
    ensures err { OnErr result ((weak : Bool) × (opaque : List ℕ) × IsOpaque opaque
        × (values_of (codes "etag") fields.now ≡ tag_text weak opaque ∷ [])) }
{
    let Some(value) = only_etag(fields) else {
        return Ok(None);
    };
    let Some(opaque) = strong_in(value) else {
        return Ok(None);
    };
    let bytes = opaque.to_vec(alloc)?;
    Ok(Some(Tag {
        weak: false,
        opaque: Bytes::of(bytes),
    }))
}

/// The value of the field `etag`, where it stands exactly once.
// Each name is compared, since four bytes are compared in less time than a search takes among the fields of a head.
fn only_etag(fields: &Fields) -> Option<&[u8]>
    ensures { option_copied result ≡ only_of (values_of (codes "etag") fields.now) }
{
    let mut count: usize = 0;
    let mut found: &[u8] = b"";
    for i in 0..fields.len() {
        let (name, value) = fields.at(i);
        if name == b"etag".as_slice() {
            count += 1;
            found = value;
        }
    }
    if count == 1 { Some(found) } else { None }
}

/// The text of the joining tag of the fields in a record, where it is known whether they have one.
pub(crate) fn joining_text(has_tag: bool, fields: &Fields) -> &[u8]
    requires { has_tag ≡ is_some (joining_of fields.now) }
    ensures { result.now ≡ joining_text (joining_of fields.now) }
{
    if !has_tag {
        return b"-";
    }
    fields.get(b"etag").unwrap()
}
