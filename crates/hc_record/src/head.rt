//! Stored heads.
ghost use Rattle.std.specs.Prelude.{◌≡◌, false, IfOk};
ghost use Rattle.std.specs.Option.{ForSome};
ghost use Rattle.hc_record.specs.Head.{Head, IsHead, opaque_of};

use crate::kind::Kind;
use hc_etag::Tag;
use hc_fields::Fields;
use hc_text::NoMemory;

/// The head of a stored representation. Its type keeps that it has a record.
///
/// Moments are whole seconds since 1970, and lengths are bytes; each number is below 2^62.
#[derive(Drop)]
pub struct StoredHead {
    pub kind: Kind,
    /// The length of the whole representation, where it is known.
    pub total: Option<u64>,
    /// The status of the founding head.
    pub status: u16,
    /// When the exchange was opened that brought the head or updated it last.
    pub requested: u64,
    /// When its head came.
    pub answered: u64,
    /// The tag of the one field `etag` of the head, where it is strong: `joining_tag` of the fields.
    pub joining: Option<Tag>,
    /// The fields of the founding request that the head's Vary names.
    pub vary_fields: Fields,
    /// The fields of the head: at most 64 of at most 32,768 bytes.
    pub fields: Fields,
    pub ghost strong: { ForSome joining (λ tag. tag.weak ≡ false) },
    pub ghost own: { IsHead (record {
      kind = kind;
      total = total;
      status = status;
      requested = requested;
      answered = answered;
      joining = opaque_of joining;
      vary_fields = vary_fields;
      fields = fields;
    }) },
}

impl StoredHead {
    /// An equal value of its own.
    pub fn copy(&self) -> Result<StoredHead, NoMemory>
        ensures { IfOk result (λ copy. copy ≡ self.now) }
    {
        let joining = match &self.joining {
            Some(tag) => Some(tag.copy()?),
            None => None,
        };
        let vary_fields = self.vary_fields.copy()?;
        let fields = self.fields.copy()?;
        Ok(StoredHead {
            kind: self.kind,
            total: self.total,
            status: self.status,
            requested: self.requested,
            answered: self.answered,
            joining,
            vary_fields,
            fields,
        })
    }
}
