//! A stored head that is updated.
ghost use Rattle.std.specs.Prelude.{◌≡◌, true, bytes_eq, Ok, IfOk};
ghost use Rattle.std.specs.List.{list_any};
ghost use Rattle.hc_validate.specs.Updates.{fixed_names, is_within_limits, left_by, changeable_fields, updated_fields, with_all};

use hc_fields::{FieldError, Fields};
use hc_text::NoMemory;

/// The stored fields after a new head of the same representation (RFC 9111 section 3.2): each name that
/// `from` has replaces all stored values of that name, but for those that no update changes. Where more
/// than 64 fields or 32,768 bytes would come of it, the stored fields stay.
pub fn update(fields: &Fields, from: &Fields) -> Result<Fields, NoMemory>
    ensures { IfOk result (λ new. new ≡ updated_fields fields.now from.now) }
{
    let mut kept = fields.copy()?;
    drop_renewed(&mut kept, from);
    if append_taken(&mut kept, from)? {
        Ok(kept)
    } else {
        fields.copy()
    }
}

/// Drops each stored field of whose name `from` has one that may be taken.
fn drop_renewed(kept: &mut Fields, from: &Fields)
    ensures { kept.new ≡ left_by (changeable_fields from.now) kept.old }
{
    for i in 0..from.len() {
        let (name, _) = from.at(i);
        if is_fixed(name) {
            continue;
        }
        kept.remove(name);
    }
}

/// Adds the fields of `from` that may be taken. False exactly where the list would be too large, which is
/// then of no use.
fn append_taken(kept: &mut Fields, from: &Fields) -> Result<bool, NoMemory>
    ensures fits { IfOk result
        (λ fits. fits ≡ is_within_limits (with_all (changeable_fields from.now) kept.old)) }
    ensures all { result ≡ Ok true → kept.new ≡ with_all (changeable_fields from.now) kept.old }
{
    for i in 0..from.len() {
        let (name, value) = from.at(i);
        if is_fixed(name) {
            continue;
        }
        if let Err(e) = kept.append(name, value) {
            return match e {
                FieldError::NoMemory => Err(NoMemory),
                _ => Ok(false),
            };
        }
    }
    Ok(kept.within_limits())
}

/// Whether no update changes this name: it tells of one message, or names the representation.
fn is_fixed(name: &[u8]) -> bool
    ensures { result ≡ list_any (bytes_eq name.now) fixed_names }
{
    name == b"content-length".as_slice()
        || name == b"content-range".as_slice()
        || name == b"content-encoding".as_slice()
        || name == b"transfer-encoding".as_slice()
        || name == b"connection".as_slice()
        || name == b"keep-alive".as_slice()
        || name == b"trailer".as_slice()
        || name == b"upgrade".as_slice()
        || name == b"etag".as_slice()
        || name == b"vary".as_slice()
}
