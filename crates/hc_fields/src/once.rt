//! Fields that are to stand once.
ghost use Rattle.std.specs.Prelude.{◌≡◌, option_copied};
ghost use Rattle.http_header.specs.Token.{lowercase};
ghost use Rattle.hc_fields.specs.FieldList.{values_of};
ghost use Rattle.hc_fields.specs.FirstValues.{has_field, only_of};

use crate::fields::Fields;

/// Whether a field of this name is there.
pub fn has_field(fields: &Fields, name: &[u8]) -> bool
    ensures { result ≡ has_field (lowercase name.now) fields.now }
{
    fields.count(name) > 0
}

/// The value of a name that stands once; None exactly where it is absent or stands more often.
pub fn only_value<'a>(fields: &'a Fields, name: &[u8]) -> Option<&'a [u8]>
    ensures { option_copied result ≡ only_of (values_of (lowercase name.now) fields.now) }
{
    fields.only(name)
}
