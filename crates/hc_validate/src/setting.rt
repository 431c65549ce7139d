//! Fields that are set where they can't be refused.
ghost use Rattle.std.specs.Prelude.{◌≡◌, ◌≤◌, ◌<◌, ◌+◌, length, true, OnOk, OnErr};
ghost use Rattle.http_header.specs.Token.{IsToken, lowercase};
ghost use Rattle.hc_fields.specs.FieldList.{is_own_value, size_of};
ghost use Rattle.hc_validate.specs.Updates.{with_one};

use hc_fields::{FieldError, Fields};
use hc_text::NoMemory;

/// One field takes the place of all of its name.
pub fn set_field(fields: &mut Fields, name: &[u8], value: &[u8]) -> Result<(), NoMemory>
    requires name { IsToken name.now }
    requires value { is_own_value value.now ≡ true }
    requires short { length value.now ≤ 8192 }
    requires few { length fields.old < 80 }
    requires small { size_of fields.old + (length name.now + length value.now) ≤ 49152 }
    ensures ok { OnOk result (fields.new ≡ with_one (lowercase name.now) value.now fields.old) }
    ensures err { OnErr result (fields.new ≡ fields.old) }
    ensures count { OnOk result (length fields.new ≤ length fields.old + 1) }
    ensures size { OnOk result (size_of fields.new ≤ size_of fields.old
        + (length name.now + length value.now)) }
{
    match fields.set_checked(name, value) {
        Ok(()) => Ok(()),
        Err(e) => match e {
            FieldError::NoMemory => Err(NoMemory),
            _ => unreachable!(),
        },
    }
}
