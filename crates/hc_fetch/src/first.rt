//! What is kept of the first consumer's head.
ghost use Rattle.std.specs.Prelude.{◌≡◌, ℕ};
ghost use Rattle.hc_fetch.specs.Heads.{total_of};

use hc_fields::Fields;
use hc_range::ContentRange;
use hc_rules::content_range_of;

/// What the first consumer was shown.
#[derive(Clone, Copy, Debug)]
pub(crate) struct First {
    pub(crate) r: u64,
    /// The length of the whole, where a part was shown.
    pub(crate) total: Option<u64>,
}

/// The length of the whole that a 206 tells whose part begins at 0 (RFC 9110 section 14.4).
pub(crate) fn total_of(status: u16, fields: &Fields) -> Option<u64>
    ensures { (c r : ℕ) → result
        ≡ total_of (record { c = c; r = r; status = status; fields = fields.now }) }
{
    if status != 206 {
        return None;
    }
    match content_range_of(fields) {
        Some(
            ContentRange::Part {
                first: 0,
                total,
                ..
            },
        ) => total,
        _ => None,
    }
}
