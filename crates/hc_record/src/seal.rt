//! Kind and total at their places in a record.
ghost use Rattle.std.specs.Prelude.{◌≡◌, ◌≤◌, length};
ghost use Rattle.hc_record.specs.Lines.{total_text, sealed_record};
ghost use Rattle.hc_record.specs.declared.version.Version.{Version};
ghost use Rattle.hc_record.specs.Head.{Head, IsHead, IsSmallTotal, sealed_head};
ghost use Rattle.hc_record.specs.Record.{spelling};

use crate::kind::Kind;
use itoa::Buffer;

/// The 20 bytes of a total in a record.
pub(crate) fn total_text(total: Option<u64>) -> [u8; 20]
    ensures { result ≡ total_text total }
{
    let Some(total) = total else {
        return [b'-'; 20];
    };
    let mut text = [b'0'; 20];
    let mut buffer = Buffer::new();
    let digits = buffer.format(total).as_bytes();
    let start = 20 - digits.len();
    text[start..].copy_from_slice(digits);
    text
}

/// Overwrites kind and total in a record, and leaves every other byte as it is.
pub fn seal_record(text: &mut [u8], kind: Kind, total: Option<u64>)
    requires long { 31 ≤ length text.old }
    requires small { IsSmallTotal total }
    ensures bytes { text.new ≡ sealed_record kind total text.old }

    // The record of a head, of either version, becomes that of the head with this kind and total.
    ensures head { (version : Version) (head : Head)
        → IsHead head → spelling version head ≡ text.old
        → IsHead (sealed_head kind total head)
        × (spelling version (sealed_head kind total head) ≡ text.new) }
{
    text[9] = kind.byte();
    text[11..31].copy_from_slice(&total_text(total));
}
