//! The end of a head, within its limit.
ghost use Rattle.std.specs.Prelude.{◌≡◌, ◌≤◌, true, length};
ghost use Rattle.hc_head.specs.Scans.{is_open};
ghost use Rattle.hc_head.specs.Finding.{Finds};

use crate::message::MsgError;
use crate::scan::{Scan, Sought, seek};

/// A head has at most this many bytes.
const MOST_HEAD: usize = 32768;

/// A head has at most this many fields.
pub(crate) const MOST_FIELDS: usize = 64;

/// Where the head ends in the piece, behind `held` bytes of it.
pub fn find_end(held: usize, scan: Scan, piece: &[u8]) -> Result<Sought, MsgError>
    requires open { is_open scan ≡ true }
    requires short { held ≤ 32768 }
    ensures { Finds held scan piece.now result }
{
    let room = MOST_HEAD - held;
    if piece.len() <= room {
        return Ok(seek(scan, piece));
    }
    match seek(scan, &piece[..room]) {
        Sought::Ends(n) => Ok(Sought::Ends(n)),
        Sought::Open(_) => Err(MsgError::HeadTooLong),
    }
}
