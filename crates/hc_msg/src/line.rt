//! Chunk lines (RFC 9112 section 7.1).
ghost use Rattle.std.specs.Prelude.{◌≡◌, ◌≤◌, length};
ghost use Rattle.hc_msg.specs.Chunks.{LineSays, FindsLine};

use hc_head::{MsgError, line_end};
use httparse::{Status, parse_chunk_size};

/// A chunk line has at most this many bytes, with its end.
const MOST_LINE: usize = 1024;

/// Chunks have fewer bytes than this.
const LIMIT: u64 = 1 << 62;

/// How many bytes stand before the line feed that ends a chunk line, behind `held` bytes of it.
pub(crate) fn find_line(held: usize, piece: &[u8]) -> Result<Option<usize>, MsgError>
    requires { held ≤ 1024 }
    ensures { FindsLine held piece.now result }
{
    let room = MOST_LINE - held;
    if piece.len() <= room {
        return Ok(line_end(piece));
    }
    match line_end(&piece[..room]) {
        Some(at) => Ok(Some(at)),
        None => Err(MsgError::BadChunk),
    }
}

/// The size that a whole line announces, None where it is no such line.
pub(crate) fn size_of(line: &[u8]) -> Option<u64>
    ensures { LineSays line.now result }
{
    match parse_chunk_size(line) {
        Ok(Status::Complete((len, size))) => {
            if len < line.len() {
                return None;
            }
            if LIMIT <= size {
                return None;
            }
            Some(size)
        }
        Ok(Status::Partial) => None,
        Err(_) => None,
    }
}
