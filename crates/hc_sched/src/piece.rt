//! The bytes of a piece, as a schedule spells them.
ghost use Rattle.std.specs.Prelude.{◌≡◌, IfOk, true};
ghost use Rattle.std.specs.List.{list_all};
ghost use Rattle.hc_sched.specs.Pieces.{is_lower_digit, is_hex_text, is_piece_text, bytes_of};

use hc_text::{Bytes, NoMemory};
use hex::FromHexError;
use std::alloc::Global;

fn is_lower_digit(b: u8) -> bool
    ensures { result ≡ is_lower_digit b }
{
    matches!(b, b'0'..=b'9' | b'a'..=b'f')
}

fn is_lower_text(text: &[u8]) -> bool
    ensures { result ≡ list_all is_lower_digit text.now }
{
    text.iter().all(|b| is_lower_digit(*b))
}

/// Whether the text is lower-case hexadecimal of 1 to 65,536 bytes.
#[tactic(auto, unfolding(crate::specs::Pieces::is_hex_text))]
fn is_hex_text(text: &[u8]) -> bool
    ensures { result ≡ is_hex_text text.now }
{
    let len = text.len();
    2 <= len && len <= 131_072 && len % 2 == 0 && is_lower_text(text)
}

/// Whether the text is that of a piece: lower-case hexadecimal of 1 to 65,536 bytes, or a hyphen.
#[tactic(auto, unfolding(crate::specs::Pieces::is_piece_text))]
pub(crate) fn is_piece_text(text: &[u8]) -> bool
    ensures { result ≡ is_piece_text text.now }
{
    text == b"-".as_slice() || is_hex_text(text)
}

/// The bytes of the text of a piece.
#[tactic(auto, unfolding(crate::specs::Pieces::bytes_of))]
pub(crate) fn read_bytes(alloc: Global, text: &[u8]) -> Result<Bytes, NoMemory>
    requires { is_piece_text text.now ≡ true }
    ensures { IfOk result (λ bytes. bytes ≡ bytes_of text.now) }
{
    if text == b"-".as_slice() {
        return Ok(Bytes::new());
    }
    match hex::decode(alloc, text) {
        Ok(bytes) => Ok(Bytes::of(bytes)),
        Err(e) => match e {
            FromHexError::OutOfMemory => Err(NoMemory),
            _ => unreachable!(),
        },
    }
}
