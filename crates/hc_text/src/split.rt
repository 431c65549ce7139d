//! Where a byte stands in a text.
ghost use Rattle.std.specs.Prelude.{◌≡◌, ◌==◌, ◌+◌, length, IfSome, option_map, position};
ghost use Rattle.hc_text.specs.Texts.{lacks, cut};

use memchr::memchr;

/// Where the first `byte` stands.
pub fn position_of(text: &[u8], byte: u8) -> Option<usize>
    ensures { result ≡ position (λ x. x == byte) text.now }
{
    memchr(byte, text)
}

/// The text up to the first `byte`, and the text behind it.
#[tactic(auto, unfolding(crate::specs::Texts::cut))]
pub fn cut(text: &[u8], byte: u8) -> Option<(&[u8], &[u8])>
    ensures value { option_map (λ parts. (parts.0.now, parts.1.now)) result ≡ cut byte text.now }
    ensures len { IfSome result
        (λ parts. length parts.0.now + length parts.1.now + 1 ≡ length text.now) }
{
    let at = position_of(text, byte)?;
    Some((&text[..at], &text[at + 1..]))
}

/// Whether the byte does not stand in the text.
pub fn lacks(text: &[u8], byte: u8) -> bool
    ensures { result ≡ lacks byte text.now }
{
    position_of(text, byte).is_none()
}
