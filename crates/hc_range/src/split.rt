//! A text cut at a byte.
ghost use Rattle.std.specs.Prelude.{◌≡◌, ◌∷◌, ◌++◌, IfSome, IfNone};
ghost use Rattle.hc_range.specs.Bytes.{LacksByte};

/// What stands before the first such byte, and what stands after it.
pub fn split_once(text: &[u8], byte: u8) -> Option<(&[u8], &[u8])>
    ensures found { IfSome result (λ parts. text.now ≡ parts.0.now ++ byte ∷ parts.1.now) }
    ensures first { IfSome result (λ parts. LacksByte byte parts.0.now) }
    ensures none { IfNone result (LacksByte byte text.now) }
{
    for (at, b) in text.iter().enumerate() {
        if *b == byte {
            return Some((&text[..at], &text[at + 1..]));
        }
    }
    None
}
