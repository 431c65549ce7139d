//! White space within a line.
ghost use Rattle.std.specs.Prelude.{◌≡◌};
ghost use Rattle.hc_text.specs.Elements.{is_blank};

/// Whether the byte is a space or a tab, the white space of RFC 9110 section 5.6.3.
pub fn is_blank(byte: u8) -> bool
    ensures { result ≡ is_blank byte }
{
    byte == b' ' || byte == b'\t'
}
