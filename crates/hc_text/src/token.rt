//! Tokens of HTTP.
ghost use Rattle.std.specs.Prelude.{◌↔◌, IsTrue};
ghost use Rattle.http_header.specs.Token.{IsToken};

/// Whether the text is a token (RFC 9110 section 5.6.2): one or more letters, digits and marks of
/// the fifteen that it names.
pub fn is_token(text: &[u8]) -> bool
    ensures { IsTrue result ↔ IsToken text.now }
{
    http_header::is_token(text)
}
