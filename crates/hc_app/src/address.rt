//! Addresses as words.
ghost use Rattle.std.specs.Prelude.{◌≡◌, ◌⊎◌, ℕ, List, IfNone, IfSome};
ghost use Rattle.hc_app.specs.Addresses.{Begins, IsPort, IsAddress};
ghost use Rattle.hc_wire.specs.declared.event.Address.{Address};

use hc_text::{cut, read_plain};
use hc_wire::Address;

/// The address that the text spells: four plain numbers below 256 with dots, a colon, and a plain port
/// from 1 to 65,535.
pub(crate) fn read_address(text: &[u8]) -> Option<Address>
    ensures found { IfSome result (IsAddress text.now) }
    ensures none { IfNone result ((a : Address) → ¬ IsAddress text.now a) }
{
    let (one, text) = read_octet(text, b'.')?;
    let (two, text) = read_octet(text, b'.')?;
    let (three, text) = read_octet(text, b'.')?;
    let (four, text) = read_octet(text, b':')?;
    let port = read_port(text)?;
    Some(Address {
        octets: [one, two, three, four],
        port,
    })
}

/// The number below 256 that the text begins with, up to this byte, and what stands behind that.
fn read_octet(text: &[u8], end: u8) -> Option<(u8, &[u8])>
    requires { (end ≡ 46) ⊎ (end ≡ 58) }
    ensures found { IfSome result (λ parts. Begins end text.now parts.0 parts.1.now) }
    ensures none { IfNone result ((n : ℕ) (rest : List ℕ) → ¬ Begins end text.now n rest) }
{
    let (word, rest) = cut(text, end)?;
    let n = read_plain(word)?;
    if n > 255 {
        return None;
    }
    Some((n as u8, rest))
}

/// The port that the text spells.
fn read_port(text: &[u8]) -> Option<u16>
    ensures found { IfSome result (IsPort text.now) }
    ensures none { IfNone result ((n : ℕ) → ¬ IsPort text.now n) }
{
    let n = read_plain(text)?;
    if n == 0 || n > 65_535 {
        return None;
    }
    Some(n as u16)
}
