//! The least of some numbers.
ghost use Rattle.std.specs.Prelude.{◌≡◌};
ghost use Rattle.hc_rules.specs.Admissions.{lesser};

/// The lesser of the two, or the one that there is.
pub fn lesser(a: Option<u64>, b: u64) -> Option<u64>
    ensures { result ≡ lesser a b }
{
    match a {
        None => Some(b),
        Some(a) => Some(a.min(b)),
    }
}
