//! Copies between slices.
ghost use Rattle.std.specs.Prelude.{◌≡◌, length, min, take, drop};

/// Copies as many bytes as both slices have, and says how many.
pub(crate) fn copy_prefix(from: &[u8], into: &mut [u8]) -> usize
    ensures count { result ≡ min (length from.now) (length into.old) }
    ensures front { take result into.new ≡ take result from.now }
    ensures rest { drop result into.new ≡ drop result into.old }
{
    let n = from.len().min(into.len());
    into[..n].copy_from_slice(&from[..n]);
    n
}
