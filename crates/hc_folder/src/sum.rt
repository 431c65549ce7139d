//! Sums, and the numbers that stand beside them.
ghost use Rattle.std.specs.Prelude.{◌≡◌, ◌≢◌, ◌++◌, ◌<◌, ◌^◌, true, false, length, OnOk, OnErr};
ghost use Rattle.md5.specs.Md5.{md5};
ghost use Rattle.hc_folder.specs.Sums.{number_bytes, sum_behind};

use hc_text::NoMemory;
use md5::{Digest, Md5};

/// A sum.
pub type Sum = [u8; 16];

/// The sum of a text.
pub(crate) fn sum_of(text: &[u8]) -> Sum
    ensures { result ≡ md5 text.now }
{
    let mut hasher = Md5::new();
    hasher.update(text);
    hasher.finalize()
}

/// The sum of a number and a text that stand behind what has a sum.
pub(crate) fn sum_of_more(sum: &Sum, n: u64, text: &[u8]) -> Sum
    ensures { result ≡ sum_behind sum.now n text.now }
{
    let number = bytes_of(n);
    let mut hasher = Md5::new();
    hasher.update(sum);
    hasher.update(&number);
    hasher.update(text);
    hasher.finalize()
}

/// The number as eight bytes, the lowest first.
pub(crate) fn bytes_of(n: u64) -> [u8; 8]
    ensures { result ≡ number_bytes n }
{
    n.to_le_bytes()
}

/// The number that has these eight bytes.
pub(crate) fn number_in(bytes: &[u8]) -> u64
    requires { length bytes.now ≡ 8 }
    ensures bytes { number_bytes result ≡ bytes.now }
    ensures small { result < 2 ^ 64 }
{
    u64::from_le_bytes([
        bytes[0], bytes[1], bytes[2], bytes[3], bytes[4], bytes[5], bytes[6], bytes[7],
    ])
}

/// Whether the bytes are this sum.
pub(crate) fn is_sum(bytes: &[u8], sum: &Sum) -> bool
    ensures yes { result ≡ true → bytes.now ≡ sum.now }
    ensures no { result ≡ false → bytes.now ≢ sum.now }
{
    bytes == sum.as_slice()
}

/// Appends the bytes, or nothing.
pub(crate) fn append(bytes: &[u8], to: &mut Vec<u8>) -> Result<(), NoMemory>
    ensures ok { OnOk result (to.new.items ≡ to.old.items ++ bytes.now) }
    ensures err { OnErr result (to.new.items ≡ to.old.items) }
{
    to.extend_from_slice(bytes)?;
    Ok(())
}
