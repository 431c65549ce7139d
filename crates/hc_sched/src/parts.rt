//! Lines by their parts.
ghost use Rattle.std.specs.Prelude.{◌≡◌, ◌++◌, OnOk, OnErr};
ghost use Rattle.hex.specs.Hex.{encode_lower};
ghost use Rattle.hc_sched.specs.Parts.{part_text, parts_text, IsKept};

use hc_text::{NoMemory, write_number};

/// A part of a line.
#[derive(Clone, Copy)]
pub(crate) enum Part<'a> {
    Text(&'a [u8]),
    Number(u64),
}

/// Writes the part.
fn write_part(part: &Part<'_>, to: &mut Vec<u8>) -> Result<(), NoMemory>
    ensures ok { OnOk result (to.new.items ≡ to.old.items ++ part_text part.now) }
    ensures err { OnErr result (to.new.items ≡ to.old.items) }
{
    match part {
        Part::Text(bytes) => to.extend_from_slice(bytes)?,
        Part::Number(n) => write_number(*n, to)?,
    }
    Ok(())
}

/// Writes the parts, one after another.
pub(crate) fn write_parts(parts: &[Part<'_>], to: &mut Vec<u8>) -> Result<(), NoMemory>
    ensures ok { OnOk result (to.new.items ≡ to.old.items ++ parts_text parts.now) }
    ensures err { OnErr result (IsKept to.old.items to.new.items) }
{
    for part in parts {
        write_part(part, to)?;
    }
    Ok(())
}

/// Writes the bytes in lower-case hexadecimal.
pub(crate) fn write_hex(bytes: &[u8], to: &mut Vec<u8>) -> Result<(), NoMemory>
    ensures ok { OnOk result (to.new.items ≡ to.old.items ++ encode_lower bytes.now) }
    ensures err { OnErr result (to.new.items ≡ to.old.items) }
{
    let start = to.len();
    let digits = 2 * bytes.len();
    to.reserve(digits)?;
    to.resize(start + digits, 0)?;
    hex::encode_to_slice(bytes, &mut to.as_mut_slice()[start..]).unwrap();
    Ok(())
}
