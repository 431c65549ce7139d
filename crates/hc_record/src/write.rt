//! Writing records.
ghost use Rattle.std.specs.Prelude.{◌≡◌, ◌++◌, take, vec_len, OnOk, OnErr};
ghost use Rattle.hc_record.specs.Lines.{number_and_end, seal_line, joining_text, tag_line};
ghost use Rattle.hc_record.specs.declared.version.Version.TheVariants.{Second};
ghost use Rattle.hc_record.specs.Plain.{plain};
ghost use Rattle.hc_record.specs.Record.{head_numbers, spelling};

use crate::head::StoredHead;
use crate::joining::joining_text;
use crate::kind::Kind;
use crate::seal::total_text;
use hc_text::{NoMemory, write_number};

/// Appends the record of the head, in the second version. On an error nothing is appended.
pub fn write_record(head: &StoredHead, to: &mut Vec<u8>) -> Result<(), NoMemory>
    ensures ok { OnOk result (to.new.items ≡ to.old.items ++ spelling Second (plain head.now)) }
    ensures err { OnErr result (to.new.items ≡ to.old.items) }
{
    let start = to.len();
    let written = write_parts(head, to);
    if written.is_err() {
        to.truncate(start);
    }
    written
}

/// Appends the record of the head, or a part of it.
fn write_parts(head: &StoredHead, to: &mut Vec<u8>) -> Result<(), NoMemory>
    ensures ok { OnOk result (to.new.items ≡ to.old.items ++ spelling Second (plain head.now)) }
    ensures err { OnErr result (take (vec_len to.old) to.new.items ≡ to.old.items) }
{
    to.extend_from_slice(b"record 2\n")?;
    write_seal(head.kind, head.total, to)?;
    write_numbers(head, to)?;
    write_tag_line(head, to)?;
    head.vary_fields.write_lines(to)?;
    head.fields.write_lines(to)?;
    Ok(())
}

/// Appends the line of kind and total, or a part of it.
fn write_seal(kind: Kind, total: Option<u64>, to: &mut Vec<u8>) -> Result<(), NoMemory>
    ensures ok { OnOk result (to.new.items ≡ to.old.items ++ seal_line kind total) }
    ensures err { OnErr result (take (vec_len to.old) to.new.items ≡ to.old.items) }
{
    to.push(kind.byte())?;
    to.push(b' ')?;
    to.extend_from_slice(&total_text(total))?;
    to.push(b'\n')?;
    Ok(())
}

/// Appends the line of numbers, or a part of it.
fn write_numbers(head: &StoredHead, to: &mut Vec<u8>) -> Result<(), NoMemory>
    ensures ok { OnOk result (to.new.items ≡ to.old.items ++ head_numbers (plain head.now)) }
    ensures err { OnErr result (take (vec_len to.old) to.new.items ≡ to.old.items) }
{
    write_ended(u64::from(head.status), b' ', to)?;
    write_ended(head.requested, b' ', to)?;
    write_ended(head.answered, b' ', to)?;
    write_ended(head.vary_fields.len() as u64, b' ', to)?;
    write_ended(head.fields.len() as u64, b'\n', to)?;
    Ok(())
}

/// Appends the line of the tag, or a part of it.
fn write_tag_line(head: &StoredHead, to: &mut Vec<u8>) -> Result<(), NoMemory>
    ensures ok { OnOk result
        (to.new.items ≡ to.old.items ++ tag_line Second (joining_text (plain head.now).joining)) }
    ensures err { OnErr result (take (vec_len to.old) to.new.items ≡ to.old.items) }
{
    to.extend_from_slice(b"tag ")?;
    to.extend_from_slice(joining_text(head.joining.is_some(), &head.fields))?;
    to.push(b'\n')?;
    Ok(())
}

/// Appends the plain number and the byte behind it, or a part of that.
fn write_ended(n: u64, end: u8, to: &mut Vec<u8>) -> Result<(), NoMemory>
    ensures ok { OnOk result (to.new.items ≡ to.old.items ++ number_and_end end n) }
    ensures err { OnErr result (take (vec_len to.old) to.new.items ≡ to.old.items) }
{
    write_number(n, to)?;
    to.push(end)?;
    Ok(())
}
