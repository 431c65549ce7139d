//! What is said on the diagnostics.
ghost use Rattle.std.specs.Prelude.{◌≡◌, ◌∷◌, [], ◌++◌, OnOk, IsErrOf};
ghost use Rattle.std.specs.Fmt.{decimal};
ghost use Rattle.hc_io.specs.Sink.{Takes, TakesPrefix, HasSinkCause};
ghost use Rattle.hc_sched.specs.Report.{cause_word};
ghost use Rattle.hc_app.specs.Texts.{refusal_text, refusal_line, image_text, fetch_text, usage_text};

use hc_event::Cause;
use hc_fetch::FetchEnded;
use hc_io::{Sink, SinkError, write_all};
use hc_saving::OpenEnded;
use hc_sched::{Refused, SchedRefusal};
use hc_text::{NoMemory, write_number};
use std::alloc::Global;

/// Says at which line a schedule is refused, and why.
pub(crate) fn say_refusal<D: Sink>(
    alloc: Global,
    refused: Refused,
    diag: &mut D,
) -> Result<(), SinkError>
    ensures said { OnOk result
        (Takes (D.taken diag.old) (D.taken diag.new) (refusal_text refused)) }
    ensures front { TakesPrefix (D.taken diag.old) (D.taken diag.new) (refusal_text refused) }
    ensures cause { HasSinkCause (D.faults diag.old) (D.faults diag.new) result }
    ensures calm { OnOk result (D.faults diag.new ≡ D.faults diag.old) }
    ensures no_fault { IsErrOf result SinkError.NoMemory → D.faults diag.new ≡ D.faults diag.old }
{
    let mut text = Vec::new(alloc);
    write_refusal(refused, &mut text)?;
    write_all(diag, text.as_slice())
}

/// Appends the text for a refused line.
fn write_refusal(refused: Refused, to: &mut Vec<u8>) -> Result<(), NoMemory>
    ensures { OnOk result (to.new.items ≡ to.old.items ++ refusal_text refused) }
{
    to.extend_from_slice(b"line ")?;
    write_number(refused.line, to)?;
    to.extend_from_slice(named(refused.why))?;
    Ok(())
}

/// The number and the name of a refusal.
fn named(why: SchedRefusal) -> &'static [u8]
    ensures { result.now ≡ refusal_line why }
{
    match why {
        SchedRefusal::BadLine => b": 1 BadLine\n",
        SchedRefusal::LineTooLong => b": 2 LineTooLong\n",
        SchedRefusal::BadTarget => b": 3 BadTarget\n",
        SchedRefusal::MomentBack { .. } => b": 4 MomentBack\n",
        SchedRefusal::CutShort => b": 5 CutShort\n",
    }
}

/// Says why an image is refused.
pub(crate) fn say_image<D: Sink>(
    alloc: Global,
    end: OpenEnded,
    diag: &mut D,
) -> Result<(), SinkError>
    ensures said { OnOk result (Takes (D.taken diag.old) (D.taken diag.new) (image_text end)) }
    ensures front { TakesPrefix (D.taken diag.old) (D.taken diag.new) (image_text end) }
    ensures cause { HasSinkCause (D.faults diag.old) (D.faults diag.new) result }
    ensures calm { OnOk result (D.faults diag.new ≡ D.faults diag.old) }
    ensures no_fault { IsErrOf result SinkError.NoMemory → D.faults diag.new ≡ D.faults diag.old }
{
    let mut text = Vec::new(alloc);
    write_image_refusal(end, &mut text)?;
    write_all(diag, text.as_slice())
}

/// Appends the text for a refused image.
fn write_image_refusal(end: OpenEnded, to: &mut Vec<u8>) -> Result<(), NoMemory>
    ensures { OnOk result (to.new.items ≡ to.old.items ++ image_text end) }
{
    match end {
        OpenEnded::BadImage => to.extend_from_slice(b"image: 1 BadImage\n")?,
        OpenEnded::BadContent { i } => {
            to.extend_from_slice(b"image: 2 BadContent ")?;
            write_number(i, to)?;
            to.push(b'\n')?;
        }
        OpenEnded::Full => to.extend_from_slice(b"image: 3 Full\n")?,
        OpenEnded::Ran(_) => {}
    }
    Ok(())
}

/// Says which event ended a fetch, or that its input ended early.
pub(crate) fn say_fetch<D: Sink>(
    alloc: Global,
    end: FetchEnded,
    diag: &mut D,
) -> Result<(), SinkError>
    ensures said { OnOk result (Takes (D.taken diag.old) (D.taken diag.new) (fetch_text end)) }
    ensures front { TakesPrefix (D.taken diag.old) (D.taken diag.new) (fetch_text end) }
    ensures cause { HasSinkCause (D.faults diag.old) (D.faults diag.new) result }
    ensures calm { OnOk result (D.faults diag.new ≡ D.faults diag.old) }
    ensures no_fault { IsErrOf result SinkError.NoMemory → D.faults diag.new ≡ D.faults diag.old }
{
    let mut text = Vec::new(alloc);
    write_fetch_ending(end, &mut text)?;
    write_all(diag, text.as_slice())
}

/// Appends the text for a fetch that ended early.
fn write_fetch_ending(end: FetchEnded, to: &mut Vec<u8>) -> Result<(), NoMemory>
    ensures { OnOk result (to.new.items ≡ to.old.items ++ fetch_text end) }
{
    match end {
        FetchEnded::Foreign { n } => write_line(b"foreign", n, to),
        FetchEnded::Failed { c, cause } => write_failure(c, cause, to),
        FetchEnded::Status { c, status } => write_status(c, status, to),
        FetchEnded::Other { c, r, first } => write_other(c, r, first, to),
        FetchEnded::Unfinished { written } => write_line(b"unfinished", written, to),
        _ => Ok(()),
    }
}

/// Appends a word, a number and the end of the line.
fn write_line(word: &[u8], n: u64, to: &mut Vec<u8>) -> Result<(), NoMemory>
    ensures { OnOk result
        (to.new.items ≡ to.old.items ++ (word.now ++ (32 ∷ decimal n ++ 10 ∷ []))) }
{
    write_words(word, n, to)?;
    to.push(b'\n')?;
    Ok(())
}

/// Appends a word and a number behind a blank.
fn write_words(word: &[u8], n: u64, to: &mut Vec<u8>) -> Result<(), NoMemory>
    ensures { OnOk result (to.new.items ≡ to.old.items ++ word.now ++ 32 ∷ decimal n) }
{
    to.extend_from_slice(word)?;
    to.push(b' ')?;
    write_number(n, to)
}

/// Appends that a consumer failed, and why.
fn write_failure(c: u64, cause: Cause, to: &mut Vec<u8>) -> Result<(), NoMemory>
    ensures { OnOk result (to.new.items ≡ to.old.items ++ fetch_text (FetchEnded.Failed c cause)) }
{
    write_words(b"failed", c, to)?;
    to.push(b' ')?;
    write_cause(cause, to)?;
    to.push(b'\n')?;
    Ok(())
}

/// Appends which head a consumer was shown.
fn write_status(c: u64, status: u16, to: &mut Vec<u8>) -> Result<(), NoMemory>
    ensures { OnOk result
        (to.new.items ≡ to.old.items ++ fetch_text (FetchEnded.Status c status)) }
{
    write_words(b"status", c, to)?;
    write_line(b"", u64::from(status), to)
}

/// Appends which representation a consumer was shown, and which the first one was.
fn write_other(c: u64, r: u64, first: u64, to: &mut Vec<u8>) -> Result<(), NoMemory>
    ensures { OnOk result (to.new.items ≡ to.old.items ++ fetch_text (FetchEnded.Other c r first)) }
{
    write_words(b"other", c, to)?;
    write_words(b"", r, to)?;
    write_line(b"", first, to)
}

/// Appends the cause of a failure.
fn write_cause(cause: Cause, to: &mut Vec<u8>) -> Result<(), NoMemory>
    ensures { OnOk result (to.new.items ≡ to.old.items ++ cause_word cause) }
{
    match cause {
        Cause::Net(x) => write_reported(b"net:", x, to),
        Cause::Short { x, got, promised } => write_short(x, got, promised, to),
        Cause::Changed(x) => write_reported(b"changed:", x, to),
        Cause::StoreWrite(r) => write_reported(b"store-write:", r, to),
        Cause::StoreRead(r) => write_reported(b"store-read:", r, to),
        Cause::Miss => {
            to.extend_from_slice(b"miss")?;
            Ok(())
        }
        Cause::BadHead(x) => write_reported(b"bad-head:", x, to),
    }
}

/// Appends a word and a number right behind it.
fn write_reported(word: &[u8], n: u64, to: &mut Vec<u8>) -> Result<(), NoMemory>
    ensures { OnOk result (to.new.items ≡ to.old.items ++ (word.now ++ decimal n)) }
{
    to.extend_from_slice(word)?;
    write_number(n, to)
}

/// Appends which exchange ended early, and how early.
fn write_short(x: u64, got: u64, promised: u64, to: &mut Vec<u8>) -> Result<(), NoMemory>
    ensures { OnOk result
        (to.new.items ≡ to.old.items ++ cause_word (Cause.Short x got promised)) }
{
    write_reported(b"short:", x, to)?;
    write_reported(b":", got, to)?;
    write_reported(b"/", promised, to)
}

/// Says which words are a command.
pub(crate) fn say_usage<D: Sink>(diag: &mut D) -> Result<(), SinkError>
    ensures said { OnOk result (Takes (D.taken diag.old) (D.taken diag.new) usage_text) }
    ensures front { TakesPrefix (D.taken diag.old) (D.taken diag.new) usage_text }
    ensures cause { HasSinkCause (D.faults diag.old) (D.faults diag.new) result }
    ensures calm { OnOk result (D.faults diag.new ≡ D.faults diag.old) }
    ensures no_fault { IsErrOf result SinkError.NoMemory → D.faults diag.new ≡ D.faults diag.old }
{
    write_all(
        diag,
        b"usage: replay | generate SEED COUNT | serve LISTEN ORIGIN TURNS | origin LISTEN TURNS | save | open | conditional | fetch TARGET N SIZE\n",
    )
}
