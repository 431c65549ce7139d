//! The writer of reports.
ghost use Rattle.std.specs.Prelude.{◌≡◌, ◌+◌, ◌*◌, ◌≤◌, ◌++◌, ◌∷◌, [], OnOk, OnErr, length, take, vec_len, codes};
ghost use Rattle.hex.specs.Hex.{encode_lower};
ghost use Rattle.std.specs.Fmt.{decimal};
ghost use Rattle.hc_sched.specs.Parts.{part_text, parts_text, IsKept};
ghost use Rattle.hc_fields.specs.Lines.{fields_text};
ghost use Rattle.hc_sched.specs.Report.{need_word, wait_word, why_word, cause_word, kind_word, refusal_word, end_word, act_text, acts_text, entry_text};

use crate::parts::Part::{Number, Text};
use crate::parts::{write_hex, write_parts};
use hc_event::{Act, Cause, LostKind, Need, Refusal, Request, Wait, Why};
use hc_fields::Fields;
use hc_text::NoMemory;

fn write_need(need: Need, to: &mut Vec<u8>) -> Result<(), NoMemory>
    ensures ok { OnOk result (to.new.items ≡ to.old.items ++ need_word need) }
    ensures err { OnErr result (IsKept to.old.items to.new.items) }
{
    match need {
        Need::Disabled => write_parts(&[Text(b"disabled")], to),
        Need::TimedOut => write_parts(&[Text(b"timed-out")], to),
        Need::Bypass => write_parts(&[Text(b"bypass")], to),
        Need::Miss => write_parts(&[Text(b"miss")], to),
        Need::Vary => write_parts(&[Text(b"vary")], to),
        Need::Validate => write_parts(&[Text(b"validate")], to),
        Need::Hole { from, to: end } => {
            write_parts(&[Text(b"hole:"), Number(from), Text(b"-"), Number(end)], to)
        }
        Need::Unsatisfied => write_parts(&[Text(b"unsatisfied")], to),
    }
}

fn write_wait(wait: Wait, to: &mut Vec<u8>) -> Result<(), NoMemory>
    ensures ok { OnOk result (to.new.items ≡ to.old.items ++ wait_word wait) }
    ensures err { OnErr result (IsKept to.old.items to.new.items) }
{
    match wait {
        Wait::Turn(c) => write_parts(&[Text(b"turn:"), Number(c)], to),
        Wait::Busy(c) => write_parts(&[Text(b"busy:"), Number(c)], to),
        Wait::Head(x) => write_parts(&[Text(b"head:"), Number(x)], to),
        Wait::Body(x) => write_parts(&[Text(b"body:"), Number(x)], to),
    }
}

fn write_why(why: Why, to: &mut Vec<u8>) -> Result<(), NoMemory>
    ensures ok { OnOk result (to.new.items ≡ to.old.items ++ why_word why) }
    ensures err { OnErr result (IsKept to.old.items to.new.items) }
{
    match why {
        Why::Fetched(x) => write_parts(&[Text(b"fetched:"), Number(x)], to),
        Why::Fresh { age, lifetime } => {
            write_parts(
                &[Text(b"fresh:"), Number(age), Text(b"/"), Number(lifetime)],
                to,
            )
        }
        Why::StaleAllowed { age, lifetime } => {
            write_parts(
                &[Text(b"stale:"), Number(age), Text(b"/"), Number(lifetime)],
                to,
            )
        }
        Why::Validated(x) => write_parts(&[Text(b"validated:"), Number(x)], to),
    }
}

fn write_cause(cause: Cause, to: &mut Vec<u8>) -> Result<(), NoMemory>
    ensures ok { OnOk result (to.new.items ≡ to.old.items ++ cause_word cause) }
    ensures err { OnErr result (IsKept to.old.items to.new.items) }
{
    match cause {
        Cause::Net(x) => write_parts(&[Text(b"net:"), Number(x)], to),
        Cause::Short { x, got, promised } => {
            let parts = [
                Text(b"short:"),
                Number(x),
                Text(b":"),
                Number(got),
                Text(b"/"),
                Number(promised),
            ];
            write_parts(&parts, to)
        }
        Cause::Changed(x) => write_parts(&[Text(b"changed:"), Number(x)], to),
        Cause::StoreWrite(r) => write_parts(&[Text(b"store-write:"), Number(r)], to),
        Cause::StoreRead(r) => write_parts(&[Text(b"store-read:"), Number(r)], to),
        Cause::Miss => write_parts(&[Text(b"miss")], to),
        Cause::BadHead(x) => write_parts(&[Text(b"bad-head:"), Number(x)], to),
    }
}

fn write_kind(kind: LostKind, to: &mut Vec<u8>) -> Result<(), NoMemory>
    ensures ok { OnOk result (to.new.items ≡ to.old.items ++ kind_word kind) }
    ensures err { OnErr result (IsKept to.old.items to.new.items) }
{
    match kind {
        LostKind::Fault => write_parts(&[Text(b"fault")], to),
        LostKind::TooLarge => write_parts(&[Text(b"too-large")], to),
        LostKind::Full => write_parts(&[Text(b"full")], to),
    }
}

/// Writes the number of the refusal, and what goes with it.
fn write_refusal(refusal: Refusal, to: &mut Vec<u8>) -> Result<(), NoMemory>
    ensures ok { OnOk result (to.new.items ≡ to.old.items ++ refusal_word refusal) }
    ensures err { OnErr result (IsKept to.old.items to.new.items) }
{
    match refusal {
        Refusal::NotRising { last } => write_parts(&[Text(b"1 "), Number(last)], to),
        Refusal::TooManyConsumers => write_parts(&[Text(b"2")], to),
        Refusal::NoConsumer => write_parts(&[Text(b"3")], to),
        Refusal::Finished => write_parts(&[Text(b"4")], to),
        Refusal::WantZero => write_parts(&[Text(b"5")], to),
        Refusal::NoExchange => write_parts(&[Text(b"6")], to),
        Refusal::HeadTwice => write_parts(&[Text(b"7")], to),
        Refusal::NoHeadYet => write_parts(&[Text(b"8")], to),
        Refusal::NotAsked => write_parts(&[Text(b"9")], to),
        Refusal::EmptyPiece => write_parts(&[Text(b"10")], to),
        Refusal::Overlong { promised } => write_parts(&[Text(b"11 "), Number(promised)], to),
    }
}

/// Writes the end of what is shown, or a hyphen where it is not known.
fn write_end(end: Option<u64>, to: &mut Vec<u8>) -> Result<(), NoMemory>
    ensures ok { OnOk result (to.new.items ≡ to.old.items ++ end_word end) }
    ensures err { OnErr result (IsKept to.old.items to.new.items) }
{
    match end {
        None => write_parts(&[Text(b"-")], to),
        Some(hi) => write_parts(&[Number(hi)], to),
    }
}

/// Writes the method, the key and the fields of a request that is opened.
fn write_request(request: &Request, to: &mut Vec<u8>) -> Result<(), NoMemory>
    ensures ok { OnOk result (to.new.items
        ≡ to.old.items ++ (32 ∷ request.now.method ++ 32 ∷ request.now.key
        ++ 32 ∷ decimal (length request.now.fields) ++ 10 ∷ fields_text request.now.fields)) }
    ensures err { OnErr result (IsKept to.old.items to.new.items) }
{
    let parts = [
        Text(b" "),
        Text(request.method.bytes.as_slice()),
        Text(b" "),
        Text(request.key.bytes.as_slice()),
        Text(b" "),
        Number(request.fields.len() as u64),
        Text(b"\n"),
    ];
    write_parts(&parts, to)?;
    request.fields.write_lines(to)
}

fn write_opened(
    x: u64,
    c: u64,
    need: Need,
    request: &Request,
    to: &mut Vec<u8>,
) -> Result<(), NoMemory>
    ensures ok { OnOk result
        (to.new.items ≡ to.old.items ++ act_text (Act.Opened x c need request.now)) }
    ensures err { OnErr result (IsKept to.old.items to.new.items) }
{
    let parts = [Text(b"open "), Number(x), Text(b" "), Number(c), Text(b" ")];
    write_parts(&parts, to)?;
    write_need(need, to)?;
    write_request(request, to)
}

/// Writes who is shown what, and why.
fn write_shown(c: u64, r: u64, why: Why, to: &mut Vec<u8>) -> Result<(), NoMemory>
    ensures ok { OnOk result (to.new.items
        ≡ to.old.items ++ (codes "shown " ++ decimal c ++ 32 ∷ decimal r ++ 32 ∷ why_word why)) }
    ensures err { OnErr result (IsKept to.old.items to.new.items) }
{
    let parts = [
        Text(b"shown "),
        Number(c),
        Text(b" "),
        Number(r),
        Text(b" "),
    ];
    write_parts(&parts, to)?;
    write_why(why, to)
}

/// Writes the rest of that line, and the lines of the fields.
fn write_head(
    status: u16,
    lo: u64,
    hi: Option<u64>,
    fields: &Fields,
    to: &mut Vec<u8>,
) -> Result<(), NoMemory>
    ensures ok { OnOk result (to.new.items
        ≡ to.old.items ++ (32 ∷ decimal status ++ 32 ∷ decimal lo ++ 32 ∷ end_word hi
        ++ 32 ∷ decimal (length fields.now) ++ 10 ∷ fields_text fields.now)) }
    ensures err { OnErr result (IsKept to.old.items to.new.items) }
{
    let parts = [
        Text(b" "),
        Number(u64::from(status)),
        Text(b" "),
        Number(lo),
        Text(b" "),
    ];
    write_parts(&parts, to)?;
    write_end(hi, to)?;
    write_parts(&[Text(b" "), Number(fields.len() as u64), Text(b"\n")], to)?;
    fields.write_lines(to)
}

fn write_given(c: u64, x: u64, at: u64, bytes: &[u8], to: &mut Vec<u8>) -> Result<(), NoMemory>
    ensures ok { OnOk result
        (to.new.items ≡ to.old.items ++ act_text (Act.Given c x at bytes.now)) }
    ensures err { OnErr result (IsKept to.old.items to.new.items) }
{
    let parts = [
        Text(b"data "),
        Number(c),
        Text(b" "),
        Number(x),
        Text(b" "),
        Number(at),
        Text(b" "),
    ];
    write_parts(&parts, to)?;
    write_hex(bytes, to)?;
    write_parts(&[Text(b"\n")], to)
}

fn write_failed(c: u64, cause: Cause, to: &mut Vec<u8>) -> Result<(), NoMemory>
    ensures ok { OnOk result (to.new.items ≡ to.old.items ++ act_text (Act.Failed c cause)) }
    ensures err { OnErr result (IsKept to.old.items to.new.items) }
{
    write_parts(&[Text(b"failed "), Number(c), Text(b" ")], to)?;
    write_cause(cause, to)?;
    write_parts(&[Text(b"\n")], to)
}

fn write_pending(c: u64, wait: Wait, to: &mut Vec<u8>) -> Result<(), NoMemory>
    ensures ok { OnOk result (to.new.items ≡ to.old.items ++ act_text (Act.Pending c wait)) }
    ensures err { OnErr result (IsKept to.old.items to.new.items) }
{
    write_parts(&[Text(b"pending "), Number(c), Text(b" ")], to)?;
    write_wait(wait, to)?;
    write_parts(&[Text(b"\n")], to)
}

fn write_lost(r: u64, kind: LostKind, to: &mut Vec<u8>) -> Result<(), NoMemory>
    ensures ok { OnOk result (to.new.items ≡ to.old.items ++ act_text (Act.Lost r kind)) }
    ensures err { OnErr result (IsKept to.old.items to.new.items) }
{
    write_parts(&[Text(b"lost "), Number(r), Text(b" ")], to)?;
    write_kind(kind, to)?;
    write_parts(&[Text(b"\n")], to)
}

fn write_denied(refusal: Refusal, to: &mut Vec<u8>) -> Result<(), NoMemory>
    ensures ok { OnOk result (to.new.items ≡ to.old.items ++ act_text (Act.Denied refusal)) }
    ensures err { OnErr result (IsKept to.old.items to.new.items) }
{
    write_parts(&[Text(b"denied ")], to)?;
    write_refusal(refusal, to)?;
    write_parts(&[Text(b"\n")], to)
}

/// Writes the lines of the act.
fn write_act(act: &Act, to: &mut Vec<u8>) -> Result<(), NoMemory>
    ensures ok { OnOk result (to.new.items ≡ to.old.items ++ act_text act.now) }
    ensures err { OnErr result (IsKept to.old.items to.new.items) }
{
    match act {
        Act::Opened {
            x,
            c,
            need,
            request,
        } => write_opened(*x, *c, *need, request, to),
        Act::Ask { x } => write_parts(&[Text(b"ask "), Number(*x), Text(b"\n")], to),
        Act::Close { x } => write_parts(&[Text(b"close "), Number(*x), Text(b"\n")], to),
        Act::Shown {
            c,
            r,
            why,
            status,
            fields,
            lo,
            hi,
        } => {
            write_shown(*c, *r, *why, to)?;
            write_head(*status, *lo, *hi, fields, to)
        }
        Act::Given { c, x, at, bytes } => write_given(*c, *x, *at, bytes.as_slice(), to),
        Act::Ended { c } => write_parts(&[Text(b"ended "), Number(*c), Text(b"\n")], to),
        Act::Failed { c, cause } => write_failed(*c, *cause, to),
        Act::Pending { c, wait } => write_pending(*c, *wait, to),
        Act::Lost { r, kind } => write_lost(*r, *kind, to),
        Act::Evicted { r } => write_parts(&[Text(b"evicted "), Number(*r), Text(b"\n")], to),
        Act::Denied { refusal } => write_denied(*refusal, to),
    }
}

/// Writes the lines of an event.
fn write_entry(n: u64, acts: &[Act], to: &mut Vec<u8>) -> Result<(), NoMemory>
    ensures ok { OnOk result (to.new.items ≡ to.old.items ++ entry_text n acts.now) }
    ensures err { OnErr result (IsKept to.old.items to.new.items) }
{
    write_parts(&[Text(b"> "), Number(n), Text(b"\n")], to)?;
    for act in acts {
        write_act(act, to)?;
    }
    Ok(())
}

/// Appends what the report says of event number `n`, from 1, or nothing: a line with the number,
/// and the lines of its acts.
pub fn write_acts(n: u64, acts: &[Act], to: &mut Vec<u8>) -> Result<(), NoMemory>
    ensures ok { OnOk result (to.new.items ≡ to.old.items ++ entry_text n acts.now) }
    ensures err { OnErr result (to.new.items ≡ to.old.items) }
{
    let start = to.len();
    let written = write_entry(n, acts, to);
    if written.is_err() {
        to.truncate(start);
    }
    written
}
