//! What a program may call, as functions over a handle. Codes of answers are those of `CallRefusal`, and 0.
ghost use Rattle.std.specs.Prelude.{◌≡◌, ◌≢◌, None, Some, IfOk};
ghost use Rattle.hc_binary.specs.Copies.{HoldsPrefix};
ghost use Rattle.hc_binary.specs.Events.{Made, Makes, numbered, start_made, poll_made, head_made, piece_made, doom_made};
ghost use Rattle.hc_event.specs.WithinLimits.{IsEventWithinLimits};
ghost use Rattle.hc_event.specs.declared.event.Event.TheVariants as event;
ghost use Rattle.hc_handle.specs.Calls.{answer_code, Comes, IsBegun, IsOpened, IsClosed, HasNext, NoNext, bytes_in_handle, ArePictured, AllStay, Reads, Finishes, IsTold, HasReport, told_at, refused_in_handle, report_in_handle, moment_in, live_in_handle};
ghost use Rattle.hc_handle.specs.Texts.{number_of};

use crate::handle::Handle;
use crate::session::Session;
use hc_binary::{ActNumbers, Asked, CallRefusal};
use hc_event::Event;
use hc_rules::Limits;
use hc_sched::{Refused, SchedRefusal};
use std::alloc::Global;

/// The code of a text that is refused.
const BAD_TEXT: u32 = 14;

/// The code of an answer.
fn code_of(answered: Result<(), CallRefusal>) -> u32
    ensures { result ≡ answer_code answered }
{
    match answered {
        Ok(()) => 0,
        Err(why) => why.code(),
    }
}

/// The session is put into a handle that has none.
fn place(alloc: Global, handle: &mut Handle, session: Session) -> u32
    requires { handle.old.pointer.session ≡ None }
    ensures done { result ≡ 0 → handle.new.pointer.session ≡ Some session }
    ensures memory { result ≢ 0 → (result ≡ 2) × (handle.new.pointer.session ≡ None) }
{
    match Box::new(alloc, session) {
        Ok(session) => {
            *handle = Handle::of(session);
            0
        }
        Err(_) => 2,
    }
}

/// A cache that begins with nothing, in place of the one that the handle had.
pub fn new(alloc: Global, handle: &mut Handle, limits: Limits) -> u32
    ensures done { result ≡ 0 → IsBegun limits handle.new.pointer.session }
    ensures memory { result ≢ 0 → (result ≡ 2) × (handle.new.pointer.session ≡ None) }
{
    drop(handle.take(alloc));
    match Session::new(alloc, limits) {
        Ok(session) => place(alloc, handle, session),
        Err(why) => why.code(),
    }
}

/// A cache that begins with what an image has, in place of the one that the handle had.
pub fn open(alloc: Global, handle: &mut Handle, limits: Limits, image: &[u8]) -> u32
    ensures done { result ≡ 0 → IsOpened limits image.now handle.new.pointer.session }
    ensures closed { result ≢ 0 → handle.new.pointer.session ≡ None }
    ensures cause { result ≢ 0 → result ≢ 2 → IsClosed limits image.now result }
{
    drop(handle.take(alloc));
    match Session::open(alloc, limits, image) {
        Ok(session) => place(alloc, handle, session),
        Err(why) => why.code(),
    }
}

/// Lets the cache go. A handle without one is left so.
pub fn free(alloc: Global, handle: &mut Handle)
    ensures { handle.new.pointer.session ≡ None }
{
    drop(handle.take(alloc));
}

/// Hands in an event, if it is one.
fn hand_in(alloc: Global, handle: &mut Handle, now: u64, given: Result<Event, CallRefusal>) -> u32
    requires { IfOk given (λ e. IsEventWithinLimits e) }
    ensures { (made : Made) → Makes made given
        → Comes handle.old.pointer.session handle.new.pointer.session now made result }
{
    let Some(mut session) = handle.take(alloc) else {
        return 1;
    };
    let answered = session.answer(now, given);
    *handle = Handle::of(session);
    code_of(answered)
}

/// A consumer begins with its request.
pub fn start(alloc: Global, handle: &mut Handle, now: u64, c: u64, asked: Asked<'_>) -> u32
    ensures { Comes handle.old.pointer.session handle.new.pointer.session now
        (start_made c asked.entry.method.now asked.entry.mode asked.entry.target.now
        asked.entry.fields.now) result }
{
    hand_in(alloc, handle, now, hc_binary::start(alloc, c, asked))
}

/// A consumer asks for bytes.
pub fn poll(alloc: Global, handle: &mut Handle, now: u64, c: u64, want: u32) -> u32
    ensures { Comes handle.old.pointer.session handle.new.pointer.session now
        (poll_made c want) result }
{
    hand_in(alloc, handle, now, hc_binary::poll(c, want))
}

/// A consumer leaves.
pub fn cancel(alloc: Global, handle: &mut Handle, now: u64, c: u64) -> u32
    ensures { Comes handle.old.pointer.session handle.new.pointer.session now
        (numbered c (event.Cancel c)) result }
{
    hand_in(alloc, handle, now, hc_binary::cancel(c))
}

/// What is stored for a target is not to be used any more.
pub fn doom(alloc: Global, handle: &mut Handle, now: u64, target: &[u8]) -> u32
    ensures { Comes handle.old.pointer.session handle.new.pointer.session now
        (doom_made target.now) result }
{
    hand_in(alloc, handle, now, hc_binary::doom(alloc, target))
}

/// The head of an exchange came.
pub fn head(alloc: Global, handle: &mut Handle, now: u64, x: u64, status: u32, fields: &[u8]) -> u32
    ensures { Comes handle.old.pointer.session handle.new.pointer.session now
        (head_made x status fields.now) result }
{
    hand_in(
        alloc,
        handle,
        now,
        hc_binary::head(alloc, x, status, fields),
    )
}

/// Bytes of the body of an exchange came.
pub fn piece(alloc: Global, handle: &mut Handle, now: u64, x: u64, bytes: &[u8]) -> u32
    ensures { Comes handle.old.pointer.session handle.new.pointer.session now
        (piece_made x bytes.now) result }
{
    hand_in(alloc, handle, now, hc_binary::piece(alloc, x, bytes))
}

/// An exchange ended cleanly.
pub fn end(alloc: Global, handle: &mut Handle, now: u64, x: u64) -> u32
    ensures { Comes handle.old.pointer.session handle.new.pointer.session now
        (numbered x (event.End x)) result }
{
    hand_in(alloc, handle, now, hc_binary::end(x))
}

/// An exchange broke.
pub fn fault(alloc: Global, handle: &mut Handle, now: u64, x: u64) -> u32
    ensures { Comes handle.old.pointer.session handle.new.pointer.session now
        (numbered x (event.Fault x)) result }
{
    hand_in(alloc, handle, now, hc_binary::fault(x))
}

/// Tells the next act of the last event in numbers. 1 where there was one, and else 0.
pub fn next_act(alloc: Global, handle: &mut Handle, act: &mut ActNumbers) -> u32
    ensures next { result ≡ 1
        → HasNext handle.old.pointer.session handle.new.pointer.session act.new }
    ensures none { result ≢ 1 → (result ≡ 0) × NoNext handle.old.pointer.session
        × (handle.new.pointer.session ≡ handle.old.pointer.session) × (act.new ≡ act.old) }
{
    let Some(mut session) = handle.take(alloc) else {
        return 0;
    };
    let next = session.next_act();
    *handle = Handle::of(session);
    match next {
        Some(numbers) => {
            *act = numbers;
            1
        }
        None => 0,
    }
}

/// Copies the first of the bytes of the act that was told last, as many as fit, and says how many.
pub fn act_bytes(alloc: Global, handle: &mut Handle, into: &mut [u8]) -> usize
    ensures front { HoldsPrefix into.new result (bytes_in_handle handle.old.pointer.session) }
    ensures same { handle.new.pointer.session ≡ handle.old.pointer.session }
{
    let Some(session) = handle.take(alloc) else {
        return hc_binary::put(b"", into, 0);
    };
    let n = session.copy_reported(into);
    *handle = Handle::of(session);
    n
}

/// Copies the first bytes of the image of what the store has, as many as fit. `len` is how many it has.
pub fn image(alloc: Global, handle: &mut Handle, into: &mut [u8], len: &mut usize) -> u32
    ensures image { ArePictured handle.old.pointer.session into.new len.new result }
    ensures stays { AllStay handle.old.pointer.session handle.new.pointer.session }
{
    *len = 0;
    let Some(mut session) = handle.take(alloc) else {
        return 1;
    };
    let copied = session.copy_image(alloc, into);
    *handle = Handle::of(session);
    match copied {
        Ok(all) => {
            *len = all;
            0
        }
        Err(why) => why.code(),
    }
}

/// The number of a reason, as `replay` tells it.
fn number_of(why: SchedRefusal) -> u32
    ensures { result ≡ number_of why }
{
    match why {
        SchedRefusal::BadLine => 1,
        SchedRefusal::LineTooLong => 2,
        SchedRefusal::BadTarget => 3,
        SchedRefusal::MomentBack { .. } => 4,
        SchedRefusal::CutShort => 5,
    }
}

/// Where a text is refused, which is told at its code alone.
fn told_at(code: u32, refused: Option<Refused>) -> Option<Refused>
    ensures { result ≡ told_at code refused }
{
    if code == BAD_TEXT { refused } else { None }
}

/// Writes the line that is refused and the number of the reason, if one is.
fn write_refused(refused: Option<Refused>, line: &mut u64, why: &mut u32)
    ensures { IsTold refused line.old line.new why.old why.new }
{
    if let Some(refused) = refused {
        *line = refused.line;
        *why = number_of(refused.why);
    }
}

/// Reads a further piece of a text: the cache is stepped by the events that it brings, up to a line that is refused. Their report is
/// made. At 14 `line` is the line that is refused, from 1, and `why` the number of the reason.
pub fn schedule(
    alloc: Global,
    handle: &mut Handle,
    text: &[u8],
    line: &mut u64,
    why: &mut u32,
) -> u32
    ensures read { Reads handle.old.pointer.session handle.new.pointer.session text.now result }
    ensures told { IsTold (told_at result (refused_in_handle handle.new.pointer.session))
        line.old line.new why.old why.new }
{
    let Some(mut session) = handle.take(alloc) else {
        return 1;
    };
    let code = code_of(session.read_on(alloc, text));
    let refused = told_at(code, session.refused());
    *handle = Handle::of(session);
    write_refused(refused, line, why);
    code
}

/// The text ends here. At 14 a line or field lines are missing, and `line` and `why` are as above.
pub fn schedule_end(alloc: Global, handle: &mut Handle, line: &mut u64, why: &mut u32) -> u32
    ensures finished { Finishes handle.old.pointer.session handle.new.pointer.session result }
    ensures told { IsTold (told_at result (refused_in_handle handle.new.pointer.session))
        line.old line.new why.old why.new }
{
    let Some(mut session) = handle.take(alloc) else {
        return 1;
    };
    let code = code_of(session.finish());
    let refused = told_at(code, session.refused());
    *handle = Handle::of(session);
    write_refused(refused, line, why);
    code
}

/// Copies the first bytes of the report of the last piece, as many as fit, and says how many it has in all.
pub fn report(alloc: Global, handle: &mut Handle, into: &mut [u8]) -> usize
    ensures report { HasReport (report_in_handle handle.old.pointer.session) into.new result }
    ensures same { handle.new.pointer.session ≡ handle.old.pointer.session }
{
    let Some(session) = handle.take(alloc) else {
        return hc_binary::put(b"", into, 0);
    };
    let len = session.copy_report(into);
    *handle = Handle::of(session);
    len
}

/// How often the store failed. One in memory never does.
pub fn faults(_handle: &mut Handle) -> u64
    ensures { result ≡ 0 }
{
    0
}

/// The moment of the last event, or of the image; 0 without a cache, and where memory was refused.
pub fn moment(alloc: Global, handle: &mut Handle) -> u64
    ensures value { result ≡ moment_in handle.old.pointer.session }
    ensures same { handle.new.pointer.session ≡ handle.old.pointer.session }
{
    let Some(session) = handle.take(alloc) else {
        return 0;
    };
    let moment = session.moment();
    *handle = Handle::of(session);
    moment
}

/// How many consumers are live; 0 without a cache, and where memory was refused.
pub fn live(alloc: Global, handle: &mut Handle) -> u64
    ensures value { result ≡ live_in_handle handle.old.pointer.session }
    ensures same { handle.new.pointer.session ≡ handle.old.pointer.session }
{
    let Some(session) = handle.take(alloc) else {
        return 0;
    };
    let live = session.live();
    *handle = Handle::of(session);
    live
}
