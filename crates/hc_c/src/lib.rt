//! The cache behind a handle, for C: `include/vosdrieng.h` has what each call asks and answers.
#![tactic(auto)]

ghost use Rattle.std.specs.Prelude.{◌≡◌, ◌≢◌, None};
ghost use Rattle.hc_binary.specs.Copies.{HoldsPrefix};
ghost use Rattle.hc_binary.specs.Events.{numbered, start_made, poll_made, head_made, piece_made, doom_made};
ghost use Rattle.hc_event.specs.declared.event.Event.TheVariants as event;
ghost use Rattle.hc_handle.specs.Calls.{Comes, IsBegun, IsOpened, IsClosed, HasNext, NoNext, bytes_in_handle, ArePictured, AllStay, Reads, Finishes, IsTold, HasReport, told_at, refused_in_handle, report_in_handle, moment_in, live_in_handle};

use hc_binary::{ActNumbers, Asked};
use hc_handle::calls;
use hc_handle::handle::Handle;
use hc_rules::Limits;
use std::alloc::Global;

/// The version: 1,000,000 for each major one, 1,000 for each minor one, and the patch.
#[unsafe(no_mangle)]
pub extern "C" fn vosdrieng_version() -> u32
    ensures { result ≡ 1000 }
{
    1000
}

/// A cache that begins with nothing, in place of the one that the handle had.
#[unsafe(no_mangle)]
pub extern "C" fn vosdrieng_new(
    alloc: Global,
    handle: &mut Handle,
    max_entry: u64,
    max_total: u64,
) -> u32
    ensures done { result ≡ 0
        → IsBegun (record { max_entry = max_entry; max_total = max_total })
        handle.new.pointer.session }
    ensures memory { result ≢ 0 → (result ≡ 2) × (handle.new.pointer.session ≡ None) }
{
    calls::new(
        alloc,
        handle,
        Limits {
            max_entry,
            max_total,
        },
    )
}

/// A cache that begins with what an image has, in place of the one that the handle had.
#[unsafe(no_mangle)]
pub extern "C" fn vosdrieng_open(
    alloc: Global,
    handle: &mut Handle,
    max_entry: u64,
    max_total: u64,
    image: &[u8],
) -> u32
    ensures done { result ≡ 0
        → IsOpened (record { max_entry = max_entry; max_total = max_total }) image.now
        handle.new.pointer.session }
    ensures closed { result ≢ 0 → handle.new.pointer.session ≡ None }
    ensures cause { result ≢ 0 → result ≢ 2
        → IsClosed (record { max_entry = max_entry; max_total = max_total }) image.now result }
{
    calls::open(
        alloc,
        handle,
        Limits {
            max_entry,
            max_total,
        },
        image,
    )
}

/// Lets the cache go. A handle without one is left so.
#[unsafe(no_mangle)]
pub extern "C" fn vosdrieng_free(alloc: Global, handle: &mut Handle)
    ensures { handle.new.pointer.session ≡ None }
{
    calls::free(alloc, handle)
}

/// A consumer begins with its request.
#[unsafe(no_mangle)]
pub extern "C" fn vosdrieng_start(
    alloc: Global,
    handle: &mut Handle,
    now: u64,
    c: u64,
    method: &[u8],
    mode: u32,
    target: &[u8],
    fields: &[u8],
) -> u32
    ensures { Comes handle.old.pointer.session handle.new.pointer.session now
        (start_made c method.now mode target.now
        fields.now) result }
{
    calls::start(
        alloc,
        handle,
        now,
        c,
        Asked {
            method,
            mode,
            target,
            fields,
        },
    )
}

/// A consumer asks for bytes.
#[unsafe(no_mangle)]
pub extern "C" fn vosdrieng_poll(
    alloc: Global,
    handle: &mut Handle,
    now: u64,
    c: u64,
    want: u32,
) -> u32
    ensures { Comes handle.old.pointer.session handle.new.pointer.session now
        (poll_made c want) result }
{
    calls::poll(alloc, handle, now, c, want)
}

/// A consumer leaves.
#[unsafe(no_mangle)]
pub extern "C" fn vosdrieng_cancel(alloc: Global, handle: &mut Handle, now: u64, c: u64) -> u32
    ensures { Comes handle.old.pointer.session handle.new.pointer.session now
        (numbered c (event.Cancel c)) result }
{
    calls::cancel(alloc, handle, now, c)
}

/// What is stored for a target is not to be used any more.
#[unsafe(no_mangle)]
pub extern "C" fn vosdrieng_doom(alloc: Global, handle: &mut Handle, now: u64, target: &[u8]) -> u32
    ensures { Comes handle.old.pointer.session handle.new.pointer.session now
        (doom_made target.now) result }
{
    calls::doom(alloc, handle, now, target)
}

/// The head of an exchange came.
#[unsafe(no_mangle)]
pub extern "C" fn vosdrieng_head(
    alloc: Global,
    handle: &mut Handle,
    now: u64,
    x: u64,
    status: u32,
    fields: &[u8],
) -> u32
    ensures { Comes handle.old.pointer.session handle.new.pointer.session now
        (head_made x status fields.now) result }
{
    calls::head(alloc, handle, now, x, status, fields)
}

/// Bytes of the body of an exchange came.
#[unsafe(no_mangle)]
pub extern "C" fn vosdrieng_piece(
    alloc: Global,
    handle: &mut Handle,
    now: u64,
    x: u64,
    bytes: &[u8],
) -> u32
    ensures { Comes handle.old.pointer.session handle.new.pointer.session now
        (piece_made x bytes.now) result }
{
    calls::piece(alloc, handle, now, x, bytes)
}

/// An exchange ended cleanly.
#[unsafe(no_mangle)]
pub extern "C" fn vosdrieng_end(alloc: Global, handle: &mut Handle, now: u64, x: u64) -> u32
    ensures { Comes handle.old.pointer.session handle.new.pointer.session now
        (numbered x (event.End x)) result }
{
    calls::end(alloc, handle, now, x)
}

/// An exchange broke.
#[unsafe(no_mangle)]
pub extern "C" fn vosdrieng_fault(alloc: Global, handle: &mut Handle, now: u64, x: u64) -> u32
    ensures { Comes handle.old.pointer.session handle.new.pointer.session now
        (numbered x (event.Fault x)) result }
{
    calls::fault(alloc, handle, now, x)
}

/// Tells the next act of the last event in numbers. 1 where there was one, and else 0.
#[unsafe(no_mangle)]
pub extern "C" fn vosdrieng_next_act(
    alloc: Global,
    handle: &mut Handle,
    act: &mut ActNumbers,
) -> u32
    ensures next { result ≡ 1
        → HasNext handle.old.pointer.session handle.new.pointer.session act.new }
    ensures none { result ≢ 1 → (result ≡ 0) × NoNext handle.old.pointer.session
        × (handle.new.pointer.session ≡ handle.old.pointer.session) × (act.new ≡ act.old) }
{
    calls::next_act(alloc, handle, act)
}

/// Copies the first of the bytes of the act that was told last, as many as fit, and says how many.
#[unsafe(no_mangle)]
pub extern "C" fn vosdrieng_act_bytes(alloc: Global, handle: &mut Handle, into: &mut [u8]) -> usize
    ensures front { HoldsPrefix into.new result (bytes_in_handle handle.old.pointer.session) }
    ensures same { handle.new.pointer.session ≡ handle.old.pointer.session }
{
    calls::act_bytes(alloc, handle, into)
}

/// Copies the first bytes of the image of what the store has, as many as fit. `len` is how many it has.
#[unsafe(no_mangle)]
pub extern "C" fn vosdrieng_image(
    alloc: Global,
    handle: &mut Handle,
    into: &mut [u8],
    len: &mut usize,
) -> u32
    ensures image { ArePictured handle.old.pointer.session into.new len.new result }
    ensures stays { AllStay handle.old.pointer.session handle.new.pointer.session }
{
    calls::image(alloc, handle, into, len)
}

/// Reads a further piece of a text: the cache is stepped by the events that it brings, up to a line that is refused. Their report is
/// made. At 14 `line` is the line that is refused, from 1, and `why` the number of the reason.
#[unsafe(no_mangle)]
pub extern "C" fn vosdrieng_schedule(
    alloc: Global,
    handle: &mut Handle,
    text: &[u8],
    line: &mut u64,
    why: &mut u32,
) -> u32
    ensures read { Reads handle.old.pointer.session handle.new.pointer.session text.now result }
    ensures told { IsTold (told_at result (refused_in_handle handle.new.pointer.session))
        line.old line.new why.old why.new }
{
    calls::schedule(alloc, handle, text, line, why)
}

/// The text ends here. At 14 a line or field lines are missing, and `line` and `why` are as above.
#[unsafe(no_mangle)]
pub extern "C" fn vosdrieng_schedule_end(
    alloc: Global,
    handle: &mut Handle,
    line: &mut u64,
    why: &mut u32,
) -> u32
    ensures finished { Finishes handle.old.pointer.session handle.new.pointer.session result }
    ensures told { IsTold (told_at result (refused_in_handle handle.new.pointer.session))
        line.old line.new why.old why.new }
{
    calls::schedule_end(alloc, handle, line, why)
}

/// Copies the first bytes of the report of the last piece, as many as fit, and says how many it has in all.
#[unsafe(no_mangle)]
pub extern "C" fn vosdrieng_report(alloc: Global, handle: &mut Handle, into: &mut [u8]) -> usize
    ensures report { HasReport (report_in_handle handle.old.pointer.session) into.new result }
    ensures same { handle.new.pointer.session ≡ handle.old.pointer.session }
{
    calls::report(alloc, handle, into)
}

/// How often the store failed. One in memory never does.
#[unsafe(no_mangle)]
pub extern "C" fn vosdrieng_faults(handle: &mut Handle) -> u64
    ensures { result ≡ 0 }
{
    calls::faults(handle)
}

/// The moment of the last event, or of the image; 0 without a cache, and where memory was refused.
#[unsafe(no_mangle)]
pub extern "C" fn vosdrieng_moment(alloc: Global, handle: &mut Handle) -> u64
    ensures value { result ≡ moment_in handle.old.pointer.session }
    ensures same { handle.new.pointer.session ≡ handle.old.pointer.session }
{
    calls::moment(alloc, handle)
}

/// How many consumers are live; 0 without a cache, and where memory was refused.
#[unsafe(no_mangle)]
pub extern "C" fn vosdrieng_live(alloc: Global, handle: &mut Handle) -> u64
    ensures value { result ≡ live_in_handle handle.old.pointer.session }
    ensures same { handle.new.pointer.session ≡ handle.old.pointer.session }
{
    calls::live(alloc, handle)
}
