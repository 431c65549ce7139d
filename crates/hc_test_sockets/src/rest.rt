//! What is left where more is taken at once than one segment has.
ghost use Rattle.std.specs.Prelude.{◌<◌, length};

use crate::fault::Fault;
use crate::wires::{bound, connect};
use hc_sockets::MioWire;
use hc_text::Bytes;
use hc_wire::{Wire, WireEvent};
use std::alloc::Global;
use std::net::Net;
use std::rt::Clock;

/// How many bytes a list has, of which four are taken.
const LIST: usize = 16_384;

/// How many events are waited for.
const EVENTS: u32 = 1_000;

/// Of four lists all bytes but 53 are sent at once, and these at the fourth call of `next`.
pub(crate) fn hold_rest<R: Net + Clock + AllocGlobal + Clone + Drop>(rt: &R) -> Result<(), Fault> {
    let (mut near, mut far) = bound(rt, 26_000)?;
    let mut into = [0; LIST];
    let (k, _) = connect(&mut near, &mut far, &mut into)?;
    // The far side is told that it is connected.
    far.next(true, &mut into)?;
    send_lists(&mut far, rt.alloc(), k)?;
    let first = got_of(&mut near, &mut into)?;
    for _ in 0..4 {
        far.next(false, &mut into)?;
    }
    let rest = got_of(&mut near, &mut into)?;
    if (first, rest) != (65_483, 53) {
        return Err(Fault::OtherTalk);
    }
    Ok(())
}

/// Hands four lists over.
fn send_lists<R: Net + Clock + AllocGlobal + Drop>(
    far: &mut MioWire<R>,
    alloc: Global,
    k: u64,
) -> Result<(), Fault> {
    for _ in 0..4 {
        let mut list = Bytes::of(Vec::from_slice(alloc, &[7; LIST])?);
        far.hand(k, &mut list, 0)?;
    }
    Ok(())
}

/// How many bytes come, until none come for a while.
fn got_of<R: Net + Clock + AllocGlobal + Drop>(
    near: &mut MioWire<R>,
    into: &mut [u8],
) -> Result<usize, Fault>
    requires { 0 < length into.old }
{
    let mut all = 0_usize;
    for _ in 0..EVENTS {
        let (_, WireEvent::Got(_, n)) = near.next(true, into)? else {
            break;
        };
        all = all.saturating_add(n);
    }
    Ok(all)
}
