//! The end of a connection whose reading is off.
use crate::fault::Fault;
use crate::wires::{bound, connect, next_of};
use hc_sockets::MioWire;
use hc_wire::{Wire, WireEvent};
use std::net::Net;
use std::rt::Clock;

/// One side closes connections that the other doesn't read. That is told the end at once, unless a byte
/// stands before it.
pub(crate) fn end_unread<R: Net + Clock + AllocGlobal + Clone + Drop>(rt: &R) -> Result<(), Fault> {
    let (mut near, mut far) = bound(rt, 27_000)?;
    end_behind(b"", &mut near, &mut far)?;
    end_behind(b"a", &mut near, &mut far)
}

/// The end comes behind these bytes, of which each comes once reading is on.
fn end_behind<R: Net + Clock + AllocGlobal + Drop>(
    bytes: &[u8],
    near: &mut MioWire<R>,
    far: &mut MioWire<R>,
) -> Result<(), Fault> {
    let mut into = [0; 1];
    let (k, client) = connect(near, far, &mut into)?;
    near.reads(client, false);
    far.send(k, bytes)?;
    far.close(k);
    for _ in 0..bytes.len() {
        get_one(near, client)?;
    }
    if next_of(near, &mut into)? != WireEvent::Ended(client) {
        return Err(Fault::NeverEnded);
    }
    Ok(())
}

/// A byte that stands next comes while reading is on, and nothing before.
fn get_one<R: Net + Clock + AllocGlobal + Drop>(
    wire: &mut MioWire<R>,
    k: u64,
) -> Result<(), Fault> {
    let mut into = [0; 1];
    let (_, event) = wire.next(true, &mut into)?;
    if event != WireEvent::Quiet {
        return Err(Fault::EndedEarly(0, 1));
    }
    wire.reads(k, true);
    if next_of(wire, &mut into)? != WireEvent::Got(k, 1) {
        return Err(Fault::OtherTalk);
    }
    wire.reads(k, false);
    Ok(())
}
