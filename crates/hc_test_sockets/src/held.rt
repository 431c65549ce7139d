//! Bytes that a wire has taken and holds.
use crate::fault::Fault;
use crate::wires::{bound, connect, next_of};
use hc_sockets::MioWire;
use hc_wire::{Wire, WireEvent};
use std::net::Net;
use std::rt::Clock;

/// What is taken is sent at the fourth call of `next` that doesn't wait, and not before.
pub(crate) fn hold<R: Net + Clock + AllocGlobal + Clone + Drop>(rt: &R) -> Result<(), Fault> {
    let (mut near, mut far) = bound(rt, 24_000)?;
    hold_between(&mut near, &mut far)
}

/// The same between these wires.
fn hold_between<R: Net + Clock + AllocGlobal + Drop>(
    near: &mut MioWire<R>,
    far: &mut MioWire<R>,
) -> Result<(), Fault> {
    let mut into = [0; 9];
    let (k, client) = connect(near, far, &mut into)?;
    // The far side is told that it is connected.
    far.next(true, &mut into)?;
    far.send(k, b"abc")?;
    for _ in 0..3 {
        far.next(false, &mut into)?;
    }
    if near.next(true, &mut into)?.1 != WireEvent::Quiet {
        return Err(Fault::OtherTalk);
    }
    far.next(false, &mut into)?;
    if next_of(near, &mut into)? != WireEvent::Got(client, 3) {
        return Err(Fault::OtherTalk);
    }
    Ok(())
}
