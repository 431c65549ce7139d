//! A connection that is reset while its reading is off.
use crate::fault::Fault;
use crate::wires::{bound, connect, next_of};
use hc_sockets::MioWire;
use hc_wire::{Wire, WireEvent};
use std::net::Net;
use std::rt::Clock;

/// One side closes the connection with bytes that it hasn't got, so that the system resets it. The
/// other side reads nothing, and is told that the connection is broken.
pub(crate) fn cut_unread<R: Net + Clock + AllocGlobal + Clone + Drop>(rt: &R) -> Result<(), Fault> {
    let (mut near, mut far) = bound(rt, 23_000)?;
    cut_between(&mut near, &mut far)
}

/// The same between these wires.
fn cut_between<R: Net + Clock + AllocGlobal + Drop>(
    near: &mut MioWire<R>,
    far: &mut MioWire<R>,
) -> Result<(), Fault> {
    let mut into = [0; 1];
    let (k, client) = connect(near, far, &mut into)?;
    near.reads(client, false);
    near.send(client, b"abc")?;
    near.next(true, &mut into)?;
    if next_of(far, &mut into)? != WireEvent::Got(k, 1) {
        return Err(Fault::OtherTalk);
    }
    far.close(k);
    if next_of(near, &mut into)? != WireEvent::Broke(client) {
        return Err(Fault::NeverBroke);
    }
    Ok(())
}
