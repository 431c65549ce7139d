//! Calls that don't wait, while nothing is known to be due.
use crate::fault::Fault;
use crate::wires::{bound, connect};
use hc_sockets::MioWire;
use hc_wire::{Wire, WireEvent};
use std::net::Net;
use std::rt::Clock;

/// What came is told at the fourth of such calls at the latest.
pub(crate) fn look<R: Net + Clock + AllocGlobal + Clone + Drop>(rt: &R) -> Result<(), Fault> {
    let (mut near, mut far) = bound(rt, 25_000)?;
    look_between(&mut near, &mut far)
}

/// The same between these wires.
fn look_between<R: Net + Clock + AllocGlobal + Drop>(
    near: &mut MioWire<R>,
    far: &mut MioWire<R>,
) -> Result<(), Fault> {
    let mut into = [0; 9];
    let (k, client) = connect(near, far, &mut into)?;
    // The far side is told that it is connected, and sends before it waits again.
    far.next(true, &mut into)?;
    far.send(k, b"abc")?;
    far.next(true, &mut into)?;
    for _ in 0..4 {
        if near.next(false, &mut into)?.1 == WireEvent::Got(client, 3) {
            return Ok(());
        }
    }
    Err(Fault::Unasked)
}
