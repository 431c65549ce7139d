//! A connection on which a few bytes come, and at once the end.
use crate::fault::Fault;
use crate::wires::{bound, connect, next_of};
use hc_sockets::MioWire;
use hc_wire::{Wire, WireEvent};
use std::net::Net;
use std::rt::Clock;

/// One side is sent some bytes and the end before it looks. It is told both.
pub(crate) fn talk_shortly<R: Net + Clock + AllocGlobal + Clone + Drop>(
    rt: &R,
) -> Result<(), Fault> {
    let (mut near, mut far) = bound(rt, 20_000)?;
    talk_between(&mut near, &mut far)
}

/// The same between these wires.
fn talk_between<R: Net + Clock + AllocGlobal + Drop>(
    near: &mut MioWire<R>,
    far: &mut MioWire<R>,
) -> Result<(), Fault> {
    let mut into = [0; 9];
    let (k, client) = connect(near, far, &mut into)?;
    near.send(client, b"abc")?;
    near.close(client);
    if next_of(far, &mut into)? != WireEvent::Got(k, 3) || !into.starts_with(b"abc") {
        return Err(Fault::OtherTalk);
    }
    if next_of(far, &mut into)? != WireEvent::Ended(k) {
        return Err(Fault::OtherTalk);
    }
    Ok(())
}
