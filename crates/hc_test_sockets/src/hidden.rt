//! A connection on which bytes come without end, and a client that connects meanwhile.
use crate::fault::Fault;
use crate::wires::{bound, next_of};
use hc_sockets::MioWire;
use hc_wire::{Wire, WireEvent};
use std::net::Net;
use std::rt::Clock;

/// How many bytes are sent at once. They are got one by one.
const BYTES: usize = 40_000;

/// Within how many events the client is told.
const EVENTS: u32 = 200;

/// Bytes of one connection are due at each call, and the second client is told soon.
pub(crate) fn flood<R: Net + Clock + AllocGlobal + Clone + Drop>(rt: &R) -> Result<(), Fault> {
    let (mut near, mut far) = bound(rt, 22_000)?;
    flood_between(&mut near, &mut far)
}

/// The same between these wires.
fn flood_between<R: Net + Clock + AllocGlobal + Drop>(
    near: &mut MioWire<R>,
    far: &mut MioWire<R>,
) -> Result<(), Fault> {
    let k = far.dial()?;
    let WireEvent::Accepted(first) = next_of(near, &mut [0; 1])? else {
        return Err(Fault::OtherTalk);
    };
    far.send(k, &[7; BYTES])?;
    far.next(true, &mut [0; 1])?;
    if next_of(near, &mut [0; 1])? != WireEvent::Got(first, 1) {
        return Err(Fault::OtherTalk);
    }
    far.dial()?;
    for _ in 0..EVENTS {
        if let (_, WireEvent::Accepted(_)) = near.next(false, &mut [0; 1])? {
            return Ok(());
        }
    }
    Err(Fault::Hidden)
}
