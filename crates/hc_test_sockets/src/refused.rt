//! A connection that nobody accepts.
use crate::fault::Fault;
use crate::wires::listen;
use hc_sockets::MioWire;
use hc_wire::{Address, Wire, WireEvent};
use std::net::Net;
use std::rt::Clock;

/// How many events are waited for, each a while.
const EVENTS: u32 = 100;

/// Dials where nobody listens any more. The connection takes bytes, is told as broken, and then takes
/// all.
pub(crate) fn dial_in_vain<R: Net + Clock + AllocGlobal + Clone + Drop>(
    rt: &R,
) -> Result<(), Fault> {
    let mut near = MioWire::new(rt.clone()?);
    let address = listen(&mut near, 21_000)?;
    drop(near);
    let mut far = MioWire::new(rt.clone()?);
    dial_at(&mut far, address)
}

/// The same of this wire, at an address at which nobody listens.
fn dial_at<R: Net + Clock + AllocGlobal + Drop>(
    far: &mut MioWire<R>,
    address: Address,
) -> Result<(), Fault> {
    far.bind(None, Some(address))?;
    let k = far.dial()?;
    if far.send(k, b"a")? != 1 {
        return Err(Fault::TookLess);
    }
    if !is_reported_broken(far, k)? {
        return Err(Fault::NeverBroke);
    }
    if far.send(k, b"bc")? != 2 {
        return Err(Fault::TookLess);
    }
    Ok(())
}

/// Whether the first thing that is told of the connection is that it is broken.
fn is_reported_broken<R: Net + Clock + AllocGlobal + Drop>(
    wire: &mut MioWire<R>,
    k: u64,
) -> Result<bool, Fault> {
    let mut into = [0; 2];
    for _ in 0..EVENTS {
        match wire.next(true, &mut into)? {
            (_, WireEvent::Quiet) => {}
            (_, event) => return Ok(event == WireEvent::Broke(k)),
        }
    }
    Ok(false)
}
