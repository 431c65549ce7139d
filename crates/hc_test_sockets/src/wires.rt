//! Wires over sockets of this machine.
ghost use Rattle.std.specs.Prelude.{◌<◌, length};

use crate::fault::Fault;
use hc_sockets::{MioWire, Patience};
use hc_wire::{Address, Wire, WireEvent};
use std::net::Net;
use std::rt::Clock;

/// Of this many ports one is free.
const PORTS: u16 = 1_000;

/// How many events are waited for, each a while.
const EVENTS: u32 = 100;

/// A wire that listens, at a port from this one on, and one whose origin that is. Both wait for ever.
pub(crate) fn bound<R: Net + Clock + AllocGlobal + Clone + Drop>(
    rt: &R,
    first: u16,
) -> Result<(MioWire<R>, MioWire<R>), Fault> {
    between(rt, first, Patience::endless(), Patience::endless())
}

/// The same with so much patience.
pub(crate) fn between<R: Net + Clock + AllocGlobal + Clone + Drop>(
    rt: &R,
    first: u16,
    of_near: Patience,
    of_far: Patience,
) -> Result<(MioWire<R>, MioWire<R>), Fault> {
    let mut near = MioWire::with_patience(rt.clone()?, of_near);
    let mut far = MioWire::with_patience(rt.clone()?, of_far);
    let address = listen(&mut near, first)?;
    far.bind(None, Some(address))?;
    Ok((near, far))
}

/// Connects the far wire to the near one: the number of the connection there, and here.
pub(crate) fn connect<R: Net + Clock + AllocGlobal + Drop>(
    near: &mut MioWire<R>,
    far: &mut MioWire<R>,
    into: &mut [u8],
) -> Result<(u64, u64), Fault>
    requires { 0 < length into.old }
{
    let k = far.dial()?;
    match next_of(near, into)? {
        WireEvent::Accepted(client) => Ok((k, client)),
        _ => Err(Fault::OtherTalk),
    }
}

/// Binds the wire to a port of this machine that is free, the first from this one on.
pub(crate) fn listen<R: Net + Clock + AllocGlobal + Drop>(
    wire: &mut MioWire<R>,
    first: u16,
) -> Result<Address, Fault> {
    for i in 0..PORTS {
        let address = Address {
            octets: [127, 0, 0, 1],
            port: first.saturating_add(i),
        };
        if wire.bind(Some(address), None).is_ok() {
            return Ok(address);
        }
    }
    Err(Fault::NotBound)
}

/// The next event, or Quiet where none comes for long.
pub(crate) fn next_of<R: Net + Clock + AllocGlobal + Drop>(
    wire: &mut MioWire<R>,
    into: &mut [u8],
) -> Result<WireEvent, Fault>
    requires { 0 < length into.old }
{
    for _ in 0..EVENTS {
        let (_, event) = wire.next(true, into)?;
        if event != WireEvent::Quiet {
            return Ok(event);
        }
    }
    Ok(WireEvent::Quiet)
}
