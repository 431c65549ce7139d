//! Connections whose other side is waited for too long.
use crate::fault::Fault;
use crate::wires::{between, connect, next_of};
use hc_sockets::{MioWire, Patience};
use hc_wire::{Wire, WireEvent};
use std::net::Net;
use std::rt::Clock;

/// For how many calls that wait nothing is told of a client that has a request under way: some two seconds.
const CALLS: u32 = 40;

/// A silent client is told to be broken, one that begins and doesn't go on, and a silent origin. Who isn't
/// read is waited for, and the idlest goes before one more comes.
pub(crate) fn lose<R: Net + Clock + AllocGlobal + Clone + Drop>(rt: &R) -> Result<(), Fault> {
    let endless = Patience::endless();
    let idle = Patience { idle: 1, ..endless };
    let (mut near, mut far) = between(rt, 28_000, idle, endless)?;
    lose_idle(&mut near, &mut far)?;
    keep_unread(&mut near, &mut far)?;
    let head = Patience { head: 1, ..endless };
    let (mut near, mut far) = between(rt, 28_000, head, endless)?;
    lose_half(&mut near, &mut far)?;
    let origin = Patience {
        origin: 1,
        ..endless
    };
    let (mut near, mut far) = between(rt, 28_000, endless, origin)?;
    lose_origin(&mut near, &mut far)?;
    let alone = Patience {
        clients: 1,
        ..endless
    };
    let (mut near, mut far) = between(rt, 28_000, alone, endless)?;
    make_way(&mut near, &mut far)
}

/// A client that says nothing.
fn lose_idle<R: Net + Clock + AllocGlobal + Drop>(
    near: &mut MioWire<R>,
    far: &mut MioWire<R>,
) -> Result<(), Fault> {
    let mut into = [0; 9];
    let (_, client) = connect(near, far, &mut into)?;
    expect(WireEvent::Broke(client), near)?;
    near.close(client);
    Ok(())
}

/// A client that has a request under way, and so isn't read.
fn keep_unread<R: Net + Clock + AllocGlobal + Drop>(
    near: &mut MioWire<R>,
    far: &mut MioWire<R>,
) -> Result<(), Fault> {
    let mut into = [0; 9];
    let (_, client) = connect(near, far, &mut into)?;
    near.reads(client, false);
    for _ in 0..CALLS {
        if near.next(true, &mut into)?.1 != WireEvent::Quiet {
            return Err(Fault::Broke);
        }
    }
    near.close(client);
    Ok(())
}

/// A client that begins, and never ends what it began.
fn lose_half<R: Net + Clock + AllocGlobal + Drop>(
    near: &mut MioWire<R>,
    far: &mut MioWire<R>,
) -> Result<(), Fault> {
    let mut into = [0; 9];
    let (k, client) = connect(near, far, &mut into)?;
    far.send(k, b"GET")?;
    far.next(true, &mut into)?;
    expect(WireEvent::Got(client, 3), near)?;
    expect(WireEvent::Broke(client), near)
}

/// An origin that says nothing.
fn lose_origin<R: Net + Clock + AllocGlobal + Drop>(
    near: &mut MioWire<R>,
    far: &mut MioWire<R>,
) -> Result<(), Fault> {
    let mut into = [0; 9];
    let (k, _) = connect(near, far, &mut into)?;
    expect(WireEvent::Broke(k), far)
}

/// One more client than may be connected at once.
fn make_way<R: Net + Clock + AllocGlobal + Drop>(
    near: &mut MioWire<R>,
    far: &mut MioWire<R>,
) -> Result<(), Fault> {
    let mut into = [0; 9];
    let (_, first) = connect(near, far, &mut into)?;
    far.dial()?;
    expect(WireEvent::Broke(first), near)?;
    near.close(first);
    match next_of(near, &mut into)? {
        WireEvent::Accepted(_) => Ok(()),
        _ => Err(Fault::OtherTalk),
    }
}

/// The next event is this one.
fn expect<R: Net + Clock + AllocGlobal + Drop>(
    event: WireEvent,
    wire: &mut MioWire<R>,
) -> Result<(), Fault> {
    let mut into = [0; 9];
    if next_of(wire, &mut into)? != event {
        return Err(Fault::OtherTalk);
    }
    Ok(())
}
