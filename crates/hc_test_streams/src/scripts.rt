//! Walks through scripts.
use hc_text::Bytes;
use hc_wire::{ScriptWire, Scripted, Wire, WireError, WireEvent, is_script};
use std::alloc::Global;
use std::process::Abort;
use std::test::Fail;

/// An event of a script, with its bytes as a text.
#[derive(Clone, Copy)]
struct Line(u64, WireEvent, &'static str);

fn wire_of<R: Abort>(
    rt: &R,
    alloc: Global,
    lines: &[Line],
    fails: Vec<u64>,
) -> Result<ScriptWire, Fail> {
    let mut script = Vec::new(alloc);
    add_lines(alloc, lines, &mut script)?;
    assert!(rt; is_script(script.as_slice()));
    Ok(ScriptWire::new(alloc, script, fails))
}

fn add_lines(alloc: Global, lines: &[Line], to: &mut Vec<Scripted>) -> Result<(), Fail> {
    for line in lines {
        to.push(Scripted {
            moment: line.0,
            event: line.1,
            bytes: Bytes::of(line.2.as_bytes().to_vec(alloc)?),
        })?;
    }
    Ok(())
}

/// What the next call hands out, into two bytes, and the bytes that were got.
fn take<R: Abort>(rt: &R, wire: &mut ScriptWire, moment: u64, event: WireEvent, text: &str) {
    let mut into = [0; 2];
    match wire.next(true, &mut into) {
        Ok((m, e)) => {
            assert!(rt; m == moment && e == event);
            assert!(rt; text.len() <= 2 && &into[..text.len()] == text.as_bytes());
        }
        Err(_) => assert!(rt; false),
    }
}

static LINES: &'static [Line] = &[
    Line(7, WireEvent::Got(4, 1), "x"),
    Line(8, WireEvent::Accepted(4), ""),
    Line(9, WireEvent::Accepted(4), ""),
    Line(9, WireEvent::Got(4, 3), "abc"),
    Line(10, WireEvent::Quiet, ""),
    Line(11, WireEvent::Ended(4), ""),
    Line(12, WireEvent::Accepted(2), ""),
    Line(13, WireEvent::Broke(4), ""),
    Line(14, WireEvent::Room(2), ""),
];

#[test]
fn follows_a_script(rt: HostRuntime) -> Result<(), Fail> {
    let mut wire = wire_of(&rt, rt.alloc(), LINES, Vec::new(rt.alloc()))?;
    follow(&rt, &mut wire);
    Ok(())
}

fn follow<R: Abort>(rt: &R, wire: &mut ScriptWire) {
    take(rt, wire, 8, WireEvent::Accepted(4), "");
    take(rt, wire, 9, WireEvent::Got(4, 2), "ab");
    wire.reads(4, false);
    take(rt, wire, 9, WireEvent::Quiet, "");
    wire.reads(4, true);
    take(rt, wire, 9, WireEvent::Got(4, 1), "c");
    take(rt, wire, 10, WireEvent::Quiet, "");
    take(rt, wire, 11, WireEvent::Ended(4), "");
    wire.close(4);
    take(rt, wire, 12, WireEvent::Accepted(2), "");
    take(rt, wire, 14, WireEvent::Room(2), "");
    take(rt, wire, 14, WireEvent::Quiet, "");
}

#[test]
fn fails_where_it_is_reported_to(rt: HostRuntime) -> Result<(), Fail> {
    let fails = vec![in rt.alloc(); 2, 3, 5]?;
    let mut wire = wire_of(&rt, rt.alloc(), LINES, fails)?;
    fail(&rt, &mut wire);
    Ok(())
}

fn fail<R: Abort>(rt: &R, wire: &mut ScriptWire) {
    let mut into = [0; 2];
    assert!(rt; wire.bind(None, None) == Ok(()));
    assert!(rt; wire.next(false, &mut into) == Err(WireError::WireFailed));
    assert!(rt; wire.dial() == Err(WireError::WireFailed));
    assert!(rt; wire.dial() == Ok(1));
    assert!(rt; wire.send(1, b"a") == Err(WireError::WireFailed));
    assert!(rt; wire.send(1, b"b") == Ok(1) && wire.sent(1) == b"b".as_slice());
    take(rt, wire, 8, WireEvent::Accepted(4), "");
    assert!(rt; wire.dial() == Ok(5));
}

#[test]
fn stalls(rt: HostRuntime) -> Result<(), Fail> {
    let mut wire = wire_of(&rt, rt.alloc(), LINES, Vec::new(rt.alloc()))?;
    stall(&rt, &mut wire)
}

fn stall<R: Abort>(rt: &R, wire: &mut ScriptWire) -> Result<(), Fail> {
    wire.stall(2, 3)?;
    take(rt, wire, 8, WireEvent::Accepted(4), "");
    wire.close(4);
    take(rt, wire, 10, WireEvent::Quiet, "");
    take(rt, wire, 12, WireEvent::Accepted(2), "");
    assert!(rt; wire.send(2, b"ab") == Ok(2));
    assert!(rt; wire.send(2, b"cde") == Ok(1));
    assert!(rt; wire.send(2, b"de") == Ok(0) && wire.send(2, b"") == Ok(0));
    assert!(rt; wire.send(4, b"x") == Ok(1));
    take(rt, wire, 14, WireEvent::Room(2), "");
    assert!(rt; wire.send(2, b"de") == Ok(2) && wire.sent(2) == b"abcde".as_slice());
    Ok(())
}
