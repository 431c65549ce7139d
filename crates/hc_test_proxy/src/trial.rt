//! A script that lines make, and what its run came to.
ghost use Rattle.std.specs.Prelude.{◌≡◌, ◌+◌, ℕ, [], IfOk, IfSome};
ghost use Rattle.hc_core.specs.Steps.{StandsFor, bytes_received, steps};
ghost use Rattle.hc_model.specs.Entries.{no_contents};
ghost use Rattle.hc_wire.specs.Events.{Unseen};
ghost use Rattle.hc_wire.specs.Scripts.{IsScript};
ghost use Rattle.hc_proxy.specs.Endings.{IsFresh};

use crate::runs::quote_runs;
use hc_contents::Contents;
use hc_core::Cache;
use hc_image::read_image;
use hc_io::MemorySink;
use hc_proxy::{serve_from, serve_on};
use hc_rules::Limits;
use hc_sched::Ended;
use hc_store::Memory;
use hc_test_frame::{Calls, Fault, Vector, note};
use hc_text::{Bytes, NoMemory};
use hc_wire::{ScriptWire, Scripted, Wire, WireEvent, is_script};
use std::alloc::Global;
use std::mem;

/// The room of the store, which is that of the program.
const LIMITS: Limits = Limits {
    max_entry: 16_777_216,
    max_total: 268_435_456,
};

/// The last consumer of an image has a lower number, so that numbers are left.
const TOO_MANY: u64 = 1 << 61;

/// A connection takes so many bytes, and then none.
#[derive(Clone, Copy)]
struct Stall {
    k: u64,
    after: usize,
}

/// The script of the next run, the image that it begins with, none where that is empty, and whether it
/// has a front; and what the last one came to.
#[derive(Drop)]
pub(crate) struct Trial {
    alloc: Global,
    image: Vec<u8>,
    front: bool,
    script: Vec<Scripted>,
    stalls: Vec<Stall>,
    wire: ScriptWire,
    record: MemorySink,
}

impl Trial {
    /// Of no event, and without a run.
    pub(crate) fn new(alloc: Global) -> Trial {
        Trial {
            alloc,
            image: Vec::new(alloc),
            front: false,
            script: Vec::new(alloc),
            stalls: Vec::new(alloc),
            wire: ScriptWire::new(alloc, Vec::new(alloc), Vec::new(alloc)),
            record: MemorySink::new(alloc, Vec::new(alloc)),
        }
    }

    /// Clients connect, with all numbers from the one to the other.
    fn accept_all(&mut self, v: &Vector) -> Result<(), Fault> {
        for k in v.number(1)..=v.number(2) {
            self.script.push(Scripted {
                moment: v.number(0),
                event: WireEvent::Accepted(k),
                bytes: Bytes::new(),
            })?;
        }
        Ok(())
    }

    fn stall(&mut self, v: &Vector) -> Result<(), Fault> {
        self.stalls.push(Stall {
            k: v.number(0),
            after: v.number(1) as usize,
        })?;
        Ok(())
    }

    /// Makes so many turns on the script, which is over then. How the loop ends.
    fn serve(&mut self, turns: u64) -> Result<Ended, Fault> {
        let alloc = self.alloc;
        let image = mem::replace(&mut self.image, Vec::new(alloc));
        let front = mem::replace(&mut self.front, false);
        let script = mem::replace(&mut self.script, Vec::new(alloc));
        let stalls = mem::replace(&mut self.stalls, Vec::new(alloc));
        if !is_script(script.as_slice()) {
            return Err(Fault::NoSuchCall);
        }
        let mut wire = wire_of(alloc, script, stalls.as_slice())?;
        let mut record = MemorySink::new(alloc, Vec::new(alloc));
        let ended = if image.is_empty() {
            let cache = Cache::new(Memory::new(alloc, LIMITS), LIMITS, alloc)?;
            begin(alloc, cache, front, &mut wire, &mut record, turns)
        } else {
            let contents = contents_of(alloc, image.as_slice())?;
            go_on(alloc, contents, front, &mut wire, &mut record, turns)?
        };
        self.wire = wire;
        self.record = record;
        Ok(ended)
    }
}

impl Calls for Trial {
    fn note(&mut self, v: &Vector, value: &mut String) -> Result<(), Fault> {
        match v.call() {
            "serve n" => return note(&self.serve(v.number(0))?, value),
            "record" => return quote_runs(self.alloc, self.record.taken(), value),
            "sent n" => return quote_runs(self.alloc, self.wire.sent(v.number(0)), value),
            "image t" => self.image = v.text(0).to_vec(self.alloc)?,
            "front" => self.front = true,
            "stall nn" => self.stall(v)?,
            "accepted nnn" => self.accept_all(v)?,
            _ => self.script.push(event_of(v)?)?,
        }
        note(&self.script.len(), value)
    }
}

/// What the image has.
fn contents_of(alloc: Global, image: &[u8]) -> Result<Contents, Fault> {
    match read_image(alloc, image)? {
        Some(read) => Ok(read.contents),
        None => Err(Fault::NoSuchCall),
    }
}

/// Makes so many turns over an empty cache.
fn begin(
    alloc: Global,
    cache: Cache<Memory>,
    front: bool,
    wire: &mut ScriptWire,
    record: &mut MemorySink,
    turns: u64,
) -> Ended
    requires new { StandsFor cache no_contents [] }
    requires unused { steps cache + bytes_received cache ≡ 0 }
    requires fresh { IfSome (⟦<ScriptWire as Wire>⟧.log wire.old) IsFresh }
    requires unseen { (k : ℕ) → ⟦<ScriptWire as Wire>⟧.stages wire.old k ≡ Unseen }
{
    if front {
        serve_from(alloc, cache, 0, true, wire, record, turns)
    } else {
        serve_on(alloc, cache, wire, record, turns)
    }
}

/// Makes so many turns over a cache that begins with these contents.
fn go_on(
    alloc: Global,
    contents: Contents,
    front: bool,
    wire: &mut ScriptWire,
    record: &mut MemorySink,
    turns: u64,
) -> Result<Ended, Fault>
    requires fresh { IfSome (⟦<ScriptWire as Wire>⟧.log wire.old) IsFresh }
    requires unseen { (k : ℕ) → ⟦<ScriptWire as Wire>⟧.stages wire.old k ≡ Unseen }
{
    let last = contents.last_consumer;
    if last >= TOO_MANY {
        return Err(Fault::NoSuchCall);
    }
    let store = Memory::new(alloc, LIMITS);
    match Cache::with_contents(store, LIMITS, &contents, alloc) {
        Ok(cache) => Ok(serve_from(alloc, cache, last, front, wire, record, turns)),
        Err(_) => Err(Fault::NoSuchCall),
    }
}

/// The event that the line is.
fn event_of(v: &Vector) -> Result<Scripted, Fault> {
    let k = v.number(1);
    let bytes = v.text(2).to_vec(v.alloc())?;
    let event = match v.call() {
        "accepted nn" => WireEvent::Accepted(k),
        "got nnt" => WireEvent::Got(k, bytes.len()),
        "ended nn" => WireEvent::Ended(k),
        "broke nn" => WireEvent::Broke(k),
        "room nn" => WireEvent::Room(k),
        "quiet n" => WireEvent::Quiet,
        _ => return Err(Fault::NoSuchCall),
    };
    Ok(Scripted {
        moment: v.number(0),
        event,
        bytes: Bytes::of(bytes),
    })
}

/// A wire that follows the script, of whose connections these are stalled. Nobody is connected yet.
fn wire_of(alloc: Global, script: Vec<Scripted>, stalls: &[Stall]) -> Result<ScriptWire, NoMemory>
    requires { IsScript script.items }
    ensures fresh { IfOk result (λ wire. IfSome (⟦<ScriptWire as Wire>⟧.log wire) IsFresh) }
    ensures unseen { IfOk result (λ wire. (k : ℕ)
        → ⟦<ScriptWire as Wire>⟧.stages wire k ≡ Unseen) }
{
    let mut wire = ScriptWire::new(alloc, script, Vec::new(alloc));
    for stall in stalls {
        wire.stall(stall.k, stall.after)?;
    }
    Ok(wire)
}
