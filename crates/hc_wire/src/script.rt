//! A wire that follows a script.
ghost use Rattle.std.specs.Prelude.{◌≡◌, ◌+◌, ◌-◌, ◌<◌, ◌≤◌, ◌^◌, ℕ, List, Some, [], true, false, All, length, take, drop, find, position, nat_lt, min, IfOk, IfSome, OnOk, OnErr, IsErrOf, ◌==◌, vec_len, vec_capacity, if◌then◌else◌};
ghost use Rattle.std.specs.Option.{option_copied};
ghost use Rattle.std.specs.Result.{is_ok};
ghost use Rattle.hc_wire.specs.declared.event.WireEvent.TheVariants.{Quiet};
ghost use Rattle.hc_wire.specs.Events.{Unseen, Fresh, IsOpen, IsOfOpen, FitsIn, got_bytes, with_stage, closed_of, reading_of, stages_after};
ghost use Rattle.hc_wire.specs.Logs.{Reports, stage_in, sent_in, empty_log, with_binding, with_call, with_dialled, with_sent, with_reading, with_closed};
ghost use Rattle.hc_wire.specs.Scripts.{IsScript};
ghost use Rattle.hc_wire.specs.Following.{behind_past, behind_event, behind_first, begins_quiet, left_at, coming, coming_of, bytes_left, is_listed, is_room, is_stall_of, room_in, used, used_at};
ghost use Rattle.hc_wire.specs.Wires.{HasRisen, HasWireCause};

use crate::connection::{
    Binding, Call, Connection, found, greatest_in, is_open, is_read, is_seen, is_unended, join_in,
    read_in, shut_in, standings, take_in,
};
use crate::event::{Address, WireError, WireEvent};
use crate::scripted::Scripted;
use crate::wire::{MOST_EVENTS, Wire};
use hc_text::NoMemory;
use std::alloc::Global;

/// How many bytes more a connection takes.
#[derive(Clone, Copy, Debug, PartialEq, Eq)]
struct Stall {
    k: u64,
    left: usize,
}

impl Stall {
    /// It takes so many bytes less.
    fn use_up(&mut self, n: usize)
        ensures { self.new ≡ used n self.old }
    {
        self.left = self.left.saturating_sub(n);
    }
}

/// What is due, and where the script stands then.
#[derive(Clone, Copy)]
struct Due {
    moment: u64,
    event: WireEvent,
    at: usize,
    off: usize,
}

/// Hands out the events of a script, fails at listed calls, and keeps what it was sent.
#[derive(Drop)]
pub struct ScriptWire {
    alloc: Global,
    script: Vec<Scripted>,
    /// The script's next event, and how many of its bytes were handed out.
    at: usize,
    off: usize,
    fails: Vec<u64>,
    /// How many calls there were that may fail.
    count: u64,
    failed: u64,
    /// The moment handed out last.
    moment: u64,
    stalls: Vec<Stall>,
    bound: Vec<Binding>,
    calls: Vec<Call>,
    dialled: Vec<u64>,
    connections: Vec<Connection>,
    ghost early: { All (λ s. s.moment < 2 ^ 62) script.items },
    ghost last: { moment < 2 ^ 62 },
    ghost few: { length calls.items ≤ 2 ^ 45 },
}

impl ScriptWire {
    ghost use Rattle.hc_wire.specs.Plays.{script_left, script_due, script_next};
    ghost use Rattle.hc_wire.specs.Stalls.{room_of};

    /// Follows the script, and fails at the listed calls, counted from 1 over `bind`, `next`, `dial` and
    /// `send` together.
    pub fn new(alloc: Global, script: Vec<Scripted>, fails: Vec<u64>) -> ScriptWire
        requires { IsScript script.items }
        ensures log { ⟦<ScriptWire as Wire>⟧.log result ≡ Some empty_log }
        ensures shut { (k : ℕ) → IsOpen (⟦<ScriptWire as Wire>⟧.stages result k) → ⊥ }
        ensures faults { ⟦<ScriptWire as Wire>⟧.faults result ≡ 0 }

        // It begins with the script's first event and the first call, at the moment 0.
        ensures script { result.script ≡ script }
        ensures left { script_left result ≡ record { items = script.items; off = 0 } }
        ensures moment { result.moment ≡ 0 }
        ensures fails { result.fails ≡ fails }
        ensures count { result.count ≡ 0 }
        ensures unstalled { result.stalls.items ≡ [] }
    {
        ScriptWire {
            alloc,
            script,
            at: 0,
            off: 0,
            fails,
            count: 0,
            failed: 0,
            moment: 0,
            stalls: Vec::new(alloc),
            bound: Vec::new(alloc),
            calls: Vec::new(alloc),
            dialled: Vec::new(alloc),
            connections: Vec::new(alloc),
        }
    }

    /// The bytes that the connection has taken.
    pub fn sent(&self, k: u64) -> &[u8]
        ensures { IfSome (⟦<ScriptWire as Wire>⟧.log self.now)
            (λ log. result.now ≡ sent_in log.takers k) }
    {
        match found(self.connections.as_slice(), k) {
            Some(connection) => connection.sent.as_slice(),
            None => &[],
        }
    }

    /// The connection takes so many bytes more, and then none until the script hands out its `Room`.
    pub fn stall(&mut self, k: u64, after: usize) -> Result<(), NoMemory>
        ensures log { ⟦<ScriptWire as Wire>⟧.log self.new ≡ ⟦<ScriptWire as Wire>⟧.log self.old }
        ensures ok { OnOk result ((j len : ℕ) → room_of self.new j len
            ≡ (if k == j then min after len else room_of self.old j len)) }
        ensures err { OnErr result ((j len : ℕ) → room_of self.new j len ≡ room_of self.old j len) }
        ensures kept { self.new ≡ record self.old { stalls = self.new.stalls } }
    {
        self.stalls.reserve(1)?;
        stall_in(&mut self.stalls, Stall { k, left: after });
        Ok(())
    }

    /// Counts a call, and tells whether it is to fail.
    fn is_failing(&mut self) -> bool
        ensures value { result ≡ is_listed self.new.count self.old.fails.items }
        ensures count { self.new.count ≡ min (self.old.count + 1) (2 ^ 64 - 1) }
        ensures kept { self.new ≡ record self.old { count = self.new.count } }
    {
        self.count = self.count.saturating_add(1);
        self.fails.contains(&self.count)
    }

    /// Counts a fault.
    fn fail(&mut self) -> WireError
        ensures error { result ≡ WireError.WireFailed }
        ensures rose { HasRisen self.old.failed self.new.failed }
        ensures later { self.old.failed ≤ self.new.failed }
        ensures kept { self.new ≡ record self.old { failed = self.new.failed } }
    {
        self.failed = self.failed.saturating_add(1);
        WireError::WireFailed
    }

    /// What is due, and where in the script. The bytes of a `Got` are copied into the slice. Events of
    /// connections that aren't open are passed over.
    fn due(&self, into: &mut [u8]) -> Due
        requires { 0 < length into.old }
        ensures place { left_at self.now.script.items result.at result.off ≡ script_due self.now }
        ensures moment_is { result.moment ≡ (script_next self.now (length into.old)).0 }
        ensures event { result.event ≡ (script_next self.now (length into.old)).1 }
        ensures bytes { got_bytes result.event into.new
            ≡ got_bytes result.event (bytes_left (script_due self.now)) }
        ensures moment { result.moment < 2 ^ 62 }
        ensures of_open { IsOfOpen result.event (stage_in self.now.connections.items) }
        ensures fits { FitsIn result.event (length into.old) }
    {
        let mut at = self.at;
        let mut off = self.off;
        while at < self.script.len() {
            if let Some((moment, event)) = self.due_of(&self.script[at], off, into) {
                return Due {
                    moment,
                    event,
                    at,
                    off,
                };
            }
            at += 1;
            off = 0;
        }
        Due {
            moment: self.moment,
            event: WireEvent::Quiet,
            at,
            off,
        }
    }

    /// The same of one event of the script, of whose bytes so many were handed out; None where it is
    /// passed over.
    fn due_of(&self, item: &Scripted, off: usize, into: &mut [u8]) -> Option<(u64, WireEvent)>
        requires some { 0 < length into.old }
        requires early { item.now.moment < 2 ^ 62 }
        ensures value { result ≡ coming_of self.now.connections.items self.now.moment
            (length into.old) off item.now }
        ensures bytes { IfSome result
            (λ p. got_bytes p.1 into.new ≡ got_bytes p.1 (drop off item.now.bytes)) }
        ensures moment { IfSome result (λ p. p.0 < 2 ^ 62) }
        ensures of_open { IfSome result
            (λ p. IsOfOpen p.1 (stage_in self.now.connections.items)) }
        ensures fits { IfSome result (λ p. FitsIn p.1 (length into.old)) }
    {
        let event = match item.event {
            WireEvent::Quiet => WireEvent::Quiet,
            WireEvent::Accepted(k) if !is_seen(self.connections.as_slice(), k) => item.event,
            WireEvent::Got(k, _) if is_unended(self.connections.as_slice(), k) => {
                if off >= item.bytes.len() {
                    return None;
                }
                if !is_read(self.connections.as_slice(), k) {
                    return Some((self.moment, WireEvent::Quiet));
                }
                WireEvent::Got(k, copy_rest(item.bytes.as_slice(), off, into))
            }
            WireEvent::Ended(k) if is_unended(self.connections.as_slice(), k) => item.event,
            WireEvent::Broke(k) | WireEvent::Room(k) if is_open(self.connections.as_slice(), k) => {
                item.event
            }
            _ => return None,
        };
        Some((item.moment, event))
    }

    /// Goes on behind the event, or behind the bytes that were handed out.
    fn advance(&mut self, event: WireEvent)
        ensures left { left_at self.new.script.items self.new.at self.new.off
            ≡ behind_event event (left_at self.old.script.items self.old.at self.old.off) }
        ensures kept { self.new ≡ record self.old { at = self.new.at; off = self.new.off } }
    {
        match event {
            WireEvent::Got(_, n) => self.off = self.off.saturating_add(n),
            WireEvent::Quiet if !self.is_quiet_next() => {}
            _ => self.pass(),
        }
    }

    /// Goes on behind the script's next event, where there is one.
    fn pass(&mut self)
        ensures left { left_at self.new.script.items self.new.at self.new.off
            ≡ behind_first (drop self.old.at self.old.script.items) self.old.off }
        ensures kept { self.new ≡ record self.old { at = self.new.at; off = self.new.off } }
    {
        if self.at < self.script.len() {
            self.at += 1;
            self.off = 0;
        }
    }

    /// Whether the script's next event is Quiet.
    fn is_quiet_next(&self) -> bool
        ensures { result ≡ begins_quiet (drop self.now.at self.now.script.items) }
    {
        match self.script.get(self.at) {
            Some(item) => matches!(item.event, WireEvent::Quiet),
            None => false,
        }
    }
}

impl Wire for ScriptWire {
    ghost use Rattle.hc_wire.specs.Plays.{IsIdle, HandsOut, UsesUp, FailsAsListed, IsNextNumber, KeepsScript, reported};
    ghost use Rattle.hc_wire.specs.Stalls.{room_of};

    ghost faults = { λ w. w.failed };

    ghost events = { λ w. length w.calls.items };

    ghost stages = { λ w. stage_in w.connections.items };

    ghost log = { reported };

    ghost idle = { IsIdle };

    fn bind(&mut self, listen: Option<Address>, origin: Option<Address>) -> Result<(), WireError>
        ensures stages { (k : ℕ) → stage_in self.new.connections.items k
            ≡ stage_in self.old.connections.items k }
        ensures events { length self.new.calls.items ≡ length self.old.calls.items }
        ensures ok { OnOk result
            (Reports (reported self.old) (reported self.new) (with_binding listen origin)) }
        ensures err { OnErr result (reported self.new ≡ reported self.old) }
        ensures cause { HasWireCause self.old.failed self.new.failed result }

        // It fails exactly where it is listed, and the script stays.
        ensures as_listed { FailsAsListed self.old self.new ⊥ result }
        ensures keeps { KeepsScript self.old self.new }
        ensures stalls { self.new.stalls ≡ self.old.stalls }
    {
        if self.is_failing() {
            return Err(self.fail());
        }
        self.bound.push(Binding { listen, origin })?;
        Ok(())
    }

    fn next(&mut self, wait: bool, into: &mut [u8]) -> Result<(u64, WireEvent), WireError>
        requires { 0 < length into.old }
        ensures moment { IfOk result (λ p. p.0 < 2 ^ 62) }
        ensures of_open { IfOk result (λ p. IsOfOpen p.1 (stage_in self.old.connections.items)) }
        ensures quiet { IfOk result (λ p. p.1 ≡ Quiet → IsIdle self.old) }
        ensures fits { IfOk result (λ p. FitsIn p.1 (length into.old)) }
        ensures stages { IfOk result (λ p. (k : ℕ) → stage_in self.new.connections.items k
            ≡ stages_after p.1 (stage_in self.old.connections.items) k) }
        ensures ok { IfOk result (λ p. Reports (reported self.old) (reported self.new)
            (with_call wait p.0 p.1 (got_bytes p.1 into.new))) }
        ensures err { OnErr result (reported self.new ≡ reported self.old) }
        ensures err_stages { OnErr result ((k : ℕ) → stage_in self.new.connections.items k
            ≡ stage_in self.old.connections.items k) }
        ensures events { length self.new.calls.items ≡ (if is_ok result
            then length self.old.calls.items + 1 else length self.old.calls.items) }
        ensures in_all { length self.new.calls.items ≤ 2 ^ 45 }
        ensures cause { HasWireCause self.old.failed self.new.failed result }

        // What comes next in the script is handed out. It fails exactly where it is listed, and past
        // the most events.
        ensures hands_out { IfOk result
            (λ p. HandsOut self.old self.new (length into.old) p into.new) }
        ensures as_listed { FailsAsListed self.old self.new
            (2 ^ 45 ≤ length self.old.calls.items) result }
        ensures err_keeps { OnErr result (KeepsScript self.old self.new) }
        ensures err_stalls { OnErr result (self.new.stalls ≡ self.old.stalls) }
    {
        if self.is_failing() || self.calls.len() as u64 >= MOST_EVENTS {
            return Err(self.fail());
        }
        let due = self.due(into);
        let (moment, event) = (due.moment, due.event);
        let bytes = into[..got_len(event)].to_vec(self.alloc)?;
        let standings = standings(self.alloc, self.connections.as_slice(), self.calls.len())?;
        self.connections.reserve(1)?;
        self.calls.push(Call {
            wait,
            moment,
            event,
            bytes,
            standings,
        })?;
        join_in(self.alloc, &mut self.connections, event);
        end_stall(&mut self.stalls, event);
        self.moment = moment;
        self.at = due.at;
        self.off = due.off;
        self.advance(event);
        Ok((moment, event))
    }

    fn dial(&mut self) -> Result<u64, WireError>
        ensures fresh { IfOk result (λ k. stage_in self.old.connections.items k ≡ Unseen) }
        ensures stages { IfOk result (λ k. (j : ℕ) → stage_in self.new.connections.items j
            ≡ with_stage k Fresh (stage_in self.old.connections.items) j) }
        ensures ok { IfOk result (λ k. Reports (reported self.old) (reported self.new)
            (with_dialled k)) }
        ensures err { OnErr result (reported self.new ≡ reported self.old) }
        ensures err_stages { OnErr result ((k : ℕ) → stage_in self.new.connections.items k
            ≡ stage_in self.old.connections.items k) }
        ensures events { length self.new.calls.items ≡ length self.old.calls.items }
        ensures cause { HasWireCause self.old.failed self.new.failed result }

        // It is one more than the greatest number that was handed out. It fails exactly where it is
        // listed, and where that is the greatest of all. The script stays.
        ensures next_number { IfOk result (IsNextNumber (stage_in self.old.connections.items)) }
        ensures as_listed { FailsAsListed self.old self.new
            (stage_in self.old.connections.items (2 ^ 64 - 1) ≡ Unseen → ⊥) result }
        ensures keeps { KeepsScript self.old self.new }
        ensures stalls { self.new.stalls ≡ self.old.stalls }
    {
        if self.is_failing() {
            return Err(self.fail());
        }
        let greatest = greatest_in(self.connections.as_slice());
        if greatest == u64::MAX {
            return Err(self.fail());
        }
        let k = greatest + 1;
        self.connections.reserve(1)?;
        self.dialled.push(k)?;
        self.connections
            .push_reserved(Connection::new(self.alloc, k));
        Ok(k)
    }

    fn send(&mut self, k: u64, from: &[u8]) -> Result<usize, WireError>
        ensures within { IfOk result (λ n. n ≤ length from.now) }
        ensures stages { (j : ℕ) → stage_in self.new.connections.items j
            ≡ stage_in self.old.connections.items j }
        ensures ok { IfOk result (λ n. Reports (reported self.old) (reported self.new)
            (with_sent k (take n from.now) (nat_lt n (length from.now)))) }
        ensures err { OnErr result (reported self.new ≡ reported self.old) }
        ensures events { length self.new.calls.items ≡ length self.old.calls.items }
        ensures cause { HasWireCause self.old.failed self.new.failed result }

        // It takes what there is room for, and the stall is used up by as much. It fails exactly where
        // it is listed, and the script stays.
        ensures room { IfOk result (λ n. n ≡ room_of self.old k (length from.now)) }
        ensures uses_up { IfOk result (UsesUp self.old self.new k) }
        ensures as_listed { FailsAsListed self.old self.new ⊥ result }
        ensures keeps { KeepsScript self.old self.new }
        ensures err_stalls { OnErr result (self.new.stalls ≡ self.old.stalls) }
    {
        if self.is_failing() {
            return Err(self.fail());
        }
        let n = room_in(self.stalls.as_slice(), k, from.len());
        let events = self.calls.len();
        take_in(&mut self.connections, k, &from[..n], n < from.len(), events)?;
        use_up(&mut self.stalls, k, n);
        Ok(n)
    }

    fn reads(&mut self, k: u64, on: bool)
        ensures stages { (j : ℕ) → stage_in self.new.connections.items j ≡ with_stage k
            (reading_of on (stage_in self.old.connections.items k))
            (stage_in self.old.connections.items) j }
        ensures log { Reports (reported self.old) (reported self.new) (with_reading k on) }
        ensures events { length self.new.calls.items ≡ length self.old.calls.items }
        ensures faults { self.new.failed ≡ self.old.failed }

        // The script stays.
        ensures uncounted { self.new.count ≡ self.old.count }
        ensures keeps { KeepsScript self.old self.new }
        ensures stalls { self.new.stalls ≡ self.old.stalls }
    {
        read_in(&mut self.connections, k, on);
    }

    fn close(&mut self, k: u64)
        ensures stages { (j : ℕ) → stage_in self.new.connections.items j ≡ with_stage k
            (closed_of (stage_in self.old.connections.items k))
            (stage_in self.old.connections.items) j }
        ensures log { Reports (reported self.old) (reported self.new) (with_closed k) }
        ensures events { length self.new.calls.items ≡ length self.old.calls.items }
        ensures faults { self.new.failed ≡ self.old.failed }

        // The script stays.
        ensures uncounted { self.new.count ≡ self.old.count }
        ensures keeps { KeepsScript self.old self.new }
        ensures stalls { self.new.stalls ≡ self.old.stalls }
    {
        shut_in(&mut self.connections, k);
    }
}

/// How many bytes were got.
fn got_len(event: WireEvent) -> usize
    ensures bytes { (bytes : List ℕ) → got_bytes event bytes ≡ take result bytes }
    ensures within { (room : ℕ) → FitsIn event room → result ≤ room }
{
    match event {
        WireEvent::Got(_, n) => n,
        _ => 0,
    }
}

/// Copies what fits of the bytes from a place on, and says how many.
fn copy_rest(bytes: &[u8], off: usize, into: &mut [u8]) -> usize
    requires more { off < length bytes.now }
    requires some { 0 < length into.old }
    ensures value { result ≡ min (length into.old) (length bytes.now - off) }
    ensures bytes { take result into.new ≡ take result (drop off bytes.now) }
{
    let n = into.len().min(bytes.len() - off);
    into[..n].copy_from_slice(&bytes[off..off + n]);
    n
}

/// Of so many bytes, how many the connection takes.
fn room_in(stalls: &[Stall], k: u64, len: usize) -> usize
    ensures value { result ≡ room_in stalls.now k len }
    ensures within { result ≤ len }
{
    match stall_of(stalls, k) {
        Some(stall) => stall.left.min(len),
        None => len,
    }
}

/// The connection is stalled so from now on. There is room for one more.
fn stall_in(stalls: &mut Vec<Stall>, new: Stall)
    requires { vec_len stalls.old < vec_capacity stalls.old }
    ensures { (j len : ℕ) → room_in stalls.new.items j len
        ≡ (if new.k == j then min new.left len else room_in stalls.old.items j len) }
{
    stalls.retain(|stall| stall.k != new.k);
    stalls.push_reserved(new);
}

/// How the connection is stalled.
fn stall_of(stalls: &[Stall], k: u64) -> Option<&Stall>
    ensures { option_copied result ≡ find (is_stall_of k) stalls.now }
{
    stalls.iter().find(|stall| stall.k == k)
}

/// A connection that takes bytes again isn't stalled any more.
fn end_stall(stalls: &mut Vec<Stall>, event: WireEvent)
    ensures { (j len : ℕ) → room_in stalls.new.items j len
        ≡ (if is_room j event then len else room_in stalls.old.items j len) }
{
    if let WireEvent::Room(k) = event {
        stalls.retain(|stall| stall.k != k);
    }
}

/// The connection has taken so many bytes.
fn use_up(stalls: &mut Vec<Stall>, k: u64, n: usize)
    ensures { stalls.new.items ≡ used_at k n stalls.old.items }
{
    if let Some(at) = place_of(stalls.as_slice(), k) {
        stalls[at].use_up(n);
    }
}

/// Where the first stall of the connection stands.
fn place_of(stalls: &[Stall], k: u64) -> Option<usize>
    ensures { result ≡ position (is_stall_of k) stalls.now }
{
    stalls.iter().position(|stall| stall.k == k)
}
