//! What a wire in memory keeps of its connections and its calls.
ghost use Rattle.std.specs.Prelude.{◌≡◌, ◌+◌, ◌<◌, ◌≤◌, ℕ, true, false, map, filter, position, find, ◌==◌, vec_len, vec_capacity, IfOk, OnOk, OnErr};
ghost use Rattle.std.specs.Option.{option_copied};
ghost use Rattle.hc_wire.specs.Events.{Unseen, Open, IsOpen, IsUnended};
ghost use Rattle.hc_wire.specs.Following.{is_seen, is_live, is_unended, is_reading};
ghost use Rattle.hc_wire.specs.Logs.{is_numbered, fresh, stage_in, changed_at, reading, shut, over, taking, takers_with, standing_of, is_taking};

use crate::event::{Address, WireEvent};
use std::alloc::{AllocError, Global};
use std::marker::Model;

/// The addresses of a call of `bind`.
#[derive(Clone, Copy, Debug, PartialEq, Eq)]
pub(crate) struct Binding {
    pub(crate) listen: Option<Address>,
    pub(crate) origin: Option<Address>,
}

/// A connection that was handed out.
#[derive(Drop)]
pub(crate) struct Connection {
    pub(crate) k: u64,
    /// The bytes that it has taken.
    pub(crate) sent: Vec<u8>,
    /// Whether its reading is on.
    pub(crate) reads: bool,
    /// Whether its end was handed out.
    pub(crate) ended: bool,
    /// After how many events it last took less than it was offered.
    pub(crate) short: Option<usize>,
    /// It isn't closed.
    pub(crate) live: bool,
}

impl Model for Connection {
    ghost use Rattle.hc_wire.specs.Logs.{Taker};

    ghost Value = { Taker };

    ghost view = { λ c. record {
      k = c.k;
      sent = c.sent.items;
      reads = c.reads;
      ended = c.ended;
      short = c.short;
      live = c.live;
    } };
}

/// How an open connection stood at a call of `next`.
#[derive(Clone, Copy, Debug, PartialEq, Eq)]
pub(crate) struct Standing {
    pub(crate) k: u64,
    /// How many bytes it had taken.
    pub(crate) taken: usize,
    /// Whether its reading was on.
    pub(crate) reads: bool,
    /// It took less than it was offered since the call before.
    pub(crate) short: bool,
}

/// A call of `next` that handed out an event.
#[derive(Drop)]
pub(crate) struct Call {
    pub(crate) wait: bool,
    pub(crate) moment: u64,
    pub(crate) event: WireEvent,
    pub(crate) bytes: Vec<u8>,
    pub(crate) standings: Vec<Standing>,
}

impl Model for Call {
    ghost use Rattle.hc_wire.specs.Logs.{Called};

    ghost Value = { Called };

    ghost view = { λ c. record {
      wait = c.wait;
      moment = c.moment;
      event = c.event;
      bytes = c.bytes.items;
      standings = c.standings.items;
    } };
}

impl Connection {
    /// A new connection.
    pub(crate) fn new(alloc: Global, k: u64) -> Connection
        ensures { result ≡ fresh k }
    {
        Connection {
            k,
            sent: Vec::new(alloc),
            reads: true,
            ended: false,
            short: None,
            live: true,
        }
    }

    /// Has taken these bytes, after so many events.
    fn take(&mut self, bytes: &[u8], short: bool, events: usize) -> Result<(), AllocError>
        ensures ok { OnOk result (self.new ≡ taking bytes.now short events self.old) }
        ensures err { OnErr result (self.new ≡ self.old) }
    {
        self.sent.extend_from_slice(bytes)?;
        if short {
            self.short = Some(events);
        }
        Ok(())
    }

    fn read(&mut self, on: bool)
        ensures { self.new ≡ reading on self.old }
    {
        self.reads = on;
    }

    fn end(&mut self)
        ensures { self.new ≡ over self.old }
    {
        self.ended = true;
    }

    fn shut(&mut self)
        ensures { self.new ≡ shut self.old }
    {
        self.live = false;
    }

    /// How it stands, after so many events.
    fn standing(&self, events: usize) -> Standing
        ensures { result ≡ standing_of events self.now }
    {
        Standing {
            k: self.k,
            taken: self.sent.len(),
            reads: self.reads,
            short: self.short == Some(events),
        }
    }
}

/// The connection with this number.
pub(crate) fn found(connections: &[Connection], k: u64) -> Option<&Connection>
    ensures { option_copied result ≡ find (is_numbered k) connections.now }
{
    connections.iter().find(|c| c.k == k)
}

/// Whether the number was handed out.
pub(crate) fn is_seen(connections: &[Connection], k: u64) -> bool
    ensures value { result ≡ is_seen connections.now k }
    ensures unseen { result ≡ false → stage_in connections.now k ≡ Unseen }
{
    found(connections, k).is_some()
}

/// Whether the connection is open.
pub(crate) fn is_open(connections: &[Connection], k: u64) -> bool
    ensures value { result ≡ is_live connections.now k }
    ensures open { result ≡ true → IsOpen (stage_in connections.now k) }
{
    match found(connections, k) {
        Some(c) => c.live,
        None => false,
    }
}

/// Whether the connection is open, and its end wasn't handed out.
pub(crate) fn is_unended(connections: &[Connection], k: u64) -> bool
    ensures value { result ≡ is_unended connections.now k }
    ensures unended { result ≡ true → IsUnended (stage_in connections.now k) }
{
    match found(connections, k) {
        Some(c) => c.live && !c.ended,
        None => false,
    }
}

/// Whether the connection's reading is on.
pub(crate) fn is_read(connections: &[Connection], k: u64) -> bool
    ensures value { result ≡ is_reading connections.now k }
    ensures read { result ≡ true → is_unended connections.now k ≡ true
        → stage_in connections.now k ≡ Open true false }
{
    match found(connections, k) {
        Some(c) => c.reads,
        None => false,
    }
}

/// How the open ones stand, after so many events.
pub(crate) fn standings(
    alloc: Global,
    connections: &[Connection],
    events: usize,
) -> Result<Vec<Standing>, AllocError>
    ensures { IfOk result (λ v. v.items
        ≡ map (standing_of events) (filter is_taking connections.now)) }
{
    connections
        .iter()
        .filter(|c| c.live)
        .map(|c| c.standing(events))
        .collect(alloc)
}

/// The greatest number that was handed out, or 0.
pub(crate) fn greatest_in(connections: &[Connection]) -> u64
    ensures above { (k : ℕ) → result < k → stage_in connections.now k ≡ Unseen }
    ensures least { stage_in connections.now result ≡ Unseen → result ≡ 0 }
{
    let mut greatest = 0;
    for c in connections {
        greatest = c.k.max(greatest);
    }
    greatest
}

/// A connection that is accepted is one more, and one whose end comes has ended.
pub(crate) fn join_in(alloc: Global, connections: &mut Vec<Connection>, event: WireEvent)
    requires { vec_len connections.old < vec_capacity connections.old }
    ensures { connections.new.items ≡ takers_with event connections.old.items }
{
    match event {
        WireEvent::Accepted(k) => connections.push_reserved(Connection::new(alloc, k)),
        WireEvent::Ended(k) => end_in(connections, k),
        _ => {}
    }
}

/// Where the first with this number stands.
fn place_of(connections: &[Connection], k: u64) -> Option<usize>
    ensures { result ≡ position (is_numbered k) connections.now }
{
    connections.iter().position(|c| c.k == k)
}

/// The connection has taken these bytes, after so many events.
pub(crate) fn take_in(
    connections: &mut Vec<Connection>,
    k: u64,
    bytes: &[u8],
    short: bool,
    events: usize,
) -> Result<(), AllocError>
    ensures ok { OnOk result
        (connections.new.items
        ≡ changed_at k (taking bytes.now short events) connections.old.items) }
    ensures err { OnErr result (connections.new.items ≡ connections.old.items) }
{
    match place_of(connections.as_slice(), k) {
        Some(at) => connections[at].take(bytes, short, events),
        None => Ok(()),
    }
}

/// The connection's reading is on or off.
pub(crate) fn read_in(connections: &mut Vec<Connection>, k: u64, on: bool)
    ensures { connections.new.items ≡ changed_at k (reading on) connections.old.items }
{
    if let Some(at) = place_of(connections.as_slice(), k) {
        connections[at].read(on);
    }
}

/// The connection's end was handed out.
fn end_in(connections: &mut Vec<Connection>, k: u64)
    ensures { connections.new.items ≡ changed_at k over connections.old.items }
{
    if let Some(at) = place_of(connections.as_slice(), k) {
        connections[at].end();
    }
}

/// The connection is closed.
pub(crate) fn shut_in(connections: &mut Vec<Connection>, k: u64)
    ensures { connections.new.items ≡ changed_at k shut connections.old.items }
{
    if let Some(at) = place_of(connections.as_slice(), k) {
        connections[at].shut();
    }
}
