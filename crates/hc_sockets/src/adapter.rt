//! A wire over sockets.
ghost use Rattle.std.specs.Prelude.{◌≡◌, ◌+◌, ◌<◌, ◌≤◌, ◌^◌, ℕ, Some, None, length, IfOk, IfSome, OnErr};
ghost use Rattle.hc_wire.specs.Events.{Unseen, IsOfOpen, FitsIn, stages_after};
ghost use Rattle.hc_wire.specs.Wires.{HasRisen};
ghost use Rattle.hc_sockets.specs.Sockets.{stage_at, life, event_or_quiet, IsBelow, accepts};

use crate::patience::Patience;
use crate::socket::{Side, Socket};
use crate::table::Table;
use hc_text::Bytes;
use hc_wire::{Address, MOST_EVENTS, Wire, WireError, WireEvent};
use mio::net::{TcpListener, TcpStream};
use mio::{Events, Interest, Poll, Token};
use std::alloc::{AllocError, Global};
use std::io;
use std::io::ErrorKind;
use std::net::{Ipv4Addr, Net, SocketAddr};
use std::rt::Clock;
use std::time::{Duration, Instant, SystemTime, UNIX_EPOCH};

/// The token of the listener. Connections have their numbers, from 0, which are below it.
const LISTENER: Token = Token(usize::MAX);

/// How many that are ready one wait may tell.
const READY: usize = 1_024;

/// How long a wait is, in milliseconds.
const WAIT: u64 = 50;

/// At which call of `next` after it was taken what is held is sent, at the latest.
const CALLS: u64 = 4;

/// After how many calls of `next` the system is asked, at the latest. So a connection on which bytes come
/// without end hides no other, and not that it takes bytes again.
const ASKED: u64 = 64;

/// After how many calls of `next` the system is asked where nothing is due, also by a call that doesn't wait.
const QUIET: u64 = 4;

/// What `bind` has opened.
#[derive(Drop)]
struct Bound {
    poll: Poll,
    ready: Events,
    listener: Option<TcpListener>,
    origin: Option<Address>,
    /// When that was.
    since: Instant,
}

/// What came of a try to accept a client.
#[derive(Clone, Copy, Debug, PartialEq, Eq)]
enum Accept {
    /// One is connected.
    One,
    /// None waits.
    Nobody,
    /// The system can't give one now.
    Later,
}

/// Connections over sockets. It tells no log.
#[derive(Drop)]
pub struct MioWire<R: Net + Clock + AllocGlobal + Drop> {
    rt: R,
    patience: Patience,
    bound: Option<Bound>,
    /// Clients may wait to be accepted.
    acceptable: bool,
    table: Table,
    /// The number of the next connection.
    next: u64,
    /// How many calls of `next` there were since the system was asked.
    unasked: u64,
    handed: u64,
    failed: u64,
    /// The last call told of room.
    roomy: bool,
    ghost few: { handed ≤ 2 ^ 45 },
    ghost below: { IsBelow next table.sockets },
}

impl<R: Net + Clock + AllocGlobal + Drop> MioWire<R> {
    /// Opens nothing: `bind` does. It waits for ever.
    pub fn new(rt: R) -> MioWire<R>
        ensures faults { ⟦<MioWire<R> as Wire>⟧.faults result ≡ 0 }
        ensures unseen { (k : ℕ) → ⟦<MioWire<R> as Wire>⟧.stages result k ≡ Unseen }
    {
        MioWire::with_patience(rt, Patience::endless())
    }

    /// Opens nothing: `bind` does. Whom it waits for too long is told to be broken.
    pub fn with_patience(rt: R, patience: Patience) -> MioWire<R>
        ensures faults { ⟦<MioWire<R> as Wire>⟧.faults result ≡ 0 }
        ensures unseen { (k : ℕ) → ⟦<MioWire<R> as Wire>⟧.stages result k ≡ Unseen }
    {
        let table = Table::new(rt.alloc());
        MioWire {
            rt,
            patience,
            bound: None,
            acceptable: false,
            table,
            next: 0,
            unasked: 0,
            handed: 0,
            failed: 0,
            roomy: false,
        }
    }

    /// Counts a fault.
    fn fail(&mut self) -> WireError
        ensures error { result ≡ WireError.WireFailed }
        ensures rose { HasRisen self.old.failed self.new.failed }
        ensures later { self.old.failed ≤ self.new.failed }
        ensures stages { (k : ℕ) → stage_at self.new.next self.new.table.sockets k
            ≡ stage_at self.old.next self.old.table.sockets k }
        ensures handed { self.new.handed ≡ self.old.handed }
    {
        self.failed = self.failed.saturating_add(1);
        WireError::WireFailed
    }

    /// What is due, if anything is.
    fn due(&mut self, into: &mut [u8]) -> Result<Option<WireEvent>, AllocError>
        requires { 0 < length into.old }
        ensures of_open { IfOk result (λ o. IfSome o
            (λ e. IsOfOpen e (stage_at self.old.next self.old.table.sockets))) }
        ensures fits { IfOk result (λ o. IfSome o (λ e. FitsIn e (length into.old))) }
        ensures stages { IfOk result (λ o. (k : ℕ) → stage_at self.new.next self.new.table.sockets k
            ≡ stages_after (event_or_quiet o) (stage_at self.old.next self.old.table.sockets) k) }
        ensures err { OnErr result ((k : ℕ) → stage_at self.new.next self.new.table.sockets k
            ≡ stage_at self.old.next self.old.table.sockets k) }
        ensures handed { self.new.handed ≡ self.old.handed }
        ensures failed { self.new.failed ≡ self.old.failed }
    {
        let Some(bound) = &self.bound else {
            return Ok(None);
        };
        let open = self.acceptable && self.next < u64::MAX;
        if open && self.table.makes_way(self.patience.clients) {
            match accept_from(bound, self.rt.alloc(), &mut self.table, self.next)? {
                Accept::One => {
                    let k = self.next;
                    self.next += 1;
                    return Ok(Some(WireEvent::Accepted(k)));
                }
                Accept::Nobody => self.acceptable = false,
                Accept::Later => {}
            }
        }
        Ok(self.table.event(into))
    }

    /// Asks the system what is ready, and waits a while for that if `wait` says so. False where that failed.
    fn ask(&mut self, wait: bool) -> bool
        ensures stages { (k : ℕ) → stage_at self.new.next self.new.table.sockets k
            ≡ stage_at self.old.next self.old.table.sockets k }
        ensures handed { self.new.handed ≡ self.old.handed }
        ensures failed { self.new.failed ≡ self.old.failed }
    {
        self.unasked = 0;
        let Some(bound) = &mut self.bound else {
            return true;
        };
        let limit = Duration::from_millis(if wait { WAIT } else { 0 });
        if bound.poll.poll(&mut bound.ready, Some(limit)).is_err() {
            return false;
        }
        if let Ok(passed) = bound.since.elapsed(&self.rt) {
            self.table.pass(passed.as_secs(), &self.patience);
        }
        if mark_all(&bound.ready, &mut self.table) {
            self.acceptable = true;
        }
        true
    }
}

impl<R: Net + Clock + AllocGlobal + Drop> Wire for MioWire<R> {
    ghost faults = { λ w. w.failed };

    ghost events = { λ w. w.handed };

    ghost stages = { λ w. stage_at w.next w.table.sockets };

    fn bind(&mut self, listen: Option<Address>, origin: Option<Address>) -> Result<(), WireError> {
        let mut bound = match self.bound.take() {
            Some(bound) => bound,
            None => {
                let ready = Events::with_capacity(self.rt.alloc(), READY)?;
                match open(&self.rt, ready) {
                    Ok(bound) => bound,
                    Err(_) => return Err(self.fail()),
                }
            }
        };
        let listener = listener_at(&self.rt, &bound, listen);
        let failed = listener.is_err();
        if let Ok(listener) = listener {
            bound.listener = listener;
            bound.origin = origin;
        }
        self.bound = Some(bound);
        if failed {
            return Err(self.fail());
        }
        Ok(())
    }

    fn next(&mut self, wait: bool, into: &mut [u8]) -> Result<(u64, WireEvent), WireError> {
        if self.handed >= MOST_EVENTS {
            return Err(self.fail());
        }
        let Some(moment) = seconds(&self.rt) else {
            return Err(self.fail());
        };
        let wait = wait && !self.roomy;
        self.roomy = false;
        self.table.age(CALLS);
        self.unasked = self.unasked.saturating_add(1);
        if self.unasked >= ASKED && !self.ask(false) {
            return Err(self.fail());
        }
        if let Some(event) = self.due(into)? {
            self.handed += 1;
            self.roomy = matches!(event, WireEvent::Room(_));
            return Ok((moment, event));
        }
        if !wait && self.unasked < QUIET {
            self.handed += 1;
            return Ok((moment, WireEvent::Quiet));
        }
        if wait {
            self.table.flush();
        }
        if !self.ask(wait) {
            return Err(self.fail());
        }
        let event = self.due(into)?.unwrap_or(WireEvent::Quiet);
        self.roomy = matches!(event, WireEvent::Room(_));
        self.handed += 1;
        Ok((moment, event))
    }

    fn dial(&mut self) -> Result<u64, WireError> {
        let k = self.next;
        if k == u64::MAX {
            return Err(self.fail());
        }
        let Some(bound) = &self.bound else {
            return Err(self.fail());
        };
        let Some(origin) = bound.origin else {
            return Err(self.fail());
        };
        let stream = registered(bound, k, TcpStream::connect(&self.rt, socket_of(origin)));
        let socket = Socket::new(self.rt.alloc(), stream, Side::Origin, self.table.now());
        self.table.insert(k, socket)?;
        self.next += 1;
        Ok(k)
    }

    fn send(&mut self, k: u64, from: &[u8]) -> Result<usize, WireError> {
        Ok(self.table.send(k, from)?)
    }

    fn hand(&mut self, k: u64, from: &mut Bytes, used: usize) -> Result<usize, WireError> {
        if used == 0 {
            return Ok(self.table.keep(k, from)?);
        }
        let left = from.len() - used;
        let n = self.table.send(k, &from.as_slice()[used..])?;
        if n == left {
            *from = Bytes::new();
        }
        Ok(n)
    }

    fn reads(&mut self, k: u64, on: bool) {
        self.table.read(k, on);
    }

    fn close(&mut self, k: u64) {
        self.table.close(k);
    }
}

/// The moment, in whole seconds since 1970; None where the clock fails or is past 2^62.
fn seconds<R: Clock>(rt: &R) -> Option<u64>
    ensures { IfSome result (λ now. now < 2 ^ 62) }
{
    let now = SystemTime::now(rt).ok()?;
    let since = now.duration_since(UNIX_EPOCH).ok()?;
    let seconds = since.as_secs();
    if seconds < 1 << 62 {
        Some(seconds)
    } else {
        None
    }
}

fn socket_of(address: Address) -> SocketAddr {
    let [a, b, c, d] = address.octets;
    SocketAddr::from((Ipv4Addr::new(a, b, c, d), address.port))
}

/// Nothing is told yet.
fn open<R: Net + Clock>(rt: &R, ready: Events) -> io::Result<Bound> {
    Ok(Bound {
        poll: Poll::new(rt)?,
        ready,
        listener: None,
        origin: None,
        since: Instant::now(rt)?,
    })
}

/// Listens where that is asked for.
fn listener_at<R: Net>(
    rt: &R,
    bound: &Bound,
    listen: Option<Address>,
) -> io::Result<Option<TcpListener>> {
    let Some(address) = listen else {
        return Ok(None);
    };
    let mut listener = TcpListener::bind(rt, socket_of(address))?;
    bound
        .poll
        .registry()
        .register(&mut listener, LISTENER, Interest::READABLE)?;
    Ok(Some(listener))
}

/// The stream, that the poll tells of under its number; None where there is none.
fn registered(bound: &Bound, k: u64, stream: io::Result<TcpStream>) -> Option<TcpStream> {
    let mut stream = stream.ok()?;
    let both = Interest::READABLE | Interest::WRITABLE;
    bound
        .poll
        .registry()
        .register(&mut stream, Token(k as usize), both)
        .ok()?;
    stream.set_nodelay(true).ok()?;
    Some(stream)
}

/// Accepts a client that waits, under this number.
fn accept_from(
    bound: &Bound,
    alloc: Global,
    table: &mut Table,
    k: u64,
) -> Result<Accept, AllocError>
    ensures ok { IfOk result (λ a. (j : ℕ) → life table.new.sockets j
        ≡ accepts a k (life table.old.sockets) j) }
    ensures err { OnErr result ((j : ℕ) → life table.new.sockets j
        ≡ life table.old.sockets j) }
{
    let Some(listener) = &bound.listener else {
        return Ok(Accept::Nobody);
    };
    match listener.accept() {
        Ok((stream, _)) => {
            let stream = registered(bound, k, Ok(stream));
            let socket = Socket::new(alloc, stream, Side::Client, table.now());
            table.insert(k, socket)?;
            Ok(Accept::One)
        }
        Err(e) if e.kind() == ErrorKind::WouldBlock => Ok(Accept::Nobody),
        Err(_) => Ok(Accept::Later),
    }
}

/// Notes what is ready. Whether the listener is.
fn mark_all(ready: &Events, table: &mut Table) -> bool
    ensures { (j : ℕ) → life table.new.sockets j ≡ life table.old.sockets j }
{
    let mut listener = false;
    for event in ready {
        if event.token() == LISTENER {
            listener = true;
        } else {
            table.mark(event.token().0 as u64, event);
        }
    }
    listener
}
