//! A connection over a socket.
ghost use Rattle.std.specs.Prelude.{◌≡◌, ◌<◌, ◌≤◌, ◌==◌, [], true, false, length, if◌then◌else◌, IfOk, IfSome, OnErr};
ghost use Rattle.hc_wire.specs.Events.{FitsIn};
ghost use Rattle.hc_sockets.specs.Sockets.{IsOf, KeepsStage, ends_by};

use crate::held::Held;
use crate::patience::Patience;
use hc_text::{Bytes, NoMemory};
use hc_wire::WireEvent;
use mio::event::Event;
use mio::net::TcpStream;
use std::alloc::Global;
use std::io::{ErrorKind, Read};

/// From how many bytes on what is held is sent at once. No more are taken while so many are held.
const HOLD: usize = 65_536;

/// A connection: its socket, and what is known of it.
#[derive(Drop)]
pub(crate) struct Socket {
    /// None where it could not be made.
    stream: Option<TcpStream>,
    side: Side,
    held: Held,
    /// The second from which on it is waited for.
    since: u64,
    /// Bytes of it came since its reading was turned on.
    begun: bool,
    /// The system may have bytes of it.
    readable: bool,
    /// The other side has told its end.
    ending: bool,
    /// Its end stands next: no byte before it is left.
    at_end: bool,
    /// The system has told that it is broken.
    cut: bool,
    /// The system takes none of its bytes now.
    blocked: bool,
    /// A send took less than it was offered.
    short: bool,
    pub(crate) reads: bool,
    broken: bool,
    /// That it ended was handed out.
    pub(crate) ended: bool,
    /// That it is broken was handed out.
    reported: bool,
    /// It stands among those that are due.
    queued: bool,
    /// How often it stands among those that hold bytes.
    noted: u32,
    /// What it holds came after it was noted last.
    newer: bool,
    pub(crate) closed: bool,
}

/// Who made a connection.
#[derive(Clone, Copy, Debug, PartialEq, Eq)]
pub(crate) enum Side {
    /// The other side: a client was accepted.
    Client,
    /// This side dialled.
    Origin,
}

/// What is to be noted of a connection.
#[derive(Clone, Copy)]
pub(crate) struct News {
    /// It holds bytes.
    pub(crate) holds: bool,
    /// An event of it is due.
    pub(crate) due: bool,
}

/// Nothing is.
pub(crate) const NO_NEWS: News = News {
    holds: false,
    due: false,
};

impl Socket {
    /// A connection that isn't closed, made in this second. Without a stream it is broken.
    pub(crate) fn new(alloc: Global, stream: Option<TcpStream>, side: Side, now: u64) -> Socket
        ensures closed { result.closed ≡ false }
        ensures reads { result.reads ≡ true }
        ensures ended { result.ended ≡ false }
    {
        let broken = stream.is_none();
        Socket {
            stream,
            side,
            held: Held::new(alloc),
            since: now,
            begun: false,
            readable: false,
            ending: false,
            at_end: false,
            cut: false,
            blocked: false,
            short: false,
            reads: true,
            broken,
            ended: false,
            reported: false,
            queued: false,
            noted: 0,
            newer: false,
            closed: false,
        }
    }

    /// What the system tells of it in this second.
    pub(crate) fn mark(&mut self, event: &Event, now: u64)
        ensures { KeepsStage self.old self.new }
    {
        // What a client has begun may come a byte at a time, and still has one limit.
        if self.side == Side::Origin || !self.begun {
            self.since = now;
        }
        if event.is_readable() || event.is_read_closed() || event.is_error() {
            self.readable = true;
        }
        if event.is_read_closed() || event.is_error() {
            self.ending = true;
            self.look_for_end();
        }
        self.cut = self.cut || event.is_error();
        if event.is_writable() || event.is_error() {
            self.blocked = false;
            self.flush();
        }
    }

    /// Whether an event of it is due that isn't noted yet. Then it is noted.
    pub(crate) fn note_due(&mut self) -> bool
        ensures { KeepsStage self.old self.new }
    {
        let more = self.is_due() && !self.queued;
        self.queued = self.queued || more;
        more
    }

    /// It isn't noted any more that an event of it is due.
    pub(crate) fn forget_due(&mut self)
        ensures { KeepsStage self.old self.new }
    {
        self.queued = false;
    }

    /// What isn't noted yet of it. Then it is noted.
    pub(crate) fn note_news(&mut self) -> News
        ensures { KeepsStage self.old self.new }
    {
        let holds = !self.is_sent() && (self.noted == 0 || self.newer);
        self.newer = false;
        if holds {
            self.noted = self.noted.saturating_add(1);
        }
        News {
            holds,
            due: self.note_due(),
        }
    }

    /// It stands once less among those that hold bytes. What it holds is sent, unless it was noted again.
    pub(crate) fn flush_noted(&mut self)
        ensures { KeepsStage self.old self.new }
    {
        self.noted = self.noted.saturating_sub(1);
        if self.noted == 0 {
            self.flush();
        }
    }

    /// Whether an event of it is due.
    pub(crate) fn is_due(&self) -> bool {
        !self.closed
            && (self.broken && !self.reported
                || self.is_cut_unread()
                || self.has_room()
                || self.has_unread_end()
                || self.reads && self.readable && !self.ended && !self.broken)
    }

    /// Whether it is broken, and no read will tell that.
    fn is_cut_unread(&self) -> bool {
        self.cut && !self.broken && (!self.reads || self.ended)
    }

    /// Whether its end is to be told, and no read will tell that.
    fn has_unread_end(&self) -> bool
        ensures { result ≡ true → self.now.ended ≡ false }
    {
        self.at_end && !self.ended && !self.broken
    }

    /// Whether it takes bytes again, after it took less than it was offered.
    fn has_room(&self) -> bool {
        self.short && !self.blocked && self.is_sent() && !self.broken
    }

    /// Whether it was waited for too long by this second.
    pub(crate) fn is_late(&self, now: u64, patience: &Patience) -> bool {
        let limit = match self.side {
            Side::Origin => patience.origin,
            Side::Client if self.begun => patience.head,
            Side::Client => patience.idle,
        };
        self.is_awaited() && now.saturating_sub(self.since) >= limit
    }

    /// Whether the next bytes are to come from the other side.
    fn is_awaited(&self) -> bool {
        self.reads
            && !self.ended
            && !self.broken
            && !self.closed
            && (self.side == Side::Origin || self.held.is_empty())
    }

    /// Whether it is a client, from whose connecting on until it is closed.
    pub(crate) fn is_client(&self) -> bool {
        self.side == Side::Client && !self.closed
    }

    /// Whether it is a client that has no request under way.
    pub(crate) fn is_idle(&self) -> bool {
        self.side == Side::Client && !self.begun && self.is_awaited()
    }

    /// Whether it is a client that is broken, and isn't closed yet.
    pub(crate) fn is_leaving(&self) -> bool {
        self.broken && self.is_client()
    }

    /// The second from which on it is waited for.
    pub(crate) fn since(&self) -> u64 {
        self.since
    }

    /// It isn't waited for any more.
    pub(crate) fn give_up(&mut self)
        ensures { KeepsStage self.old self.new }
    {
        self.broken = true;
    }

    /// Whether it is closed, and has nothing to send.
    pub(crate) fn is_over(&self) -> bool
        ensures { result ≡ true → self.now.closed ≡ true }
    {
        self.closed && self.is_sent()
    }

    /// Whether all that was taken is sent, or never will be.
    pub(crate) fn is_sent(&self) -> bool {
        self.broken || self.held.is_empty()
    }

    /// The event that is due of it, if one is. The bytes of a `Got` are copied into the slice.
    pub(crate) fn event(&mut self, k: u64, into: &mut [u8]) -> Option<WireEvent>
        requires { 0 < length into.old }
        ensures of { IfSome result (IsOf k self.old) }
        ensures fits { IfSome result (λ e. FitsIn e (length into.old)) }
        ensures closed { self.new.closed ≡ self.old.closed }
        ensures reads { self.new.reads ≡ self.old.reads }
        ensures ended { self.new.ended ≡ ends_by result self.old.ended }
    {
        self.broken = self.broken || self.is_cut_unread();
        if self.has_room() {
            self.short = false;
            return Some(WireEvent::Room(k));
        }
        if self.reads && self.readable && !self.ended && !self.broken {
            match self.read(into) {
                Some(0) => {
                    self.ended = true;
                    return Some(WireEvent::Ended(k));
                }
                Some(n) => {
                    self.begun = true;
                    return Some(WireEvent::Got(k, n));
                }
                None => {}
            }
        }
        if self.has_unread_end() {
            self.ended = true;
            return Some(WireEvent::Ended(k));
        }
        if self.broken && !self.reported {
            self.reported = true;
            return Some(WireEvent::Broke(k));
        }
        None
    }

    /// Where it isn't read, whether its end stands next. Bytes before that are left to be read.
    fn look_for_end(&mut self)
        ensures { KeepsStage self.old self.new }
    {
        if self.reads || !self.ending {
            return;
        }
        if let Some(stream) = &self.stream {
            self.at_end = matches!(stream.peek(&mut [0]), Ok(0));
        }
    }

    /// Reads what there is: 0 is its end, and None that there is nothing now.
    fn read(&mut self, into: &mut [u8]) -> Option<usize>
        requires { 0 < length into.old }
        ensures within { IfSome result (λ n. n ≤ length into.old) }
        ensures kept { KeepsStage self.old self.new }
    {
        let mut stream = self.stream.as_ref()?;
        match stream.read(into) {
            Ok(n) => {
                if n < into.len() && !self.ending {
                    self.readable = false;
                }
                Some(n)
            }
            Err(e) if e.kind() == ErrorKind::WouldBlock => {
                self.readable = false;
                None
            }
            // A signal came first: it is read again when its turn comes.
            Err(e) if e.kind() == ErrorKind::Interrupted => None,
            Err(_) => {
                self.broken = true;
                None
            }
        }
    }

    /// How many bytes of the slice it takes: all, or none while enough are held. One that is broken takes
    /// all.
    pub(crate) fn take(&mut self, from: &[u8]) -> Result<usize, NoMemory>
        ensures within { IfOk result (λ n. n ≤ length from.now) }
        ensures kept { KeepsStage self.old self.new }
    {
        if self.is_deaf() {
            return Ok(from.len());
        }
        if !from.is_empty() && !self.makes_room() {
            self.short = true;
            return Ok(0);
        }
        self.held.copy(from)?;
        self.has_taken(from.len());
        Ok(from.len())
    }

    /// The same of a list, which is empty where all are taken.
    pub(crate) fn keep(&mut self, from: &mut Bytes) -> Result<usize, NoMemory>
        ensures within { IfOk result (λ n. n ≤ length from.old) }
        ensures left { IfOk result (λ n. from.new
            ≡ (if n == length from.old then [] else from.old)) }
        ensures err { OnErr result (from.new ≡ from.old) }
        ensures kept { KeepsStage self.old self.new }
    {
        let n = from.len();
        if self.is_deaf() {
            *from = Bytes::new();
            return Ok(n);
        }
        if n > 0 && !self.makes_room() {
            self.short = true;
            return Ok(0);
        }
        self.held.keep(from)?;
        self.has_taken(n);
        Ok(n)
    }

    /// Whether it takes all bytes, since none of them will come.
    fn is_deaf(&self) -> bool {
        self.broken || self.closed
    }

    /// Whether it takes more. What it holds is sent before where that is enough.
    fn makes_room(&mut self) -> bool
        ensures { KeepsStage self.old self.new }
    {
        if self.held.len() >= HOLD {
            self.flush();
        }
        self.held.len() < HOLD
    }

    /// It has taken so many more. Where enough are held, the system is given whole segments: what is left is of
    /// these, and waits for more.
    fn has_taken(&mut self, n: usize)
        ensures { KeepsStage self.old self.new }
    {
        self.short = self.short && n == 0;
        if self.held.len() >= HOLD {
            self.send_down_to(n.min(HOLD - 1));
            self.newer = self.held.len() <= n;
        }
    }

    /// Reading is on or off, from this second on.
    pub(crate) fn set_reading(&mut self, on: bool, now: u64)
        ensures closed { self.new.closed ≡ self.old.closed }
        ensures reads { self.new.reads ≡ on }
        ensures ended { self.new.ended ≡ self.old.ended }
    {
        if on != self.reads {
            self.since = now;
            self.begun = false;
        }
        self.reads = on;
        self.look_for_end();
    }

    /// Sends what is held, as far as the system takes it.
    pub(crate) fn flush(&mut self)
        ensures { KeepsStage self.old self.new }
    {
        self.send_down_to(0);
        if self.is_sent() {
            self.held.clear();
        }
    }

    /// Sends what is held until that is so little, as far as the system takes it.
    fn send_down_to(&mut self, few: usize)
        ensures { KeepsStage self.old self.new }
    {
        for _ in 0..u64::MAX {
            if self.blocked || self.broken || self.held.len() <= few {
                break;
            }
            self.write();
        }
    }

    /// One write of what is held.
    fn write(&mut self)
        ensures { KeepsStage self.old self.new }
    {
        let Some(stream) = &self.stream else {
            return;
        };
        match self.held.write(stream) {
            Ok(0) => self.broken = true,
            Ok(_) => {}
            Err(e) if e.kind() == ErrorKind::WouldBlock => self.blocked = true,
            // A signal came first: it is written again.
            Err(e) if e.kind() == ErrorKind::Interrupted => {}
            Err(_) => self.broken = true,
        }
    }
}
