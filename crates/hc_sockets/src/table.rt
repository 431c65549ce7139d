//! The sockets of a wire, by number.
ghost use Rattle.std.specs.VecDeque.{deque_len, deque_capacity};
ghost use Rattle.std.specs.Prelude.{◌≡◌, ◌<◌, ◌≤◌, ◌==◌, ℕ, [], Some, length, if◌then◌else◌, OnOk, OnErr, IfOk, IfSome};
ghost use Rattle.hc_wire.specs.Events.{Closed, Fresh, FitsIn, with_stage, closed_of, reading_of};
ghost use Rattle.hc_sockets.specs.Sockets.{life, life_of, lives_after, IsOfLive};

use crate::patience::Patience;
use crate::socket::{NO_NEWS, News, Socket};
use hc_text::{Bytes, NoMemory};
use hc_wire::WireEvent;
use mio::event::Event;
use std::alloc::{AllocError, Global};
use std::collections::{HashMap, VecDeque};

/// A connection that holds bytes, and after how many calls of `next` it took the first of them.
#[derive(Clone, Copy)]
struct Unsent {
    k: u64,
    since: u64,
}

/// Connections by number, and of which something may be due or unsent.
#[derive(Drop)]
pub(crate) struct Table {
    pub(crate) sockets: HashMap<u64, Socket>,
    /// Of which events may be due, each once.
    due: VecDeque<u64>,
    /// There was no memory to note one of them.
    missed: bool,
    /// Which hold bytes, the oldest first. One of which all that was noted is sent may stand there again.
    unsent: VecDeque<Unsent>,
    /// How many calls of `next` there were.
    calls: u64,
    /// How many seconds have passed.
    now: u64,
}

impl Table {
    /// There are none.
    pub(crate) fn new(alloc: Global) -> Table
        ensures { (j : ℕ) → life result.sockets j ≡ Closed }
    {
        Table {
            sockets: HashMap::new(alloc),
            due: VecDeque::new(alloc),
            missed: false,
            unsent: VecDeque::new(alloc),
            calls: 0,
            now: 0,
        }
    }

    /// One more, that is open.
    pub(crate) fn insert(&mut self, k: u64, socket: Socket) -> Result<(), AllocError>
        requires { life_of (Some socket) ≡ Fresh }
        ensures ok { OnOk result ((j : ℕ) → life self.new.sockets j
            ≡ with_stage k Fresh (life self.old.sockets) j) }
        ensures err { OnErr result ((j : ℕ) → life self.new.sockets j
            ≡ life self.old.sockets j) }
    {
        let mut socket = socket;
        let due = socket.note_due();
        self.sockets.insert(k, socket)?;
        self.queue(k, due);
        Ok(())
    }

    /// How many seconds have passed.
    pub(crate) fn now(&self) -> u64 {
        self.now
    }

    /// So many seconds have passed: who was waited for too long is taken for broken.
    pub(crate) fn pass(&mut self, now: u64, patience: &Patience)
        ensures { (j : ℕ) → life self.new.sockets j ≡ life self.old.sockets j }
    {
        if now <= self.now {
            return;
        }
        self.now = now;
        for _ in 0..u64::MAX {
            let Some(k) = self.late_one(patience) else {
                break;
            };
            self.give_up(k);
        }
    }

    /// One that was waited for too long.
    fn late_one(&self, patience: &Patience) -> Option<u64> {
        let now = self.now;
        let (k, _) = self
            .sockets
            .iter()
            .find(|entry| entry.1.is_late(now, patience))?;
        Some(*k)
    }

    /// It is taken for broken.
    fn give_up(&mut self, k: u64)
        ensures { (j : ℕ) → life self.new.sockets j ≡ life self.old.sockets j }
    {
        let due = give_up_in(&mut self.sockets, k);
        self.queue(k, due);
    }

    /// Whether one more client may be accepted. Where as many are connected as may be, the idlest is taken
    /// for broken, and one more is accepted once that is closed. Where none is idle, one more may come too.
    pub(crate) fn makes_way(&mut self, most: usize) -> bool
        ensures { (j : ℕ) → life self.new.sockets j ≡ life self.old.sockets j }
    {
        if self.sockets.len() < most || self.clients() < most {
            return true;
        }
        if self.sockets.values().any(|socket| socket.is_leaving()) {
            return false;
        }
        match self.idlest() {
            Some(k) => {
                self.give_up(k);
                false
            }
            None => true,
        }
    }

    /// How many clients are connected.
    fn clients(&self) -> usize {
        self.sockets
            .values()
            .filter(|socket| socket.is_client())
            .count()
    }

    /// The client without a request under way that is waited for longest.
    fn idlest(&self) -> Option<u64> {
        let mut found: Option<(u64, u64)> = None;
        for (k, socket) in self.sockets.iter() {
            if socket.is_idle() && found.is_none_or(|least| socket.since() < least.0) {
                found = Some((socket.since(), *k));
            }
        }
        Some(found?.1)
    }

    /// Lists the connection where an event of it is due.
    fn queue(&mut self, k: u64, due: bool)
        ensures { self.new.sockets ≡ self.old.sockets }
    {
        if due && self.due.push_back(k).is_err() {
            self.missed = true;
        }
    }

    /// What the system tells of it.
    pub(crate) fn mark(&mut self, k: u64, event: &Event)
        ensures { (j : ℕ) → life self.new.sockets j ≡ life self.old.sockets j }
    {
        let due = mark_in(&mut self.sockets, k, event, self.now);
        self.queue(k, due);
    }

    /// The next event that is due.
    pub(crate) fn event(&mut self, into: &mut [u8]) -> Option<WireEvent>
        requires { 0 < length into.old }
        ensures of_live { IfSome result (IsOfLive (life self.old.sockets)) }
        ensures fits { IfSome result (λ e. FitsIn e (length into.old)) }
        ensures after { (j : ℕ) → life self.new.sockets j
            ≡ lives_after result (life self.old.sockets) j }
    {
        if self.missed {
            return self.missed_event(into);
        }
        for _ in 0..u64::MAX {
            let Some(k) = self.due.pop_front() else {
                break;
            };
            let (event, due) = event_in(&mut self.sockets, k, into);
            self.queue(k, due);
            if event.is_some() {
                return event;
            }
        }
        None
    }

    /// The same of one of all connections, where some that are due weren't noted.
    fn missed_event(&mut self, into: &mut [u8]) -> Option<WireEvent>
        requires { 0 < length into.old }
        ensures of_live { IfSome result (IsOfLive (life self.old.sockets)) }
        ensures fits { IfSome result (λ e. FitsIn e (length into.old)) }
        ensures after { (j : ℕ) → life self.new.sockets j
            ≡ lives_after result (life self.old.sockets) j }
    {
        let k = match self.sockets.iter().find(|entry| entry.1.is_due()) {
            Some((k, _)) => *k,
            None => {
                self.missed = false;
                return None;
            }
        };
        let (event, due) = event_in(&mut self.sockets, k, into);
        self.queue(k, due);
        event
    }

    /// How many bytes the connection takes. One that isn't there takes all.
    pub(crate) fn send(&mut self, k: u64, from: &[u8]) -> Result<usize, NoMemory>
        ensures within { IfOk result (λ n. n ≤ length from.now) }
        ensures kept { (j : ℕ) → life self.new.sockets j ≡ life self.old.sockets j }
    {
        self.unsent.reserve(1)?;
        let (n, news) = take_in(&mut self.sockets, k, from)?;
        self.note(k, news);
        Ok(n)
    }

    /// The same of a list, which is empty where all are taken.
    pub(crate) fn keep(&mut self, k: u64, from: &mut Bytes) -> Result<usize, NoMemory>
        ensures within { IfOk result (λ n. n ≤ length from.old) }
        ensures left { IfOk result (λ n. from.new
            ≡ (if n == length from.old then [] else from.old)) }
        ensures err { OnErr result (from.new ≡ from.old) }
        ensures kept { (j : ℕ) → life self.new.sockets j ≡ life self.old.sockets j }
    {
        self.unsent.reserve(1)?;
        let (n, news) = keep_in(&mut self.sockets, k, from)?;
        self.note(k, news);
        Ok(n)
    }

    /// Lists the connection where that is told.
    fn note(&mut self, k: u64, news: News)
        requires { deque_len self.old.unsent < deque_capacity self.old.unsent }
        ensures { (j : ℕ) → life self.new.sockets j ≡ life self.old.sockets j }
    {
        if news.holds {
            let since = self.calls;
            self.unsent.push_back_reserved(Unsent { k, since });
        }
        self.queue(k, news.due);
    }

    /// Sends what is held.
    pub(crate) fn flush(&mut self)
        ensures { (j : ℕ) → life self.new.sockets j ≡ life self.old.sockets j }
    {
        self.flush_held(0);
    }

    /// There was one call of `next` more: what is held for so many calls is sent.
    pub(crate) fn age(&mut self, calls: u64)
        ensures { (j : ℕ) → life self.new.sockets j ≡ life self.old.sockets j }
    {
        self.calls = self.calls.saturating_add(1);
        self.flush_held(calls);
    }

    /// Sends what is held for so many calls of `next`.
    fn flush_held(&mut self, calls: u64)
        ensures { (j : ℕ) → life self.new.sockets j ≡ life self.old.sockets j }
    {
        for _ in 0..u64::MAX {
            let Some(k) = self.oldest_held(calls) else {
                break;
            };
            self.unsent.pop_front();
            let due = flush_in(&mut self.sockets, k);
            self.queue(k, due);
        }
    }

    /// Which connection holds bytes longest, if that is for so many calls of `next`.
    fn oldest_held(&self, calls: u64) -> Option<u64> {
        let unsent = self.unsent.front()?;
        if self.calls.saturating_sub(unsent.since) >= calls {
            Some(unsent.k)
        } else {
            None
        }
    }

    /// Reading of the connection is on or off.
    pub(crate) fn read(&mut self, k: u64, on: bool)
        ensures { (j : ℕ) → life self.new.sockets j
            ≡ with_stage k (reading_of on (life self.old.sockets k)) (life self.old.sockets) j }
    {
        let due = read_in(&mut self.sockets, k, on, self.now);
        self.queue(k, due);
    }

    /// The connection is closed: what is held is sent.
    pub(crate) fn close(&mut self, k: u64)
        ensures { (j : ℕ) → life self.new.sockets j
            ≡ with_stage k (closed_of (life self.old.sockets k)) (life self.old.sockets) j }
    {
        close_in(&mut self.sockets, k);
        send_in(&mut self.sockets, k);
    }
}

/// What the system tells of it. Whether an event of it is due that isn't noted yet. Then it is noted.
fn mark_in(sockets: &mut HashMap<u64, Socket>, k: u64, event: &Event, now: u64) -> bool
    ensures { (j : ℕ) → life sockets.new j ≡ life sockets.old j }
{
    let Some(socket) = sockets.get_mut(&k) else {
        return false;
    };
    socket.mark(event, now);
    if socket.is_over() {
        sockets.remove(&k);
        return false;
    }
    socket.note_due()
}

/// It is taken for broken. Whether an event of it is due that isn't noted yet. Then it is noted.
fn give_up_in(sockets: &mut HashMap<u64, Socket>, k: u64) -> bool
    ensures { (j : ℕ) → life sockets.new j ≡ life sockets.old j }
{
    let Some(socket) = sockets.get_mut(&k) else {
        return false;
    };
    socket.give_up();
    socket.note_due()
}

/// The event that is due of the connection, which isn't noted any more. Whether one more is due. Then
/// that is noted.
fn event_in(
    sockets: &mut HashMap<u64, Socket>,
    k: u64,
    into: &mut [u8],
) -> (Option<WireEvent>, bool)
    requires { 0 < length into.old }
    ensures of_live { IfSome result.0 (IsOfLive (life sockets.old)) }
    ensures fits { IfSome result.0 (λ e. FitsIn e (length into.old)) }
    ensures after { (j : ℕ) → life sockets.new j ≡ lives_after result.0 (life sockets.old) j }
{
    let Some(socket) = sockets.get_mut(&k) else {
        return (None, false);
    };
    socket.forget_due();
    if socket.closed {
        return (None, false);
    }
    let event = socket.event(k, into);
    (event, socket.note_due())
}

/// How many bytes the connection takes, and what is to be noted of it then.
fn take_in(
    sockets: &mut HashMap<u64, Socket>,
    k: u64,
    from: &[u8],
) -> Result<(usize, News), NoMemory>
    ensures within { IfOk result (λ taken. taken.0 ≤ length from.now) }
    ensures kept { (j : ℕ) → life sockets.new j ≡ life sockets.old j }
{
    match sockets.get_mut(&k) {
        Some(socket) => {
            let n = socket.take(from)?;
            Ok((n, socket.note_news()))
        }
        None => Ok((from.len(), NO_NEWS)),
    }
}

/// The same of a list, which is empty where all are taken.
fn keep_in(
    sockets: &mut HashMap<u64, Socket>,
    k: u64,
    from: &mut Bytes,
) -> Result<(usize, News), NoMemory>
    ensures within { IfOk result (λ taken. taken.0 ≤ length from.old) }
    ensures left { IfOk result (λ taken. from.new
        ≡ (if taken.0 == length from.old then [] else from.old)) }
    ensures err { OnErr result (from.new ≡ from.old) }
    ensures kept { (j : ℕ) → life sockets.new j ≡ life sockets.old j }
{
    match sockets.get_mut(&k) {
        Some(socket) => {
            let n = socket.keep(from)?;
            Ok((n, socket.note_news()))
        }
        None => {
            let n = from.len();
            *from = Bytes::new();
            Ok((n, NO_NEWS))
        }
    }
}

/// Sends what the connection holds, where that wasn't noted again. Whether an event of it is due that isn't
/// noted yet. Then it is noted. One that is closed, and has nothing to send, is no more.
fn flush_in(sockets: &mut HashMap<u64, Socket>, k: u64) -> bool
    ensures { (j : ℕ) → life sockets.new j ≡ life sockets.old j }
{
    let Some(socket) = sockets.get_mut(&k) else {
        return false;
    };
    socket.flush_noted();
    if socket.is_over() {
        sockets.remove(&k);
        return false;
    }
    socket.note_due()
}

/// Reading of the connection is on or off. Whether an event of it is due that isn't noted yet. Then it
/// is noted.
fn read_in(sockets: &mut HashMap<u64, Socket>, k: u64, on: bool, now: u64) -> bool
    ensures { (j : ℕ) → life sockets.new j
        ≡ with_stage k (reading_of on (life sockets.old k)) (life sockets.old) j }
{
    let Some(socket) = sockets.get_mut(&k) else {
        return false;
    };
    socket.set_reading(on, now);
    socket.note_due()
}

/// The connection is closed.
fn close_in(sockets: &mut HashMap<u64, Socket>, k: u64)
    ensures { (j : ℕ) → life sockets.new j
        ≡ with_stage k (closed_of (life sockets.old k)) (life sockets.old) j }
{
    if let Some(socket) = sockets.get_mut(&k) {
        socket.closed = true;
    }
}

/// Sends what the connection holds. One that is closed, and has nothing to send, is no more.
fn send_in(sockets: &mut HashMap<u64, Socket>, k: u64)
    ensures { (j : ℕ) → life sockets.new j ≡ life sockets.old j }
{
    let Some(socket) = sockets.get_mut(&k) else {
        return;
    };
    socket.flush();
    if socket.is_over() {
        sockets.remove(&k);
    }
}
