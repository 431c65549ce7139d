//! The reading of an answer that was not refused so far.
ghost use Rattle.std.specs.Prelude.{◌≡◌, ◌<◌, ◌≤◌, ◌+◌, ◌++◌, ℕ, Bool, List, [], true, length, min, OnOk};
ghost use Rattle.hc_head.specs.Scans.{is_open, IsLineBefore};
ghost use Rattle.hc_msg.specs.Chunks.{trail};
ghost use Rattle.hc_msg.specs.Reading.{Responses, Heading, Failed, Counts, Runs, Sizing, Chunk, counts, chunk, body, reading_of_chunk, heading};
ghost use Rattle.hc_msg.specs.Taking.{reading_by, reading_of, IsSoundAt, IsSound, IsKept, goes_on, Moves, Replied, Takes, ending, reading_at_end, Replied, Enters, Sized, IsPieceOf, TrailMoves, Expects};

use crate::line::{find_line, size_of};
use crate::message::{Taken, WirePart};
use crate::trailer::{Trailer, Trails};
use hc_head::{Framing, MsgError, ParsedHead, Scan, Sought, find_end, reply_of};
use hc_text::{Bytes, NoMemory};
use std::alloc::Global;

/// Where the reading of an answer stands.
#[derive(Clone, Copy, Debug, PartialEq, Eq)]
pub(crate) enum State {
    /// Within a head.
    Heading(Scan),
    /// Within a body, of which so many bytes are to come.
    Counts(u64),
    /// Within a body that runs to the close.
    Runs,
    /// Within a chunk line.
    Sizing,
    /// Within a chunk, of which so many bytes are to come.
    Chunk(u64),
    /// Behind the bytes of a chunk.
    ChunkEnd,
    /// Behind the carriage return after them.
    ChunkReturn,
    /// Within the trailer section, of which so many bytes came.
    Trailing { place: Trailer, count: u64 },
    /// The answer is whole, and its end isn't told yet.
    Whole,
    /// Its end was told.
    Done,
    /// At an error.
    Failed(MsgError),
}

/// What was made of bytes.
#[derive(Drop)]
pub(crate) enum Moved {
    /// So many were passed.
    Passes(usize),
    /// So many were used, and give this.
    Gives(usize, WirePart),
}

/// The reading of an answer.
#[derive(Drop)]
pub(crate) struct Answer {
    pub(crate) no_body: bool,
    pub(crate) state: State,
    /// The bytes so far of a head or of a chunk line.
    pub(crate) held: Vec<u8>,
}

impl State {
    /// Within a body, of which so many bytes are to come.
    fn counts(left: u64) -> State
        ensures reading { (no_body : Bool) (held : List ℕ)
            → reading_by no_body result held ≡ counts left }
        ensures sound { (held : List ℕ) → held ≡ [] → IsSoundAt result held }
    {
        if left == 0 {
            State::Whole
        } else {
            State::Counts(left)
        }
    }

    /// Within a chunk, of which so many bytes are to come.
    fn chunk(left: u64) -> State
        ensures reading { (no_body : Bool) (held : List ℕ)
            → reading_by no_body result held ≡ chunk left }
        ensures sound { (held : List ℕ) → held ≡ [] → IsSoundAt result held }
    {
        if left == 0 {
            State::ChunkEnd
        } else {
            State::Chunk(left)
        }
    }

    /// A body that is framed so, at its beginning.
    fn body(framing: Framing) -> State
        ensures reading { (no_body : Bool) (held : List ℕ) → held ≡ []
            → reading_by no_body result held ≡ body framing }
        ensures sound { (held : List ℕ) → held ≡ [] → IsSoundAt result held }
    {
        match framing {
            Framing::Bodiless => State::Whole,
            Framing::Chunked => State::Sizing,
            Framing::Counted(n) => State::counts(n),
            Framing::ToClose => State::Runs,
        }
    }

    /// Behind a line that announces a chunk of so many bytes.
    fn after_size(size: u64) -> State
        ensures reading { (no_body : Bool) (held : List ℕ)
            → reading_by no_body result held ≡ reading_of_chunk size }
        ensures sound { (held : List ℕ) → held ≡ [] → IsSoundAt result held }
    {
        if size == 0 {
            State::Trailing {
                place: Trailer::Beginning,
                count: 0,
            }
        } else {
            State::Chunk(size)
        }
    }

    /// Whether further bytes are read.
    pub(crate) fn goes_on(self) -> bool
        ensures { (no_body : Bool) (held : List ℕ)
            → result ≡ goes_on (reading_by no_body self held) }
    {
        !matches!(self, State::Whole | State::Done | State::Failed(_))
    }
}

/// How many bytes to give: of so many that stand together, and at most `most`.
fn stretch(left: u64, here: usize, most: usize) -> usize
    ensures { result ≡ min most (min left here) }
{
    left.min(here as u64).min(most as u64) as usize
}

/// The first bytes of a body.
fn piece_of(alloc: Global, rest: &[u8], n: usize) -> Result<Moved, MsgError>
    requires { n ≤ length rest.now }
    ensures { IsPieceOf rest.now n result }
{
    let bytes = Vec::from_slice(alloc, &rest[..n])?;
    Ok(Moved::Gives(n, WirePart::Piece(Bytes::of(bytes))))
}

impl Answer {
    /// At the beginning of an answer.
    pub(crate) fn new(alloc: Global, no_body: bool) -> Answer
        ensures reading { reading_of result ≡ heading (Responses no_body) }
        ensures sound { IsSound result }
    {
        Answer {
            no_body,
            state: State::Heading(Scan::Before),
            held: Vec::new(alloc),
        }
    }

    /// What the head says that ends with these bytes.
    fn whole_head(&mut self, end: &[u8]) -> Result<ParsedHead, MsgError>
        requires { length self.old.held.items + length end.now ≤ 32768 }
        ensures replied { Replied self.old.no_body (self.old.held.items ++ end.now) result }
        ensures empty { OnOk result (self.new.held.items ≡ []) }
        ensures kept { self.new.no_body ≡ self.old.no_body }
    {
        let alloc = *self.held.allocator();
        if self.held.is_empty() {
            return reply_of(alloc, self.no_body, end);
        }
        self.held.extend_from_slice(end)?;
        let reply = reply_of(alloc, self.no_body, &self.held);
        self.held.clear();
        reply
    }

    /// The answer goes on behind a head of which so many bytes were used now.
    fn enter(&mut self, reply: ParsedHead, n: usize) -> Moved
        requires { self.old.held.items ≡ [] }
        ensures enters { Enters self.old.no_body reply n result (reading_of self.new) }
        ensures sound { IsSound self.new }
    {
        match reply {
            ParsedHead::Skips => {
                self.state = State::Heading(Scan::Before);
                Moved::Passes(n)
            }
            ParsedHead::Shows(response, framing) => {
                self.state = State::body(framing);
                Moved::Gives(n, WirePart::Head(response))
            }
        }
    }

    /// Takes bytes of a head.
    fn take_head(&mut self, scan: Scan, rest: &[u8]) -> Result<Moved, MsgError>
        requires open { is_open scan ≡ true }
        requires short { length self.old.held.items ≤ 32768 }
        requires some { 0 < length rest.now }
        ensures moves { (most : ℕ) → Moves (Heading (Responses self.old.no_body) scan
            self.old.held.items) rest.now most result (reading_of self.new) }
        ensures sound { OnOk result (IsSound self.new) }
    {
        match find_end(self.held.as_slice().len(), scan, rest)? {
            Sought::Ends(n) => {
                let reply = self.whole_head(&rest[..n])?;
                Ok(self.enter(reply, n))
            }
            Sought::Open(next) => {
                self.held.extend_from_slice(rest)?;
                self.state = State::Heading(next);
                Ok(Moved::Passes(rest.len()))
            }
        }
    }
}

impl Answer {
    /// The size that the line announces which ends with these bytes.
    fn whole_line(&mut self, end: &[u8]) -> Result<Option<u64>, NoMemory>
        ensures sized { Sized (self.old.held.items ++ end.now) result }
        ensures empty { OnOk result (self.new.held.items ≡ []) }
        ensures kept { self.new.no_body ≡ self.old.no_body }
    {
        if self.held.is_empty() {
            return Ok(size_of(end));
        }
        self.held.extend_from_slice(end)?;
        let size = size_of(&self.held);
        self.held.clear();
        Ok(size)
    }

    /// Takes the bytes that end a chunk line.
    fn end_line(&mut self, rest: &[u8], at: usize) -> Result<Moved, MsgError>
        requires line { IsLineBefore rest.now at }
        requires short { length self.old.held.items + (at + 1) ≤ 1024 }
        requires within { at < length rest.now }
        ensures moves { (most : ℕ) → Moves (Sizing self.old.held.items) rest.now most result
            (reading_of self.new) }
        ensures sound { OnOk result (IsSound self.new) }
    {
        match self.whole_line(&rest[..at + 1])? {
            None => Err(MsgError::BadChunk),
            Some(size) => {
                self.state = State::after_size(size);
                Ok(Moved::Passes(at + 1))
            }
        }
    }

    /// Takes bytes of a chunk line.
    fn take_line(&mut self, rest: &[u8]) -> Result<Moved, MsgError>
        requires short { length self.old.held.items ≤ 1024 }
        requires some { 0 < length rest.now }
        requires sizing { self.old.state ≡ State.Sizing }
        ensures moves { (most : ℕ) → Moves (Sizing self.old.held.items) rest.now most result
            (reading_of self.new) }
        ensures sound { OnOk result (IsSound self.new) }
    {
        match find_line(self.held.as_slice().len(), rest)? {
            Some(at) => self.end_line(rest, at),
            None => {
                self.held.extend_from_slice(rest)?;
                Ok(Moved::Passes(rest.len()))
            }
        }
    }

    /// Takes bytes of a body of which so many are to come.
    fn take_counted(&mut self, left: u64, rest: &[u8], most: usize) -> Result<Moved, MsgError>
        requires left { 0 < left }
        requires some { 0 < length rest.now }
        requires most { 0 < most }
        requires empty { self.old.held.items ≡ [] }
        ensures moves { Moves (Counts left) rest.now most result (reading_of self.new) }
        ensures sound { OnOk result (IsSound self.new) }
    {
        let n = stretch(left, rest.len(), most);
        let given = piece_of(*self.held.allocator(), rest, n)?;
        self.state = State::counts(left - n as u64);
        Ok(given)
    }

    /// Takes bytes of a chunk of which so many are to come.
    fn take_chunk(&mut self, left: u64, rest: &[u8], most: usize) -> Result<Moved, MsgError>
        requires left { 0 < left }
        requires some { 0 < length rest.now }
        requires most { 0 < most }
        requires empty { self.old.held.items ≡ [] }
        ensures moves { Moves (Chunk left) rest.now most result (reading_of self.new) }
        ensures sound { OnOk result (IsSound self.new) }
    {
        let n = stretch(left, rest.len(), most);
        let given = piece_of(*self.held.allocator(), rest, n)?;
        self.state = State::chunk(left - n as u64);
        Ok(given)
    }

    /// Takes bytes of a body that runs to the close.
    fn take_run(&mut self, rest: &[u8], most: usize) -> Result<Moved, MsgError>
        requires some { 0 < length rest.now }
        requires most { 0 < most }
        ensures moves { Moves Runs rest.now most result Runs }
        ensures kept { reading_of self.new ≡ reading_of self.old }
        ensures sound { self.new.held.items ≡ self.old.held.items }
    {
        let n = rest.len().min(most);
        piece_of(*self.held.allocator(), rest, n)
    }

    /// The byte is to be this one, and leads to that state.
    fn expect(&mut self, hit: bool, next: State) -> Result<Moved, MsgError>
        ensures expects { Expects hit result }
        ensures state { OnOk result (self.new.state ≡ next) }
        ensures held { self.new.held.items ≡ self.old.held.items }
    {
        if !hit {
            return Err(MsgError::BadChunk);
        }
        self.state = next;
        Ok(Moved::Passes(1))
    }

    /// Takes a byte of the trailer section, of which so many came.
    fn take_trailer(&mut self, place: Trailer, count: u64, b: u8) -> Result<Moved, MsgError>
        requires few { count ≤ 32769 }
        requires empty { self.old.held.items ≡ [] }
        ensures moves { TrailMoves (trail place count b) result (reading_of self.new) }
        ensures sound { OnOk result (IsSound self.new) }
    {
        match place.trail(count, b) {
            Trails::On(place, count) => self.state = State::Trailing { place, count },
            Trails::Ends => self.state = State::Whole,
            Trails::TooLong => return Err(MsgError::BadChunk),
        }
        Ok(Moved::Passes(1))
    }

    /// Takes the first bytes of a piece that isn't empty.
    fn step(&mut self, rest: &[u8], most: usize) -> Result<Moved, MsgError>
        requires sound { IsSound self.old }
        requires some { 0 < length rest.now }
        requires most { 0 < most }
        requires goes_on { goes_on (reading_of self.old) ≡ true }
        ensures moves { Moves (reading_of self.old) rest.now most result (reading_of self.new) }
        ensures sound { OnOk result (IsSound self.new) }
    {
        match self.state {
            State::Heading(scan) => self.take_head(scan, rest),
            State::Counts(left) => self.take_counted(left, rest, most),
            State::Runs => self.take_run(rest, most),
            State::Sizing => self.take_line(rest),
            State::Chunk(left) => self.take_chunk(left, rest, most),
            State::ChunkEnd => self.expect(rest[0] == b'\r', State::ChunkReturn),
            State::ChunkReturn => self.expect(rest[0] == b'\n', State::Sizing),
            State::Trailing { place, count } => self.take_trailer(place, count, rest[0]),
            State::Whole | State::Done | State::Failed(_) => unreachable!(),
        }
    }

    /// Takes the first bytes of a piece, up to the first part that they complete.
    pub(crate) fn take(&mut self, piece: &[u8], most: usize) -> Result<Taken<WirePart>, MsgError>
        requires sound { IsSound self.old }
        requires most { 0 < most }
        ensures takes { Takes (reading_of self.old) piece.now most result (reading_of self.new) }
        ensures kept { OnOk result (IsKept self.new) }
    {
        let mut used = 0;
        while used < piece.len() && self.state.goes_on() {
            match self.step(&piece[used..], most)? {
                Moved::Passes(n) => used += n,
                Moved::Gives(n, part) => {
                    return Ok(Taken {
                        used: used + n,
                        got: Some(part),
                    });
                }
            }
        }
        if self.state.goes_on() {
            return Ok(Taken { used, got: None });
        }
        self.state = State::Done;
        Ok(Taken {
            used,
            got: Some(WirePart::End),
        })
    }
}

impl Answer {
    /// Nothing more is read, for this reason.
    pub(crate) fn stop(&mut self, e: MsgError)
        ensures reading { reading_of self.new ≡ Failed e }
        ensures kept { IsKept self.new }
    {
        self.held = Vec::new(*self.held.allocator());
        self.state = State::Failed(e);
    }

    /// No further byte comes.
    pub(crate) fn finish(&mut self) -> Result<WirePart, MsgError>
        ensures value { result ≡ ending (reading_of self.old) }
        ensures after { reading_of self.new ≡ reading_at_end (reading_of self.old) }
        ensures kept { IsKept self.new }
    {
        match self.state {
            State::Counts(_) | State::Runs | State::Whole | State::Done => {
                self.state = State::Done;
                Ok(WirePart::End)
            }
            State::Failed(e) => Err(e),
            _ => {
                self.stop(MsgError::CutOff);
                Err(MsgError::CutOff)
            }
        }
    }
}
