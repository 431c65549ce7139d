//! The reading of a schedule that was not refused so far.
ghost use Rattle.std.specs.Prelude.{◌≡◌, ◌+◌, ◌<◌, ◌≤◌, ◌^◌, ◌++◌, ◌∷◌, [], true, length, IfSome, IfNone, OnOk, OnErr};
ghost use Rattle.hc_text.specs.Texts.{lacks};
ghost use Rattle.hc_sched.specs.Reading.{Reads};
ghost use Rattle.hc_sched.specs.Taking.{Takes};

use crate::place::Place;
use crate::schedule::{FeedError, SchedRefusal, Timed};
use hc_text::{NoMemory, position_of};
use std::alloc::Global;

/// A line has at most this many bytes, without its line feed.
const MOST_LINE: usize = 140_000;

/// The reading of a schedule that was not refused so far.
#[derive(Drop)]
pub(crate) struct Reader {
    pub(crate) place: Place,
    /// The bytes of the line that is not finished.
    pub(crate) line: Vec<u8>,
}

/// The line that the text begins with, and what stands behind its line feed.
fn next_line(text: &[u8]) -> Option<(&[u8], &[u8])>
    ensures found { IfSome result (λ parts. (lacks 10 parts.0.now ≡ true)
        × (parts.0.now ++ 10 ∷ parts.1.now ≡ text.now)) }
    ensures none { IfNone result (lacks 10 text.now ≡ true) }
{
    let end = position_of(text, b'\n')?;
    Some((&text[..end], &text[end + 1..]))
}

impl Reader {
    ghost use Rattle.hc_sched.specs.Feeding.{IsWithin, Feeds, join_line, held_in};
    ghost use Rattle.hc_sched.specs.Reading.{is_between, beginning};

    /// The reading at the beginning, at this moment.
    pub(crate) fn new(alloc: Global, moment: u64) -> Reader
        ensures value { Reads result.place result.line.items ≡ beginning moment }
        ensures within { IsWithin result }
    {
        Reader {
            place: Place::first(moment),
            line: Vec::new(alloc),
        }
    }

    /// Whether nothing is left of a line or of an item.
    pub(crate) fn is_between(&self) -> bool
        ensures { result ≡ is_between self.now.place self.now.line.items }
    {
        self.place.begun.is_none() && self.line.is_empty()
    }

    /// How many bytes of the item that is not finished were given.
    pub(crate) fn held(&self) -> usize
        requires { IsWithin self.now }
        ensures value { result ≡ held_in (Reads self.now.place self.now.line.items) }
        ensures at_most { result ≤ 200000 }
    {
        match &self.place.begun {
            None => self.line.len(),
            Some(begun) => begun.bytes + self.line.len(),
        }
    }

    /// Forgets what was given of an item that is not finished.
    pub(crate) fn clear(&mut self)
        ensures { IsWithin self.new }
    {
        self.line = Vec::new(*self.line.allocator());
        self.place.begun = None;
    }

    /// Takes the rest of a line, which a line feed ends.
    #[tactic(auto, unfolding(crate::specs::Feeding::join_line))]
    fn end_line(&mut self, rest: &[u8], out: &mut Vec<Timed>) -> Result<(), FeedError>
        requires lines { self.old.place.lines < 2 ^ 62 }
        requires within { IsWithin self.old }
        ensures takes { Takes (join_line self.old.place (self.old.line.items ++ rest.now))
            result self.new.place out.old.items out.new.items }
        ensures line { OnOk result (self.new.line.items ≡ []) }
        ensures within { IsWithin self.new }
        ensures count { OnOk result (self.new.place.lines ≡ self.old.place.lines + 1) }
        ensures lines { self.new.place.lines ≤ self.old.place.lines + 1 }
    {
        if rest.len() > MOST_LINE - self.line.len() {
            return Err(self.place.refusal(SchedRefusal::LineTooLong));
        }
        let alloc = *self.line.allocator();
        if self.line.is_empty() {
            return self.place.take_line(alloc, rest, out);
        }
        grow(&mut self.line, rest)?;
        let taken = self.place.take_line(alloc, &self.line, out);
        self.line.clear();
        taken
    }

    /// Takes bytes of a line that no line feed ends yet.
    fn grow_line(&mut self, rest: &[u8]) -> Result<(), FeedError>
        requires lines { self.old.place.lines < 2 ^ 62 }
        requires within { IsWithin self.old }
        requires unfinished { lacks 10 rest.now ≡ true }
        ensures feeds { Feeds (Reads self.old.place self.old.line.items) rest.now
            result (Reads self.new.place self.new.line.items) [] [] }
        ensures within { IsWithin self.new }
        ensures lines { self.new.place.lines ≡ self.old.place.lines }
    {
        if rest.len() > MOST_LINE - self.line.len() {
            return Err(self.place.refusal(SchedRefusal::LineTooLong));
        }
        grow(&mut self.line, rest)?;
        Ok(())
    }

    /// Reads the bytes, and appends the events that they bring.
    pub(crate) fn read(&mut self, piece: &[u8], out: &mut Vec<Timed>) -> Result<(), FeedError>
        requires few { self.old.place.lines + length piece.now ≤ 2 ^ 60 }
        requires within { IsWithin self.old }
        ensures feeds { Feeds (Reads self.old.place self.old.line.items) piece.now
            result (Reads self.new.place self.new.line.items) out.old.items out.new.items }
        ensures within { IsWithin self.new }
        ensures lines { self.new.place.lines ≤ self.old.place.lines + length piece.now }
    {
        let mut rest = piece;
        while let Some((line, behind)) = next_line(rest) {
            self.end_line(line, out)?;
            rest = behind;
        }
        self.grow_line(rest)
    }
}

/// Appends the bytes, or nothing.
fn grow(line: &mut Vec<u8>, bytes: &[u8]) -> Result<(), NoMemory>
    ensures ok { OnOk result (line.new.items ≡ line.old.items ++ bytes.now) }
    ensures err { OnErr result (line.new.items ≡ line.old.items) }
{
    line.extend_from_slice(bytes)?;
    Ok(())
}
