//! A schedule that comes in pieces.
ghost use Rattle.std.specs.Prelude.{◌≡◌, ◌+◌, ◌<◌, ◌≤◌, ◌^◌, length};

use crate::reader::Reader;
use crate::schedule::{FeedError, SchedRefusal, Timed};
use std::alloc::Global;
use std::marker::Model;

/// A schedule that comes in pieces, however they are cut.
///
/// A contract sees it as where the reading of the text so far stands.
#[derive(Drop)]
pub struct Feed {
    reader: Reader,
    /// Why it is not read on.
    error: Option<FeedError>,
}

impl Model for Feed {
    ghost use Rattle.hc_sched.specs.Reading.{Progress};
    ghost use Rattle.hc_sched.specs.Feeding.{progress_of, IsWithin};

    ghost Value = { Progress };

    ghost view = { λ f. progress_of f.error f.reader };

    ghost invariant = { λ f. IsWithin f.reader };
}

impl Feed {
    ghost use Rattle.hc_sched.specs.Feeding.{lines_in, held_in, Feeds, StandsAt, AnswersAgain, ending, progress_at_end, stopped_by};
    ghost use Rattle.hc_sched.specs.Reading.{beginning};

    /// A feed at the beginning of a text, at moment 0.
    pub fn new(alloc: Global) -> Feed
        ensures { result ≡ beginning 0 }
    {
        Feed::after(alloc, 0)
    }

    /// A feed at the beginning of a text, at this moment, in seconds since 1970. A lower moment is
    /// refused as MomentBack.
    pub fn after(alloc: Global, moment: u64) -> Feed
        requires { moment < 2 ^ 62 }
        ensures { result ≡ beginning moment }
    {
        Feed {
            reader: Reader::new(alloc, moment),
            error: None,
        }
    }

    /// Reads a further piece of the text, and appends the events of the items that end in it. At a
    /// refusal those of the items before the refused line are appended, at want of memory the first
    /// of them. After an error it is answered again at every call, and nothing is appended.
    pub fn feed(&mut self, piece: &[u8], out: &mut Vec<Timed>) -> Result<(), FeedError>
        requires { lines_in self.old + length piece.now ≤ 2 ^ 60 }
        ensures feeds { Feeds self.old piece.now result self.new out.old.items out.new.items }
        ensures stands { StandsAt result self.new }
        ensures again { AnswersAgain self.old result }
        ensures lines { lines_in self.new ≤ lines_in self.old + length piece.now }
    {
        if let Some(e) = self.error {
            return Err(e);
        }
        let fed = self.reader.read(piece, out);
        if let Err(e) = fed {
            self.stop(e);
        }
        fed
    }

    /// The text ends here. It is refused as CutShort where a line or field lines are missing; an
    /// error that was answered is answered again.
    pub fn finish(&mut self) -> Result<(), FeedError>
        requires { lines_in self.old ≤ 2 ^ 60 }
        ensures value { result ≡ ending self.old }
        ensures stands { self.new ≡ progress_at_end self.old }
    {
        if let Some(e) = self.error {
            return Err(e);
        }
        if self.reader.is_between() {
            return Ok(());
        }
        let e = self.reader.place.refusal(SchedRefusal::CutShort);
        self.stop(e);
        Err(e)
    }

    /// Nothing more is read, for this reason.
    fn stop(&mut self, e: FeedError)
        ensures { self.new ≡ stopped_by e }
    {
        self.reader.clear();
        self.error = Some(e);
    }

    /// How many bytes of the item that is not finished were given, at most 200,000.
    pub fn held(&self) -> usize
        ensures value { result ≡ held_in self.now }
        ensures at_most { result ≤ 200000 }
    {
        if self.error.is_some() {
            return 0;
        }
        self.reader.held()
    }
}
