//! Where the reading of a schedule stands between two lines, and what a line does there.
ghost use Rattle.std.specs.Prelude.{◌≡◌, ◌+◌, ◌<◌, ◌≤◌, ◌^◌, ◌++◌, ◌∷◌, [], length, OnOk, OnErr, IfOk, Some, None, true};
ghost use Rattle.hc_sched.specs.Reading.{first_place, set_moment, begin, happen, take_first, take_field, take_line};
ghost use Rattle.hc_sched.specs.FirstLines.{first_of, Starts, Brings, Dooms};
ghost use Rattle.hc_sched.specs.FieldLines.{field_of};
ghost use Rattle.hc_sched.specs.Limits.{IsBegun, MayBegun};
ghost use Rattle.hc_sched.specs.Pieces.{is_piece_text};
ghost use Rattle.hc_sched.specs.Taking.{Does, Takes};

use crate::begun::{Begun, Opening, add_field};
use crate::field::read_field;
use crate::first::{First, Start, read_first};
use crate::piece::read_bytes;
use crate::schedule::{FeedError, Refused, SchedRefusal, Timed};
use hc_event::Event;
use hc_fields::Fields;
use hc_target::is_target;
use hc_text::{Key, MethodName, NoMemory};
use std::alloc::Global;

/// Where the reading of a schedule stands between two lines.
#[derive(Drop)]
pub(crate) struct Place {
    /// The moment that was set last.
    pub(crate) moment: u64,
    /// How many lines are passed.
    pub(crate) lines: u64,
    /// The item whose field lines are coming.
    pub(crate) begun: Option<Begun>,
}

impl Place {
    /// The place at the beginning, at this moment.
    pub(crate) fn first(moment: u64) -> Place
        ensures { result ≡ first_place moment }
    {
        Place {
            moment,
            lines: 0,
            begun: None,
        }
    }

    /// The refusal of the next line.
    pub(crate) fn refusal(&self, why: SchedRefusal) -> FeedError
        requires { self.now.lines < 2 ^ 62 }
        ensures { result ≡ FeedError.Refused (record { line = self.now.lines + 1; why = why }) }
    {
        FeedError::Refused(Refused {
            line: self.lines + 1,
            why,
        })
    }

    /// The next line ends the item of this event.
    fn happen(&mut self, event: Event, out: &mut Vec<Timed>) -> Result<(), NoMemory>
        requires lines { self.old.lines < 2 ^ 62 }
        requires none { self.old.begun ≡ None }
        ensures ok { OnOk result
            (Does (happen self.old event) self.new out.old.items out.new.items) }
        ensures err { OnErr result (out.new.items ≡ out.old.items) }
        ensures count { OnOk result (self.new.lines ≡ self.old.lines + 1) }
        ensures kept { MayBegun self.new.begun }
        ensures lines { self.new.lines ≤ self.old.lines + 1 }
    {
        let now = self.moment;
        out.push(Timed { now, event })?;
        self.lines += 1;
        Ok(())
    }

    /// The next line, of `bytes` bytes, begins an item of so many fields.
    fn begin(
        &mut self,
        alloc: Global,
        opening: Opening,
        count: u64,
        bytes: usize,
        out: &mut Vec<Timed>,
    ) -> Result<(), NoMemory>
        requires lines { self.old.lines < 2 ^ 62 }
        requires none { self.old.begun ≡ None }
        requires few { count ≤ 64 }
        requires short { bytes < 8400 }
        ensures ok { OnOk result
            (Does (begin self.old opening count bytes) self.new out.old.items out.new.items) }
        ensures err { OnErr result (out.new.items ≡ out.old.items) }
        ensures count { OnOk result (self.new.lines ≡ self.old.lines + 1) }
        ensures kept { MayBegun self.new.begun }
        ensures lines { self.new.lines ≤ self.old.lines + 1 }
    {
        let fields = Fields::new(alloc)?;
        if count == 0 {
            return self.happen(opening.event(fields), out);
        }
        self.begun = Some(Begun {
            opening,
            fields,
            missing: count,
            bytes: bytes + 1,
        });
        self.lines += 1;
        Ok(())
    }

    /// The next line sets the moment.
    fn set_moment(&mut self, now: u64) -> Result<(), FeedError>
        requires lines { self.old.lines < 2 ^ 62 }
        requires none { self.old.begun ≡ None }
        ensures takes { Takes (set_moment self.old now) result self.new [] [] }
        ensures count { OnOk result (self.new.lines ≡ self.old.lines + 1) }
        ensures kept { MayBegun self.new.begun }
        ensures lines { self.new.lines ≤ self.old.lines + 1 }
    {
        let last = self.moment;
        if now < last {
            return Err(self.refusal(SchedRefusal::MomentBack { last }));
        }
        self.moment = now;
        self.lines += 1;
        Ok(())
    }

    /// The next line, of `bytes` bytes, makes a request.
    fn start(
        &mut self,
        alloc: Global,
        start: Start<'_>,
        bytes: usize,
        out: &mut Vec<Timed>,
    ) -> Result<(), FeedError>
        requires lines { self.old.lines < 2 ^ 62 }
        requires none { self.old.begun ≡ None }
        requires few { start.count ≤ 64 }
        requires short { bytes ≤ length start.target.now + 100 }
        ensures takes { Takes (take_first self.old bytes (Some (Starts start.entry.c
            start.entry.method.now start.entry.load start.entry.target.now start.entry.count)))
            result self.new out.old.items out.new.items }
        ensures count { OnOk result (self.new.lines ≡ self.old.lines + 1) }
        ensures kept { MayBegun self.new.begun }
        ensures lines { self.new.lines ≤ self.old.lines + 1 }
    {
        if !is_target(alloc, start.target)? {
            return Err(self.refusal(SchedRefusal::BadTarget));
        }
        let count = start.count;
        let opening = opening_of(alloc, start)?;
        self.begin(alloc, opening, count, bytes, out)?;
        Ok(())
    }

    /// The next line forgets the entries of a target.
    fn doom(&mut self, alloc: Global, target: &[u8], out: &mut Vec<Timed>) -> Result<(), FeedError>
        requires lines { self.old.lines < 2 ^ 62 }
        requires none { self.old.begun ≡ None }
        ensures takes { Takes (take_first self.old 0 (Some (Dooms target.now)))
            result self.new out.old.items out.new.items }
        ensures count { OnOk result (self.new.lines ≡ self.old.lines + 1) }
        ensures kept { MayBegun self.new.begun }
        ensures lines { self.new.lines ≤ self.old.lines + 1 }
    {
        if !is_target(alloc, target)? {
            return Err(self.refusal(SchedRefusal::BadTarget));
        }
        let key = key_of(alloc, target)?;
        self.happen(Event::Doom { key }, out)?;
        Ok(())
    }

    /// The next line brings a piece.
    fn bring(
        &mut self,
        alloc: Global,
        x: u64,
        text: &[u8],
        out: &mut Vec<Timed>,
    ) -> Result<(), NoMemory>
        requires lines { self.old.lines < 2 ^ 62 }
        requires none { self.old.begun ≡ None }
        requires piece { is_piece_text text.now ≡ true }
        ensures ok { OnOk result (Does (take_first self.old 0 (Some (Brings x text.now)))
            self.new out.old.items out.new.items) }
        ensures err { OnErr result (out.new.items ≡ out.old.items) }
        ensures count { OnOk result (self.new.lines ≡ self.old.lines + 1) }
        ensures kept { MayBegun self.new.begun }
        ensures lines { self.new.lines ≤ self.old.lines + 1 }
    {
        let bytes = read_bytes(alloc, text)?;
        self.happen(Event::Piece { x, bytes }, out)
    }

    /// The next line is the first of an item.
    fn take_first(
        &mut self,
        alloc: Global,
        line: &[u8],
        out: &mut Vec<Timed>,
    ) -> Result<(), FeedError>
        requires lines { self.old.lines < 2 ^ 62 }
        requires none { self.old.begun ≡ None }
        ensures takes { Takes (take_first self.old (length line.now) (first_of line.now))
            result self.new out.old.items out.new.items }
        ensures count { OnOk result (self.new.lines ≡ self.old.lines + 1) }
        ensures kept { MayBegun self.new.begun }
        ensures lines { self.new.lines ≤ self.old.lines + 1 }
    {
        let Some(first) = read_first(line) else {
            return Err(self.refusal(SchedRefusal::BadLine));
        };
        match first {
            First::Sets(now) => self.set_moment(now)?,
            First::Starts(start) => self.start(alloc, start, line.len(), out)?,
            First::Heads { x, status, count } => {
                self.begin(alloc, Opening::Head { x, status }, count, line.len(), out)?;
            }
            First::Brings { x, text } => self.bring(alloc, x, text, out)?,
            First::Dooms(target) => self.doom(alloc, target, out)?,
            First::Reports(event) => self.happen(event, out)?,
        }
        Ok(())
    }

    /// The next line is a field line of the item that was begun.
    fn take_field(
        &mut self,
        begun: Begun,
        line: &[u8],
        out: &mut Vec<Timed>,
    ) -> Result<(), FeedError>
        requires lines { self.old.lines < 2 ^ 62 }
        requires none { self.old.begun ≡ None }
        requires begun { IsBegun begun }
        requires short { length line.now ≤ 140000 }
        ensures takes { Takes
            (take_field self.old begun (length line.now) (field_of begun.fields line.now))
            result self.new out.old.items out.new.items }
        ensures count { OnOk result (self.new.lines ≡ self.old.lines + 1) }
        ensures kept { MayBegun self.new.begun }
        ensures lines { self.new.lines ≤ self.old.lines + 1 }
    {
        let mut begun = begun;
        let Some((name, value)) = read_field(&begun.fields, line) else {
            return Err(self.refusal(SchedRefusal::BadLine));
        };
        add_field(&mut begun.fields, name, value)?;
        if begun.missing == 1 {
            self.happen(begun.opening.event(begun.fields), out)?;
            return Ok(());
        }
        begun.missing -= 1;
        begun.bytes += line.len() + 1;
        self.begun = Some(begun);
        self.lines += 1;
        Ok(())
    }

    /// Takes a whole line, without its line feed.
    #[tactic(auto, unfolding(crate::specs::Reading::take_line))]
    pub(crate) fn take_line(
        &mut self,
        alloc: Global,
        line: &[u8],
        out: &mut Vec<Timed>,
    ) -> Result<(), FeedError>
        requires lines { self.old.lines < 2 ^ 62 }
        requires kept { MayBegun self.old.begun }
        requires short { length line.now ≤ 140000 }
        ensures takes { Takes (take_line self.old line.now)
            result self.new out.old.items out.new.items }
        ensures count { OnOk result (self.new.lines ≡ self.old.lines + 1) }
        ensures kept { MayBegun self.new.begun }
        ensures lines { self.new.lines ≤ self.old.lines + 1 }
    {
        match self.begun.take() {
            None => self.take_first(alloc, line, out),
            Some(begun) => self.take_field(begun, line, out),
        }
    }
}

/// The key of the text.
fn key_of(alloc: Global, text: &[u8]) -> Result<Key, NoMemory>
    ensures { IfOk result (λ key. key ≡ text.now) }
{
    let bytes = text.to_vec(alloc)?;
    Ok(Key { bytes })
}

/// What the line of a request says but for the number of its fields.
fn opening_of(alloc: Global, start: Start<'_>) -> Result<Opening, NoMemory>
    ensures { IfOk result (λ opening. opening ≡ Opening.Start start.entry.c
        start.entry.method.now start.entry.target.now start.entry.load) }
{
    let method = start.method.to_vec(alloc)?;
    let key = key_of(alloc, start.target)?;
    Ok(Opening::Start {
        c: start.c,
        method: MethodName { bytes: method },
        key,
        load: start.load,
    })
}
