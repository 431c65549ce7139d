//! The line of a key.
ghost use Rattle.std.specs.Prelude.{◌≡◌, ℕ, Some, None, true, false, is_some, IfSome, IfOk, OnErr, if◌then◌else◌, nat_eq};
ghost use Rattle.std.specs.Bool.{OnTrue};
ghost use Rattle.std.specs.Map.{keys_of};
ghost use Rattle.std.specs.HashMap.{IsUnique};
ghost use Rattle.hc_entry.specs.Seats.{seat_of, stand_in, moved_to};
ghost use Rattle.hc_entry.specs.Lines.{nobody, is_in, is_empty, line_with, line_after_pass, gone_away, come_back, all_back, passed_back, held_by, left_by, turn_of, turn_with, holder_without, consumer_at, Enters, AllArePlacedBelow, IsItsPlace};
ghost use Rattle.hc_text.specs.Sorted.{is_among};

use crate::seat::{Seated, Stand};
use crate::tournament::Tournament;
use hc_text::NoMemory;
use slab::Slab;
use std::alloc::Global;
use std::collections::HashMap;
use std::marker::Model;

/// The place of a consumer in a line. It stays while the consumer goes from list to list.
#[derive(Clone, Copy, Debug, PartialEq, Eq)]
pub struct Seat {
    /// The key of its node.
    pub key: usize,
}

/// The consumers of a key that wait: in line for the turn, passed, or away.
#[derive(Drop)]
pub struct KeyLine {
    seats: HashMap<u64, Seated>,
    /// The consumer of each place.
    places: Slab<u64>,
    /// Those in line, each at its place.
    in_line: Tournament,
    holder: Option<u64>,
}

impl Model for KeyLine {
    ghost use Rattle.std.specs.Prelude.{vec_len};
    ghost use Rattle.hc_entry.specs.Lines.{Line};
    ghost use Rattle.hc_entry.specs.Seats.{standing, IsSeated};
    ghost use Rattle.hc_entry.specs.declared.seat.Stand.TheVariants as stand;

    ghost Value = { Line };

    ghost view = { λ l. record {
      in_line = standing stand.InLine l.seats.entries;
      passed = standing stand.Passed l.seats.entries;
      away = standing stand.Away l.seats.entries;
      holder = l.holder;
      places = l.places.slots;
    } };

    ghost invariant = { λ l. IsSeated l.seats.entries l.places.slots l.in_line l.holder };
}

impl KeyLine {
    /// Nobody waits.
    pub fn new(alloc: Global) -> KeyLine
        ensures { result ≡ nobody }
    {
        KeyLine {
            seats: HashMap::new(alloc),
            places: Slab::new(alloc),
            in_line: Tournament::new(alloc),
            holder: None,
        }
    }

    /// Whether the consumer stands in it.
    pub fn is_in(&self, c: u64) -> bool
        ensures { result ≡ is_in c self.now }
    {
        self.seats.contains_key(&c)
    }

    /// Whether nobody stands in it.
    pub fn is_empty(&self) -> bool
        ensures value { result ≡ is_empty self.now }
        ensures free { OnTrue result (self.now.holder ≡ None) }
    {
        self.seats.is_empty()
    }

    /// Where the consumer stands. None exactly where it doesn't stand in it.
    pub fn stand(&self, c: u64) -> Option<Stand>
        ensures { result ≡ stand_in c self.now }
    {
        Some(self.seats.get(&c)?.stand)
    }

    /// How many seats there are, of which each is that of a consumer, or empty.
    pub fn seats(&self) -> usize
        ensures { AllArePlacedBelow result self.now }
    {
        self.places.capacity()
    }

    /// Who has the seat, if one does. Each who stands in it has one.
    pub fn seated(&self, i: usize) -> Option<u64>
        ensures there { result ≡ consumer_at self.now i }
        ensures inside { IfSome result (λ c. is_in c self.now ≡ true) }
        ensures once { IfSome result (λ c. IsItsPlace self.now i c) }
    {
        self.places.get(i).copied()
    }

    /// The consumer is in line, at the place that is answered. All others keep theirs.
    pub fn enter(&mut self, c: u64) -> Result<Seat, NoMemory>
        requires { is_in c self.old ≡ false }
        ensures ok { IfOk result (λ place. Enters c place.key self.old self.new) }
        ensures err { OnErr result (self.new ≡ self.old) }
    {
        self.places.reserve(1)?;
        self.in_line.grow(self.places.capacity())?;
        let place = self.places.vacant_key();
        let seat = Seated {
            place,
            stand: Stand::InLine,
        };
        self.seats.insert(c, seat)?;
        self.places.insert_reserved(c);
        self.in_line.set(place, Some(c));
        Ok(Seat { key: place })
    }

    /// The turn: the holder, or else the least in line.
    pub fn turn(&self) -> Option<u64>
        ensures { result ≡ turn_of self.now }
    {
        self.holder.or(self.in_line.least())
    }

    /// The turn if the consumer were in line too.
    pub fn turn_with(&self, c: u64) -> u64
        ensures { Some result ≡ turn_with c self.now }
    {
        match (self.holder, self.in_line.least()) {
            (Some(holder), _) => holder,
            (None, Some(first)) => first.min(c),
            (None, None) => c,
        }
    }

    /// The consumer holds the turn.
    pub fn hold(&mut self, c: u64)
        requires inside { is_in c self.old ≡ true }
        requires turn { turn_of self.old ≡ Some c }
        ensures { self.new ≡ held_by c self.old }
    {
        self.holder = Some(c);
    }

    /// The consumer has passed.
    pub fn pass(&mut self, c: u64)
        requires { is_in c self.old ≡ true }
        ensures { self.new ≡ line_after_pass c self.old }
    {
        self.stands_at(c, Stand::Passed);
    }

    /// The consumer is away.
    pub fn away(&mut self, c: u64)
        requires { is_in c self.old ≡ true }
        ensures { self.new ≡ gone_away c self.old }
    {
        self.stands_at(c, Stand::Away);
    }

    /// The consumer is in line again, and doesn't hold the turn.
    pub fn back(&mut self, c: u64)
        requires { is_in c self.old ≡ true }
        ensures { self.new ≡ come_back c self.old }
    {
        self.stands_at(c, Stand::InLine);
    }

    /// Everyone is in line, and nobody holds the turn.
    pub fn all_back(&mut self)
        ensures { self.new ≡ all_back self.old }
    {
        self.holder = None;
        for i in 0..self.seats() {
            if let Some(c) = self.seated(i) {
                self.back(c);
            }
        }
    }

    /// Whoever passed is in line.
    pub fn passed_back(&mut self)
        ensures { self.new ≡ passed_back self.old }
    {
        // What the type keeps is known once a field is read.
        let _ = &self.seats;
        for place in 0..self.seats() {
            if let Some(c) = self.seated(place) {
                if self.has_passed(c) {
                    self.back(c);
                }
            }
        }
    }

    /// Whether the consumer passed.
    fn has_passed(&self, c: u64) -> bool
        ensures { result ≡ is_among c self.now.passed }
    {
        match self.seats.get(&c) {
            Some(seat) => seat.stand.is_passed(),
            None => false,
        }
    }

    /// The consumer stands there from now on, at its place, and doesn't hold the turn.
    pub(crate) fn stands_at(&mut self, c: u64, stand: Stand)
        requires { is_in c self.old ≡ true }
        ensures { self.new ≡ moved_to stand c self.old }
    {
        let place = reseat(&mut self.seats, c, stand);
        self.in_line.set(place, stand.calls(c));
        self.holder = released(self.holder, c);
    }

    /// The consumer stands in it no more.
    pub fn leave(&mut self, c: u64)
        requires { is_in c self.old ≡ true }
        ensures { self.new ≡ left_by c self.old }
    {
        let Some(seat) = self.seats.remove(&c) else {
            unreachable!()
        };
        self.places.remove(seat.place);
        self.in_line.set(seat.place, None);
        self.holder = released(self.holder, c);
    }
}

/// The consumer stands there from now on. Its place, which stays, is answered.
fn reseat(seats: &mut HashMap<u64, Seated>, c: u64, stand: Stand) -> usize
    requires { is_some (seat_of seats.old.entries c) ≡ true }
    ensures place { IfSome (seat_of seats.old.entries c) (λ seat. seat.place ≡ result) }
    ensures seats { (q : ℕ) → seat_of seats.new.entries q
        ≡ (if nat_eq c q then Some (record { place = result; stand = stand })
        else seat_of seats.old.entries q) }
    ensures distinct { IsUnique nat_eq seats.new }
{
    let Some(seat) = seats.get_mut(&c) else {
        unreachable!()
    };
    seat.stand = stand;
    seat.place
}

/// Who holds the turn once the consumer doesn't.
fn released(holder: Option<u64>, c: u64) -> Option<u64>
    ensures { result ≡ holder_without c holder }
{
    match holder {
        Some(d) if d == c => None,
        _ => holder,
    }
}
