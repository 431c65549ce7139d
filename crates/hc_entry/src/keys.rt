//! What is kept by key.
ghost use Rattle.std.specs.Prelude.{◌≡◌, ℕ, List, Some, None, true, false, IfSome, OnOk, OnErr};
ghost use Rattle.hc_entry.specs.Lines.{is_in, turn_of, turn_with, line_with, held_by, line_after_pass, gone_away, come_back, left_by, all_back, passed_back};
ghost use Rattle.hc_entry.specs.Kept.{nothing, on_line, with_current};
ghost use Rattle.hc_entry.specs.KeyRows.{IsTidy, AreOrderly};

use crate::rows::{
    KeyRow, all_back_in, clear_current_in, enter_in, hold_in, leave_in, make_current_in,
    passed_back_in, reseat_in, row_in,
};
use crate::seat::Stand;
use hc_text::{Key, NoMemory};
use std::alloc::Global;
use std::collections::HashMap;

/// What is kept by key: who waits for its representation, and which one is current. A key without
/// either has no row.
#[derive(Drop)]
pub struct KeyTable {
    alloc: Global,
    rows: HashMap<Vec<u8>, KeyRow>,
    ghost tidy: { IsTidy rows },
    ghost orderly: { AreOrderly rows },
}

impl KeyTable {
    ghost use Rattle.hc_entry.specs.Keys.{kept_of, line_of, seated_at, Becomes, Stays, AllAreSeatedBelow, IsItsSeat};

    /// Nobody waits for anything.
    pub fn new(alloc: Global) -> KeyTable
        ensures { (key : List ℕ) → kept_of result key ≡ nothing }
    {
        KeyTable {
            alloc,
            rows: HashMap::new(alloc),
        }
    }

    /// The turn: the holder, or else the least in line.
    pub fn turn(&self, key: &Key) -> Option<u64>
        ensures { result ≡ turn_of (line_of self.now key.now) }
    {
        row_in(&self.rows, key)?.line.turn()
    }

    /// The turn if the consumer were in line too.
    pub fn turn_with(&self, key: &Key, c: u64) -> u64
        ensures { Some result ≡ turn_with c (line_of self.now key.now) }
    {
        match row_in(&self.rows, key) {
            Some(row) => row.line.turn_with(c),
            None => c,
        }
    }

    /// The representation that is current.
    pub fn current(&self, key: &Key) -> Option<u64>
        ensures { result ≡ (kept_of self.now key.now).current }
    {
        row_in(&self.rows, key)?.current
    }

    /// The turn if the consumer were in line too, and the representation that is current.
    pub fn seen(&self, key: &Key, c: u64) -> (u64, Option<u64>)
        ensures turn { Some result.0 ≡ turn_with c (line_of self.now key.now) }
        ensures current { result.1 ≡ (kept_of self.now key.now).current }
    {
        match row_in(&self.rows, key) {
            Some(row) => (row.line.turn_with(c), row.current),
            None => (c, None),
        }
    }

    /// Whether the consumer waits for the key: in line, passed or away.
    pub fn is_in(&self, key: &Key, c: u64) -> bool
        ensures { result ≡ is_in c (line_of self.now key.now) }
    {
        match row_in(&self.rows, key) {
            Some(row) => row.line.is_in(c),
            None => false,
        }
    }

    /// How many seats the key has, of which each is that of a consumer, or empty.
    pub fn seats(&self, key: &Key) -> usize
        ensures { AllAreSeatedBelow result self.now key.now }
    {
        match row_in(&self.rows, key) {
            Some(row) => row.line.seats(),
            None => 0,
        }
    }

    /// Who has the seat, if one does. Each who waits for the key has one.
    pub fn seated(&self, key: &Key, i: usize) -> Option<u64>
        ensures there { result ≡ seated_at self.now key.now i }
        ensures inside { IfSome result (λ c. is_in c (line_of self.now key.now) ≡ true) }
        ensures once { IfSome result (λ c. IsItsSeat self.now key.now i c) }
    {
        row_in(&self.rows, key)?.line.seated(i)
    }

    /// The consumer is in line.
    pub fn enter(&mut self, key: &Key, c: u64) -> Result<(), NoMemory>
        requires { is_in c (line_of self.old key.now) ≡ false }
        ensures ok { OnOk result (Becomes (on_line (line_with c)) key.now self.old self.new) }
        ensures err { OnErr result (Stays self.old self.new) }
    {
        enter_in(self.alloc, &mut self.rows, key, c)
    }

    /// The consumer holds the turn.
    pub fn hold(&mut self, key: &Key, c: u64)
        requires inside { is_in c (line_of self.old key.now) ≡ true }
        requires turn { turn_of (line_of self.old key.now) ≡ Some c }
        ensures { Becomes (on_line (held_by c)) key.now self.old self.new }
    {
        hold_in(&mut self.rows, key, c);
    }

    /// The consumer has passed.
    pub fn pass(&mut self, key: &Key, c: u64)
        requires { is_in c (line_of self.old key.now) ≡ true }
        ensures { Becomes (on_line (line_after_pass c)) key.now self.old self.new }
    {
        reseat_in(&mut self.rows, key, c, Stand::Passed);
    }

    /// The consumer is away.
    pub fn away(&mut self, key: &Key, c: u64)
        requires { is_in c (line_of self.old key.now) ≡ true }
        ensures { Becomes (on_line (gone_away c)) key.now self.old self.new }
    {
        reseat_in(&mut self.rows, key, c, Stand::Away);
    }

    /// The consumer is in line again, and doesn't hold the turn.
    pub fn back(&mut self, key: &Key, c: u64)
        requires { is_in c (line_of self.old key.now) ≡ true }
        ensures { Becomes (on_line (come_back c)) key.now self.old self.new }
    {
        reseat_in(&mut self.rows, key, c, Stand::InLine);
    }

    /// Everyone who waits for the key is in line, and nobody holds the turn.
    pub fn all_back(&mut self, key: &Key)
        ensures { Becomes (on_line all_back) key.now self.old self.new }
    {
        all_back_in(&mut self.rows, key);
    }

    /// Whoever passed for the key is in line.
    pub fn passed_back(&mut self, key: &Key)
        ensures { Becomes (on_line passed_back) key.now self.old self.new }
    {
        passed_back_in(&mut self.rows, key);
    }

    /// The consumer waits for the key no more.
    pub fn leave(&mut self, key: &Key, c: u64)
        requires { is_in c (line_of self.old key.now) ≡ true }
        ensures { Becomes (on_line (left_by c)) key.now self.old self.new }
    {
        leave_in(&mut self.rows, key, c);
    }

    /// The representation is current.
    pub fn make_current(&mut self, key: &Key, r: u64) -> Result<(), NoMemory>
        ensures ok { OnOk result (Becomes (with_current (Some r)) key.now self.old self.new) }
        ensures err { OnErr result (Stays self.old self.new) }
    {
        make_current_in(self.alloc, &mut self.rows, key, r)
    }

    /// No representation is current.
    pub fn clear_current(&mut self, key: &Key)
        ensures { Becomes (with_current None) key.now self.old self.new }
    {
        clear_current_in(&mut self.rows, key);
    }
}
