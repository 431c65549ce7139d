//! The least of numbers at places.
ghost use Rattle.std.specs.Prelude.{◌≡◌, ℕ, ◌+◌, ◌/◌, ◌%◌, ◌<◌, ◌≤◌, [], None, length, replicate, slice_set, IfOk, OnOk, OnErr};
ghost use Rattle.hc_entry.specs.Tournaments.{at, lesser_of, IsLeastAt, IsPlayed, IsPlayedBut};

use hc_text::NoMemory;
use std::alloc::Global;
use std::marker::Model;

/// Numbers at places, of which the least is known. They play a tournament: of two neighbours the lesser
/// goes on. So another number at a place costs one round for each doubling of the places.
///
/// Node 1 is the winner, nodes 2 i and 2 i + 1 play for node i, and the second half has the places.
#[derive(Drop)]
pub(crate) struct Tournament {
    nodes: Vec<Option<u64>>,
    /// How many places there are.
    places: usize,
}

impl Model for Tournament {
    ghost use Rattle.std.specs.Prelude.{ℕ, List, Option, drop};
    ghost use Rattle.hc_entry.specs.Tournaments.{IsTournament};

    ghost Value = { List (Option ℕ) };

    ghost view = { λ t. drop t.places t.nodes.items };

    ghost invariant = { λ t. IsTournament t.nodes.items t.places };
}

impl Tournament {
    /// There are no places.
    pub(crate) fn new(alloc: Global) -> Tournament
        ensures { result ≡ [] }
    {
        Tournament {
            nodes: Vec::new(alloc),
            places: 0,
        }
    }

    /// So many places without numbers.
    fn with_places(alloc: Global, places: usize) -> Result<Tournament, NoMemory>
        ensures { IfOk result (λ t. t ≡ replicate places None) }
    {
        let mut nodes = Vec::new(alloc);
        nodes.resize(places, None)?;
        nodes.resize(2 * nodes.len(), None)?;
        Ok(Tournament { nodes, places })
    }

    /// The least number.
    pub(crate) fn least(&self) -> Option<u64>
        ensures { IsLeastAt result self.now }
    {
        if self.places == 0 {
            None
        } else {
            self.nodes[1]
        }
    }

    /// The place has this number, or none.
    pub(crate) fn set(&mut self, place: usize, number: Option<u64>)
        requires { place < length self.old }
        ensures { self.new ≡ slice_set self.old place number }
    {
        let node = self.places + place;
        self.nodes[node] = number;
        replay(self.nodes.as_mut_slice(), node);
    }

    /// Has at least so many places.
    pub(crate) fn grow(&mut self, places: usize) -> Result<(), NoMemory>
        ensures ok { OnOk result (places ≤ length self.new) }
        ensures kept { length self.old ≤ length self.new }
        ensures same { (k : ℕ) → at self.new k ≡ at self.old k }
    {
        if places <= self.places {
            return Ok(());
        }
        let mut grown = Tournament::with_places(*self.nodes.allocator(), places)?;
        for place in 0..self.places {
            grown.set(place, self.nodes[self.places + place]);
        }
        *self = grown;
        Ok(())
    }
}

/// Plays the rounds above a node again.
fn replay(nodes: &mut [Option<u64>], node: usize)
    requires within { node < length nodes.old }
    requires even { length nodes.old % 2 ≡ 0 }
    requires played { IsPlayedBut (node / 2) nodes.old }
    ensures played { IsPlayed nodes.new }
    ensures places { (k : ℕ) → length nodes.old ≤ k + k → at nodes.new k ≡ at nodes.old k }
{
    let mut node = node;
    while node > 1 {
        node /= 2;
        nodes[node] = lesser_of(nodes[2 * node], nodes[2 * node + 1]);
    }
}

/// The lesser of the two, or the one that there is.
fn lesser_of(a: Option<u64>, b: Option<u64>) -> Option<u64>
    ensures { result ≡ lesser_of a b }
{
    match (a, b) {
        (Some(a), Some(b)) => Some(a.min(b)),
        (Some(a), None) => Some(a),
        (None, b) => b,
    }
}
