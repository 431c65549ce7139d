//! What the items before one say, and those behind it.
ghost use Rattle.std.specs.Prelude.{◌≡◌, ◌+◌, ◌<◌, ◌&&◌, ◌||◌, ◌==◌, ◌∷◌, [], ℕ, map, drop, length, List, nat_eq, nat_lt, bytes_eq, IfOk, OnOk};
ghost use Rattle.std.specs.HashMap.{get};
ghost use Rattle.std.specs.HashSet.{contains};
ghost use Rattle.std.specs.List.{list_any, list_all};
ghost use Rattle.hc_sparse.specs.declared.run.Run.{Run};
ghost use Rattle.hc_model.specs.Beginnings.{has_own_numbers};
ghost use Rattle.hc_model.specs.Entries as model;
ghost use Rattle.hc_contents.specs.Fit.{is_apart};
ghost use Rattle.hc_contents.specs.Known.{KnowsLast, is_from};
ghost use Rattle.hc_contents.specs.PlainContents.{plain_item};

use crate::contents::Content;
use hc_sparse::Run;
use hc_text::{Key, NoMemory};
use std::alloc::Global;
use std::collections::{HashMap, HashSet};

/// The keys and the numbers of some first items, and where each number stands as that of a
/// representation for the last time.
#[derive(Drop)]
pub(crate) struct Seen {
    keys: HashSet<Vec<u8>>,
    said: HashSet<u64>,
    last: HashMap<u64, usize>,
}

impl Seen {
    ghost use Rattle.hc_contents.specs.Known.{Knows, is_own_in};

    /// No item was seen of these.
    pub(crate) fn new(items: &[Content], alloc: Global) -> Result<Seen, NoMemory>
        ensures { IfOk result (λ seen. Knows seen [] (map plain_item items.now)) }
    {
        let last = last_places(items, alloc)?;
        Ok(Seen {
            keys: HashSet::new(alloc),
            said: HashSet::new(alloc),
            last,
        })
    }

    /// The item at this place has a key and numbers of its own, and these are below `end`.
    pub(crate) fn is_apart(&self, i: usize, item: &Content, end: u64) -> bool
        ensures { (contents : model.Contents) (earlier items : List model.Content)
            → Knows self.now earlier items → i < length items → contents.next_exchange ≡ end
            → result ≡ is_apart contents earlier (plain_item item.now) (drop (i + 1) items) }
    {
        !self.has_key(&item.key) && self.has_own_numbers(i, item, end)
    }

    /// An earlier item has this key.
    fn has_key(&self, key: &Key) -> bool
        ensures { (earlier items : List model.Content) → Knows self.now earlier items
            → result ≡ list_any (λ (other : model.Content). bytes_eq other.key key.now) earlier }
    {
        self.keys.contains(key.bytes.as_slice())
    }

    /// The item at this place has numbers of its own, and these are below `end`.
    fn has_own_numbers(&self, i: usize, item: &Content, end: u64) -> bool
        ensures { (contents : model.Contents) (earlier items : List model.Content)
            → Knows self.now earlier items → i < length items → contents.next_exchange ≡ end
            → result ≡ has_own_numbers contents earlier (plain_item item.now)
            (drop (i + 1) items) }
    {
        is_given_out(item.r, end)
            && !self.said.contains(&item.r)
            && self.has_own_runs(i, item.r, item.runs.as_slice(), end)
    }

    /// The runs are of exchanges whose numbers no earlier item says. Each is the item's own number `r`, or
    /// no later one's.
    fn has_own_runs(&self, i: usize, r: u64, runs: &[Run], end: u64) -> bool
        ensures { result ≡ list_all (is_own_in self.now i r end) runs.now }
    {
        runs.iter().all(|run| self.is_own(i, r, run, end))
    }

    /// So is that of one.
    fn is_own(&self, i: usize, r: u64, run: &Run, end: u64) -> bool
        ensures { result ≡ is_own_in self.now i r end run.now }
    {
        is_given_out(run.x, end)
            && !self.said.contains(&run.x)
            && (r == run.x || !self.stands_behind(i, run.x))
    }

    /// An item behind this place has the number.
    fn stands_behind(&self, i: usize, x: u64) -> bool
        ensures { result ≡ is_from (i + 1) (get nat_eq self.now.last x) }
    {
        match self.last.get(&x) {
            Some(last) => *last > i,
            None => false,
        }
    }

    /// One more was seen.
    pub(crate) fn add(&mut self, item: &Content) -> Result<(), NoMemory>
        ensures { OnOk result ((earlier items : List model.Content) → Knows self.old earlier items
            → Knows self.new (plain_item item.now ∷ earlier) items) }
    {
        let key = item.key.copy()?;
        self.keys.insert(key.bytes)?;
        self.said.insert(item.r)?;
        say_runs(&mut self.said, item.runs.as_slice())?;
        Ok(())
    }
}

/// Where each number stands as that of a representation for the last time.
fn last_places(items: &[Content], alloc: Global) -> Result<HashMap<u64, usize>, NoMemory>
    ensures { IfOk result (λ last. KnowsLast (get nat_eq last) (map plain_item items.now)) }
{
    let mut last = HashMap::new(alloc);
    for (i, item) in items.iter().enumerate() {
        last.insert(item.r, i)?;
    }
    Ok(last)
}

/// The numbers of the runs are said too.
fn say_runs(said: &mut HashSet<u64>, runs: &[Run]) -> Result<(), NoMemory>
    ensures { OnOk result ((x : ℕ) → contains nat_eq said.new x
        ≡ (list_any (λ (run : Run). run.x == x) runs.now || contains nat_eq said.old x)) }
{
    for run in runs {
        said.insert(run.x)?;
    }
    Ok(())
}

/// An exchange has this number.
fn is_given_out(x: u64, end: u64) -> bool
    ensures { result ≡ (nat_lt 0 x && nat_lt x end) }
{
    0 < x && x < end
}
