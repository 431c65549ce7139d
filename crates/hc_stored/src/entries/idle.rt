//! What gives way where there is no room.
ghost use Rattle.std.specs.Prelude.{◌≡◌, ◌+◌, ◌^◌, ◌<◌, ℕ, List, map, IfOk};
ghost use Rattle.std.specs.List.{sum_by};
ghost use Rattle.hc_rules.specs.Rooms.{room_of, room_by, gives_way};

use super::Entries;
use crate::rows::{is_unused, slot_in};
use hc_rules::{Room, SLOT_WEIGHT, Write};
use hc_store::Backend;
use hc_text::NoMemory;

impl<B: Backend> Entries<B> {
    ghost use Rattle.hc_stored.specs.Entries.{shelf_of};
    ghost use Rattle.hc_stored.specs.Shelf.{weight_at, idle, first_of, ListsKept};

    /// What all representations weigh.
    pub fn used(&self) -> u64
        ensures weights { result ≡ (shelf_of self.now).used }
        ensures sum { (rs : List ℕ) → ListsKept (shelf_of self.now) rs →
            result ≡ sum_by (weight_at (shelf_of self.now)) rs }
    {
        self.store.used()
    }

    /// Whether there is room for a write, and how many idle ones have to be evicted for it, in the order in
    /// which `first_idle` names them.
    #[tactic(auto, unfolding(hc_rules::specs::Rooms::room_of))]
    pub fn room(&self, write: Write) -> Room
        ensures { result ≡ room_of (shelf_of self.now).limits (shelf_of self.now).used write
            (map (weight_at (shelf_of self.now)) (idle (shelf_of self.now))) }
    {
        let most = self.limits.max_entry;
        match write {
            Write::Slot => self.room_for(SLOT_WEIGHT),
            Write::Piece { stored, count } if stored > most || count > most - stored =>
                Room::TooLarge,
            Write::Piece { count, .. } => self.room_for(count),
        }
    }

    /// Whether there is room for so much more, and how many idle ones have to be evicted for it.
    fn room_for(&self, more: u64) -> Room
        ensures { result ≡ room_by (gives_way (shelf_of self.now).limits.max_total
            ((shelf_of self.now).used + more)
            (map (weight_at (shelf_of self.now)) (idle (shelf_of self.now)))) }
    {
        let most = u128::from(self.limits.max_total);
        let mut left = u128::from(self.store.used()) + u128::from(more);
        let total = self.order.len();
        let mut count = 0;
        for (r, _) in self.order.from_last() {
            if left <= most {
                return Room::After(count);
            }
            if is_unused(&self.rows, *r) {
                let weight = self.store.used_by(slot_in(&self.rows, *r));
                left = left.saturating_sub(u128::from(weight));
                prove!(count < total);
                count += 1;
            }
        }
        if left <= most {
            Room::After(count)
        } else {
            Room::Full
        }
    }

    /// The idle ones, first the one to which none was bound for longest.
    pub fn idle(&self) -> Result<Vec<u64>, NoMemory>
        ensures { IfOk result (λ rs. rs.items ≡ idle (shelf_of self.now)) }
    {
        let mut idle = Vec::new(self.alloc);
        for (r, _) in self.order.from_last() {
            if is_unused(&self.rows, *r) {
                idle.push(*r)?;
            }
        }
        Ok(idle)
    }

    /// The idle one to which none was bound for longest. It is evicted by `forget`.
    pub fn first_idle(&self) -> Option<u64>
        ensures { result ≡ first_of (idle (shelf_of self.now)) }
    {
        for (r, _) in self.order.from_last() {
            if is_unused(&self.rows, *r) {
                return Some(*r);
            }
        }
        None
    }
}
