//! Who is bound to representations, and what becomes of them.
ghost use Rattle.std.specs.Prelude.{◌≡◌, ℕ, true, false, nat_eq, option_map, IfSome, OnOk, OnErr};
ghost use Rattle.std.specs.Option.{option_and_then};
ghost use Rattle.hc_stored.specs.Kept.{with_user, with_first, left_by, kept_as_gone, kept_as_lost, written_by};
ghost use Rattle.hc_stored.specs.Views.{admits, admits_first, has_user, is_lost_at};

use super::Entries;
use crate::rows::{
    bind_first_in, bind_in, drop_in, go_in, is_over, lose_in, lose_shared_in, stand_in, unbind_in,
    write_in,
};
use hc_store::Backend;
use hc_text::NoMemory;
use hc_writers::Left;

impl<B: Backend> Entries<B> {
    ghost use Rattle.hc_stored.specs.Entries.{shelf_of};
    ghost use Rattle.hc_stored.specs.Grouped.{group_of};
    ghost use Rattle.hc_entry.specs.Used.{left_answer, moved_if_member};
    ghost use Rattle.hc_stored.specs.Groups.{IsGroupOf};
    ghost use Rattle.hc_writers.specs.Group.{survivor};
    ghost use Rattle.hc_stored.specs.Shelf.{is_kept, same_order, moved_first, taken_out, Becomes, Stays};

    /// One more consumer is bound, and the representation stands first in the order.
    pub fn bind(&mut self, r: u64, c: u64) -> Result<(), NoMemory>
        requires { admits c ((shelf_of self.old).kept r) ≡ true }
        ensures ok { OnOk result (Becomes (option_map (with_user c)) (moved_first r)
            r (shelf_of self.old) (shelf_of self.new)) }
        ensures err { OnErr result (Stays (shelf_of self.old) (shelf_of self.new)) }
        ensures faults { (shelf_of self.new).faults ≡ (shelf_of self.old).faults }
    {
        bind_in(&mut self.rows, r, c)?;
        self.order.move_first(r);
        Ok(())
    }

    /// The same for one that comes alone.
    pub fn bind_first(&mut self, r: u64, c: u64) -> Result<(), NoMemory>
        requires { admits_first c ((shelf_of self.old).kept r) ≡ true }
        ensures ok { OnOk result (Becomes (option_map (with_first c)) (moved_first r)
            r (shelf_of self.old) (shelf_of self.new)) }
        ensures err { OnErr result (Stays (shelf_of self.old) (shelf_of self.new)) }
        ensures faults { (shelf_of self.new).faults ≡ (shelf_of self.old).faults }
    {
        bind_first_in(&mut self.rows, r, c)?;
        self.order.move_first(r);
        Ok(())
    }

    /// A consumer isn't bound any more. What is gone and has nobody now is dropped with its slot.
    /// What its writer group is then, where it was a member of one: the last of it leaves what is
    /// stored, which may be worth keeping.
    pub fn unbind(&mut self, r: u64, c: u64, keepable: bool) -> Option<Left>
        requires { has_user c ((shelf_of self.old).kept r) ≡ true }
        ensures left { result
            ≡ option_map (left_answer keepable c) (group_of self.old r) }
        ensures group { IfSome ((shelf_of self.old).kept r) (IsGroupOf (group_of self.old r)) }
        ensures changed { Becomes (option_and_then (left_by c)) same_order r
            (shelf_of self.old) (shelf_of self.new) }
        ensures faults { (shelf_of self.new).faults ≡ (shelf_of self.old).faults }
    {
        let left = unbind_in(&mut self.rows, r, c, keepable);
        if is_over(&self.rows, r) {
            let slot = drop_in(&mut self.rows, r);
            self.store.drop_slot(slot);
        }
        left
    }

    /// The representation is gone, and where nobody is bound to it, it is dropped with its slot.
    pub fn forget(&mut self, r: u64)
        requires { is_kept (shelf_of self.old) r ≡ true }
        ensures changed { Becomes (option_and_then kept_as_gone) (taken_out r) r
            (shelf_of self.old) (shelf_of self.new) }
        ensures faults { (shelf_of self.new).faults ≡ (shelf_of self.old).faults }
    {
        go_in(&mut self.rows, r);
        self.order.take_out(r);
        if is_over(&self.rows, r) {
            let slot = drop_in(&mut self.rows, r);
            self.store.drop_slot(slot);
        }
    }

    /// A write of the representation was refused, and this one, if any, goes on with it.
    pub fn lose(&mut self, r: u64, alone: Option<u64>)
        requires { is_kept (shelf_of self.old) r ≡ true }
        ensures changed { Becomes (option_map (kept_as_lost alone)) same_order r
            (shelf_of self.old) (shelf_of self.new) }
        ensures faults { (shelf_of self.new).faults ≡ (shelf_of self.old).faults }
    {
        lose_in(&mut self.rows, r, alone);
    }

    /// A consumer that reads the representation along stands there.
    pub fn set_offset(&mut self, r: u64, c: u64, offset: u64)
        ensures stays { Stays (shelf_of self.old) (shelf_of self.new) }
        ensures faults { (shelf_of self.new).faults ≡ (shelf_of self.old).faults }
        ensures group { group_of self.new r
            ≡ option_map (moved_if_member c offset) (group_of self.old r) }
        ensures others { (q : ℕ) → nat_eq q r ≡ false → group_of self.new q ≡ group_of self.old q }
    {
        stand_in(&mut self.rows, r, c, offset);
    }

    /// A write of the representation was refused while several read it along: the survivor of these
    /// goes on with it, if there is one.
    pub fn lose_shared(&mut self, r: u64) -> Option<u64>
        requires { is_kept (shelf_of self.old) r ≡ true }
        ensures survivor { result ≡ option_and_then survivor (group_of self.old r) }
        ensures group { IfSome ((shelf_of self.old).kept r) (IsGroupOf (group_of self.old r)) }
        ensures changed { Becomes (option_map (kept_as_lost result)) same_order r
            (shelf_of self.old) (shelf_of self.new) }
        ensures faults { (shelf_of self.new).faults ≡ (shelf_of self.old).faults }
    {
        lose_shared_in(&mut self.rows, r)
    }

    /// This exchange writes the representation for all, of which no write was refused.
    pub fn set_writer(&mut self, r: u64, x: u64) -> Result<(), NoMemory>
        requires there { is_kept (shelf_of self.old) r ≡ true }
        requires fresh { is_lost_at ((shelf_of self.old).kept r) ≡ false }
        ensures ok { OnOk result (Becomes (option_map (written_by x)) same_order r
            (shelf_of self.old) (shelf_of self.new)) }
        ensures err { OnErr result (Stays (shelf_of self.old) (shelf_of self.new)) }
        ensures faults { (shelf_of self.new).faults ≡ (shelf_of self.old).faults }
    {
        write_in(&mut self.rows, r, x)?;
        Ok(())
    }
}
