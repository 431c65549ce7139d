//! Calls of lists sorted by number.
ghost use Rattle.std.specs.Prelude.{◌≡◌, true};
ghost use Rattle.hc_text.specs.Sorted.{is_sorted, itself};

use hc_test_frame::{Fault, Vector, note};
use hc_text::{Numbered, has_item, item_at, leave_out, put_in, put_reserved, replace_in, take_out};
use std::alloc::Global;

/// Both kinds of lists.
#[derive(Drop)]
pub(crate) struct Sorted {
    numbers: Numbers,
    members: Members,
}

impl Sorted {
    /// Both are empty.
    pub(crate) fn new(alloc: Global) -> Sorted {
        Sorted {
            numbers: Numbers::new(alloc),
            members: Members::new(alloc),
        }
    }

    /// Makes the call.
    pub(crate) fn note(&mut self, v: &Vector, to: &mut String) -> Result<(), Fault> {
        if v.name().starts_with("numbers") {
            self.numbers.note(v, to)
        } else {
            self.members.note(v, to)
        }
    }
}

/// Numbers in order.
#[derive(Drop)]
struct Numbers {
    items: Vec<u64>,
    ghost sorted: { is_sorted itself items.items ≡ true },
}

impl Numbers {
    /// There are none.
    fn new(alloc: Global) -> Numbers {
        Numbers {
            items: Vec::new(alloc),
        }
    }

    /// Makes the call. One that may change something writes then all numbers.
    fn note(&mut self, v: &Vector, to: &mut String) -> Result<(), Fault> {
        let n = v.number(0);
        match v.call() {
            "numbers_has n" => note(&has_item(self.items.as_slice(), n), to),
            "numbers_item n" => note(&item_at(self.items.as_slice(), n), to),
            _ => {
                self.change(n, v, to)?;
                note(&self.items.as_slice(), to)
            }
        }
    }

    fn change(&mut self, n: u64, v: &Vector, to: &mut String) -> Result<(), Fault> {
        match v.call() {
            "numbers_new" => self.items.clear(),
            "numbers_put n" => return self.put(n),
            "numbers_put_reserved n" => return self.put_with_room(n),
            "numbers_take n" => return self.take(n, to),
            "numbers_leave n" => leave_out(&mut self.items, n),
            _ => return Err(Fault::NoSuchCall),
        }
        Ok(())
    }

    fn put(&mut self, n: u64) -> Result<(), Fault> {
        if has_item(self.items.as_slice(), n) {
            return Err(Fault::NoSuchCall);
        }
        Ok(put_in(&mut self.items, n)?)
    }

    /// Puts a number once there is room for it.
    fn put_with_room(&mut self, n: u64) -> Result<(), Fault> {
        self.items.reserve(1)?;
        if has_item(self.items.as_slice(), n) || self.items.capacity() <= self.items.len() {
            return Err(Fault::NoSuchCall);
        }
        put_reserved(&mut self.items, n);
        Ok(())
    }

    /// Takes a number out, and writes which.
    fn take(&mut self, n: u64, to: &mut String) -> Result<(), Fault> {
        if !has_item(self.items.as_slice(), n) {
            return Err(Fault::NoSuchCall);
        }
        let taken = take_out(&mut self.items, n);
        write!(to, "{taken}: ")?;
        Ok(())
    }
}

/// A consumer, and where it reads next.
#[derive(Clone, Copy)]
struct Member {
    c: u64,
    offset: u64,
}

impl Numbered for Member {
    ghost number = { λ m. m.c };

    fn number(&self) -> u64 {
        self.c
    }
}

/// Members in the order of their numbers.
#[derive(Drop)]
struct Members {
    items: Vec<Member>,
    ghost sorted: { is_sorted (λ m. m.c) items.items ≡ true },
}

impl Members {
    /// There are none.
    fn new(alloc: Global) -> Members {
        Members {
            items: Vec::new(alloc),
        }
    }

    /// Makes the call, and writes where a member reads next, if it is one.
    fn note(&mut self, v: &Vector, to: &mut String) -> Result<(), Fault> {
        let c = v.number(0);
        let offset = v.number(1);
        match v.call() {
            "members_new" => self.items.clear(),
            "members_put nn" => self.put(Member { c, offset })?,
            "members_replace nn" => self.replace(Member { c, offset })?,
            "members_item n" => {}
            _ => return Err(Fault::NoSuchCall),
        }
        note(&self.offset_of(c), to)
    }

    /// Where the member of this number reads next.
    fn offset_of(&self, c: u64) -> Option<u64> {
        Some(item_at(self.items.as_slice(), c)?.offset)
    }

    fn put(&mut self, member: Member) -> Result<(), Fault> {
        if has_item(self.items.as_slice(), member.c) {
            return Err(Fault::NoSuchCall);
        }
        Ok(put_in(&mut self.items, member)?)
    }

    fn replace(&mut self, member: Member) -> Result<(), Fault> {
        if !has_item(self.items.as_slice(), member.c) {
            return Err(Fault::NoSuchCall);
        }
        replace_in(&mut self.items, member);
        Ok(())
    }
}
