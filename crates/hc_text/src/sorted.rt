//! Lists whose numbers rise: what has a number is found by halving, and changed where it stands.
ghost use Rattle.std.specs.Prelude.{◌≡◌, ℕ, ◌+◌, ◌<◌, ◌≤◌, true, false, Some, if◌then◌else◌, length, vec_len, vec_capacity, IsOk, OnOk, OnErr};
ghost use Rattle.std.specs.Option.{option_copied};
ghost use Rattle.hc_text.specs.Sorted.{is_sorted, has, item_with, with_item, without, with_replacement, place};

use crate::NoMemory;

/// What has a number, by which a list of it is in order.
pub trait Numbered {
    ghost number: { Self → ℕ };

    /// The number.
    fn number(&self) -> u64
        ensures { result ≡ number self.now };
}

impl Numbered for u64 {
    ghost number = { λ n. n };

    fn number(&self) -> u64 {
        *self
    }
}

/// Where that with this number stands, or is to stand.
fn place_of<T: Numbered>(items: &[T], n: u64) -> usize
    requires { is_sorted T.number items.now ≡ true }
    ensures place { result ≡ place T.number n items.now }
    ensures within { result ≤ length items.now }
{
    items.partition_point(|item| item.number() < n)
}

/// That with this number.
pub fn item_at<T: Numbered>(items: &[T], n: u64) -> Option<&T>
    requires { is_sorted T.number items.now ≡ true }
    ensures { option_copied result ≡ item_with T.number n items.now }
{
    let item = items.get(place_of(items, n))?;
    if item.number() == n { Some(item) } else { None }
}

/// Whether one has this number.
pub fn has_item<T: Numbered>(items: &[T], n: u64) -> bool
    requires { is_sorted T.number items.now ≡ true }
    ensures { result ≡ has T.number n items.now }
{
    item_at(items, n).is_some()
}

/// One more. Where there is room it takes no memory.
pub fn put_in<T: Numbered + Drop>(items: &mut Vec<T>, item: T) -> Result<(), NoMemory>
    requires ordered { is_sorted T.number items.old.items ≡ true }
    requires absent { has T.number (T.number item) items.old.items ≡ false }
    ensures ok { OnOk result (items.new.items ≡ with_item T.number item items.old.items) }
    ensures err { OnErr result (items.new.items ≡ items.old.items) }
    ensures ordered { is_sorted T.number items.new.items ≡ true }
{
    let at = place_of(items.as_slice(), item.number());
    items.insert(at, item)?;
    Ok(())
}

/// One more, for which there is room.
pub fn put_reserved<T: Numbered + Drop>(items: &mut Vec<T>, item: T)
    requires ordered { is_sorted T.number items.old.items ≡ true }
    requires absent { has T.number (T.number item) items.old.items ≡ false }
    requires room { vec_len items.old < vec_capacity items.old }
    ensures items { items.new.items ≡ with_item T.number item items.old.items }
    ensures ordered { is_sorted T.number items.new.items ≡ true }
    ensures len { vec_len items.new ≡ vec_len items.old + 1 }
    ensures capacity { vec_capacity items.new ≡ vec_capacity items.old }
{
    let at = place_of(items.as_slice(), item.number());
    if items.insert(at, item).is_err() {
        unreachable!();
    }
}

/// That with this number goes.
pub fn take_out<T: Numbered>(items: &mut Vec<T>, n: u64) -> T
    requires ordered { is_sorted T.number items.old.items ≡ true }
    requires there { has T.number n items.old.items ≡ true }
    ensures value { item_with T.number n items.old.items ≡ Some result }
    ensures items { items.new.items ≡ without T.number n items.old.items }
    ensures ordered { is_sorted T.number items.new.items ≡ true }
    ensures len { vec_len items.new + 1 ≡ vec_len items.old }
    ensures capacity { vec_capacity items.new ≡ vec_capacity items.old }
{
    let at = place_of(items.as_slice(), n);
    items.remove(at)
}

/// That with this number goes, if there is one.
pub fn leave_out<T: Numbered + Drop>(items: &mut Vec<T>, n: u64)
    requires { is_sorted T.number items.old.items ≡ true }
    ensures items { items.new.items ≡ without T.number n items.old.items }
    ensures ordered { is_sorted T.number items.new.items ≡ true }
    ensures len { vec_len items.new + (if has T.number n items.old.items then 1 else 0)
        ≡ vec_len items.old }
    ensures capacity { vec_capacity items.new ≡ vec_capacity items.old }
{
    if has_item(items.as_slice(), n) {
        take_out(items, n);
    }
}

/// Another in place of that with its number.
pub fn replace_in<T: Numbered + Drop>(items: &mut Vec<T>, item: T)
    requires ordered { is_sorted T.number items.old.items ≡ true }
    requires there { has T.number (T.number item) items.old.items ≡ true }
    ensures items { items.new.items ≡ with_replacement T.number item items.old.items }
    ensures ordered { is_sorted T.number items.new.items ≡ true }
    ensures capacity { vec_capacity items.new ≡ vec_capacity items.old }
{
    let at = place_of(items.as_slice(), item.number());
    items[at] = item;
}
