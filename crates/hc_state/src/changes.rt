//! The changes of one consumer.
ghost use Rattle.std.specs.Prelude.{◌≡◌, ◌+◌, ◌≤◌, ◌^◌, IsSomeAnd, nat_eq};
ghost use Rattle.std.specs.Option.{option_and_then};
ghost use Rattle.std.specs.HashMap.{get};
ghost use Rattle.hc_text.specs.Sorted.{has, itself};
ghost use Rattle.hc_state.specs.DetachedReaders.{ChangesEach, after_parting};
ghost use Rattle.hc_txn.specs.Transactions.{without_own, founding as founds_with, lined_up, passed_for, bound_shown, bound_first, with_own, reading_past, answer_of, once_answered, once_shown, once_given, with_answer, standing_at, with_turn, once_over, put_down, with_due, with_end};
ghost use Rattle.hc_state.specs.Changes.{ChangesAt, ChangesAmong, over_if_passed};

use hc_event::{Cause, Place, Response};
use hc_range::Span;
use hc_txn::Transaction;
use std::collections::HashMap;

/// It reads the answer of its own exchange past the store.
pub fn read_past(consumers: &mut HashMap<u64, Transaction>, c: u64, x: u64)
    ensures { ChangesAt consumers.old consumers.new c (reading_past x) }
{
    if let Some(consumer) = consumers.get_mut(&c) {
        consumer.read_past(x);
    }
}

/// It is in line.
pub fn line_up(consumers: &mut HashMap<u64, Transaction>, c: u64)
    ensures { ChangesAt consumers.old consumers.new c lined_up }
{
    if let Some(consumer) = consumers.get_mut(&c) {
        consumer.line_up();
    }
}

/// It has passed, for this representation.
pub fn let_pass(consumers: &mut HashMap<u64, Transaction>, c: u64, r: u64)
    ensures { ChangesAt consumers.old consumers.new c (passed_for r) }
{
    if let Some(consumer) = consumers.get_mut(&c) {
        consumer.pass(r);
    }
}

/// It reads this of a representation by its plan, and was shown its head.
pub fn bind_shown(
    consumers: &mut HashMap<u64, Transaction>,
    c: u64,
    r: u64,
    lo: u64,
    hi: Option<u64>,
)
    ensures { ChangesAt consumers.old consumers.new c (bound_shown r lo hi) }
{
    if let Some(consumer) = consumers.get_mut(&c) {
        consumer.bind_shown(r, lo, hi);
    }
}

/// It is bound as the only one, and waits for the head of its own exchange.
pub fn bind_first(consumers: &mut HashMap<u64, Transaction>, c: u64, r: u64, span: Span, x: u64)
    ensures { ChangesAt consumers.old consumers.new c (bound_first r span x) }
{
    if let Some(consumer) = consumers.get_mut(&c) {
        consumer.bind_first(r, span, x);
    }
}

/// It reads this of what its own exchange founded. Where others read that too, it isn't its own any
/// more.
pub fn read_founded(
    consumers: &mut HashMap<u64, Transaction>,
    c: u64,
    r: u64,
    shared: bool,
    lo: u64,
    hi: Option<u64>,
)
    ensures { ChangesAt consumers.old consumers.new c (founds_with r shared lo hi) }
{
    if let Some(consumer) = consumers.get_mut(&c) {
        consumer.read_founded(r, shared, lo, hi);
    }
}

/// It has an exchange of its own.
pub fn own(consumers: &mut HashMap<u64, Transaction>, c: u64, x: u64)
    ensures { ChangesAt consumers.old consumers.new c (with_own x) }
{
    if let Some(consumer) = consumers.get_mut(&c) {
        consumer.set_own(x);
    }
}

/// It has the turn, and waits for the head of its own exchange.
pub fn take_turn(consumers: &mut HashMap<u64, Transaction>, c: u64, x: u64)
    ensures { ChangesAt consumers.old consumers.new c (with_turn x) }
{
    if let Some(consumer) = consumers.get_mut(&c) {
        consumer.take_turn(x);
    }
}

/// The head that it is to be shown, if there is one: it was shown that from now on.
pub fn show_answer(consumers: &mut HashMap<u64, Transaction>, c: u64) -> Option<Response>
    ensures head { result ≡ option_and_then answer_of (get nat_eq consumers.old c) }
    ensures shown { ChangesAt consumers.old consumers.new c once_answered }
{
    consumers.get_mut(&c)?.show_answer()
}

/// It was shown a head.
pub fn show(consumers: &mut HashMap<u64, Transaction>, c: u64)
    ensures { ChangesAt consumers.old consumers.new c once_shown }
{
    if let Some(consumer) = consumers.get_mut(&c) {
        consumer.show();
    }
}

/// It was given so many bytes more.
pub fn count_given(consumers: &mut HashMap<u64, Transaction>, c: u64, n: u64)
    requires { IsSomeAnd (get nat_eq consumers.old c) (λ k. k.given + n ≤ 2 ^ 62) }
    ensures { ChangesAt consumers.old consumers.new c (once_given n) }
{
    if let Some(consumer) = consumers.get_mut(&c) {
        consumer.count_given(n);
    }
}

/// The head of its answer past the store came, which begins and ends there.
pub fn take_answer(
    consumers: &mut HashMap<u64, Transaction>,
    c: u64,
    head: Response,
    lo: u64,
    hi: Option<u64>,
)
    ensures { ChangesAt consumers.old consumers.new c (with_answer head lo hi) }
{
    if let Some(consumer) = consumers.get_mut(&c) {
        consumer.take_answer(head, lo, hi);
    }
}

/// It stands there, and reads nothing yet.
pub fn stand(consumers: &mut HashMap<u64, Transaction>, c: u64, place: Place)
    ensures { ChangesAt consumers.old consumers.new c (standing_at place) }
{
    if let Some(consumer) = consumers.get_mut(&c) {
        consumer.stand(place);
    }
}

/// It is to fail.
pub fn fail_with(consumers: &mut HashMap<u64, Transaction>, c: u64, cause: Cause)
    ensures { ChangesAt consumers.old consumers.new c (put_down cause) }
{
    if let Some(consumer) = consumers.get_mut(&c) {
        consumer.fail_with(cause);
    }
}

/// This failure is due, unless another one is.
pub fn make_due(consumers: &mut HashMap<u64, Transaction>, c: u64, cause: Cause)
    ensures { ChangesAt consumers.old consumers.new c (with_due cause) }
{
    if let Some(consumer) = consumers.get_mut(&c) {
        consumer.make_due(cause);
    }
}

/// This failure is due to each of these, unless another one is.
pub fn make_all_due(consumers: &mut HashMap<u64, Transaction>, cs: &[u64], cause: Cause)
    ensures { ChangesAmong consumers.old consumers.new (λ c. has itself c cs.now)
        (with_due cause) }
{
    for c in cs {
        make_due(consumers, *c, cause);
    }
}

/// Its exchange isn't its own any more.
pub fn disown(consumers: &mut HashMap<u64, Transaction>, c: u64)
    ensures { ChangesAt consumers.old consumers.new c without_own }
{
    if let Some(consumer) = consumers.get_mut(&c) {
        consumer.disown();
    }
}

/// What these read together is lost: the detached reader, if there is one, goes on with the
/// exchange, and to each other this failure is due, unless another one is.
pub fn part(
    consumers: &mut HashMap<u64, Transaction>,
    cs: &[u64],
    detached_reader: Option<u64>,
    x: u64,
    cause: Cause,
)
    ensures { ChangesEach consumers.old consumers.new (λ c. has itself c cs.now)
        (after_parting detached_reader x cause) }
{
    for c in cs {
        if detached_reader == Some(*c) {
            own(consumers, *c, x);
        } else {
            make_due(consumers, *c, cause);
        }
    }
}

/// What it reads ends there, where it wasn't known where.
pub fn know_end(consumers: &mut HashMap<u64, Transaction>, c: u64, hi: u64)
    ensures { ChangesAt consumers.old consumers.new c (with_end hi) }
{
    if let Some(consumer) = consumers.get_mut(&c) {
        consumer.know_end(hi);
    }
}

/// What each of these reads ends there, where it wasn't known where.
pub fn know_ends(consumers: &mut HashMap<u64, Transaction>, cs: &[u64], hi: u64)
    ensures { ChangesAmong consumers.old consumers.new (λ c. has itself c cs.now) (with_end hi) }
{
    for c in cs {
        know_end(consumers, *c, hi);
    }
}

/// It stands in line again, as if it had just started.
pub fn start_over(consumers: &mut HashMap<u64, Transaction>, c: u64, now: u64)
    ensures { ChangesAt consumers.old consumers.new c (once_over now) }
{
    if let Some(consumer) = consumers.get_mut(&c) {
        consumer.start_over(now);
    }
}

/// It stands in line again, as if it had just started, where it has passed.
#[tactic(auto, using(crate::proofs::Passing::passed_alike))]
pub fn start_over_if_passed(consumers: &mut HashMap<u64, Transaction>, c: u64, now: u64)
    ensures { ChangesAt consumers.old consumers.new c (over_if_passed now) }
{
    if let Some(consumer) = consumers.get_mut(&c) {
        if consumer.has_passed() {
            consumer.start_over(now);
        }
    }
}
