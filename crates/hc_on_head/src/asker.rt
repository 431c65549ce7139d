//! What becomes of a consumer that waits for the head of its exchange.
ghost use Rattle.std.specs.Prelude.{◌≡◌, ℕ, true, Some, is_some, nat_eq, IsSomeAnd};
ghost use Rattle.std.specs.HashMap.{get};
ghost use Rattle.hc_model.specs.ConsumerRows.{back_in_line};
ghost use Rattle.hc_event.specs.declared.place.Place.TheVariants as place;
ghost use Rattle.hc_model.specs.Effects.{with_consumer, with_representation};
ghost use Rattle.hc_model.specs.Lawful.{Lawful};
ghost use Rattle.hc_model.specs.Rows.{Tables, Exchange, Representation, Consumer};
ghost use Rattle.hc_model.specs.StartingOver.{awaited_exchange};
ghost use Rattle.hc_rules.specs.declared.room.Limits.{Limits};
ghost use Rattle.hc_state.specs.Handlers.{IsInKey};
ghost use Rattle.hc_state.specs.Facts.{Facts};
ghost use Rattle.hc_state.specs.Heads.{AwaitsHead, StandsApart};
ghost use Rattle.hc_state.specs.Stands.{RowsStand, Stands};
ghost use Rattle.hc_state.specs.Frames.{KeepsExchanges};

use hc_event::Place;
use hc_on_leave::gone::{leave_key, unbind_from};
use hc_state::{Rows, stand, start_over};
use hc_store::Backend;

/// A consumer that waits for the head of its exchange waits for its key no more, is bound to
/// nothing, and stands there: it reads that exchange past the store, or is to fail.
pub fn fall_back<B: Backend>(rows: &mut Rows<B>, c: u64, place: Place)
    requires stands { ∥ Stands rows.old ∥₁ }
    requires live { is_some (get nat_eq rows.old.consumers c) ≡ true }
    ensures stands { (limits : Limits) (t : Tables) (x : ℕ) (w : Exchange) (k : Consumer)
        → Facts limits t → AwaitsHead t x w k → w.c ≡ c → StandsApart x place
        → RowsStand limits rows.old t
        → RowsStand limits rows.new (with_consumer c (Some (record k { place = place })) t) }
    ensures rest { KeepsExchanges rows.old rows.new }
{
    let consumer = rows.consumers.get(&c).unwrap();
    leave_key(&mut rows.keys, &consumer.request.key, c);
    unbind_from(&mut rows.entries, consumer.place, c);
    stand(&mut rows.consumers, c, place);
}

/// A consumer that waits for the head of its exchange, with the turn or for a first hole, stands
/// in line again, as if it had just started.
pub(crate) fn send_back<B: Backend>(rows: &mut Rows<B>, now: u64, c: u64)
    requires stands { ∥ Stands rows.old ∥₁ }
    requires waits { IsSomeAnd (get nat_eq rows.old.consumers c) (IsInKey rows.old.keys c) }
    ensures stands { (limits : Limits) (t : Tables) (x : ℕ) (w : Exchange) (k : Consumer)
        → Facts limits t → AwaitsHead t x w k → w.c ≡ c → awaited_exchange k.place ≡ Some x
        → RowsStand limits rows.old t
        → RowsStand limits rows.new (with_consumer c (Some (back_in_line now k)) t) }
    ensures rest { KeepsExchanges rows.old rows.new }
{
    let consumer = rows.consumers.get(&c).unwrap();
    rows.keys.back(&consumer.request.key, c);
    unbind_from(&mut rows.entries, consumer.place, c);
    start_over(&mut rows.consumers, c, now);
}

/// A consumer that waits for the head of its exchange, with the turn, may read what that
/// validated.
pub fn let_through<B: Backend>(rows: &mut Rows<B>, c: u64, r: u64, x: u64)
    requires waits { IsSomeAnd (get nat_eq rows.old.consumers c) (IsInKey rows.old.keys c) }
    ensures stands { (limits : Limits) (t : Tables) (w : Exchange) (k : Consumer)
        (v : Representation) → Lawful t → AwaitsHead t x w k → w.c ≡ c → k.place ≡ place.Turn x
        → RowsStand limits rows.old (with_representation r (Some v) t)
        → RowsStand limits rows.new (with_consumer c
        (Some (record k { place = place.Passed r (Some x) }))
        (with_representation r (Some v) t)) }
    ensures rest { KeepsExchanges rows.old rows.new }
{
    let consumer = rows.consumers.get(&c).unwrap();
    rows.keys.pass(&consumer.request.key, c);
    stand(&mut rows.consumers, c, Place::Passed { r, kept: Some(x) });
}
