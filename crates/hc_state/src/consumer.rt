//! Where a consumer waits for a head.
ghost use Rattle.std.specs.Prelude.{◌≡◌};
ghost use Rattle.hc_model.specs.StartingOver.{awaited_exchange};

use hc_event::{BoundBy, Place};

/// The exchange for whose head one waits there, to found or to join by it.
pub fn awaited(place: Place) -> Option<u64>
    ensures { result ≡ awaited_exchange place }
{
    match place {
        Place::Turn(x)
        | Place::Bound {
            by: BoundBy::FirstHole(x),
            ..
        } => Some(x),
        _ => None,
    }
}
