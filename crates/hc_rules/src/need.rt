//! What an exchange is for.
ghost use Rattle.std.specs.Prelude.{◌≡◌};
ghost use Rattle.hc_rules.specs.Needs.{route_of};

use hc_event::Need;

/// What an exchange may become.
#[derive(Clone, Copy, Debug, PartialEq, Eq)]
pub enum Route {
    /// It goes past the store.
    Direct,
    /// It has the turn of its key, and may found a representation or validate one.
    Turn,
    /// It fills a hole of a representation.
    Hole,
}

/// The route of an exchange that is opened for this need.
pub fn route_of(need: Need) -> Route
    ensures { result ≡ route_of need }
{
    match need {
        Need::Disabled | Need::TimedOut | Need::Unsatisfied => Route::Direct,
        Need::Bypass | Need::Miss | Need::Vary | Need::Validate => Route::Turn,
        Need::Hole { .. } => Route::Hole,
    }
}
