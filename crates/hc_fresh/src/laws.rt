//! What the table of freshness comes to, as the contract of a function without a body.
ghost use Rattle.hc_fresh.specs.Laws.{UsesAreRight};

/// What is used without validation is fresh, or stale with leave: the age and the lifetime that are told
/// are those of the head, Fresh is told below the lifetime alone, and StaleAllowed from it on, of a head
/// without `must-revalidate`, where the load is Skip or `max-stale` accepts the excess. Nothing is used
/// where the load, `max-age=0` or the stored `no-cache` asks for validation, where it is older than asked,
/// or not fresh for long enough.
pub fn uses_are_right()
    ensures { UsesAreRight }
{}
