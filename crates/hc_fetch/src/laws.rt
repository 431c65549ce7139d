//! Laws.
ghost use Rattle.hc_fetch.specs.Laws.{WritesTheBody, WritesAllOfIt, WritesOn};

/// What a fetch writes is the body that its first consumer was shown, from its first byte on, and all of it
/// where the fetch is done. What was written stays, whatever happens.
pub fn what_is_written_is_the_body()
    ensures body { WritesTheBody }
    ensures all { WritesAllOfIt }
    ensures on { WritesOn }
{}
