//! The laws of heads.
ghost use Rattle.hc_head.specs.Decoding.{IsAskedByEquations, IsHeardByEquations};
ghost use Rattle.hc_head.specs.Spellings.{GrantsAreSpelled, ShownAreSpelled};

/// What a head of at most 32,768 bytes grants or shows has a spelling in a schedule.
///
/// A request has a method and a target as an event has them. An answer has a status of 200 to 599.
/// The fields are sorted, at most 64, of at most 32,768 bytes.
pub fn what_is_reported_has_a_spelling()
    ensures requests { GrantsAreSpelled }
    ensures answers { ShownAreSpelled }
{}

/// What the text of a whole head says is told by equations: what the grammar reads they read alike,
/// and they read nothing else.
pub fn heads_are_read_by_equations()
    ensures requests { IsAskedByEquations }
    ensures answers { IsHeardByEquations }
{}
