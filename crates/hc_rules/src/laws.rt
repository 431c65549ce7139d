//! What the tables come to, as the contracts of functions without a body.
ghost use Rattle.hc_rules.specs.Laws.{RangesAreSpelled, PartsAreSpelled, StrongTagsAreSpelled, DenialsAreLeast, CasesAreRight, LengthsAreRight, JoinsAreRight, PlansAreRight, StepsAreRight, ShortestGivesWay, SurvivorsAreLeast, AdmissionsAreRight, AdmitsAsPlanned};

/// What is read of Range, Content-Range and a strong ETag is what the grammar of RFC 9110 spells
/// (sections 8.8.3, 14.1.2 and 14.4).
pub fn texts_are_spelled()
    ensures ranges { RangesAreSpelled }
    ensures parts { PartsAreSpelled }
    ensures tags { StrongTagsAreSpelled }
{}

/// A denied event names the least refusal that applies to it, and to an accepted one none applies.
pub fn denials_are_least()
    ensures { DenialsAreLeast }
{}

/// Promised is what Content-Length says, or nothing of an answer without a body; a part is what
/// Content-Range says, and Content-Length says nothing else; where nothing is known, nothing was said.
pub fn lengths_are_right()
    ensures { LengthsAreRight }
{}

/// What a head founds may be stored and its write isn't lost; what validates or joins does so; only
/// a bad head is called bad.
pub fn cases_are_right()
    ensures { CasesAreRight }
{}

/// What joins is a part with a strongly equal tag and the same total, which brings bytes of the hole
/// from its start on and may be stored; and each such answer joins.
pub fn joins_are_right()
    ensures { JoinsAreRight }
{}

/// Who opens an exchange has the turn or goes past the store; what is read may be read, by a kept 304
/// or by freshness; nobody waits for 20 seconds; and who is for what is stored alone opens nothing.
pub fn plans_are_right()
    ensures { PlansAreRight }
{}

/// Nobody is told the end before the known end, and nobody fails, waits or asks the origin while
/// there are bytes to be given.
pub fn steps_are_right()
    ensures { StepsAreRight }
{}

/// What gives way is the shortest prefix of the idle ones that makes room, and the store is full only
/// where even all of them don't.
pub fn shortest_gives_way()
    ensures { ShortestGivesWay }
{}

/// Whoever writes alone has nobody beside it, and who reads has no writer beside it; and the plan for
/// an interval that may be read is the admission beside those who are bound.
pub fn admissions_are_right()
    ensures beside { AdmissionsAreRight }
    ensures planned { AdmitsAsPlanned }
{}

/// The survivor is the least of those that stand at the end of what is stored.
pub fn survivors_are_least()
    ensures { SurvivorsAreLeast }
{}
