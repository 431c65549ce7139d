//! The laws of messages.
ghost use Rattle.hc_msg.specs.Laws.{IsReadOneWay, IsReadPiecewise, StaysFailed};
ghost use Rattle.hc_msg.specs.NextParts.{IsWhatStandsNext};
ghost use Rattle.hc_msg.specs.Sizes.{IsSaidByEquations};
ghost use Rattle.hc_msg.specs.Spelled.{TokensAreSpelled};

/// Bytes are read one way, however they are cut.
///
/// From where a reading stands, bytes tell one list of heads and bytes of bodies at most, and lead to
/// one place at most. What they tell is what their pieces tell, one after another, and the last piece
/// leads where they lead. Behind an error nothing is told.
pub fn bytes_are_read_one_way()
    ensures one { IsReadOneWay }
    ensures pieces { IsReadPiecewise }
    ensures stays { StaysFailed }
{}

/// The requests and the heads of answers that bytes tell have a spelling in a schedule.
pub fn what_bytes_report_has_a_spelling()
    ensures { TokensAreSpelled }
{}

/// The size that a chunk line announces is told by equations: what the grammar reads they read alike,
/// and they read nothing else.
pub fn chunk_lines_are_read_by_equations()
    ensures { IsSaidByEquations }
{}

/// What stands next in an input is what its bytes lead to first: a head at its last byte, the longest run
/// of bytes of a body, the end of the message or an error. Where it waits all was read.
pub fn what_stands_next_is_read()
    ensures { IsWhatStandsNext }
{}
