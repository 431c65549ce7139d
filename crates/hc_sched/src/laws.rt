//! The laws of schedules.
ghost use Rattle.hc_sched.specs.Laws.{IsReadAsSpelled, IsSpelledAsRead, HasOneSpelling, BringsItems, BringsAllItems, BringsTimed, StaysRefused, IsReadPiecewise};

/// A text has one reading: it spells items and then isn't refused, or it is refused and spells
/// none.
///
/// It spells one list of items at most. It brings the events of the whole items before its refusal,
/// of all of them and of no others; they have a spelling, and their moments don't go back. A
/// refusal stays whatever follows, but for that of a text that is cut short. However a text is cut
/// into pieces, it brings the same events and leads as far.
pub fn a_text_has_one_reading()
    ensures spelled { IsReadAsSpelled }
    ensures read { IsSpelledAsRead }
    ensures one { HasOneSpelling }
    ensures items { BringsItems }
    ensures all { BringsAllItems }
    ensures timed { BringsTimed }
    ensures stays { StaysRefused }
    ensures pieces { IsReadPiecewise }
{}
