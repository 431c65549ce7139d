//! The laws of texts that are handed in by pieces.
ghost use Rattle.hc_handle.specs.TextLaws.{AreTextsAsOne, AreReplayed, AreRefusedAlike};

/// However a text is cut, the reports of its pieces, one after another, are one report. It is the report
/// that a replay of the text makes over the same cache, and leads to the same. A text that is refused, a
/// replay refuses at the same line for the same reason.
pub fn texts_are_replayed()
    ensures one { AreTextsAsOne }
    ensures replayed { AreReplayed }
    ensures refused { AreRefusedAlike }
{}
