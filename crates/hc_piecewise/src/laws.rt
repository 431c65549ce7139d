//! The laws of texts that are handed in by pieces.
ghost use Rattle.hc_piecewise.specs.Texts.{ArePiecesAsOne, IsSteppedThrough, IsSteppedToRefusal};

use hc_event::Stepper;

/// Two pieces of a text are as one: they bring the same events, lead as far, and their reports one
/// after the other are its report. So it is of any number of pieces, however they are cut.
///
/// A text that is read from its beginning on, and isn't refused, is stepped through as
/// `hc_driver::step_through` does where all of it is read, and all of the report is taken. One that is
/// refused is stepped through up to there, as `hc_driver::step_through` does where it refuses the same.
pub fn pieces_are_as_one<T: Stepper>()
    ensures one { ArePiecesAsOne T.answers }
    ensures whole { IsSteppedThrough T.answers T.spent }
    ensures refused { IsSteppedToRefusal T.answers T.spent }
{}
