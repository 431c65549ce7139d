//! What holds of the definitions, as contracts of functions that do nothing.
ghost use Rattle.hc_generate.specs.Summary.{OneMoreIsCounted};

/// What is counted event by event is the summary of all of them.
pub fn the_counts_are_the_summary()
    ensures { OneMoreIsCounted }
{}
