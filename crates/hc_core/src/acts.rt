//! How many acts an event may have.

/// No event has more acts than this: a doom closes an exchange of each live consumer at most.
pub const MOST_ACTS: usize = 1024;
