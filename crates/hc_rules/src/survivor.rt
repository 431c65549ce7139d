//! The detached reader of a representation that is lost while several write it together.

/// A member of a writer group, and the position at which it stands.
#[derive(Clone, Copy)]
pub struct Member {
    pub c: u64,
    pub offset: u64,
}
