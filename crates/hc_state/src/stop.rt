//! Exchanges that stop: who reads from them, and what becomes of what they brought.

/// What becomes of what an exchange brought when that is closed.
#[derive(Clone, Copy)]
pub enum Disposition {
    /// Nothing is stored by it that isn't gone.
    Nothing,
    /// It can't be completed later, and is let go.
    LetGo(u64),
    /// Its kind is sealed.
    Seal(u64),
}

/// Who reads from an exchange.
#[derive(Clone, Copy)]
pub enum Readers {
    /// The consumer whose own it is.
    One(u64),
    /// All who are bound to the representation that it writes for several.
    All(u64),
}
