//! What slots weigh, when a write is too large or the store full, and what gives way.

/// What a slot weighs beside the bytes of its body.
pub const SLOT_WEIGHT: u64 = 32_768;

/// How much may be stored, in bytes.
#[derive(Clone, Copy)]
pub struct Limits {
    /// Body bytes of one representation.
    pub max_entry: u64,
    /// The sum of what all slots weigh.
    pub max_total: u64,
}

/// A write that is to come: a slot that is made, or a piece that is put into one.
#[derive(Clone, Copy)]
pub enum Write {
    /// A slot is made, without a body.
    Slot,
    /// So many bytes are put into a slot that has `stored` body bytes.
    Piece { stored: u64, count: u64 },
}

/// Whether there is room for a write.
#[derive(Clone, Copy, Debug, PartialEq, Eq)]
pub enum Room {
    /// There is, once so many of the idle ones are evicted, in their order.
    After(usize),
    /// There isn't: its representation may not have so many bytes.
    TooLarge,
    /// There isn't: without all of the idle ones it would still pass the limit of the store.
    Full,
}
