//! How long a wire waits for the other side.
ghost use Rattle.std.specs.Prelude.{◌≡◌, ◌-◌, ◌^◌};

/// For how many seconds a wire waits for the other side, before it takes a connection for broken, and
/// how many clients it has at once.
#[derive(Clone, Copy, Debug, PartialEq, Eq)]
pub struct Patience {
    /// For a first byte of a client that is read. Such a one has no request under way.
    pub idle: u64,
    /// For the rest of what a client has begun to send, as long as it is read.
    pub head: u64,
    /// For a byte of a connection that was dialled, as long as it is read.
    pub origin: u64,
    /// Where so many clients are connected and one more comes, the idlest has to go before.
    pub clients: usize,
}

impl Patience {
    /// Waits for ever, and for however many clients.
    pub fn endless() -> Patience
        ensures idle { result.idle ≡ 2 ^ 64 - 1 }
        ensures head { result.head ≡ 2 ^ 64 - 1 }
        ensures origin { result.origin ≡ 2 ^ 64 - 1 }
        ensures clients { result.clients ≡ 2 ^ 64 - 1 }
    {
        Patience {
            idle: u64::MAX,
            head: u64::MAX,
            origin: u64::MAX,
            clients: usize::MAX,
        }
    }
}
