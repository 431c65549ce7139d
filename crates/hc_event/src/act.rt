//! Acts: what the cache does at an event.
ghost use Rattle.std.specs.Prelude.{◌≡◌, IfOk};

use crate::event::Request;
use hc_fields::Fields;
use hc_text::{Bytes, NoMemory};

/// Why an exchange is opened.
#[derive(Clone, Copy, Debug, PartialEq, Eq)]
pub enum Need {
    /// The request is none that the cache serves.
    Disabled,
    /// The consumer waited for 20 seconds.
    TimedOut,
    /// The request goes past the cache.
    Bypass,
    /// Nothing is stored.
    Miss,
    /// What is stored answers other request fields (RFC 9111 section 4.1).
    Vary,
    /// What is stored is to be validated (RFC 9111 section 4.3).
    Validate,
    /// The bytes from `from` up to `to`, exclusive, are not stored.
    Hole { from: u64, to: u64 },
    /// The range asked for is past the end of what is stored.
    Unsatisfied,
}

/// What a consumer waits for.
#[derive(Clone, Copy, Debug, PartialEq, Eq)]
pub enum Wait {
    /// The turn of this consumer.
    Turn(u64),
    /// This consumer, which uses what is stored.
    Busy(u64),
    /// The head of this exchange.
    Head(u64),
    /// The next bytes of this exchange.
    Body(u64),
}

/// Why a head may be shown. Ages and lifetimes are whole seconds.
#[derive(Clone, Copy, Debug, PartialEq, Eq)]
pub enum Why {
    /// This exchange brought it for the consumer.
    Fetched(u64),
    /// It is fresh (RFC 9111 section 4.2).
    Fresh { age: u64, lifetime: u64 },
    /// It is stale, and the request accepts that (RFC 9111 section 4.2.4).
    StaleAllowed { age: u64, lifetime: u64 },
    /// This exchange validated or joined it (RFC 9111 section 4.3).
    Validated(u64),
}

/// Why a consumer fails.
#[derive(Clone, Copy, Debug, PartialEq, Eq)]
pub enum Cause {
    /// This exchange broke.
    Net(u64),
    /// This exchange ended below its promise. Both are counts of bytes.
    Short { x: u64, got: u64, promised: u64 },
    /// This exchange brought another representation.
    Changed(u64),
    /// A write of this representation failed.
    StoreWrite(u64),
    /// A read of this representation failed.
    StoreRead(u64),
    /// The request is for what is stored alone, and nothing is.
    Miss,
    /// The head of this exchange declares no usable length.
    BadHead(u64),
}

/// Why a representation is lost.
#[derive(Clone, Copy, Debug, PartialEq, Eq)]
pub enum LostKind {
    /// The store failed.
    Fault,
    /// One entry may not have so many bytes.
    TooLarge,
    /// All entries together may not have so many bytes.
    Full,
}

/// Why an event is denied, in the order in which the reasons are tested.
#[derive(Clone, Copy, Debug, PartialEq, Eq)]
pub enum Refusal {
    /// A start whose number is not above `last`, that of the last accepted one, 0 at first.
    NotRising { last: u64 },
    /// A start while 1,024 consumers are live.
    TooManyConsumers,
    /// No consumer of this number has started.
    NoConsumer,
    /// The consumer is not live any more, or was passed over.
    Finished,
    /// A poll for no byte.
    WantZero,
    /// The exchange is not open.
    NoExchange,
    /// The exchange has its head.
    HeadTwice,
    /// The exchange has no head.
    NoHeadYet,
    /// No piece was asked for.
    NotAsked,
    /// The piece has no byte.
    EmptyPiece,
    /// The piece would pass what its exchange promised, in bytes.
    Overlong { promised: u64 },
}

/// What the cache does at an event.
#[derive(Drop)]
pub enum Act {
    /// The exchange `x` is opened for the consumer `c`, with this request.
    Opened {
        x: u64,
        c: u64,
        need: Need,
        request: Request,
    },
    /// The next piece of the exchange is asked for.
    Ask {
        x: u64,
    },
    /// The exchange is closed.
    Close {
        x: u64,
    },
    /// The consumer is shown a head of the representation `r`. Its bytes are those from `lo` up to
    /// `hi`, exclusive, where that is known.
    Shown {
        c: u64,
        r: u64,
        why: Why,
        status: u16,
        fields: Fields,
        lo: u64,
        hi: Option<u64>,
    },
    /// The consumer is given bytes of the position `at` on, which the exchange `x` delivered.
    Given {
        c: u64,
        x: u64,
        at: u64,
        bytes: Bytes,
    },
    /// The consumer has all of its bytes.
    Ended {
        c: u64,
    },
    /// The consumer fails.
    Failed {
        c: u64,
        cause: Cause,
    },
    /// The consumer is to poll again later.
    Pending {
        c: u64,
        wait: Wait,
    },
    /// The representation `r` is lost.
    Lost {
        r: u64,
        kind: LostKind,
    },
    /// What is stored of the representation `r` makes room for more.
    Evicted {
        r: u64,
    },
    /// The event is denied: it changes nothing but the moment.
    Denied {
        refusal: Refusal,
    },
}

impl Act {
    ghost use Rattle.hc_event.specs.Plain.{IsPlain};

    /// An equal value of its own.
    pub fn copy(&self) -> Result<Act, NoMemory>
        ensures { IfOk result (λ copy. copy ≡ self.now) }
    {
        Ok(match self {
            Act::Opened {
                x,
                c,
                need,
                request,
            } => Act::Opened {
                x: *x,
                c: *c,
                need: *need,
                request: request.copy()?,
            },
            Act::Shown {
                c,
                r,
                why,
                status,
                fields,
                lo,
                hi,
            } => Act::Shown {
                c: *c,
                r: *r,
                why: *why,
                status: *status,
                fields: fields.copy()?,
                lo: *lo,
                hi: *hi,
            },
            Act::Given { c, x, at, bytes } => Act::Given {
                c: *c,
                x: *x,
                at: *at,
                bytes: bytes.copy()?,
            },
            _ => self.copy_plain(),
        })
    }

    /// An equal act, of those that hold neither fields nor bytes.
    fn copy_plain(&self) -> Act
        requires { IsPlain self.now }
        ensures { result ≡ self.now }
    {
        match self {
            Act::Ask { x } => Act::Ask { x: *x },
            Act::Close { x } => Act::Close { x: *x },
            Act::Ended { c } => Act::Ended { c: *c },
            Act::Failed { c, cause } => Act::Failed {
                c: *c,
                cause: *cause,
            },
            Act::Pending { c, wait } => Act::Pending { c: *c, wait: *wait },
            Act::Lost { r, kind } => Act::Lost { r: *r, kind: *kind },
            Act::Evicted { r } => Act::Evicted { r: *r },
            Act::Denied { refusal } => Act::Denied { refusal: *refusal },
            _ => unreachable!(),
        }
    }
}
