//! Events: what comes from outside.
ghost use Rattle.std.specs.Prelude.{◌≡◌, IfOk};

use hc_fields::Fields;
use hc_text::{Bytes, Key, MethodName, NoMemory};

/// How a request asks the cache to treat what is stored.
#[derive(Clone, Copy, Debug, PartialEq, Eq)]
pub enum Load {
    /// As RFC 9111 allows a private cache.
    Normal,
    /// Never without a validation.
    Validate,
    /// Past the cache, and what was stored is forgotten.
    Bypass,
    /// Also a stale answer.
    Skip,
    /// Only from the cache.
    Only,
    /// As if there were no cache.
    Disable,
}

/// A request from above.
#[derive(Drop)]
pub struct Request {
    pub method: MethodName,
    pub key: Key,
    pub load: Load,
    pub fields: Fields,
}

impl Request {
    /// An equal value of its own.
    pub fn copy(&self) -> Result<Request, NoMemory>
        ensures { IfOk result (λ copy. copy ≡ self.now) }
    {
        let method = self.method.copy()?;
        let key = self.key.copy()?;
        let fields = self.fields.copy()?;
        Ok(Request {
            method,
            key,
            load: self.load,
            fields,
        })
    }
}

/// The head of an answer: its status, from 200 to 599, and its fields.
#[derive(Drop)]
pub struct Response {
    pub status: u16,
    pub fields: Fields,
}

impl Response {
    /// An equal value of its own.
    pub fn copy(&self) -> Result<Response, NoMemory>
        ensures { IfOk result (λ copy. copy ≡ self.now) }
    {
        let fields = self.fields.copy()?;
        Ok(Response {
            status: self.status,
            fields,
        })
    }
}

/// What comes from outside. Consumers `c` and exchanges `x` are numbered from 1.
#[derive(Drop)]
pub enum Event {
    /// A consumer begins with its request.
    Start { c: u64, request: Request },
    /// A consumer asks for at most `want` bytes, from 1 to 65,536.
    Poll { c: u64, want: u32 },
    /// The head of an exchange came.
    Head { x: u64, response: Response },
    /// Bytes of the body of an exchange came.
    Piece { x: u64, bytes: Bytes },
    /// An exchange ended cleanly.
    End { x: u64 },
    /// An exchange broke.
    Fault { x: u64 },
    /// A consumer leaves.
    Cancel { c: u64 },
    /// What is stored for the key is not to be used any more.
    Doom { key: Key },
}

impl Event {
    /// An equal value of its own.
    pub fn copy(&self) -> Result<Event, NoMemory>
        ensures { IfOk result (λ copy. copy ≡ self.now) }
    {
        Ok(match self {
            Event::Start { c, request } => Event::Start {
                c: *c,
                request: request.copy()?,
            },
            Event::Poll { c, want } => Event::Poll { c: *c, want: *want },
            Event::Head { x, response } => Event::Head {
                x: *x,
                response: response.copy()?,
            },
            Event::Piece { x, bytes } => Event::Piece {
                x: *x,
                bytes: bytes.copy()?,
            },
            Event::End { x } => Event::End { x: *x },
            Event::Fault { x } => Event::Fault { x: *x },
            Event::Cancel { c } => Event::Cancel { c: *c },
            Event::Doom { key } => Event::Doom { key: key.copy()? },
        })
    }
}
