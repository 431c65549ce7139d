//! What the origin owes to exchanges.
ghost use Rattle.std.specs.Prelude.{◌≡◌, ◌+◌, ◌<◌, ◌^◌, true, IfOk, vec_len, vec_capacity};
ghost use Rattle.hc_text.specs.Sorted.{is_sorted, has};
ghost use Rattle.hc_generate.specs.Hearing.{with_begun};
ghost use Rattle.hc_generate.specs.Sending.{Brings, next_piece, number_of, origin_bytes, owed_then};

use hc_event::{Event, Request};
use hc_text::{Bytes, NoMemory, Numbered, leave_out, put_reserved, replace_in};
use hc_validate::{origin_answer, origin_byte};
use std::alloc::Global;

/// A piece has no more bytes.
const MOST: u64 = 512;

/// What is owed to an exchange.
#[derive(Drop)]
pub(crate) enum Owed {
    /// The answer to this request.
    Answer(Request),
    /// The bytes of positions from `at` up to `hi`, exclusive.
    Bytes { at: u64, hi: u64 },
}

/// An exchange that something is owed to.
#[derive(Drop)]
pub(crate) struct Exchange {
    pub(crate) x: u64,
    pub(crate) owed: Owed,
}

impl Numbered for Exchange {
    ghost number = { λ e. e.x };

    fn number(&self) -> u64 {
        self.x
    }
}

/// What comes of what is owed, and which bytes are owed then.
#[derive(Drop)]
pub(crate) struct Brought {
    pub(crate) event: Event,
    pub(crate) at: u64,
    pub(crate) hi: u64,
}

impl Owed {
    /// The head, or the next bytes, for the exchange `x`.
    pub(crate) fn bring(&self, alloc: Global, x: u64) -> Result<Brought, NoMemory>
        ensures { IfOk result (λ brought. Brings x self.now brought) }
    {
        match self {
            Owed::Answer(request) => {
                let answer = origin_answer(request)?;
                Ok(Brought {
                    event: Event::Head {
                        x,
                        response: answer.response,
                    },
                    at: answer.lo,
                    hi: answer.hi,
                })
            }
            Owed::Bytes { at, hi } => next_piece(alloc, x, *at, *hi),
        }
    }
}

/// The next of the bytes from `at` up to `hi`.
fn next_piece(alloc: Global, x: u64, at: u64, hi: u64) -> Result<Brought, NoMemory>
    ensures { IfOk result (λ brought. brought ≡ next_piece x at hi) }
{
    let n = hi.saturating_sub(at).min(MOST);
    let bytes = origin_bytes(alloc, at, n)?;
    Ok(Brought {
        event: Event::Piece { x, bytes },
        at: at + n,
        hi,
    })
}

/// So many bytes of the origin, from a position on.
fn origin_bytes(alloc: Global, at: u64, n: u64) -> Result<Bytes, NoMemory>
    requires { at + n < 2 ^ 64 }
    ensures { IfOk result (λ bytes. bytes ≡ origin_bytes at n) }
{
    let mut bytes = Vec::new(alloc);
    bytes.reserve(n as usize)?;
    for i in 0..n {
        bytes.push(origin_byte(at + i))?;
    }
    Ok(Bytes::of(bytes))
}

/// The exchange is owed the bytes from `at` up to `hi`. Where these are none it is forgotten.
pub(crate) fn owe(exchanges: &mut Vec<Exchange>, x: u64, at: u64, hi: u64)
    requires ordered { is_sorted number_of exchanges.old.items ≡ true }
    requires there { has number_of x exchanges.old.items ≡ true }
    ensures items { exchanges.new.items ≡ owed_then x at hi exchanges.old.items }
    ensures ordered { is_sorted number_of exchanges.new.items ≡ true }
{
    if at < hi {
        replace_in(
            exchanges,
            Exchange {
                x,
                owed: Owed::Bytes { at, hi },
            },
        );
    } else {
        leave_out(exchanges, x);
    }
}

/// An exchange that is begun stands in place of any of its number. There is room for it.
pub(crate) fn put_begun(exchanges: &mut Vec<Exchange>, begun: Option<Exchange>)
    requires ordered { is_sorted number_of exchanges.old.items ≡ true }
    requires room { vec_len exchanges.old < vec_capacity exchanges.old }
    ensures items { exchanges.new.items ≡ with_begun begun exchanges.old.items }
    ensures ordered { is_sorted number_of exchanges.new.items ≡ true }
{
    if let Some(exchange) = begun {
        leave_out(exchanges, exchange.x);
        put_reserved(exchanges, exchange);
    }
}
