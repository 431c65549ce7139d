//! What is kept of an exchange.
ghost use Rattle.std.specs.Prelude.{◌≡◌, Some, length, IfOk, OnOk, OnErr};
ghost use Rattle.hc_exch.specs.Known.{open_view, with_good_head, with_piece, is_last_of, CountsTo, view_of, is_wanted, exchange_at_opening};

use crate::held::Held;
use crate::role::Role;
use hc_event::{Need, Request};
use hc_rules::{Length, OpenExchange};
use hc_text::NoMemory;

/// What is told of an open exchange. Counts and positions are of bytes.
#[derive(Clone, Copy, Debug, PartialEq, Eq)]
pub struct ExchangeView {
    pub x: u64,
    /// The consumer for which it was opened.
    pub c: u64,
    pub role: Role,
    /// It has its head.
    pub headed: bool,
    /// A piece was asked for since the last one came.
    pub asked: bool,
    /// The position at which its body begins.
    pub base: u64,
    /// How much came.
    pub delivered: u64,
    /// How much its head promised, where that is told.
    pub promised: Option<u64>,
}

/// What an exchange was opened with. The moment is in whole seconds since 1970.
#[derive(Clone, Copy)]
pub struct Opening<'a> {
    pub need: &'a Need,
    pub request: &'a Request,
    pub moment: u64,
}

/// An open exchange. Counts and positions are of bytes.
#[derive(Drop)]
pub(crate) struct Open {
    pub(crate) c: u64,
    pub(crate) role: Role,
    pub(crate) need: Need,
    pub(crate) request: Request,
    pub(crate) moment: u64,
    pub(crate) headed: bool,
    pub(crate) asked: bool,
    pub(crate) base: u64,
    pub(crate) delivered: u64,
    pub(crate) promised: Option<u64>,
}

impl Open {
    /// One that was just opened, with a copy of the request.
    pub(crate) fn new(
        c: u64,
        role: Role,
        need: Need,
        request: &Request,
        moment: u64,
    ) -> Result<Open, NoMemory>
        ensures { IfOk result
            (λ begun. begun ≡ exchange_at_opening c role need request.now moment) }
    {
        Ok(Open {
            c,
            role,
            need,
            request: request.copy()?,
            moment,
            headed: false,
            asked: false,
            base: 0,
            delivered: 0,
            promised: None,
        })
    }

    /// What is told of it.
    pub(crate) fn view(&self, x: u64) -> ExchangeView
        ensures { result ≡ view_of x self.now }
    {
        ExchangeView {
            x,
            c: self.c,
            role: self.role,
            headed: self.headed,
            asked: self.asked,
            base: self.base,
            delivered: self.delivered,
            promised: self.promised,
        }
    }

    /// Whether a head or a piece of it is wanted.
    pub(crate) fn is_wanted(&self) -> bool
        ensures { result ≡ is_wanted (Some self.now) }
    {
        !self.headed || self.asked
    }

    /// As the refusals see it.
    pub(crate) fn seen(&self) -> OpenExchange
        ensures { result ≡ open_view self.now }
    {
        OpenExchange {
            headed: self.headed,
            asked: self.asked,
            delivered: self.delivered,
            promised: self.promised,
        }
    }
}

/// What is kept of an exchange: what is open, and what came and was not given yet.
#[derive(Drop)]
pub(crate) struct Row {
    pub(crate) running: Option<Open>,
    pub(crate) held: Held,
}

impl Row {
    ghost use Rattle.hc_exch.specs.Rows.{known_by};

    /// Its head came, which promises so much.
    pub(crate) fn head(&mut self, length: Length)
        ensures { known_by (Some self.new) ≡ with_good_head length (known_by (Some self.old)) }
    {
        if length.promise() == Some(0) {
            self.running = None;
        }
        if let Some(open) = &mut self.running {
            open.headed = true;
            open.base = length.base();
            open.promised = length.promise();
        }
    }

    /// A piece came. Where memory is refused nothing changes.
    pub(crate) fn piece(&mut self, bytes: &[u8], hold: bool) -> Result<(), NoMemory>
        requires { CountsTo (length bytes.now) (known_by (Some self.old)) }
        ensures ok { OnOk result
            (known_by (Some self.new) ≡ with_piece bytes.now hold (known_by (Some self.old))) }
        ensures err { OnErr result (known_by (Some self.new) ≡ known_by (Some self.old)) }
    {
        if hold {
            self.held.put(bytes)?;
        }
        if let Some(open) = &mut self.running {
            open.delivered += bytes.len() as u64;
            open.asked = false;
        }
        if is_over(&self.running) {
            self.running = None;
        }
        Ok(())
    }
}

/// Whether all that is promised came.
fn is_over(running: &Option<Open>) -> bool
    ensures { result ≡ is_last_of running.now 0 }
{
    match running {
        Some(open) => open.promised == Some(open.delivered),
        None => false,
    }
}
