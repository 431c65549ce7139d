//! The exchange table.
ghost use Rattle.std.specs.Prelude.{◌≡◌, ◌≢◌, ℕ, ◌+◌, ◌≤◌, ◌<◌, ◌^◌, Some, None, Ok, true, false, is_some, length, take, nat_eq, IfOk, OnOk, OnErr, not};
ghost use Rattle.std.specs.Option.{option_map};
ghost use Rattle.std.specs.HashMap.{get};
ghost use Rattle.hc_rules.specs.Lengths.{is_bad};
ghost use Rattle.hc_rules.specs.Refusals.{head_refusal, piece_refusal};
ghost use Rattle.hc_text.specs.Sorted.{is_sorted, is_among, itself};
ghost use Rattle.hc_exch.specs.Openings.{opened_with};
ghost use Rattle.hc_exch.specs.Known.{unknown, with_new_exchange, with_asking, turned_into, without_exchange, with_good_head, with_piece, without_first, forgotten, is_wanted, is_last_of, is_open, view_of, begins_with, exchange_number, refusal_in, Changes, length_by, open_view, EndsBelow};
ghost use Rattle.hc_exch.specs.Rows.{rows_of, keeps};
ghost use Rattle.hc_exch.specs.Agreement.{Agrees, AgreesBut, IsTidy};

use crate::role::Role;
use crate::row::{ExchangeView, Open, Opening, Row};
use crate::rows::{
    ask_in, begin_in, close_in, forget_in, head_in, held_in, piece_in, running_in, take_in,
    tidy_in, turn_in,
};
use crate::wishes::Wishes;
use hc_event::{Event, Need, Refusal, Request, Response};
use hc_rules::{exchange_refusal, length_of};
use hc_text::{Bytes, NoMemory};
use std::alloc::Global;
use std::collections::HashMap;

/// Each exchange that is open, and each of which bytes are held. One that is over and read is
/// forgotten.
#[derive(Drop)]
pub struct Exchanges {
    alloc: Global,
    next: u64,
    rows: HashMap<u64, Row>,
    wishes: Wishes,
    ghost agree: { Agrees wishes (rows_of rows) },
    ghost tidy: { IsTidy next rows },
}

impl Exchanges {
    ghost use Rattle.hc_exch.specs.Exchanges.{table_of, next_of, Becomes, Stays};

    /// Nothing is open, and the next number is 1.
    pub fn new(alloc: Global) -> Exchanges
        ensures none { (x : ℕ) → table_of result x ≡ unknown }
        ensures next { next_of result ≡ 1 }
    {
        Exchanges::from_number(alloc, 1)
    }

    /// Nothing is open, and the next number is this.
    pub fn from_number(alloc: Global, next: u64) -> Exchanges
        requires first { 1 ≤ next }
        requires below { next < 2 ^ 62 }
        ensures none { (x : ℕ) → table_of result x ≡ unknown }
        ensures next { next_of result ≡ next }
    {
        Exchanges {
            alloc,
            next,
            rows: HashMap::new(alloc),
            wishes: Wishes::new(alloc),
        }
    }

    /// The number of the next exchange.
    pub fn next_number(&self) -> u64
        ensures { result ≡ next_of self.now }
    {
        self.next
    }

    /// An exchange is opened for the consumer `c`, with this request. It has the next number.
    pub fn launch(
        &mut self,
        c: u64,
        role: Role,
        need: Need,
        request: &Request,
        now: u64,
    ) -> Result<u64, NoMemory>
        requires { next_of self.old < 2 ^ 62 }
        ensures number { IfOk result (λ x. x ≡ next_of self.old) }
        ensures next { OnOk result (next_of self.new ≡ next_of self.old + 1) }
        ensures ok { OnOk result (Changes (with_new_exchange c role need request.now now)
            (next_of self.old) (table_of self.old) (table_of self.new)) }
        ensures err { OnErr result (Stays self.old self.new) }
    {
        let x = self.next;
        let begun = Open::new(c, role, need, request, now)?;
        self.wishes.launch(x)?;
        if let Err(refused) = begin_in(self.alloc, &mut self.rows, x, begun) {
            self.wishes.leave(x);
            return Err(refused);
        }
        self.next += 1;
        Ok(x)
    }

    /// What is told of the exchange. None exactly where it isn't open.
    pub fn view(&self, x: u64) -> Option<ExchangeView>
        ensures { result ≡ option_map (view_of x) (table_of self.now x).running }
    {
        Some(running_in(&self.rows, x)?.view(x))
    }

    /// What the exchange was opened with. None exactly where it isn't open.
    pub fn opening(&self, x: u64) -> Option<Opening<'_>>
        ensures { option_map opened_with result
            ≡ option_map begins_with (table_of self.now x).running }
    {
        let open = running_in(&self.rows, x)?;
        Some(Opening {
            need: &open.need,
            request: &open.request,
            moment: open.moment,
        })
    }

    /// Those that are wanted, by number: the open ones that have no head, or of which a piece was
    /// asked for.
    pub fn wanted(&self) -> &[u64]
        ensures ascending { is_sorted itself result.now ≡ true }
        ensures wanted { (x : ℕ) → is_among x result.now
            ≡ is_wanted (table_of self.now x).running }
    {
        self.wishes.wanted()
    }

    /// Why an event of an exchange is denied: the first refusal that applies to it, or none.
    pub fn refuses(&self, event: &Event) -> Option<Refusal>
        ensures { result ≡ refusal_in (table_of self.now) event.now }
    {
        let open = running_in(&self.rows, named(event));
        exchange_refusal(open.map(|open| open.seen()), event)
    }

    /// The next piece is asked for.
    pub fn ask(&mut self, x: u64)
        requires { is_open x (table_of self.old) ≡ true }
        ensures { Becomes with_asking x self.old self.new }
    {
        ask_in(&mut self.rows, x);
        settle(&mut self.rows, &mut self.wishes, x);
    }

    /// It is something else to the cache.
    pub fn turn_into(&mut self, x: u64, role: Role)
        requires { is_open x (table_of self.old) ≡ true }
        ensures { Becomes (turned_into role) x self.old self.new }
    {
        turn_in(&mut self.rows, x, role);
        settle(&mut self.rows, &mut self.wishes, x);
    }

    /// Its head came. False exactly where the length that it declares is bad, and then nothing
    /// changes.
    pub fn head(&mut self, x: u64, response: &Response) -> bool
        requires { head_refusal (option_map open_view (table_of self.old x).running) ≡ None }
        ensures answer { result
            ≡ not (is_bad (length_by (table_of self.old x).running response.now)) }
        ensures good { is_bad (length_by (table_of self.old x).running response.now) ≡ false
            → Becomes (with_good_head (length_by (table_of self.old x).running response.now))
            x self.old self.new }
        ensures bad { is_bad (length_by (table_of self.old x).running response.now) ≡ true
            → Stays self.old self.new }
    {
        let open = running_in(&self.rows, x).unwrap();
        let length = length_of(open.need, &open.request, response);
        if length.is_bad() {
            return false;
        }
        head_in(&mut self.rows, x, length);
        settle(&mut self.rows, &mut self.wishes, x);
        true
    }

    /// A piece came, which is held or not. True exactly where the exchange is over with it.
    pub fn piece(&mut self, x: u64, bytes: &[u8], hold: bool) -> Result<bool, NoMemory>
        requires accepted { piece_refusal (option_map open_view (table_of self.old x).running)
            (length bytes.now) ≡ None }
        requires below { EndsBelow (length bytes.now) (table_of self.old x).running }
        ensures over { IfOk result
            (λ over. over ≡ is_last_of (table_of self.old x).running (length bytes.now)) }
        ensures ok { OnOk result (Becomes (with_piece bytes.now hold) x self.old self.new) }
        ensures err { OnErr result (Stays self.old self.new) }
    {
        piece_in(&mut self.rows, x, bytes, hold)?;
        settle(&mut self.rows, &mut self.wishes, x);
        Ok(running_in(&self.rows, x).is_none())
    }

    /// It is over, or closed. What is held for it stays.
    pub fn close(&mut self, x: u64)
        requires { is_open x (table_of self.old) ≡ true }
        ensures { Becomes without_exchange x self.old self.new }
    {
        close_in(&mut self.rows, x);
        settle(&mut self.rows, &mut self.wishes, x);
    }

    /// How many bytes are held for it and not given yet, whether it is open or over.
    pub fn held(&self, x: u64) -> usize
        ensures { result ≡ length (table_of self.now x).held }
    {
        held_in(&self.rows, x)
    }

    /// The first bytes that are held, at most `want`.
    pub fn take_held(&mut self, x: u64, want: usize) -> Result<Bytes, NoMemory>
        ensures bytes { IfOk result (λ bytes. bytes ≡ take want (table_of self.old x).held) }
        ensures ok { OnOk result (Becomes (without_first want) x self.old self.new) }
        ensures err { OnErr result (Stays self.old self.new) }
    {
        let bytes = take_in(&mut self.rows, x, want)?;
        tidy_in(&mut self.rows, x);
        Ok(bytes)
    }

    /// What is held for it isn't wanted any more.
    pub fn forget(&mut self, x: u64)
        ensures { Becomes forgotten x self.old self.new }
    {
        forget_in(self.alloc, &mut self.rows, x);
        tidy_in(&mut self.rows, x);
    }
}

/// The number that an event of an exchange names. No exchange has the number 0.
fn named(event: &Event) -> u64
    ensures { result ≡ exchange_number event.now }
{
    match event {
        Event::Head { x, .. } | Event::Piece { x, .. } | Event::End { x } | Event::Fault { x } =>
            *x,
        _ => 0,
    }
}

/// The exchange, which changed, goes to the list in which it belongs, and is forgotten where it is
/// over and read.
fn settle(rows: &mut HashMap<u64, Row>, wishes: &mut Wishes, x: u64)
    requires { AgreesBut x wishes.old (rows_of rows.old) }
    ensures agree { Agrees wishes.new (rows_of rows.new) }
    ensures same { (y : ℕ) → rows_of rows.new y ≡ rows_of rows.old y }
    ensures tidy { keeps (get nat_eq rows.new x) ≡ true }
    ensures others { (y : ℕ) → y ≢ x → get nat_eq rows.new y ≡ get nat_eq rows.old y }
{
    list(rows, wishes, x);
    tidy_in(rows, x);
}

/// The exchange, which changed, goes to the list in which it belongs.
fn list(rows: &HashMap<u64, Row>, wishes: &mut Wishes, x: u64)
    requires { AgreesBut x wishes.old (rows_of rows.now) }
    ensures { Agrees wishes.new (rows_of rows.now) }
{
    match running_in(rows, x) {
        None => wishes.leave(x),
        Some(open) => {
            let wanted = open.is_wanted();
            if wanted && wishes.is_idle(x) {
                wishes.ask(x);
            } else if !wanted && wishes.is_wanted(x) {
                wishes.rest(x);
            }
        }
    }
}
