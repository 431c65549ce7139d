//! Calls of the table of exchanges.
ghost use Rattle.std.specs.Prelude.{IsTrue};
ghost use Rattle.hc_exch.specs.Known.{EndsBelow};
ghost use Rattle.hc_exch.specs.Exchanges.{table_of};

use crate::samples::response_of;
use hc_event::{Event, Load, Need, Request};
use hc_exch::{Exchanges, Role};
use hc_fields::Fields;
use hc_test_frame::{Fault, Vector, note, quote};
use hc_text::{Bytes, Key, MethodName};
use std::alloc::Global;

/// Exchanges.
#[derive(Drop)]
pub(crate) struct Table {
    exchanges: Exchanges,
}

impl Table {
    /// None is open.
    pub(crate) fn new(alloc: Global) -> Table {
        Table {
            exchanges: Exchanges::new(alloc),
        }
    }

    /// Makes the call. One that may change something writes then which exchanges are wanted, and how
    /// many bytes are held for the first.
    pub(crate) fn note(&mut self, v: &Vector, to: &mut String) -> Result<(), Fault> {
        let x = v.number(0);
        match v.call() {
            "exchange_view n" => note(&self.exchanges.view(x), to),
            "exchange_opening n" => self.report_opening(x, to),
            _ => {
                self.change(v, to)?;
                self.look(to)
            }
        }
    }

    fn report_opening(&self, x: u64, to: &mut String) -> Result<(), Fault> {
        let Some(opening) = self.exchanges.opening(x) else {
            to.push_str("None")?;
            return Ok(());
        };
        let need = opening.need;
        let moment = opening.moment;
        write!(to, "{need:?} at {moment}")?;
        Ok(())
    }

    fn change(&mut self, v: &Vector, to: &mut String) -> Result<(), Fault> {
        match v.call() {
            "exchange_launch w" | "exchange_launch wnn" => return self.launch(v, to),
            "exchange_head nnt" => return self.head(v, to),
            "exchange_piece ntw" => return self.piece(v, to),
            "exchange_take nn" => return self.take(v, to),
            "exchanges_new" => self.begin(v.alloc()),
            "exchange_forget n" => self.exchanges.forget(v.number(0)),
            _ => return self.change_open(v),
        }
        Ok(())
    }

    /// None is open any more.
    fn begin(&mut self, alloc: Global) {
        *self = Table::new(alloc);
    }

    /// Makes a call that only an open exchange takes.
    fn change_open(&mut self, v: &Vector) -> Result<(), Fault> {
        let x = v.number(0);
        let is_open = self.exchanges.view(x).is_some();
        match v.call() {
            "exchange_ask n" if is_open => self.exchanges.ask(x),
            "exchange_close n" if is_open => self.exchanges.close(x),
            "exchange_turn_into_body nn" if is_open => {
                self.exchanges.turn_into(x, Role::Body { r: v.number(1) });
            }
            _ => return Err(Fault::NoSuchCall),
        }
        Ok(())
    }

    fn launch(&mut self, v: &Vector, to: &mut String) -> Result<(), Fault> {
        let need = need_of(v).ok_or(Fault::NoSuchCall)?;
        let request = request(v.alloc())?;
        self.launch_for(need, &request, to)
    }

    fn launch_for(&mut self, need: Need, request: &Request, to: &mut String) -> Result<(), Fault> {
        if self.exchanges.next_number() >= 1 << 62 {
            return Err(Fault::NoSuchCall);
        }
        let x = self.exchanges.launch(5, Role::Direct, need, request, 1000)?;
        write!(to, "{x}: ")?;
        Ok(())
    }

    fn head(&mut self, v: &Vector, to: &mut String) -> Result<(), Fault> {
        let event = head_of(v)?;
        self.give(&event, false, to)
    }

    fn piece(&mut self, v: &Vector, to: &mut String) -> Result<(), Fault> {
        let event = piece_of(v)?;
        self.give(&event, v.word(2) == "held", to)
    }

    /// A head or a piece comes. One that is denied changes nothing.
    fn give(&mut self, event: &Event, hold: bool, to: &mut String) -> Result<(), Fault> {
        if let Some(refusal) = self.exchanges.refuses(event) {
            write!(to, "Denied({refusal:?}): ")?;
            return Ok(());
        }
        match event {
            Event::Head { x, response } => {
                let is_good = self.exchanges.head(*x, response);
                write!(to, "good {is_good}: ")?;
            }
            Event::Piece { x, bytes } => {
                let bytes = bytes.as_slice();
                if !is_small(&self.exchanges, *x) || bytes.len() >= 1000 {
                    return Err(Fault::NoSuchCall);
                }
                let is_last = self.exchanges.piece(*x, bytes, hold)?;
                write!(to, "last {is_last}: ")?;
            }
            _ => return Err(Fault::NoSuchCall),
        }
        Ok(())
    }

    /// Takes bytes that are held, and writes them.
    fn take(&mut self, v: &Vector, to: &mut String) -> Result<(), Fault> {
        let held = self.exchanges.take_held(v.number(0), v.number(1) as usize)?;
        quote(held.as_slice(), to)?;
        to.push_str(": ")?;
        Ok(())
    }

    fn look(&self, to: &mut String) -> Result<(), Fault> {
        let wanted = self.exchanges.wanted();
        let held = self.exchanges.held(1);
        write!(to, "wanted {wanted:?}, held {held}")?;
        Ok(())
    }
}

/// Whether it began and came to below 1,000.
fn is_small(exchanges: &Exchanges, x: u64) -> bool
    ensures { IsTrue result → EndsBelow 1000 (table_of exchanges.now x).running }
{
    match exchanges.view(x) {
        Some(seen) => seen.base < 1000 && seen.delivered < 1000,
        None => true,
    }
}

/// The head that comes.
fn head_of(v: &Vector) -> Result<Event, Fault> {
    let response = response_of(v.number(1), v, 2)?;
    Ok(Event::Head {
        x: v.number(0),
        response,
    })
}

/// The piece that comes.
fn piece_of(v: &Vector) -> Result<Event, Fault> {
    let bytes = v.text(1).to_vec(v.alloc())?;
    Ok(Event::Piece {
        x: v.number(0),
        bytes: Bytes::of(bytes),
    })
}

/// Why an exchange is launched.
fn need_of(v: &Vector) -> Option<Need> {
    let count = v.argument_count();
    match v.word(0) {
        "Disabled" if count == 1 => Some(Need::Disabled),
        "Miss" if count == 1 => Some(Need::Miss),
        "Hole" if count == 3 => Some(Need::Hole {
            from: v.number(1),
            to: v.number(2),
        }),
        _ => None,
    }
}

fn request(alloc: Global) -> Result<Request, Fault> {
    Ok(Request {
        method: MethodName {
            bytes: b"GET".to_vec(alloc)?,
        },
        key: Key {
            bytes: b"http://a.test/".to_vec(alloc)?,
        },
        load: Load::Normal,
        fields: Fields::new(alloc)?,
    })
}
