//! Calls of the line of a key.
use hc_entry::KeyLine;
use hc_test_frame::{Fault, Vector, note};
use std::alloc::Global;

/// A line.
#[derive(Drop)]
pub(crate) struct Line {
    line: KeyLine,
}

impl Line {
    /// Nobody stands in it.
    pub(crate) fn new(alloc: Global) -> Line {
        Line {
            line: KeyLine::new(alloc),
        }
    }

    /// Makes the call. One that may change something writes whose turn it is then, and whose it would be
    /// with 5 in line.
    pub(crate) fn note(&mut self, v: &Vector, to: &mut String) -> Result<(), Fault> {
        match v.call() {
            "line_is_in n" => note(&self.line.is_in(v.number(0)), to),
            _ => {
                self.change(v)?;
                self.look(to)
            }
        }
    }

    fn change(&mut self, v: &Vector) -> Result<(), Fault> {
        let c = v.number(0);
        match v.call() {
            "line_new" => self.begin(v.alloc()),
            "line_enter n" if !self.line.is_in(c) => {
                self.line.enter(c)?;
            }
            _ => return self.step(c, v),
        }
        Ok(())
    }

    /// Nobody stands in it any more.
    fn begin(&mut self, alloc: Global) {
        *self = Line::new(alloc);
    }

    /// One that stands in the line takes a step.
    fn step(&mut self, c: u64, v: &Vector) -> Result<(), Fault> {
        let line = &mut self.line;
        if !line.is_in(c) {
            return Err(Fault::NoSuchCall);
        }
        match v.call() {
            "line_hold n" if line.turn() == Some(c) => line.hold(c),
            "line_pass n" => line.pass(c),
            "line_away n" => line.away(c),
            "line_back n" => line.back(c),
            "line_leave n" => line.leave(c),
            _ => return Err(Fault::NoSuchCall),
        }
        Ok(())
    }

    fn look(&self, to: &mut String) -> Result<(), Fault> {
        let turn = self.line.turn();
        let with = self.line.turn_with(5);
        write!(to, "turn {turn:?}, with 5 {with}")?;
        Ok(())
    }
}
