//! Acts and reports: each line that is an act is kept, and its value is its text in a report.
use crate::given::{fields_at, request_at};
use crate::reported::report_bytes;
use crate::words::{cause_at, kind_at, need_at, refusal_of, wait_at, why_at};
use hc_event::{Act, Acts};
use hc_sched::write_acts;
use hc_test_frame::{Fault, Vector, note};
use hc_text::{Bytes, NoMemory};
use std::alloc::Global;

/// The acts that were told since the last report.
#[derive(Drop)]
pub(crate) struct Report {
    acts: Acts,
}

impl Report {
    /// Of no act.
    pub(crate) fn new(alloc: Global) -> Report {
        Report {
            acts: Acts::new(alloc),
        }
    }

    /// Writes the value of the call.
    pub(crate) fn call(&mut self, v: &Vector, to: &mut String) -> Result<(), Fault> {
        match v.call() {
            "report n" => self.note(v, to),
            "keeps_room n" => report_room(v, to),
            _ => self.keep(v, to),
        }
    }

    /// Keeps the act that the line is, and writes the text of a copy as an entry of its number.
    fn keep(&mut self, v: &Vector, to: &mut String) -> Result<(), Fault> {
        self.acts.push(act_of(v)?)?;
        let mut copies = Vec::new(v.alloc());
        self.copy_last(&mut copies)?;
        report_entry(v.alloc(), self.acts.list().len() as u64, &copies, to)
    }

    fn copy_last(&self, to: &mut Vec<Act>) -> Result<(), NoMemory> {
        if let Some(act) = self.acts.list().last() {
            to.push(act.copy()?)?;
        }
        Ok(())
    }

    /// Writes the entry of this number with all acts, which are handed out, and how many are left.
    fn note(&mut self, v: &Vector, to: &mut String) -> Result<(), Fault> {
        self.report_drained(v, to)?;
        write!(to, " {} left", self.acts.list().len())?;
        Ok(())
    }

    fn report_drained(&mut self, v: &Vector, to: &mut String) -> Result<(), Fault> {
        let mut acts = Vec::new(v.alloc());
        self.drain(&mut acts)?;
        report_entry(v.alloc(), v.number(0), &acts, to)
    }

    fn drain(&mut self, to: &mut Vec<Act>) -> Result<(), NoMemory> {
        for act in self.acts.drain() {
            to.push(act)?;
        }
        Ok(())
    }
}

/// Writes the entry of this number, with these acts.
fn report_entry(alloc: Global, number: u64, acts: &[Act], to: &mut String) -> Result<(), Fault> {
    let mut text = Vec::new(alloc);
    write_acts(number, acts, &mut text)?;
    report_bytes(&text, to)
}

/// The act that the line is.
fn act_of(v: &Vector) -> Result<Act, Fault> {
    match v.call() {
        "open nnwt" => opened(v),
        "shown nnwnnnt" => shown(v),
        "data nnnt" => given(v),
        _ => plain_act_of(v),
    }
}

/// The act that the line is, where that has only numbers.
fn plain_act_of(v: &Vector) -> Result<Act, Fault> {
    let n = v.number(0);
    match v.call() {
        "ask n" => Ok(Act::Ask { x: n }),
        "close n" => Ok(Act::Close { x: n }),
        "ended n" => Ok(Act::Ended { c: n }),
        "evicted n" => Ok(Act::Evicted { r: n }),
        "failed nw" => {
            let cause = cause_at(v, 1)?;
            Ok(Act::Failed { c: n, cause })
        }
        "pending nw" => {
            let wait = wait_at(v, 1)?;
            Ok(Act::Pending { c: n, wait })
        }
        "lost nw" => {
            let kind = kind_at(v, 1)?;
            Ok(Act::Lost { r: n, kind })
        }
        "denied n" | "denied nn" => {
            let refusal = refusal_of(n, v.number(1))?;
            Ok(Act::Denied { refusal })
        }
        _ => Err(Fault::NoSuchCall),
    }
}

/// The exchange, its consumer, its need, and the request.
fn opened(v: &Vector) -> Result<Act, Fault> {
    Ok(Act::Opened {
        x: v.number(0),
        c: v.number(1),
        need: need_at(v, 2)?,
        request: request_at(v, 3)?,
    })
}

/// The consumer, the representation, why, the status, from where up to where, and the fields.
fn shown(v: &Vector) -> Result<Act, Fault> {
    let status = v.number(3);
    if status > 599 {
        return Err(Fault::NoSuchCall);
    }
    Ok(Act::Shown {
        c: v.number(0),
        r: v.number(1),
        why: why_at(v, 2)?,
        status: status as u16,
        lo: v.number(4),
        hi: v.option(5),
        fields: fields_at(v, 6)?,
    })
}

/// The consumer, the exchange, the position, and the bytes.
fn given(v: &Vector) -> Result<Act, Fault> {
    let bytes = v.text(3).to_vec(v.alloc())?;
    Ok(Act::Given {
        c: v.number(0),
        x: v.number(1),
        at: v.number(2),
        bytes: Bytes::of(bytes),
    })
}

/// Writes whether room for so many acts is kept.
fn report_room(v: &Vector, to: &mut String) -> Result<(), Fault> {
    let count = v.number(0);
    if count > 1024 {
        return Err(Fault::NoSuchCall);
    }
    note(&keeps_room(v.alloc(), count as usize)?, to)
}

/// Whether room that is made for so many acts falls by one with each, and is back when they are gone.
fn keeps_room(alloc: Global, count: usize) -> Result<bool, NoMemory> {
    fill_and_empty(&mut Acts::new(alloc), count)
}

fn fill_and_empty(acts: &mut Acts, count: usize) -> Result<bool, NoMemory> {
    acts.reserve(count)?;
    let before = acts.spare();
    for x in 0..count as u64 {
        acts.push(Act::Ask { x })?;
    }
    let behind = acts.spare();
    let is_listed = acts.list().len() == count;
    acts.truncate(0);
    let truncated = acts.spare();
    acts.clear();
    Ok(
        is_listed
            && before.saturating_sub(behind) == count
            && truncated == before
            && acts.spare() == before,
    )
}
