//! Vectors of the words of HTTP and of the parts of the cache: sparse bytes and stitching, lists by
//! number, lines of keys, who is bound, writer groups, exchanges, stores, and what is kept over them.
//!
//! One object of each kind is kept from line to line, and a line changes it or tells of it.
#![tactic(auto)]

mod active;
mod alike;
mod entries;
mod exchanges;
mod group;
mod keys;
mod lines;
mod order;
mod samples;
mod sorted;
mod sparse;
mod stitching;
mod stored;
mod stores;
mod turns;
mod values;
mod words;

use exchanges::Table;
use group::report_group;
use hc_test_frame::{Calls, Fault, Vector, report_all};
use sorted::Sorted;
use sparse::ManyBytes;
use std::alloc::Global;
use std::process::ExitCode;
use stored::Stored;
use turns::Turns;
use words::Words;

fn main(rt: HostRuntime) -> ExitCode {
    match Parts::new(rt.alloc()) {
        Ok(mut parts) => report_all(&rt, &mut parts),
        Err(_) => ExitCode::FAILURE,
    }
}

/// What is kept from line to line.
#[derive(Drop)]
struct Parts {
    words: Words,
    bytes: ManyBytes,
    sorted: Sorted,
    turns: Turns,
    table: Table,
    stored: Stored,
}

impl Parts {
    fn new(alloc: Global) -> Result<Parts, Fault> {
        let words = Words::new(alloc)?;
        let stored = Stored::new(alloc)?;
        Ok(Parts {
            words,
            bytes: ManyBytes::new(alloc),
            sorted: Sorted::new(alloc),
            turns: Turns::new(alloc),
            table: Table::new(alloc),
            stored,
        })
    }

    /// Makes a call of stitching, which is of sparse bytes, or else one of the words of HTTP.
    fn report_other(&mut self, vector: &Vector, value: &mut String) -> Result<(), Fault> {
        match vector.name() {
            "next_part" | "first_hole" | "accepts" => self.bytes.note(vector, value),
            _ => self.words.note(vector, value),
        }
    }
}

impl Calls for Parts {
    /// The first word of a call's name says of which part it is. Calls of the words of HTTP have names of
    /// their own.
    fn note(&mut self, vector: &Vector, value: &mut String) -> Result<(), Fault> {
        let name = vector.name();
        let (object, _) = name.split_once('_').unwrap_or((name, ""));
        match object {
            "numbers" | "members" => self.sorted.note(vector, value),
            "line" | "key" | "keys" | "active" => self.turns.note(vector, value),
            "exchange" | "exchanges" => self.table.note(vector, value),
            "store" | "entries" => self.stored.note(vector, value),
            "bytes" => self.bytes.note(vector, value),
            "group" => report_group(vector, value),
            _ => self.report_other(vector, value),
        }
    }
}
