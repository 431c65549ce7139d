//! What is counted over all that is answered.
ghost use Rattle.std.specs.Prelude.{◌≡◌, ◌++◌, [], count_by, IfOk, OnOk};
ghost use Rattle.std.specs.List.{sum_by};
ghost use Rattle.hc_generate.specs.Summary.{counts_with_event, given_size, is_ended, is_failed, is_lost, is_opened, line, summary, summary_text, up_to_end};

use hc_event::Act;
use hc_text::{NoMemory, write_number};
use std::alloc::Global;

/// How much was answered. A count stands still at its end.
#[derive(Clone, Copy)]
pub(crate) struct Counts {
    events: u64,
    opens: u64,
    /// The bytes that consumers were given.
    bytes: u64,
    ended: u64,
    failed: u64,
    lost: u64,
}

impl Counts {
    /// Nothing was answered.
    pub(crate) fn new() -> Counts
        ensures { result ≡ summary [] }
    {
        Counts {
            events: 0,
            opens: 0,
            bytes: 0,
            ended: 0,
            failed: 0,
            lost: 0,
        }
    }

    /// One event more was answered, with these acts.
    pub(crate) fn add(&mut self, acts: &[Act])
        ensures { self.new ≡ counts_with_event acts.now self.old }
    {
        self.events = self.events.saturating_add(1);
        self.opens = self.opens.saturating_add(opens(acts));
        self.bytes = self.bytes.saturating_add(bytes(acts));
        self.ended = self.ended.saturating_add(ends(acts));
        self.failed = self.failed.saturating_add(fails(acts));
        self.lost = self.lost.saturating_add(losses(acts));
    }

    /// Their text, a line for each.
    pub(crate) fn text(&self, alloc: Global) -> Result<Vec<u8>, NoMemory>
        ensures { IfOk result (λ text. text.items ≡ summary_text self.now) }
    {
        let mut text = Vec::new(alloc);
        write_line(b"events ", self.events, &mut text)?;
        write_line(b"opens ", self.opens, &mut text)?;
        write_line(b"bytes ", self.bytes, &mut text)?;
        write_line(b"ended ", self.ended, &mut text)?;
        write_line(b"failed ", self.failed, &mut text)?;
        write_line(b"lost ", self.lost, &mut text)?;
        Ok(text)
    }
}

/// How many exchanges are opened.
fn opens(acts: &[Act]) -> u64
    ensures { result ≡ count_by is_opened acts.now }
{
    acts.iter()
        .filter(|act| matches!(act, Act::Opened { .. }))
        .count() as u64
}

/// How many consumers end.
fn ends(acts: &[Act]) -> u64
    ensures { result ≡ count_by is_ended acts.now }
{
    acts.iter()
        .filter(|act| matches!(act, Act::Ended { .. }))
        .count() as u64
}

/// How many consumers fail.
fn fails(acts: &[Act]) -> u64
    ensures { result ≡ count_by is_failed acts.now }
{
    acts.iter()
        .filter(|act| matches!(act, Act::Failed { .. }))
        .count() as u64
}

/// How many representations are lost.
fn losses(acts: &[Act]) -> u64
    ensures { result ≡ count_by is_lost acts.now }
{
    acts.iter()
        .filter(|act| matches!(act, Act::Lost { .. }))
        .count() as u64
}

/// How many bytes consumers are given, up to the end of the count.
#[tactic(auto, using(crate::proofs::CountLemmas::one_more))]
fn bytes(acts: &[Act]) -> u64
    ensures { result ≡ up_to_end (sum_by given_size acts.now) }
{
    let mut sum: u64 = 0;
    for act in acts {
        if let Act::Given { bytes, .. } = act {
            sum = sum.saturating_add(bytes.len() as u64);
        }
    }
    sum
}

fn write_line(word: &[u8], n: u64, to: &mut Vec<u8>) -> Result<(), NoMemory>
    ensures { OnOk result (to.new.items ≡ to.old.items ++ line word.now n) }
{
    to.extend_from_slice(word)?;
    write_number(n, to)?;
    to.push(b'\n')?;
    Ok(())
}
