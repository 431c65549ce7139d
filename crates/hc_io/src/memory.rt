//! Sources and sinks in memory that fail at given calls.
ghost use Rattle.std.specs.Prelude.{◌≡◌, ◌≢◌, ◌↔◌, ◌+◌, ◌<◌, ◌≤◌, ◌^◌, ◌++◌, [], false, true, length, min, take, drop, vec_len, IfOk, OnOk, IsErr, IsErrOf, Some, Ok, Err, OnErr};
ghost use Rattle.std.specs.Result.{result_unwrap_or, is_err};
ghost use Rattle.hc_io.specs.Sink.{Takes, HasSinkCause};
ghost use Rattle.hc_io.specs.Source.{Gives, IsAtEnd, HasSourceCause};
ghost use Rattle.hc_io.specs.Memory.{FailsNext, after_call, new_script};

use crate::copies::copy_prefix;
use crate::script::Failures;
use crate::sink::{Sink, SinkError};
use crate::source::{Source, SourceFailed};
use std::alloc::Global;
use std::marker::Model;

/// Gives bytes from memory, at most `step` in a call, and fails at given calls.
#[derive(Drop)]
pub struct MemorySource {
    bytes: Vec<u8>,
    at: usize,
    step: usize,
    failures: Failures,
}

impl Model for MemorySource {
    ghost use Rattle.std.specs.Prelude.{◌<◌, ◌≤◌, ◌^◌, drop, vec_len};
    ghost use Rattle.hc_io.specs.Memory.{SourceState};

    ghost Value = { SourceState };

    ghost view = { λ s. record {
      left = drop s.at s.bytes.items;
      given = s.at;
      step = s.step;
      script = s.failures;
    } };

    ghost invariant = { λ s. (0 < s.step) × (s.at ≤ vec_len s.bytes) × (vec_len s.bytes ≤ 2 ^ 60) };
}

impl MemorySource {
    /// A source of `bytes` that gives at most `step` in a call and fails at the listed calls, from 1.
    pub fn new(bytes: Vec<u8>, step: usize, fails: Vec<u64>) -> Self
        requires moves { 0 < step }
        requires small { vec_len bytes ≤ 2 ^ 60 }
        ensures { result ≡ record {
          left = bytes.items;
          given = 0;
          step = step;
          script = new_script fails.items;
        } }
    {
        MemorySource {
            bytes,
            at: 0,
            step,
            failures: Failures::new(fails),
        }
    }
}

impl Source for MemorySource {
    ghost faults = { λ s. s.script.faults };

    ghost left = { λ s. Some s.left };

    ghost given = { λ s. s.given };

    fn read(&mut self, into: &mut [u8]) -> Result<usize, SourceFailed>
        ensures at_most { IfOk result (λ n. n ≤ length into.old) }
        ensures bytes { IfOk result (λ n.
            Gives (Some self.old.left) (Some self.new.left) (take n into.new)) }
        ensures end { result ≡ Ok 0 → 0 < length into.old → IsAtEnd (Some self.new.left) }
        ensures err { OnErr result (Some self.new.left ≡ Some self.old.left) }
        ensures rest { drop (result_unwrap_or result 0) into.new
            ≡ drop (result_unwrap_or result 0) into.old }
        ensures count { self.new.given ≡ self.old.given + result_unwrap_or result 0 }
        ensures in_all { self.new.given ≤ 2 ^ 60 }
        ensures cause { HasSourceCause self.old.script.faults self.new.script.faults result }
        ensures calm { OnOk result (self.new.script.faults ≡ self.old.script.faults) }

        // It fails exactly at the listed calls, and else gives as many bytes as a call may.
        ensures fails { IsErr result ↔ FailsNext self.old.script }
        ensures amount { IfOk result (λ n.
            n ≡ min (min self.old.step (length self.old.left)) (length into.old)) }
        ensures same_step { self.new.step ≡ self.old.step }
        ensures script { self.new.script ≡ after_call self.old.script (is_err result) }
    {
        if self.failures.is_next() {
            self.failures.count_fault();
            return Err(SourceFailed);
        }
        self.failures.count_call();
        let end = self.at + self.step.min(self.bytes.len() - self.at);
        let n = copy_prefix(&self.bytes[self.at..end], into);
        self.at += n;
        Ok(n)
    }
}

/// Takes bytes into memory, and fails at given calls.
#[derive(Drop)]
pub struct MemorySink {
    bytes: Vec<u8>,
    failures: Failures,
}

impl Model for MemorySink {
    ghost use Rattle.hc_io.specs.Memory.{SinkState};

    ghost Value = { SinkState };

    ghost view = { λ s. record { taken = s.bytes.items; script = s.failures } };
}

impl MemorySink {
    /// An empty sink that fails at the listed calls, from 1.
    pub fn new(alloc: Global, fails: Vec<u64>) -> Self
        ensures { result ≡ record { taken = []; script = new_script fails.items } }
    {
        MemorySink {
            bytes: Vec::new(alloc),
            failures: Failures::new(fails),
        }
    }

    /// The bytes taken.
    pub fn taken(&self) -> &[u8]
        ensures { result.now ≡ self.now.taken }
    {
        self.bytes.as_slice()
    }
}

impl Sink for MemorySink {
    ghost faults = { λ s. s.script.faults };

    ghost taken = { λ s. Some s.taken };

    fn write(&mut self, from: &[u8]) -> Result<usize, SinkError>
        ensures at_most { IfOk result (λ n. n ≤ length from.now) }
        ensures some { IfOk result (λ n. 0 < length from.now → 0 < n) }
        ensures bytes { IfOk result (λ n.
            Takes (Some self.old.taken) (Some self.new.taken) (take n from.now)) }
        ensures err { OnErr result (Some self.new.taken ≡ Some self.old.taken) }
        ensures cause { HasSinkCause self.old.script.faults self.new.script.faults result }
        ensures calm { OnOk result (self.new.script.faults ≡ self.old.script.faults) }
        ensures no_fault { IsErrOf result SinkError.NoMemory
            → self.new.script.faults ≡ self.old.script.faults }

        // It fails exactly at the listed calls, and else takes all. A call that finds no memory does
        // not count.
        ensures fails { IsErrOf result SinkError.SinkFailed ↔ FailsNext self.old.script }
        ensures all { IfOk result (λ n. n ≡ length from.now) }
        ensures counted { result ≢ Err SinkError.NoMemory
            → self.new.script ≡ after_call self.old.script (is_err result) }
        ensures no_memory { IsErrOf result SinkError.NoMemory → self.new ≡ self.old }
    {
        if self.failures.is_next() {
            self.failures.count_fault();
            return Err(SinkError::SinkFailed);
        }
        self.bytes.extend_from_slice(from)?;
        self.failures.count_call();
        Ok(from.len())
    }
}
