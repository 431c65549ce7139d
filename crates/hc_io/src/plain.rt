//! Sources and sinks in memory that never fail.
ghost use Rattle.std.specs.Prelude.{◌≡◌, ◌+◌, ◌<◌, ◌≤◌, ◌^◌, ◌++◌, [], length, min, take, drop, vec_len, IfOk, IfErr, OnErr, IsErrOf, Some, Ok};
ghost use Rattle.std.specs.Result.{result_unwrap_or};
ghost use Rattle.hc_io.specs.Sink.{Takes, HasSinkCause};
ghost use Rattle.hc_io.specs.Source.{Gives, IsAtEnd, HasSourceCause};

use crate::copies::copy_prefix;
use crate::sink::{Sink, SinkError};
use crate::source::{Source, SourceFailed};
use std::alloc::Global;
use std::marker::Model;

/// Gives bytes from memory. It never fails.
#[derive(Drop)]
pub struct PlainSource {
    bytes: Vec<u8>,
    at: usize,
}

impl Model for PlainSource {
    ghost use Rattle.std.specs.Prelude.{◌≤◌, ◌^◌, drop, vec_len};
    ghost use Rattle.hc_io.specs.Memory.{PlainState};

    ghost Value = { PlainState };

    ghost view = { λ s. record { left = drop s.at s.bytes.items; given = s.at } };

    ghost invariant = { λ s. (s.at ≤ vec_len s.bytes) × (vec_len s.bytes ≤ 2 ^ 60) };
}

impl PlainSource {
    /// A source of `bytes`.
    pub fn new(bytes: Vec<u8>) -> Self
        requires { vec_len bytes ≤ 2 ^ 60 }
        ensures { result ≡ record { left = bytes.items; given = 0 } }
    {
        PlainSource { bytes, at: 0 }
    }
}

impl Source for PlainSource {
    ghost faults = { λ _. 0 };

    ghost left = { λ s. Some s.left };

    ghost given = { λ s. s.given };

    fn read(&mut self, into: &mut [u8]) -> Result<usize, SourceFailed>
        ensures at_most { IfOk result (λ n. n ≤ length into.old) }
        ensures bytes { IfOk result (λ n.
            Gives (Some self.old.left) (Some self.new.left) (take n into.new)) }
        ensures end { result ≡ Ok 0 → 0 < length into.old → IsAtEnd (Some self.new.left) }
        ensures err { OnErr result (Some self.new.left ≡ Some self.old.left) }
        ensures rest { drop (result_unwrap_or result 0) into.new
            ≡ drop (result_unwrap_or result 0) into.old }
        ensures count { self.new.given ≡ self.old.given + result_unwrap_or result 0 }
        ensures in_all { self.new.given ≤ 2 ^ 60 }
        ensures cause { HasSourceCause 0 0 result }

        // It gives as many bytes as there are and as the slice has.
        ensures amount { result ≡ Ok (min (length self.old.left) (length into.old)) }
    {
        let n = copy_prefix(&self.bytes[self.at..], into);
        self.at += n;
        Ok(n)
    }
}

/// Takes bytes into memory, and is seen as their list. It never fails but for want of memory.
#[derive(Drop)]
pub struct PlainSink {
    bytes: Vec<u8>,
}

impl Model for PlainSink {
    ghost use Rattle.std.specs.Prelude.{ℕ, List};

    ghost Value = { List ℕ };

    ghost view = { λ s. s.bytes.items };
}

impl PlainSink {
    /// An empty sink.
    pub fn new(alloc: Global) -> Self
        ensures { result ≡ [] }
    {
        PlainSink {
            bytes: Vec::new(alloc),
        }
    }

    /// The bytes taken.
    pub fn taken(&self) -> &[u8]
        ensures { result.now ≡ self.now }
    {
        self.bytes.as_slice()
    }
}

impl Sink for PlainSink {
    ghost faults = { λ _. 0 };

    ghost taken = { λ s. Some s };

    fn write(&mut self, from: &[u8]) -> Result<usize, SinkError>
        ensures at_most { IfOk result (λ n. n ≤ length from.now) }
        ensures some { IfOk result (λ n. 0 < length from.now → 0 < n) }
        ensures bytes { IfOk result (λ n. Takes (Some self.old) (Some self.new) (take n from.now)) }
        ensures err { OnErr result (Some self.new ≡ Some self.old) }
        ensures cause { HasSinkCause 0 0 result }

        // It takes all, or there is no memory.
        ensures all { IfOk result (λ n. n ≡ length from.now) }
        ensures never { IfErr result (λ e. e ≡ SinkError.NoMemory) }
    {
        self.bytes.extend_from_slice(from)?;
        Ok(from.len())
    }
}
