//! Sources and sinks over std's readers and writers. As a `Source` and a `Sink` they tell no
//! content; their own contracts say what becomes of the bytes that std knows of.
ghost use Rattle.std.specs.Prelude.{◌≡◌, ◌+◌, ◌<◌, ◌≤◌, ◌^◌, length, IfOk, IfErr, OnOk, IsErrOf, IfSome, MatchOption, None, take};
ghost use Rattle.std.specs.Result.{result_unwrap_or, is_err};
ghost use Rattle.std.specs.Io.KnownBytes.{Keeps, Appends};
ghost use Rattle.hc_io.specs.Faults.{faults_after};
ghost use Rattle.hc_io.specs.Sink.{HasSinkCause};
ghost use Rattle.hc_io.specs.Source.{HasSourceCause};
ghost use Rattle.hc_io.specs.Adapters.{TakesFrom, ReadsOn, WritesOn};

use crate::sink::{Sink, SinkError};
use crate::source::{Source, SourceFailed};
use std::io::{ErrorKind, Read, Write};
use std::marker::Model;

/// How many bytes a source gives in all, at most: 2^60.
const MOST: u64 = 1 << 60;

/// Gives what a reader of std gives. An error of the reader is a fault, and so is a read that would
/// pass 2^60 bytes in all. It is seen as its reader, how many bytes it gave and how often it failed.
#[derive(Drop)]
pub struct StdSource<R> {
    reader: R,
    given: u64,
    faults: u64,
}

impl<R> Model for StdSource<R> {
    ghost use Rattle.std.specs.Prelude.{◌≤◌, ◌^◌};
    ghost use Rattle.hc_io.specs.Adapters.{Reading};

    ghost Value = { Reading R };

    ghost view = { λ s. record { reader = s.reader; given = s.given; faults = s.faults } };

    ghost invariant = { λ s. s.given ≤ 2 ^ 60 };
}

impl<R: Read> StdSource<R> {
    /// A source that gave nothing yet.
    pub fn new(from: R) -> Self
        ensures { result ≡ record { reader = from; given = 0; faults = 0 } }
    {
        StdSource {
            reader: from,
            given: 0,
            faults: 0,
        }
    }
}

impl<R: Read> Source for StdSource<R> {
    ghost faults = { λ s. s.faults };

    ghost left = { λ _. None };

    ghost given = { λ s. s.given };

    fn read(&mut self, into: &mut [u8]) -> Result<usize, SourceFailed>
        ensures at_most { IfOk result (λ n. n ≤ length into.old) }
        ensures count { self.new.given ≡ self.old.given + result_unwrap_or result 0 }
        ensures in_all { self.new.given ≤ 2 ^ 60 }
        ensures cause { HasSourceCause self.old.faults self.new.faults result }
        ensures calm { OnOk result (self.new.faults ≡ self.old.faults) }

        // What is given is what the reader gave, and 0 is its end. A fault is counted once.
        ensures reads { ReadsOn (R.remaining self.old.reader) (R.remaining self.new.reader)
            self.old.given into.new result }
        ensures counted { self.new.faults ≡ faults_after self.old.faults (is_err result) }
    {
        match read_retrying(&mut self.reader, into) {
            Some(n) if n as u64 <= MOST - self.given => {
                self.given += n as u64;
                Ok(n)
            }
            _ => {
                self.faults = self.faults.saturating_add(1);
                Err(SourceFailed)
            }
        }
    }
}

/// One read, again where a signal interrupts it. None is an error, which took nothing.
fn read_retrying<R: Read>(reader: &mut R, into: &mut [u8]) -> Option<usize>
    ensures at_most { IfSome result (λ n. n ≤ length into.old) }
    ensures takes { MatchOption result (Keeps (R.remaining reader.old) (R.remaining reader.new))
        (λ n. TakesFrom (R.remaining reader.old) (R.remaining reader.new) into.new n) }
{
    'signals: for _ in 0..u64::MAX {
        match reader.read(into) {
            Ok(n) => return Some(n),
            Err(e) => {
                if e.kind() != ErrorKind::Interrupted {
                    return None;
                }
            }
        }
    }
    None
}

/// Hands bytes to a writer of std. An error of the writer is a fault, and so is a write of nothing
/// where there is something. It is seen as its writer and how often it failed.
#[derive(Drop)]
pub struct StdSink<W> {
    writer: W,
    faults: u64,
}

impl<W> Model for StdSink<W> {
    ghost use Rattle.hc_io.specs.Adapters.{Writing};

    ghost Value = { Writing W };

    ghost view = { λ s. record { writer = s.writer; faults = s.faults } };
}

impl<W: Write> StdSink<W> {
    /// A sink that took nothing yet.
    pub fn new(to: W) -> Self
        ensures { result ≡ record { writer = to; faults = 0 } }
    {
        StdSink {
            writer: to,
            faults: 0,
        }
    }
}

impl<W: Write> Sink for StdSink<W> {
    ghost faults = { λ s. s.faults };

    ghost taken = { λ _. None };

    fn write(&mut self, from: &[u8]) -> Result<usize, SinkError>
        ensures at_most { IfOk result (λ n. n ≤ length from.now) }
        ensures some { IfOk result (λ n. 0 < length from.now → 0 < n) }
        ensures cause { HasSinkCause self.old.faults self.new.faults result }
        ensures calm { OnOk result (self.new.faults ≡ self.old.faults) }
        ensures no_fault { IsErrOf result SinkError.NoMemory → self.new.faults ≡ self.old.faults }

        // What is taken stands last in the writer. A fault is counted once, and memory never wants.
        ensures writes { WritesOn (W.contents self.old.writer) (W.contents self.new.writer)
            from.now result }
        ensures counted { self.new.faults ≡ faults_after self.old.faults (is_err result) }
        ensures never { IfErr result (λ e. e ≡ SinkError.SinkFailed) }
    {
        if from.is_empty() {
            return Ok(0);
        }
        match write_retrying(&mut self.writer, from) {
            Some(n) if n > 0 => Ok(n),
            _ => {
                self.faults = self.faults.saturating_add(1);
                Err(SinkError::SinkFailed)
            }
        }
    }
}

/// One write, again where a signal interrupts it. None is an error, which wrote nothing.
fn write_retrying<W: Write>(writer: &mut W, from: &[u8]) -> Option<usize>
    ensures at_most { IfSome result (λ n. n ≤ length from.now) }
    ensures writes { MatchOption result (Keeps (W.contents writer.old) (W.contents writer.new))
        (λ n. Appends (W.contents writer.old) (W.contents writer.new) (take n from.now)) }
{
    'signals: for _ in 0..u64::MAX {
        match writer.write(from) {
            Ok(n) => return Some(n),
            Err(e) => {
                if e.kind() != ErrorKind::Interrupted {
                    return None;
                }
            }
        }
    }
    None
}
