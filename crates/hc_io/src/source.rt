//! Where bytes come from.
ghost use Rattle.std.specs.Prelude.{◌≡◌, ◌+◌, ◌-◌, ◌<◌, ◌≤◌, ◌^◌, ℕ, List, Option, length, take, drop, vec_len, IfOk, OnOk, OnErr, OnSome, IsErrOf, IsErr, Ok};
ghost use Rattle.std.specs.Result.{result_unwrap_or};
ghost use Rattle.hc_io.specs.Source.{Gives, GivesAll, GivesPrefix, IsAtEnd, HasSourceCause, HasReadCause};

use hc_text::NoMemory;
use std::alloc::{AllocError, Global};

/// The source failed, and counted that.
#[derive(Clone, Copy, Debug, PartialEq, Eq)]
pub struct SourceFailed;

/// Why a source is not read to its end.
#[derive(Clone, Copy, Debug, PartialEq, Eq)]
pub enum ReadError {
    /// The source failed, and counted that.
    SourceFailed,
    /// There was not enough memory.
    NoMemory,
}

impl From<SourceFailed> for ReadError {
    ghost use Rattle.hc_io.specs.declared.source.ReadError.TheVariants as error;

    ghost from_gives = { λ _ e. e ≡ error.SourceFailed };

    fn from(_: SourceFailed) -> Self {
        ReadError::SourceFailed
    }
}

impl From<AllocError> for ReadError {
    ghost use Rattle.hc_io.specs.declared.source.ReadError.TheVariants as error;

    ghost from_gives = { λ _ e. e ≡ error.NoMemory };

    fn from(_: AllocError) -> Self {
        ReadError::NoMemory
    }
}

impl From<NoMemory> for ReadError {
    ghost use Rattle.hc_io.specs.declared.source.ReadError.TheVariants as error;

    ghost from_gives = { λ _ e. e ≡ error.NoMemory };

    fn from(_: NoMemory) -> Self {
        ReadError::NoMemory
    }
}

/// Gives bytes, at most 2^60 in all, and counts its faults.
pub trait Source {
    /// How often it has failed.
    ghost faults: { Self → ℕ };

    /// The bytes left, if it tells them.
    ghost left: { Self → Option (List ℕ) };

    /// How many bytes it has given in all.
    ghost given: { Self → ℕ };

    /// Stores the next bytes first in `into`, and says how many. 0 is the end where `into` is not
    /// empty. An error gives nothing.
    fn read(&mut self, into: &mut [u8]) -> Result<usize, SourceFailed>
        ensures at_most { IfOk result (λ n. n ≤ length into.old) }
        ensures bytes { IfOk result (λ n. Gives (left self.old) (left self.new) (take n into.new)) }
        ensures end { result ≡ Ok 0 → 0 < length into.old → IsAtEnd (left self.new) }
        ensures err { OnErr result (left self.new ≡ left self.old) }

        // A source that tells its bytes leaves the rest of the slice as it was.
        ensures rest { OnSome (left self.old)
            (drop (result_unwrap_or result 0) into.new
            ≡ drop (result_unwrap_or result 0) into.old) }

        // In all at most 2^60 bytes are given.
        ensures count { given self.new ≡ given self.old + result_unwrap_or result 0 }
        ensures in_all { given self.new ≤ 2 ^ 60 }

        // A fault is counted, and none where none is answered.
        ensures cause { HasSourceCause (faults self.old) (faults self.new) result }
        ensures calm { OnOk result (faults self.new ≡ faults self.old) };
}

/// How many bytes are read at a time, at most.
const READ_SIZE: usize = 65_536;

/// Reads to the end. After an error some first of the bytes left were taken.
pub fn read_all<S: Source>(alloc: Global, source: &mut S) -> Result<Vec<u8>, ReadError>
    ensures ok { IfOk result (λ bytes.
        GivesAll (S.left source.old) (S.left source.new) bytes.items) }
    ensures front { GivesPrefix (S.left source.old) (S.left source.new) }

    ensures small { IfOk result (λ bytes. vec_len bytes ≤ 2 ^ 60) }
    ensures count { IfOk result (λ bytes. S.given source.new ≡ S.given source.old + vec_len bytes) }

    // SourceFailed comes only where a fault was counted, and nothing else does.
    ensures cause { HasReadCause (S.faults source.old) (S.faults source.new) result }
    ensures calm { OnOk result (S.faults source.new ≡ S.faults source.old) }
    ensures no_fault { IsErrOf result ReadError.NoMemory
        → S.faults source.new ≡ S.faults source.old }
{
    let mut bytes = Vec::new(alloc);
    let mut filled = 0;
    loop {
        make_room(&mut bytes, filled)?;
        let n = read_at(source, bytes.as_mut_slice(), filled)?;
        if n == 0 {
            break;
        }
        filled += n;
    }
    bytes.truncate(filled);
    Ok(bytes)
}

/// Makes the vector longer than `filled`, by zeros. What an earlier read left unfilled stays.
fn make_room(bytes: &mut Vec<u8>, filled: usize) -> Result<(), AllocError>
    requires { filled ≤ vec_len bytes.old }
    ensures within { filled ≤ vec_len bytes.new }
    ensures front { take filled bytes.new.items ≡ take filled bytes.old.items }
    ensures room { OnOk result (filled < vec_len bytes.new) }
{
    if filled < bytes.len() {
        return Ok(());
    }
    bytes.reserve(READ_SIZE)?;
    bytes.resize(filled + READ_SIZE, 0)
}

/// One read into the slice from a place on.
fn read_at<S: Source>(source: &mut S, into: &mut [u8], at: usize) -> Result<usize, SourceFailed>
    requires { at < length into.old }
    ensures front { take at into.new ≡ take at into.old }
    ensures at_most { IfOk result (λ n. at + n ≤ length into.new) }
    ensures bytes { IfOk result (λ n.
        Gives (S.left source.old) (S.left source.new) (take n (drop at into.new))) }
    ensures end { result ≡ Ok 0 → IsAtEnd (S.left source.new) }
    ensures err { OnErr result (S.left source.new ≡ S.left source.old) }
    ensures count { S.given source.new ≡ S.given source.old + result_unwrap_or result 0 }
    ensures in_all { S.given source.new ≤ 2 ^ 60 }
    ensures cause { HasSourceCause (S.faults source.old) (S.faults source.new) result }
    ensures calm { OnOk result (S.faults source.new ≡ S.faults source.old) }
{
    source.read(&mut into[at..])
}
