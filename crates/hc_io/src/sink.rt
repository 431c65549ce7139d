//! Where bytes go.
ghost use Rattle.std.specs.Prelude.{◌≡◌, ◌<◌, ◌≤◌, ℕ, List, Option, length, take, IfOk, OnOk, OnErr, IsErrOf};
ghost use Rattle.hc_io.specs.Sink.{Takes, TakesPrefix, HasSinkCause};

use hc_text::NoMemory;
use std::alloc::AllocError;

/// Why a write is refused.
#[derive(Clone, Copy, Debug, PartialEq, Eq)]
pub enum SinkError {
    /// The sink failed, and counted that.
    SinkFailed,
    /// There was not enough memory. Nothing changed, and it is no fault.
    NoMemory,
}

impl From<AllocError> for SinkError {
    ghost use Rattle.hc_io.specs.declared.sink.SinkError.TheVariants as error;

    ghost from_gives = { λ _ e. e ≡ error.NoMemory };

    fn from(_: AllocError) -> Self {
        SinkError::NoMemory
    }
}

impl From<NoMemory> for SinkError {
    ghost use Rattle.hc_io.specs.declared.sink.SinkError.TheVariants as error;

    ghost from_gives = { λ _ e. e ≡ error.NoMemory };

    fn from(_: NoMemory) -> Self {
        SinkError::NoMemory
    }
}

/// Takes bytes, and counts its faults.
pub trait Sink {
    /// How often it has failed.
    ghost faults: { Self → ℕ };

    /// The bytes taken, if it tells them.
    ghost taken: { Self → Option (List ℕ) };

    /// Takes the first bytes of `from`, and says how many: all of them, or fewer, but at least one
    /// where there is one. After an error nothing more is taken.
    fn write(&mut self, from: &[u8]) -> Result<usize, SinkError>
        ensures at_most { IfOk result (λ n. n ≤ length from.now) }
        ensures some { IfOk result (λ n. 0 < length from.now → 0 < n) }
        ensures bytes { IfOk result (λ n.
            Takes (taken self.old) (taken self.new) (take n from.now)) }
        ensures err { OnErr result (taken self.new ≡ taken self.old) }

        // A fault is counted, and none where none is answered. Want of memory is no fault.
        ensures cause { HasSinkCause (faults self.old) (faults self.new) result }
        ensures calm { OnOk result (faults self.new ≡ faults self.old) }
        ensures no_fault { IsErrOf result SinkError.NoMemory → faults self.new ≡ faults self.old };
}

/// Writes all of the bytes, in as many calls as it takes. After an error some first of them went in.
pub fn write_all<K: Sink>(sink: &mut K, bytes: &[u8]) -> Result<(), SinkError>
    ensures ok { OnOk result (Takes (K.taken sink.old) (K.taken sink.new) bytes.now) }
    ensures front { TakesPrefix (K.taken sink.old) (K.taken sink.new) bytes.now }

    // SinkFailed comes only where a fault was counted, and nothing else does.
    ensures cause { HasSinkCause (K.faults sink.old) (K.faults sink.new) result }
    ensures calm { OnOk result (K.faults sink.new ≡ K.faults sink.old) }
    ensures no_fault { IsErrOf result SinkError.NoMemory → K.faults sink.new ≡ K.faults sink.old }
{
    let mut at = 0;
    while at < bytes.len() {
        let n = sink.write(&bytes[at..])?;
        at += n;
    }
    Ok(())
}
