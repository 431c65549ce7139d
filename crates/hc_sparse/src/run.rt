//! A stretch of bytes.
ghost use Rattle.std.specs.Prelude.{◌≡◌, IfOk};

use hc_text::{Bytes, NoMemory};

/// Bytes that the exchange `x` delivered, from the position `at` on.
#[derive(Debug, Drop)]
pub struct Run {
    pub x: u64,
    pub at: u64,
    pub bytes: Bytes,
}

impl Run {
    /// An equal value of its own.
    pub fn copy(&self) -> Result<Run, NoMemory>
        ensures { IfOk result (λ copy. copy ≡ self.now) }
    {
        let bytes = self.bytes.copy()?;
        Ok(Run {
            x: self.x,
            at: self.at,
            bytes,
        })
    }
}
