//! Bytes of a body, which several places may keep without a copy.
ghost use Rattle.std.specs.Prelude.{◌≡◌, ◌≤◌, ◌<◌, ◌^◌, ◌==◌, ◌++◌, [], length, slice_range, IfOk, OnOk, OnErr};

use crate::memory::NoMemory;
use bytes::Bytes as SharedBytes;
use std::alloc::Global;
use std::marker::Model;

/// How bytes are kept.
#[derive(Debug, Drop)]
enum Kept {
    /// In a list of their own.
    Own(Vec<u8>),
    /// In a list that others may have too.
    Shared(SharedBytes),
}

/// Bytes of a body.
#[derive(Debug, Drop)]
pub struct Bytes {
    kept: Kept,
}

impl Model for Bytes {
    ghost use Rattle.std.specs.Prelude.{List, ℕ};
    ghost use Rattle.hc_text.specs.Bodies.{kept_bytes};

    ghost Value = { List ℕ };

    ghost view = { λ b. kept_bytes b.kept };
}

impl Bytes {
    /// No bytes.
    pub fn new() -> Bytes
        ensures { result ≡ [] }
    {
        Bytes {
            kept: Kept::Shared(SharedBytes::new()),
        }
    }

    /// The bytes of a list.
    pub fn of(bytes: Vec<u8>) -> Bytes
        ensures { result ≡ bytes.items }
    {
        Bytes {
            kept: Kept::Own(bytes),
        }
    }

    /// The bytes of a list, of which `part` copies none where there was memory to count who has it.
    pub fn shared(bytes: Vec<u8>) -> Bytes
        ensures { result ≡ bytes.items }
    {
        let kept = match SharedBytes::from_vec(bytes) {
            Ok(shared) => Kept::Shared(shared),
            Err(e) => Kept::Own(e.value),
        };
        Bytes { kept }
    }

    pub fn as_slice(&self) -> &[u8]
        ensures { result.now ≡ self.now }
    {
        match &self.kept {
            Kept::Own(bytes) => bytes.as_slice(),
            Kept::Shared(bytes) => bytes.as_slice(),
        }
    }

    pub fn len(&self) -> usize
        ensures value { result ≡ length self.now }
        ensures bound { result < 2 ^ 63 }
    {
        self.as_slice().len()
    }

    pub fn is_empty(&self) -> bool
        ensures { result ≡ (length self.now == 0) }
    {
        self.len() == 0
    }

    /// The bytes from one place to below another.
    pub fn part(&self, alloc: Global, from: usize, to: usize) -> Result<Bytes, NoMemory>
        requires ordered { from ≤ to }
        requires within { to ≤ length self.now }
        ensures { IfOk result (λ part. part ≡ slice_range self.now from to) }
    {
        let kept = match &self.kept {
            Kept::Own(bytes) => Kept::Own(Vec::from_slice(alloc, &bytes[from..to])?),
            Kept::Shared(bytes) => Kept::Shared(bytes.slice(from..to)?),
        };
        Ok(Bytes { kept })
    }

    /// These come last, or nothing changes.
    pub fn append(&mut self, alloc: Global, more: &[u8]) -> Result<(), NoMemory>
        ensures ok { OnOk result (self.new ≡ self.old ++ more.now) }
        ensures err { OnErr result (self.new ≡ self.old) }
    {
        if let Kept::Own(bytes) = &mut self.kept {
            bytes.extend_from_slice(more)?;
            return Ok(());
        }
        let mut bytes = Vec::from_slice(alloc, self.as_slice())?;
        bytes.extend_from_slice(more)?;
        self.kept = Kept::Own(bytes);
        Ok(())
    }

    /// An equal value of its own.
    pub fn copy(&self) -> Result<Bytes, NoMemory>
        ensures { IfOk result (λ copy. copy ≡ self.now) }
    {
        let kept = match &self.kept {
            Kept::Own(bytes) => Kept::Own(bytes.to_vec(*bytes.allocator())?),
            Kept::Shared(bytes) => Kept::Shared(bytes.clone()?),
        };
        Ok(Bytes { kept })
    }
}
