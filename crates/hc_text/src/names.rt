//! Small types, each seen as its list of bytes.
ghost use Rattle.std.specs.Prelude.{◌≡◌, IfOk};

use crate::memory::NoMemory;
use std::marker::Model;

/// The key of a stored answer: the serialization of its URL without a fragment.
#[derive(Debug, Drop)]
pub struct Key {
    pub bytes: Vec<u8>,
}

impl Model for Key {
    ghost use Rattle.std.specs.Prelude.{List, ℕ};

    ghost Value = { List ℕ };

    ghost view = { λ b. b.bytes.items };
}

impl Key {
    /// An equal value of its own.
    pub fn copy(&self) -> Result<Key, NoMemory>
        ensures { IfOk result (λ copy. copy ≡ self.now) }
    {
        let bytes = self.bytes.to_vec(*self.bytes.allocator())?;
        Ok(Key { bytes })
    }
}

/// The method of a request (RFC 9110 section 9.1).
#[derive(Debug, Drop)]
pub struct MethodName {
    pub bytes: Vec<u8>,
}

impl Model for MethodName {
    ghost use Rattle.std.specs.Prelude.{List, ℕ};

    ghost Value = { List ℕ };

    ghost view = { λ b. b.bytes.items };
}

impl MethodName {
    /// An equal value of its own.
    pub fn copy(&self) -> Result<MethodName, NoMemory>
        ensures { IfOk result (λ copy. copy ≡ self.now) }
    {
        let bytes = self.bytes.to_vec(*self.bytes.allocator())?;
        Ok(MethodName { bytes })
    }
}

/// The name or the value of a field (RFC 9110 section 5.5).
#[derive(Debug, Drop)]
pub struct Value {
    pub bytes: Vec<u8>,
}

impl Model for Value {
    ghost use Rattle.std.specs.Prelude.{List, ℕ};

    ghost Value = { List ℕ };

    ghost view = { λ b. b.bytes.items };
}

impl Value {
    /// An equal value of its own.
    pub fn copy(&self) -> Result<Value, NoMemory>
        ensures { IfOk result (λ copy. copy ≡ self.now) }
    {
        let bytes = self.bytes.to_vec(*self.bytes.allocator())?;
        Ok(Value { bytes })
    }
}
