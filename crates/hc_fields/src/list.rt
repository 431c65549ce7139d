//! A list of fields as plain data.
ghost use Rattle.std.specs.Prelude.{◌≡◌, IfOk};

use hc_text::{NoMemory, Value};
use std::marker::Model;

/// Names and values, in order. A contract sees it as that list.
#[derive(Debug, Drop)]
pub struct FieldList {
    pub items: Vec<(Value, Value)>,
}

impl Model for FieldList {
    ghost use Rattle.std.specs.Prelude.{List, ℕ};

    ghost Value = { List (List ℕ × List ℕ) };

    ghost view = { λ l. l.items.items };
}

impl FieldList {
    /// An equal value of its own.
    pub fn copy(&self) -> Result<FieldList, NoMemory>
        ensures { IfOk result (λ copy. copy ≡ self.now) }
    {
        let mut items = Vec::with_capacity(*self.items.allocator(), self.items.len())?;
        for field in self.items.as_slice() {
            let name = field.0.copy()?;
            let value = field.1.copy()?;
            items.push((name, value))?;
        }
        Ok(FieldList { items })
    }
}
