//! Lists, each seen as the list of what stands there.
ghost use Rattle.std.specs.Prelude.{◌≡◌, ◌∷◌, ◌++◌, [], OnOk, OnErr};

use crate::contents::Content;
use hc_sparse::Run;
use hc_text::NoMemory;
use std::alloc::Global;
use std::marker::Model;

/// The bytes of a representation as runs.
#[derive(Drop)]
pub struct RunList {
    runs: Vec<Run>,
}

impl Model for RunList {
    ghost use Rattle.std.specs.Prelude.{List};
    ghost use Rattle.hc_sparse.specs.declared.run.Run.{Run};

    ghost Value = { List Run };

    ghost view = { λ l. l.runs.items };
}

impl RunList {
    /// No run.
    pub fn new(alloc: Global) -> RunList
        ensures { result ≡ [] }
    {
        RunList {
            runs: Vec::new(alloc),
        }
    }

    /// One more stands last.
    pub fn push(&mut self, run: Run) -> Result<(), NoMemory>
        ensures ok { OnOk result (self.new ≡ self.old ++ run ∷ []) }
        ensures err { OnErr result (self.new ≡ self.old) }
    {
        self.runs.push(run)?;
        Ok(())
    }

    pub fn as_slice(&self) -> &[Run]
        ensures { result.now ≡ self.now }
    {
        self.runs.as_slice()
    }
}

/// Representations with which a cache begins.
#[derive(Drop)]
pub struct ContentList {
    items: Vec<Content>,
}

impl Model for ContentList {
    ghost use Rattle.std.specs.Prelude.{List};
    ghost use Rattle.hc_contents.specs.declared.contents.Content.{Content};

    ghost Value = { List Content };

    ghost view = { λ l. l.items.items };
}

impl ContentList {
    /// No item.
    pub fn new(alloc: Global) -> ContentList
        ensures { result ≡ [] }
    {
        ContentList {
            items: Vec::new(alloc),
        }
    }

    /// One more stands last.
    pub fn push(&mut self, item: Content) -> Result<(), NoMemory>
        ensures ok { OnOk result (self.new ≡ self.old ++ item ∷ []) }
        ensures err { OnErr result (self.new ≡ self.old) }
    {
        self.items.push(item)?;
        Ok(())
    }

    pub fn as_slice(&self) -> &[Content]
        ensures { result.now ≡ self.now }
    {
        self.items.as_slice()
    }
}
