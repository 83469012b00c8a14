//! The entries that were committed.
ghost use Rattle.std.specs.Prelude.{◌≡◌, ◌++◌, [], length, take, OnOk, OnErr};

use reg_journal::Entry;
use reg_names::NoMemory;
use std::alloc::Global;
use std::marker::Model;

/// The entries that were committed since a registry began, in their order. Contracts see it as the list of them.
#[derive(Debug, Drop)]
pub struct Trail {
    entries: Vec<Entry>,
}

impl Model for Trail {
    ghost use Rattle.std.specs.Prelude.{List};
    ghost use Rattle.reg_journal.specs.declared.entry.Entry.{Entry as Written};

    ghost Value = { List Written };

    ghost view = { λ t. t.entries.items };
}

impl Trail {
    /// No entry. It takes no memory.
    pub fn new(alloc: Global) -> Trail
        ensures { result ≡ [] }
    {
        Trail {
            entries: Vec::new(alloc),
        }
    }

    /// The entries, from the first to the last.
    pub fn entries(&self) -> &[Entry]
        ensures { result.now ≡ self.now }
    {
        &self.entries
    }

    /// Adds entries behind the last one. Where memory is wanting, it stays as it was.
    pub(crate) fn append(&mut self, entries: Vec<Entry>) -> Result<(), NoMemory>
        ensures longer { OnOk result (self.new ≡ self.old ++ entries.items) }
        ensures same { OnErr result (self.new ≡ self.old) }
    {
        let mut entries = entries;
        self.entries.append(&mut entries)?;
        Ok(())
    }

    pub(crate) fn len(&self) -> usize
        ensures { result ≡ length self.now }
    {
        self.entries.len()
    }

    /// Keeps so many entries, from the first on.
    pub(crate) fn truncate(&mut self, len: usize)
        ensures { self.new ≡ take len self.old }
    {
        self.entries.truncate(len);
    }
}
