//! Entries, applied one after the other.
ghost use Rattle.std.specs.Prelude.{◌≡◌, ◌-◌, ◌^◌, ◌||◌};
ghost use Rattle.reg_journal.specs.Kinds.{is_opening};
ghost use Rattle.reg_journal.specs.Past.{Past};
ghost use Rattle.reg_plain.specs.Held.{IsLeftOf};
ghost use Rattle.reg_plain.specs.Applied.{past_by, TellsLegality};

use crate::state::State;
use reg_journal::{Entry, What};
use reg_names::NoMemory;
use std::alloc::Global;

/// Why an entry was not applied.
#[derive(Clone, Copy, Debug, PartialEq, Eq)]
pub enum Unapplied {
    /// It may not follow the entries before it.
    Illegal,
    /// The number of the last entry is the greatest of 64 bits.
    Full,
    NoMemory,
}

impl From<NoMemory> for Unapplied {
    ghost use Rattle.std.specs.Prelude.{◌≡◌};
    ghost use Rattle.reg_plain.specs.declared.apply.Unapplied.TheVariants as reasons;

    ghost from_gives = { λ _ unapplied. unapplied ≡ reasons.NoMemory };

    fn from(_: NoMemory) -> Unapplied {
        Unapplied::NoMemory
    }
}

impl State {
    /// Applies the entry that comes next. Where it is not applied, the state is left of the same journal as before.
    pub fn apply(&mut self, alloc: Global, entry: &Entry) -> Result<(), Unapplied>
        ensures legality { (past : Past) → IsLeftOf past self.old →
            TellsLegality self.old.delay past entry.now result }
        ensures left { (past : Past) → IsLeftOf past self.old →
            IsLeftOf (past_by past entry.now result) self.new }
        ensures delay { self.new.delay ≡ self.old.delay }
        ensures illegal { result ≡ Err Unapplied.Illegal → self.new ≡ self.old }
        ensures full { result ≡ Err Unapplied.Full → self.old.last ≡ 2 ^ 64 - 1 }
    {
        if !self.allows(alloc, entry)? {
            return Err(Unapplied::Illegal);
        }
        let Some(number) = self.last.checked_add(1) else {
            return Err(Unapplied::Full);
        };
        self.change(alloc, number, entry.moment, &entry.what)?;
        self.count(number, &entry.what);
        Ok(())
    }

    fn count(&mut self, number: u64, what: &What)
        ensures { self.new ≡ record self.old {
          last = number;
          opened = self.old.opened || is_opening what.now;
        } }
    {
        self.last = number;
        if matches!(what, What::Opened) {
            self.opened = true;
        }
    }
}
