//! What keeps rows.
ghost use Rattle.std.specs.Prelude.{◌≡◌, ℕ};
ghost use Rattle.reg_names.specs.Cause.{OnlyReads};
ghost use Rattle.reg_names.specs.Refusals.{HasFailed};
ghost use Rattle.keeper_api.specs.Changes.{ArePutsFit, Commits, Changes};
ghost use Rattle.keeper_api.specs.Rows.{Kept, IsAbove, IsNextRow, IsRowAt, IfFound, Finds};
ghost use Rattle.keeper_api.specs.Tables.{Fits};

use crate::{Change, Key, Row};
use reg_names::Refused;
use std::alloc::Global;

/// A map from keys to rows, each of which may stand at its key.
///
/// A keeper may not tell its rows, as a database on a disk that was written by others does not: clauses on content
/// speak of keepers that tell. `get` and `next` change nothing that it keeps, also where they fail or find no memory.
pub trait Keeper {
    /// Whether it tells its rows, and the rows.
    ghost kept: { Self → Kept };

    /// How often it has failed. No call makes it fall.
    ghost faults: { Self → ℕ };

    /// The row at a key, and `None` exactly where there is none.
    ///
    /// Errors, here and in the calls below: `Failed` where the keeper failed and its count of faults rose, and
    /// `NoMemory`, which is tied to no cause. Both leave all rows as they were.
    fn get(&mut self, alloc: Global, key: &Key) -> Result<Option<Row>, Refused>
        ensures value { Finds (kept self.old) result (IsRowAt key.now) }
        ensures fits { IfFound result (λ row. Fits key.now row) }
        ensures reads { OnlyReads kept faults self.old self.new (HasFailed result) };

    /// The least key of the same table above `after`, which need not be there, with its row; and `None` exactly where
    /// the table has no such key.
    fn next(&mut self, alloc: Global, after: &Key) -> Result<Option<(Key, Row)>, Refused>
        ensures value { Finds (kept self.old) result (IsNextRow after.now) }
        ensures above { IfFound result (λ found. IsAbove after.now found.0) }
        ensures fits { IfFound result (λ found. Fits found.0 found.1) }
        ensures reads { OnlyReads kept faults self.old self.new (HasFailed result) };

    /// Makes all changes, in their order, so that the last one of a key counts; or none of them where it is refused.
    fn commit(&mut self, alloc: Global, changes: &[Change]) -> Result<(), Refused>
        requires puts { ArePutsFit changes.now }
        ensures changes { Changes kept faults self.old self.new (Commits changes.now result)
            (HasFailed result) };
}
