//! Rows in memory.
ghost use Rattle.std.specs.Prelude.{◌≡◌, true, [], IfOk, OnOk, OnErr};
ghost use Rattle.keeper_api.specs.Changes.{after, ArePutsFit};
ghost use Rattle.keeper_api.specs.Rows.{IsAbove, IsNextRow, IsRowAt, IfFound};
ghost use Rattle.keeper_api.specs.Tables.{Fits};
ghost use Rattle.keeper_api.specs.Slots.{slots_in, rows_in};
ghost use Rattle.keeper_api.specs.InnerSlots.{IsHeldBut};
ghost use Rattle.keeper_api.specs.InnerTables.{may_stand};

use crate::memory::room;
use crate::tables::tests_agree;
use crate::{Change, Key, Row};
use reg_names::NoMemory;
use std::alloc::Global;
use std::collections::BTreeMap;
use std::ops::Bound;

/// Rows by their keys, each of which may stand at its key. A key without a row is a slot that a commit under way has
/// made room for, and there is none between calls.
#[derive(Drop)]
pub(crate) struct Slots {
    map: BTreeMap<Key, Option<Row>>,
    ghost held: { IsHeldBut [] (slots_in map) },
}

impl Slots {
    /// No rows.
    pub(crate) fn new(alloc: Global) -> Slots
        ensures { rows_in result.map ≡ (λ _. None) }
    {
        Slots {
            map: BTreeMap::new(alloc),
        }
    }

    /// The row at a key.
    pub(crate) fn get(&self, alloc: Global, key: &Key) -> Result<Option<Row>, NoMemory>
        ensures value { IfOk result (IsRowAt key.now (rows_in self.now.map)) }
        ensures fits { IfFound result (λ row. Fits key.now row) }
    {
        match self.map.get(key) {
            Some(Some(row)) => Ok(Some(copy_row(alloc, key, row)?)),
            Some(None) | None => Ok(None),
        }
    }

    /// The least key of the same table above another, with its row.
    pub(crate) fn next(&self, alloc: Global, after: &Key) -> Result<Option<(Key, Row)>, NoMemory>
        ensures value { IfOk result (IsNextRow after.now (rows_in self.now.map)) }
        ensures above { IfFound result (λ found. IsAbove after.now found.0) }
        ensures fits { IfFound result (λ found. Fits found.0 found.1) }
    {
        let mut behind = self.map.range((Bound::Excluded(after), Bound::Unbounded));
        let Some((key, Some(row))) = behind.next() else {
            return Ok(None);
        };
        if key.parts().0 != after.parts().0 {
            return Ok(None);
        }
        let row = copy_row(alloc, key, row)?;
        Ok(Some((key.copy(alloc)?, row)))
    }

    /// Makes all changes, in their order, or none of them.
    pub(crate) fn commit(&mut self, alloc: Global, changes: &[Change]) -> Result<(), NoMemory>
        requires { ArePutsFit changes.now }
        ensures made { OnOk result (rows_in self.new.map ≡ after (rows_in self.old.map) changes.now) }
        ensures unmade { OnErr result (rows_in self.new.map ≡ rows_in self.old.map) }
    {
        room::commit(alloc, &mut self.map, changes)
    }
}

// An equal row, which may stand at its key.
fn copy_row(alloc: Global, key: &Key, row: &Row) -> Result<Row, NoMemory>
    requires { may_stand key.now row.now ≡ true }
    ensures row { IfOk result (λ r. r ≡ row.now) }
    ensures fits { Fits key.now row.now }
{
    tests_agree(key, row);
    row.copy(alloc)
}
