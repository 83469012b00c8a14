//! Changes that wait for one commit, over a keeper that still shows the rows before them.
ghost use Rattle.std.specs.Prelude.{◌≡◌, ◌∷◌, [], ℕ, List, Some, None, IfOk, OnOk, IfSome, option_copied};
ghost use Rattle.std.specs.Option.{unwrap_or};
ghost use Rattle.std.specs.List.{filter};
ghost use Rattle.std.specs.List.Sorted.{IsStrictlySortedBy};
ghost use Rattle.std.specs.Map.{keys_of};
ghost use Rattle.std.specs.Ordering.{nat_cmp};
ghost use Rattle.std.specs.Cmp.Lexicographic.{slice_cmp};
ghost use Rattle.keeper_api.specs.Changes.{after, ArePutsFit};
ghost use Rattle.keeper_api.specs.Rows.{Rows, with_row, is_below, key_of, IfFound, Finds};
ghost use Rattle.keeper_api.specs.Tables.{Fits};
ghost use Rattle.reg_tables.specs.Finds.{LooksUp};
ghost use Rattle.reg_tables.specs.InnerPending.{change_of, changes_of};

use crate::find::{find_row, noting};
use keeper_api::{Change, Keeper, Key, Row};
use reg_entries::Trouble;
use reg_names::NoMemory;
use std::alloc::Global;
use std::collections::BTreeMap;
use std::collections::btree_map::Range;
use std::marker::Model;
use std::ops::Bound;

/// What keys hold once the changes are made: a row, or none. Contracts see the changes, each key once and in the
/// order of the keys. Each row that is put may stand at its key.
#[derive(Drop)]
pub(crate) struct Pending {
    rows: BTreeMap<Key, Option<Row>>,
}

impl Model for Pending {
    ghost use Rattle.std.specs.Prelude.{List};
    ghost use Rattle.keeper_api.specs.declared.change.Change.{Change as Changed};
    ghost use Rattle.reg_tables.specs.InnerPending.{changes_of, WaitInOrder};

    ghost Value = { List Changed };

    ghost view = { λ p. changes_of p.rows.entries };

    ghost invariant = { λ p. WaitInOrder p.rows };
}

impl Pending {
    /// No changes.
    pub(crate) fn new(alloc: Global) -> Pending
        ensures { result ≡ [] }
    {
        Pending {
            rows: BTreeMap::new(alloc),
        }
    }

    /// Changes in their order, so that the last one of a key counts.
    pub(crate) fn of(alloc: Global, changes: Vec<Change>) -> Result<Pending, NoMemory>
        requires { ArePutsFit changes.items }
        ensures { IfOk result (λ p. (rows : Rows) → after rows p ≡ after rows changes.items) }
    {
        let mut pending = Pending::new(alloc);
        for change in changes {
            pending.add(change)?;
        }
        Ok(pending)
    }

    fn add(&mut self, change: Change) -> Result<(), NoMemory>
        requires { ArePutsFit (change ∷ []) }
        ensures { OnOk result ((rows : Rows) →
            after rows self.new ≡ after (after rows self.old) (change ∷ [])) }
    {
        match change {
            Change::Put(key, row) => self.put(key, row)?,
            Change::Drop(key) => self.forget(key)?,
        }
        Ok(())
    }

    /// Adds that a row is put.
    pub(crate) fn put(&mut self, key: Key, row: Row) -> Result<(), NoMemory>
        requires { Fits key row }
        ensures { OnOk result ((rows : Rows) →
            after rows self.new ≡ with_row (after rows self.old) key (Some row)) }
    {
        self.set(key, Some(row))?;
        Ok(())
    }

    /// Adds that the row of a key is dropped.
    pub(crate) fn forget(&mut self, key: Key) -> Result<(), NoMemory>
        ensures { OnOk result ((rows : Rows) →
            after rows self.new ≡ with_row (after rows self.old) key None) }
    {
        self.set(key, None)?;
        Ok(())
    }

    // The row of a key is this one, or none.
    fn set(&mut self, key: Key, row: Option<Row>) -> Result<(), NoMemory>
        requires { IfSome row (Fits key) }
        ensures { OnOk result ((rows : Rows) →
            after rows self.new ≡ with_row (after rows self.old) key row) }
    {
        let _ = self.rows.insert(key, row)?;
        Ok(())
    }

    /// What the changes leave at a key, and `None` where they leave it as it is.
    pub(crate) fn at(&self, key: &Key) -> Option<&Option<Row>>
        ensures row { (rows : Rows) →
            after rows self.now key.now ≡ unwrap_or (option_copied result) (rows key.now) }
        ensures fits { IfSome (option_copied result) (λ row. IfSome row (Fits key.now)) }
    {
        self.rows.get(key)
    }

    /// What the changes leave at the keys above another.
    pub(crate) fn above(&self, key: &Key) -> Range<'_, Key, Option<Row>>
        ensures changes { changes_of result ≡ filter (λ c. is_below key.now (key_of c)) self.now }
        ensures ascend { IsStrictlySortedBy (slice_cmp nat_cmp) (key.now ∷ keys_of result) }
    {
        self.rows.range((Bound::Excluded(key), Bound::Unbounded))
    }

    /// The changes for a commit.
    pub(crate) fn into_changes(self, alloc: Global) -> Result<Vec<Change>, NoMemory>
        ensures changes { IfOk result (λ changes. changes.items ≡ self) }
        ensures fit { IfOk result (λ changes. ArePutsFit changes.items) }
    {
        let Pending { rows } = self;
        let mut changes = Vec::new(alloc);
        for (key, row) in rows {
            changes.push(change_of(key, row))?;
        }
        Ok(changes)
    }
}

fn change_of(key: Key, row: Option<Row>) -> Change
    ensures { result ≡ change_of key row }
{
    match row {
        Some(row) => Change::Put(key, row),
        None => Change::Drop(key),
    }
}

/// The row at a key, after the changes.
pub(crate) fn find_at<K: Keeper>(
    alloc: Global,
    keeper: &mut K,
    pending: &Pending,
    key: &Key,
) -> Result<Option<Row>, Trouble>
    ensures value { Finds (K.kept keeper.old) result
        (λ rows row. row ≡ after rows pending.now key.now) }
    ensures fits { IfFound result (λ row. Fits key.now row) }
    ensures reads { LooksUp K.kept K.faults keeper.old keeper.new result }
{
    match pending.at(key) {
        Some(row) => noting(copy_of(alloc, row)),
        None => find_row(alloc, keeper, key),
    }
}

fn copy_of(alloc: Global, row: &Option<Row>) -> Result<Option<Row>, NoMemory>
    ensures { IfOk result (λ r. r ≡ row.now) }
{
    match row {
        Some(row) => Ok(Some(row.copy(alloc)?)),
        None => Ok(None),
    }
}
