//! Entries that are written, with the rows that they derive.
ghost use Rattle.std.specs.Prelude.{◌≡◌, ◌+◌, ◌≤◌, ◌<◌, ◌++◌, List, length, Err, IfOk, IfErr, OnOk, OnErr, IsErrOf, IsTrue};
ghost use Rattle.keeper_api.specs.Changes.{after, ArePutsFit, with_changes};
ghost use Rattle.keeper_api.specs.Rows.{Rows, Finds};
ghost use Rattle.reg_entries.specs.declared.trouble.Trouble.TheVariants as troubles;
ghost use Rattle.reg_names.specs.Cause.{HasCause};
ghost use Rattle.reg_names.specs.declared.refused.Refused.TheVariants as refusals;
ghost use Rattle.reg_journal.specs.declared.entry.Entry.{Entry as Written};
ghost use Rattle.reg_tables.specs.Derived.{rows_of, without_taken, IsDerived, journal_limit};
ghost use Rattle.reg_tables.specs.Finds.{LooksUp, HasKeeperFailed, IsOfLookUps};
ghost use Rattle.reg_tables.specs.Keys.{last_number_key as key_of_last_number};
ghost use Rattle.reg_tables.specs.Writing.{IsWritten, IsLastOf, IsPastLimit, IsOfTables};

use crate::Trail;
use crate::entries::enter;
use crate::find::{find_row, noting};
use crate::pending::Pending;
use crate::rows::number_of;
use keeper_api::{Bytes, Change, Keeper, Key};
use reg_entries::Trouble;
use reg_journal::Entry;
use reg_names::{NoMemory, Refused};
use std::alloc::Global;

/// The most entries of a journal.
pub const JOURNAL_LIMIT: u64 = 9_000_000_000_000_000_000;

/// Writes entries behind those of the journal, with the rows that they derive, and the changes that are handed in: all
/// in one commit. It answers the number of the last entry of the journal, and notes the entries in the trail.
///
/// The changes come first, and are of tables that no journal derives. Memory is in proportion to the changes, the
/// entries and the rows that they touch.
///
/// Errors: `Full` where the journal would have more than [`JOURNAL_LIMIT`] entries, `Keeper` where the keeper failed and
/// its count of faults rose, and `NoMemory`. Each leaves rows and trail as they were.
pub fn write<K: Keeper>(
    alloc: Global,
    keeper: &mut K,
    trail: &mut Trail,
    changes: Vec<Change>,
    entries: Vec<Entry>,
) -> Result<u64, Trouble>
    requires { ArePutsFit changes.items }
    ensures rows { OnOk result
        (IsWritten (K.kept keeper.old) (K.kept keeper.new) changes.items entries.items) }
    ensures tells { (K.kept keeper.new).tells ≡ (K.kept keeper.old).tells }
    ensures last { IfOk result (IsLastOf (K.kept keeper.old) entries.items) }
    ensures limit { IfOk result (λ number. number ≤ journal_limit) }
    ensures full { IsErrOf result troubles.Full → IsPastLimit (K.kept keeper.old) entries.items }
    ensures trail { OnOk result (trail.new ≡ trail.old ++ entries.items) }
    ensures refused_rows { OnErr result (K.kept keeper.new ≡ K.kept keeper.old) }
    ensures refused_trail { OnErr result (trail.new ≡ trail.old) }
    ensures cause { HasCause (K.faults keeper.old) (K.faults keeper.new) (HasKeeperFailed result) }
    ensures trouble { IfErr result IsOfTables }
{
    let last = last_number(alloc, keeper)?;
    let number = number_after(last, entries.len())?;
    let changes = derive(alloc, keeper, last, changes, &entries)?;
    commit(alloc, keeper, trail, &changes, entries)?;
    Ok(number)
}

// The number of the last entry, and 0 where there is none.
fn last_number<K: Keeper>(alloc: Global, keeper: &mut K) -> Result<u64, Trouble>
    ensures value { Finds (K.kept keeper.old) result (λ rows number.
        (journal : List Written) → IsDerived journal rows → number ≡ length journal) }
    ensures reads { LooksUp K.kept K.faults keeper.old keeper.new result }
{
    let key = noting(last_number_key(alloc))?;
    match find_row(alloc, keeper, &key)? {
        Some(row) => Ok(number_of(row.as_slice())),
        None => Ok(0),
    }
}

fn last_number_key(alloc: Global) -> Result<Key, NoMemory>
    ensures { IfOk result (λ key. key ≡ key_of_last_number) }
{
    let bytes = Bytes::from_slice(alloc, &[3])?;
    Ok(Key::new(0, bytes))
}

// The number of the last entry when there are so many more.
fn number_after(last: u64, more: usize) -> Result<u64, Trouble>
    ensures number { IfOk result (λ number. number ≡ last + more) }
    ensures limit { IfOk result (λ number. number ≤ journal_limit) }
    ensures full { OnErr result (journal_limit < last + more) }
    ensures trouble { OnErr result (result ≡ Err troubles.Full) }
{
    match last.checked_add(more as u64) {
        Some(number) if number <= JOURNAL_LIMIT => Ok(number),
        _ => Err(Trouble::Full),
    }
}

// The changes of a commit: those that are handed in, and those that the entries derive.
fn derive<K: Keeper>(
    alloc: Global,
    keeper: &mut K,
    last: u64,
    changes: Vec<Change>,
    entries: &[Entry],
) -> Result<Vec<Change>, Trouble>
    requires puts { ArePutsFit changes.items }
    requires few { last + length entries.now ≤ journal_limit }
    ensures rows { IsTrue (K.kept keeper.old).tells → IfOk result (λ derived.
        (journal : List Written) (others : Rows) → last ≡ length journal →
        after (K.kept keeper.old).rows changes.items ≡ rows_of journal others →
        after (K.kept keeper.old).rows derived.items
        ≡ rows_of (journal ++ entries.now) (without_taken entries.now others)) }
    ensures fit { IfOk result (λ derived. ArePutsFit derived.items) }
    ensures reads { LooksUp K.kept K.faults keeper.old keeper.new result }
{
    let mut pending = noting(Pending::of(alloc, changes))?;
    let mut number = last;
    for entry in entries {
        number += 1;
        enter(alloc, keeper, &mut pending, number, entry)?;
    }
    let changes = noting(pending.into_changes(alloc))?;
    Ok(changes)
}

// Commits changes and notes entries in the trail, or does neither.
fn commit<K: Keeper>(
    alloc: Global,
    keeper: &mut K,
    trail: &mut Trail,
    changes: &[Change],
    entries: Vec<Entry>,
) -> Result<(), Trouble>
    requires { ArePutsFit changes.now }
    ensures rows { OnOk result
        (K.kept keeper.new ≡ with_changes (K.kept keeper.old) changes.now) }
    ensures trail { OnOk result (trail.new ≡ trail.old ++ entries.items) }
    ensures refused_rows { OnErr result (K.kept keeper.new ≡ K.kept keeper.old) }
    ensures refused_trail { OnErr result (trail.new ≡ trail.old) }
    ensures cause { HasCause (K.faults keeper.old) (K.faults keeper.new) (HasKeeperFailed result) }
    ensures trouble { IfErr result IsOfLookUps }
{
    let before = trail.len();
    if trail.append(entries).is_err() {
        return Err(Trouble::NoMemory);
    }
    match keeper.commit(alloc, changes) {
        Ok(()) => Ok(()),
        Err(refused) => {
            trail.truncate(before);
            Err(trouble_of(refused))
        }
    }
}

fn trouble_of(refused: Refused) -> Trouble
    ensures failed { result ≡ troubles.Keeper → refused ≡ refusals.Failed }
    ensures trouble { IsOfLookUps result }
{
    match refused {
        Refused::Failed => Trouble::Keeper,
        Refused::NoMemory => Trouble::NoMemory,
    }
}
