//! Commits in memory: room is made first, which may find no memory and is undone, and then the rows are put into it.
ghost use Rattle.std.specs.Prelude.{◌≡◌, ◌∷◌, [], true, List, ℕ, Some, IfOk, OnOk, OnErr, IsTrue};
ghost use Rattle.keeper_api.specs.Changes.{after, ArePutsFit};
ghost use Rattle.keeper_api.specs.Rows.{with_row, key_of};
ghost use Rattle.keeper_api.specs.Slots.{slots_in, rows_in};
ghost use Rattle.keeper_api.specs.InnerSlots.{is_held, among, IsHeldBut, HasSlot, outcome_of, outcomes_of, keys_of, with_outcomes, AreHeld, HaveSlots, AreAmong, is_empty};

use crate::tables::tests_agree;
use crate::{Change, Key, Row};
use reg_names::NoMemory;
use std::alloc::Global;
use std::collections::BTreeMap;

/// Makes all changes, in their order, or none of them.
pub(super) fn commit(
    alloc: Global,
    map: &mut BTreeMap<Key, Option<Row>>,
    changes: &[Change],
) -> Result<(), NoMemory>
    requires puts { ArePutsFit changes.now }
    requires held { IsHeldBut [] (slots_in map.old) }
    ensures made { OnOk result (rows_in map.new ≡ after (rows_in map.old) changes.now) }
    ensures unmade { OnErr result (rows_in map.new ≡ rows_in map.old) }
    ensures held { IsHeldBut [] (slots_in map.new) }
{
    let outcomes = outcomes(alloc, changes)?;
    let changed = change_all(alloc, map, changes, outcomes);
    sweep(map, changes);
    changed
}

fn change_all(
    alloc: Global,
    map: &mut BTreeMap<Key, Option<Row>>,
    changes: &[Change],
    outcomes: Vec<(Key, Option<Row>)>,
) -> Result<(), NoMemory>
    requires outcomes { outcomes.items ≡ outcomes_of changes.now }
    requires fit { AreHeld outcomes.items }
    requires held { IsHeldBut (keys_of changes.now) (slots_in map.old) }
    ensures made { OnOk result (rows_in map.new ≡ with_outcomes (rows_in map.old) outcomes.items) }
    ensures unmade { OnErr result (rows_in map.new ≡ rows_in map.old) }
    ensures held { IsHeldBut (keys_of changes.now) (slots_in map.new) }
{
    make_room(alloc, map, changes)?;
    place_all(map, outcomes);
    Ok(())
}

// What the changes leave at their keys.
fn outcomes(alloc: Global, changes: &[Change]) -> Result<Vec<(Key, Option<Row>)>, NoMemory>
    requires { ArePutsFit changes.now }
    ensures outcomes { IfOk result (λ v. v.items ≡ outcomes_of changes.now) }
    ensures fit { IfOk result (λ v. AreHeld v.items) }
{
    let mut outcomes = Vec::new(alloc);
    for change in changes {
        outcomes.push(outcome(alloc, change)?)?;
    }
    Ok(outcomes)
}

fn outcome(alloc: Global, change: &Change) -> Result<(Key, Option<Row>), NoMemory>
    ensures outcome { IfOk result (λ o. o ≡ outcome_of change.now) }
    ensures fit { ArePutsFit (change.now ∷ [])
        → is_held true (outcome_of change.now).0 (Some (outcome_of change.now).1) ≡ true }
{
    match change {
        Change::Put(key, row) => {
            tests_agree(key, row);
            let row = row.copy(alloc)?;
            Ok((key.copy(alloc)?, Some(row)))
        }
        Change::Drop(key) => Ok((key.copy(alloc)?, None)),
    }
}

// Makes a slot for each key, as far as memory goes.
fn make_room(
    alloc: Global,
    map: &mut BTreeMap<Key, Option<Row>>,
    changes: &[Change],
) -> Result<(), NoMemory>
    requires { IsHeldBut (keys_of changes.now) (slots_in map.old) }
    ensures rows { rows_in map.new ≡ rows_in map.old }
    ensures held { IsHeldBut (keys_of changes.now) (slots_in map.new) }
    ensures room { OnOk result (HaveSlots (slots_in map.new) (outcomes_of changes.now)) }
{
    for change in changes {
        make_slot(alloc, map, change.key())?;
    }
    Ok(())
}

fn make_slot(alloc: Global, map: &mut BTreeMap<Key, Option<Row>>, key: &Key) -> Result<(), NoMemory>
    ensures rows { rows_in map.new ≡ rows_in map.old }
    ensures stays { (q : List ℕ) → HasSlot (slots_in map.old) q → HasSlot (slots_in map.new) q }
    ensures held { (keys : List (List ℕ)) → IsTrue (among key.now keys)
        → IsHeldBut keys (slots_in map.old) → IsHeldBut keys (slots_in map.new) }
    ensures room { OnOk result (HasSlot (slots_in map.new) key.now) }
{
    if !map.contains_key(key) {
        let _ = map.insert(key.copy(alloc)?, None)?;
    }
    Ok(())
}

// Puts what the changes leave into their slots. It takes no memory.
fn place_all(map: &mut BTreeMap<Key, Option<Row>>, outcomes: Vec<(Key, Option<Row>)>)
    requires { HaveSlots (slots_in map.old) outcomes.items }
    ensures rows { rows_in map.new ≡ with_outcomes (rows_in map.old) outcomes.items }
    ensures held { (keys : List (List ℕ)) → AreAmong keys outcomes.items
        → AreHeld outcomes.items → IsHeldBut keys (slots_in map.old)
        → IsHeldBut keys (slots_in map.new) }
{
    for (key, slot) in outcomes {
        place(map, key, slot);
    }
}

fn place(map: &mut BTreeMap<Key, Option<Row>>, key: Key, slot: Option<Row>)
    requires { HasSlot (slots_in map.old) key }
    ensures rows { rows_in map.new ≡ with_row (rows_in map.old) key slot }
    ensures stays { (q : List ℕ) → HasSlot (slots_in map.old) q → HasSlot (slots_in map.new) q }
    ensures held { (keys : List (List ℕ)) → IsTrue (among key keys)
        → is_held true key (Some slot) ≡ true → IsHeldBut keys (slots_in map.old)
        → IsHeldBut keys (slots_in map.new) }
{
    let Ok(_) = map.insert(key, slot) else {
        unreachable!()
    };
}

// Takes away the slots of these keys that are empty.
fn sweep(map: &mut BTreeMap<Key, Option<Row>>, changes: &[Change])
    requires { IsHeldBut (keys_of changes.now) (slots_in map.old) }
    ensures rows { rows_in map.new ≡ rows_in map.old }
    ensures held { IsHeldBut [] (slots_in map.new) }
{
    for change in changes {
        sweep_slot(map, change.key());
    }
}

fn sweep_slot(map: &mut BTreeMap<Key, Option<Row>>, key: &Key)
    ensures rows { rows_in map.new ≡ rows_in map.old }
    ensures held { (keys : List (List ℕ)) → IsHeldBut (key.now ∷ keys) (slots_in map.old)
        → IsHeldBut keys (slots_in map.new) }
{
    if is_empty(map, key) {
        let _ = map.remove(key);
    }
}

fn is_empty(map: &BTreeMap<Key, Option<Row>>, key: &Key) -> bool
    ensures { result ≡ is_empty (slots_in map.now key.now) }
{
    matches!(map.get(key), Some(None))
}
