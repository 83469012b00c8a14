//! What stands behind the front of keys, after the changes that wait.
ghost use Rattle.std.specs.Prelude.{◌≡◌, ◌∷◌, ◌++◌, ◌&&◌, ◌||◌, [], ℕ, List, Some, IfOk, OnOk, IsTrue, option_copied, if◌then◌else◌};
ghost use Rattle.keeper_api.specs.Changes.{after};
ghost use Rattle.keeper_api.specs.Rows.{is_below, Finds};
ghost use Rattle.keeper_api.specs.Tables.{Fits};
ghost use Rattle.reg_names.specs.Named.{has_digest};
ghost use Rattle.reg_tables.specs.Finds.{LooksUp};
ghost use Rattle.reg_tables.specs.InnerPending.{is_wanted, is_put, ArePartsBehind, MayStandBehind};

use crate::find::noting;
use crate::keys::longer;
use crate::next::{behind, next_behind};
use crate::pending::{Pending, find_at};
use keeper_api::{Bytes, Keeper};
use reg_entries::Trouble;
use reg_names::NoMemory;
use std::alloc::Global;

// Walks stop after so many turns.
const TURNS: u64 = 4_611_686_018_427_387_904;

/// What keys of a table have behind a front, after the changes: of all rows, or of those that are like one.
pub(crate) fn gather<K: Keeper>(
    alloc: Global,
    keeper: &mut K,
    pending: &Pending,
    table: u8,
    front: &[u8],
    wanted: Option<&[u8]>,
) -> Result<Vec<Bytes>, Trouble>
    ensures parts { IsTrue (K.kept keeper.old).tells → IfOk result (λ parts. ArePartsBehind
        (table ∷ front.now) (option_copied wanted.entry)
        (after (K.kept keeper.old).rows pending.now) parts.items) }
    ensures stand { IfOk result (λ parts. MayStandBehind (table ∷ front.now) parts.items) }
    ensures reads { LooksUp K.kept K.faults keeper.old keeper.new result }
{
    let mut likely = walk(alloc, keeper, table, front, wanted)?;
    noting(add_put(alloc, &mut likely, pending, table, front))?;
    let parts = wanted_of(alloc, keeper, pending, table, front, wanted, likely)?;
    Ok(parts)
}

// Those of some parts whose rows are wanted after the changes.
fn wanted_of<K: Keeper>(
    alloc: Global,
    keeper: &mut K,
    pending: &Pending,
    table: u8,
    front: &[u8],
    wanted: Option<&[u8]>,
    likely: Vec<Bytes>,
) -> Result<Vec<Bytes>, Trouble>
    ensures parts { IsTrue (K.kept keeper.old).tells → IfOk result (λ parts. (part : List ℕ) →
        has_digest part parts.items ≡ has_digest part likely.items && is_wanted
        (option_copied wanted.entry)
        (after (K.kept keeper.old).rows pending.now (table ∷ (front.now ++ part)))) }
    ensures stand { IfOk result (λ parts. MayStandBehind (table ∷ front.now) parts.items) }
    ensures reads { LooksUp K.kept K.faults keeper.old keeper.new result }
{
    let mut parts = Vec::new(alloc);
    for part in likely {
        let stands = is_standing(
            alloc,
            keeper,
            pending,
            table,
            front,
            wanted,
            part.as_slice(),
        )?;
        noting(push_if(&mut parts, stands, part))?;
    }
    Ok(parts)
}

// Whether the row of a part is wanted.
fn is_standing<K: Keeper>(
    alloc: Global,
    keeper: &mut K,
    pending: &Pending,
    table: u8,
    front: &[u8],
    wanted: Option<&[u8]>,
    part: &[u8],
) -> Result<bool, Trouble>
    ensures stands { Finds (K.kept keeper.old) result (λ rows stands. stands ≡ is_wanted
        (option_copied wanted.entry)
        (after rows pending.now (table ∷ (front.now ++ part.now)))) }
    ensures fits { IfOk result (λ stands. IsTrue stands →
        (row : List ℕ) × Fits (table ∷ (front.now ++ part.now)) row) }
    ensures reads { LooksUp K.kept K.faults keeper.old keeper.new result }
{
    let key = noting(longer(alloc, table, front, part))?;
    match find_at(alloc, keeper, pending, &key)? {
        Some(row) => Ok(is_like(wanted, row.as_slice())),
        None => Ok(false),
    }
}

// Whether a row is the one that is asked for, if one is.
fn is_like(wanted: Option<&[u8]>, row: &[u8]) -> bool
    ensures { result ≡ is_wanted (option_copied wanted.entry) (Some row.now) }
{
    match wanted {
        Some(asked) => row == asked,
        None => true,
    }
}

fn push_if(parts: &mut Vec<Bytes>, stands: bool, part: Bytes) -> Result<(), NoMemory>
    ensures { OnOk result (parts.new.items ≡ (if stands then parts.old.items ++ part ∷ []
        else parts.old.items)) }
{
    if stands {
        parts.push(part)?;
    }
    Ok(())
}

// What the keeper's keys have behind the front, before the changes.
fn walk<K: Keeper>(
    alloc: Global,
    keeper: &mut K,
    table: u8,
    front: &[u8],
    wanted: Option<&[u8]>,
) -> Result<Vec<Bytes>, Trouble>
    ensures parts { Finds (K.kept keeper.old) result (λ rows parts. ArePartsBehind
        (table ∷ front.now) (option_copied wanted.entry) rows parts.items) }
    ensures reads { LooksUp K.kept K.faults keeper.old keeper.new result }
{
    let mut parts = Vec::new(alloc);
    let mut bound = Vec::new(alloc);
    for _ in 0..TURNS {
        match next_behind(alloc, keeper, table, front, &bound)? {
            Some((part, row)) => {
                let stands = is_like(wanted, row.as_slice());
                bound = noting(note(alloc, &mut parts, stands, part))?;
            }
            None => return Ok(parts),
        }
    }
    Err(Trouble::NoMemory)
}

// Adds a part where its row is wanted, and gives its bytes.
fn note(
    alloc: Global,
    parts: &mut Vec<Bytes>,
    stands: bool,
    part: Bytes,
) -> Result<Vec<u8>, NoMemory>
    ensures bytes { IfOk result (λ b. b.items ≡ part) }
    ensures parts { OnOk result (parts.new.items ≡ (if stands then parts.old.items ++ part ∷ []
        else parts.old.items)) }
{
    let bytes = Vec::from_slice(alloc, part.as_slice())?;
    push_if(parts, stands, part)?;
    Ok(bytes)
}

// Adds what the keys whose rows are put have behind the front.
fn add_put(
    alloc: Global,
    parts: &mut Vec<Bytes>,
    pending: &Pending,
    table: u8,
    front: &[u8],
) -> Result<(), NoMemory>
    ensures { OnOk result ((part : List ℕ) → IsTrue (is_below [] part) →
        has_digest part parts.new.items
        ≡ has_digest part parts.old.items || is_put (table ∷ (front.now ++ part)) pending.now) }
{
    let from = longer(alloc, table, front, &[])?;
    for (key, row) in pending.above(&from) {
        let Some(part) = behind(table, front, key) else {
            return Ok(());
        };
        if row.is_some() {
            parts.push(Bytes::from_slice(alloc, part)?)?;
        }
    }
    Ok(())
}
