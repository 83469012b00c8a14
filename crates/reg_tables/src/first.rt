//! The first of all rows.
ghost use Rattle.keeper_api.specs.Rows.{Finds};
ghost use Rattle.reg_tables.specs.Finds.{LooksUp};
ghost use Rattle.reg_tables.specs.Firsts.{IsFirst};
ghost use Rattle.reg_tables.specs.InnerFirsts.{IsFirstAt, IsFirstAbove};

use crate::find::{find_row, noting};
use crate::next::next;
use keeper_api::{Bytes, Keeper, Key};
use reg_entries::Trouble;
use std::alloc::Global;

const TABLES: u8 = 17;

/// The least key of all tables whose row stands, and `None` exactly where no row stands.
///
/// Errors: `Keeper` where the keeper failed and its count of faults rose, and `NoMemory`. All rows stay as they are.
pub fn first_row<K: Keeper>(alloc: Global, keeper: &mut K) -> Result<Option<Key>, Trouble>
    ensures value { Finds (K.kept keeper.old) result IsFirst }
    ensures reads { LooksUp K.kept K.faults keeper.old keeper.new result }
{
    for table in 0..TABLES {
        if let Some(key) = first_of(alloc, keeper, table)? {
            return Ok(Some(key));
        }
    }
    Ok(None)
}

// The least key of a table whose row stands.
fn first_of<K: Keeper>(alloc: Global, keeper: &mut K, table: u8) -> Result<Option<Key>, Trouble>
    ensures value { Finds (K.kept keeper.old) result (IsFirstAt table) }
    ensures reads { LooksUp K.kept K.faults keeper.old keeper.new result }
{
    let bytes = noting(Bytes::from_slice(alloc, &[]))?;
    let bare = Key::new(table, bytes);
    match find_row(alloc, keeper, &bare)? {
        Some(_) => Ok(Some(bare)),
        None => first_above(alloc, keeper, &bare),
    }
}

// The least key above one of the same table.
fn first_above<K: Keeper>(alloc: Global, keeper: &mut K, bare: &Key) -> Result<Option<Key>, Trouble>
    ensures value { Finds (K.kept keeper.old) result (IsFirstAbove bare.now) }
    ensures reads { LooksUp K.kept K.faults keeper.old keeper.new result }
{
    match next(alloc, keeper, bare)? {
        Some((key, _)) => Ok(Some(key)),
        None => Ok(None),
    }
}
