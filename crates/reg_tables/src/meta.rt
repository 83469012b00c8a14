//! The version of the tables, and the delay.
ghost use Rattle.std.specs.Prelude.{◌≡◌, IfOk};
ghost use Rattle.keeper_api.specs.Rows.{Finds};
ghost use Rattle.keeper_api.specs.Tables.{Fits};
ghost use Rattle.reg_tables.specs.Finds.{IsFoundAt, LooksUp};
ghost use Rattle.reg_tables.specs.Meta.{version_key as key_of_version, delay_key as key_of_delay, version_row, delay_row, TellsVersion};

use crate::find::{find_row, noting};
use crate::rows::number_of;
use keeper_api::{Bytes, Keeper, Key};
use reg_entries::Trouble;
use reg_names::NoMemory;
use std::alloc::Global;

const VERSION: u64 = 1;

/// The key of the version's row.
pub fn version_key(alloc: Global) -> Result<Key, NoMemory>
    ensures { IfOk result (λ key. key ≡ key_of_version) }
{
    let bytes = Bytes::from_slice(alloc, &[0])?;
    Ok(Key::new(0, bytes))
}

/// The row of version 1, which may stand at its key.
pub fn version_bytes(alloc: Global) -> Result<Bytes, NoMemory>
    ensures row { IfOk result (λ row. row ≡ version_row) }
    ensures fits { IfOk result (λ row. Fits key_of_version row) }
{
    Bytes::from_slice(alloc, &VERSION.to_be_bytes())
}

/// The key of the delay's row.
pub fn delay_key(alloc: Global) -> Result<Key, NoMemory>
    ensures { IfOk result (λ key. key ≡ key_of_delay) }
{
    let bytes = Bytes::from_slice(alloc, &[1])?;
    Ok(Key::new(0, bytes))
}

/// The row of a delay in seconds, which may stand at its key.
pub fn delay_bytes(alloc: Global, delay: u64) -> Result<Bytes, NoMemory>
    ensures row { IfOk result (λ row. row ≡ delay_row delay) }
    ensures fits { IfOk result (λ row. Fits key_of_delay row) }
{
    Bytes::from_slice(alloc, &delay.to_be_bytes())
}

/// Whether the version's row stands. It is that of version 1, since no other may stand there.
///
/// Errors, here and below: `Keeper` where the keeper failed and its count of faults rose, and `NoMemory`. All rows stay
/// as they are.
pub fn has_version<K: Keeper>(alloc: Global, keeper: &mut K) -> Result<bool, Trouble>
    ensures value { Finds (K.kept keeper.old) result TellsVersion }
    ensures reads { LooksUp K.kept K.faults keeper.old keeper.new result }
{
    let key = noting(version_key(alloc))?;
    match find_row(alloc, keeper, &key)? {
        Some(_) => Ok(true),
        None => Ok(false),
    }
}

/// The delay that the tables keep, in seconds, and `None` exactly where there is no row of it.
pub fn find_delay<K: Keeper>(alloc: Global, keeper: &mut K) -> Result<Option<u64>, Trouble>
    ensures value { Finds (K.kept keeper.old) result (IsFoundAt key_of_delay delay_row) }
    ensures reads { LooksUp K.kept K.faults keeper.old keeper.new result }
{
    let key = noting(delay_key(alloc))?;
    match find_row(alloc, keeper, &key)? {
        Some(row) => Ok(Some(number_of(row.as_slice()))),
        None => Ok(None),
    }
}
