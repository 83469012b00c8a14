//! The phase from its row.
ghost use Rattle.std.specs.Prelude.{IfOk};
ghost use Rattle.keeper_api.specs.Rows.{Finds};
ghost use Rattle.reg_tables.specs.Finds.{LooksUp};
ghost use Rattle.import_phase.specs.InnerForms.{IsSpelling, IsRead};
ghost use Rattle.import_phase.specs.Phases.{path_field, key_field, cursor_spelled, two_spelled, phase_spelled, IsPhase, IsKeptPath, IsKeptKey, IsKeptCursor, IsKeptTwo, IsKept};

use crate::writing::phase_key;
use crate::{Cursor, Phase, Two};
use depot_api::Path;
use keeper_api::{Bytes, Keeper, Key};
use reg_entries::Trouble;
use reg_names::NoMemory;
use reg_tables::{find_row, noting, number_of};
use std::alloc::Global;
use std::str;

/// The phase that the tables are in: the one that the phase row spells, and `Files` with the cursor `Start` where there
/// is no row.
///
/// Errors: `Keeper` where the keeper failed and its count of faults rose, and `NoMemory`. All rows stay as they are.
pub fn read_phase<K: Keeper>(alloc: Global, keeper: &mut K) -> Result<Phase, Trouble>
    ensures value { Finds (K.kept keeper.old) result IsPhase }
    ensures kept { IfOk result IsKept }
    ensures reads { LooksUp K.kept K.faults keeper.old keeper.new result }
{
    let key = noting(phase_key(alloc))?;
    match find_row(alloc, keeper, &key)? {
        Some(row) => noting(phase_of(alloc, row.as_slice())),
        None => Ok(Phase::Files { one: Cursor::Start }),
    }
}

fn phase_of(alloc: Global, row: &[u8]) -> Result<Phase, NoMemory>
    requires { IsSpelling phase_spelled IsKept row.now }
    ensures { IfOk result (IsRead phase_spelled IsKept row.now) }
{
    let (phase, rest) = row.split_at(1);
    match phase[0] {
        1 => Ok(Phase::Files {
            one: cursor_of(alloc, rest)?,
        }),
        2 => Ok(Phase::Frozen {
            two: two_of(alloc, rest)?,
        }),
        _ => {
            let (since, rest) = rest.split_at(8);
            Ok(Phase::Tables {
                since: number_of(since),
                three: cursor_of(alloc, rest)?,
            })
        }
    }
}

fn cursor_of(alloc: Global, bytes: &[u8]) -> Result<Cursor, NoMemory>
    requires { IsSpelling cursor_spelled IsKeptCursor bytes.now }
    ensures { IfOk result (IsRead cursor_spelled IsKeptCursor bytes.now) }
{
    let (state, rest) = bytes.split_at(1);
    match state[0] {
        0 => Ok(Cursor::Start),
        1 => Ok(Cursor::At(path_of(alloc, rest)?)),
        _ => Ok(Cursor::Done),
    }
}

fn two_of(alloc: Global, bytes: &[u8]) -> Result<Two, NoMemory>
    requires { IsSpelling two_spelled IsKeptTwo bytes.now }
    ensures { IfOk result (IsRead two_spelled IsKeptTwo bytes.now) }
{
    let (state, rest) = bytes.split_at(1);
    match state[0] {
        0 => Ok(Two::FilesStart),
        1 => Ok(Two::Files(path_of(alloc, rest)?)),
        2 => Ok(Two::RowsStart),
        _ => Ok(Two::Rows(key_of(alloc, rest)?)),
    }
}

fn path_of(alloc: Global, bytes: &[u8]) -> Result<Path, NoMemory>
    requires { IsSpelling path_field IsKeptPath bytes.now }
    ensures { IfOk result (IsRead path_field IsKeptPath bytes.now) }
{
    let (_, text) = bytes.split_at(2);
    let Ok(text) = str::from_utf8(text) else {
        unreachable!()
    };
    match Path::read(alloc, text)? {
        Some(path) => Ok(path),
        None => unreachable!(),
    }
}

fn key_of(alloc: Global, bytes: &[u8]) -> Result<Key, NoMemory>
    requires { IsSpelling key_field IsKeptKey bytes.now }
    ensures { IfOk result (IsRead key_field IsKeptKey bytes.now) }
{
    let (table, rest) = bytes.split_at(1);
    let (_, rest) = rest.split_at(2);
    let rest = Bytes::from_slice(alloc, rest)?;
    Ok(Key::new(table[0], rest))
}
