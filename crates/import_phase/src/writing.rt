//! The row of a phase.
ghost use Rattle.std.specs.Prelude.{◌≡◌, ◌++◌, ◌∷◌, ◌<◌, ◌^◌, length, IfOk, OnOk};
ghost use Rattle.keeper_api.specs.Fields.{counted};
ghost use Rattle.keeper_api.specs.Tables.{Fits};
ghost use Rattle.import_phase.specs.Phases.{path_field, key_field, cursor_spelled, two_spelled, phase_spelled, phase_key, IsKeptPath, IsKeptKey, IsKeptCursor, IsKeptTwo, IsKept, IsBoundedTwo, IsBounded};

use crate::{Cursor, Phase, Two};
use depot_api::Path;
use keeper_api::{Bytes, Key};
use reg_names::NoMemory;
use std::alloc::Global;

/// The key of the phase row.
pub fn phase_key(alloc: Global) -> Result<Key, NoMemory>
    ensures { IfOk result (λ key. key ≡ phase_key) }
{
    let bytes = Bytes::from_slice(alloc, &[2])?;
    Ok(Key::new(0, bytes))
}

/// The row of a phase, which may stand at the phase row's key. The tables serve since an entry, which is numbered from
/// 1, and a key has at most 65,535 bytes behind its table's: phases that were read and keys of rows are such.
pub fn phase_bytes(alloc: Global, phase: &Phase) -> Result<Bytes, NoMemory>
    requires { IsBounded phase.now }
    ensures row { IfOk result (λ row. row ≡ phase_spelled phase.now) }
    ensures kept { OnOk result (IsKept phase.now) }
    ensures fits { IfOk result (λ row. Fits phase_key row) }
{
    let mut row = Vec::new(alloc);
    put_phase(alloc, &mut row, phase)?;
    Ok(Bytes::from_vec(row))
}

fn put_phase(alloc: Global, row: &mut Vec<u8>, phase: &Phase) -> Result<(), NoMemory>
    requires { IsBounded phase.now }
    ensures row { OnOk result (row.new.items ≡ row.old.items ++ phase_spelled phase.now) }
    ensures kept { OnOk result (IsKept phase.now) }
{
    match phase {
        Phase::Files { one } => {
            row.push(1)?;
            put_cursor(alloc, row, one)?;
        }
        Phase::Frozen { two } => {
            row.push(2)?;
            put_two(alloc, row, two)?;
        }
        Phase::Tables { since, three } => {
            row.push(3)?;
            row.extend_from_slice(&since.to_be_bytes())?;
            put_cursor(alloc, row, three)?;
        }
    }
    Ok(())
}

fn put_cursor(alloc: Global, row: &mut Vec<u8>, cursor: &Cursor) -> Result<(), NoMemory>
    ensures row { OnOk result (row.new.items ≡ row.old.items ++ cursor_spelled cursor.now) }
    ensures kept { OnOk result (IsKeptCursor cursor.now) }
{
    match cursor {
        Cursor::Start => row.push(0)?,
        Cursor::At(path) => {
            row.push(1)?;
            put_path(alloc, row, path)?;
        }
        Cursor::Done => row.push(2)?,
    }
    Ok(())
}

fn put_two(alloc: Global, row: &mut Vec<u8>, two: &Two) -> Result<(), NoMemory>
    requires { IsBoundedTwo two.now }
    ensures row { OnOk result (row.new.items ≡ row.old.items ++ two_spelled two.now) }
    ensures kept { OnOk result (IsKeptTwo two.now) }
{
    match two {
        Two::FilesStart => row.push(0)?,
        Two::Files(path) => {
            row.push(1)?;
            put_path(alloc, row, path)?;
        }
        Two::RowsStart => row.push(2)?,
        Two::Rows(key) => {
            row.push(3)?;
            let (table, bytes) = key.parts();
            put_key(row, table, bytes)?;
        }
    }
    Ok(())
}

fn put_path(alloc: Global, row: &mut Vec<u8>, path: &Path) -> Result<(), NoMemory>
    ensures row { OnOk result (row.new.items ≡ row.old.items ++ path_field path.now) }
    ensures kept { OnOk result (IsKeptPath path.now) }
{
    let _parts = path.parts();
    let text = path.text(alloc)?;
    put_counted(row, text.as_str().as_bytes())?;
    Ok(())
}

// The key of a table with these bytes.
fn put_key(row: &mut Vec<u8>, table: u8, bytes: &[u8]) -> Result<(), NoMemory>
    requires { length bytes.now < 2 ^ 16 }
    ensures row { OnOk result (row.new.items ≡ row.old.items ++ key_field (table ∷ bytes.now)) }
    ensures kept { OnOk result (IsKeptKey (table ∷ bytes.now)) }
{
    row.push(table)?;
    put_counted(row, bytes)?;
    Ok(())
}

// Bytes, behind two that count them.
fn put_counted(row: &mut Vec<u8>, bytes: &[u8]) -> Result<(), NoMemory>
    requires { length bytes.now < 2 ^ 16 }
    ensures { OnOk result (row.new.items ≡ row.old.items ++ counted bytes.now) }
{
    row.extend_from_slice(&(bytes.len() as u16).to_be_bytes())?;
    row.extend_from_slice(bytes)?;
    Ok(())
}
