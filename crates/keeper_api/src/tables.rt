//! Which rows may stand at which keys.
ghost use Rattle.std.specs.Prelude.{◌≡◌, ◌↔◌, ◌∷◌, true, IsTrue};
ghost use Rattle.keeper_api.specs.Tables.{Fits, lines, phases, standings};
ghost use Rattle.keeper_api.specs.InnerTables.{is_one_of, has_line, may_stand};

use crate::cursor::are_fields;
use crate::entry::is_entry;
use crate::field::Field;
use crate::{Key, Row};

/// Whether the row may stand at the key: both are those of one of the tables, field by field. It takes no memory.
pub fn fits(key: &Key, row: &Row) -> bool
    ensures { IsTrue result ↔ Fits key.now row.now }
{
    let (table, key) = key.parts();
    is_fitting(table, key, row.as_slice())
}

fn is_fitting(table: u8, key: &[u8], row: &[u8]) -> bool
    ensures { IsTrue result ↔ Fits (table ∷ key.now) row.now }
{
    is_row(table, key, row)
}

/// A row may stand at a key exactly where the tests say so.
pub(crate) fn tests_agree(key: &Key, row: &Row)
    ensures { Fits key.now row.now ↔ (may_stand key.now row.now ≡ true) }
{
    let (table, key) = key.parts();
    tests_agree_on(table, key, row.as_slice());
}

fn tests_agree_on(table: u8, key: &[u8], row: &[u8])
    ensures { Fits (table ∷ key.now) row.now ↔ (may_stand (table ∷ key.now) row.now ≡ true) }
{}

fn is_row(table: u8, key: &[u8], row: &[u8]) -> bool
    ensures { result ≡ has_line lines table key.now row.now }
{
    use Field::{Count, Digest, EndedName, EndedTag, Event, Free, Kind, Number, Positive};
    match table {
        0 => is_meta_row(key, row),
        1 => are_fields(&[Positive], key) && is_entry(row),
        2 => are_fields(&[EndedName, Digest], key) && are_fields(&[Kind, Number, Number], row),
        3 => are_fields(&[EndedName, Digest], key),
        4 => are_fields(&[EndedName, EndedTag], key) && are_fields(&[Digest], row),
        5 => are_fields(&[EndedName, Digest, Digest], key) && are_fields(&[Free], row),
        6 => are_fields(&[EndedName, Digest, Digest], key) && are_fields(&[], row),
        7 => are_fields(&[EndedName, Digest], key) && are_fields(&[Number, Number], row),
        8 => are_fields(&[Digest], key) && is_standing(row),
        9 => are_fields(&[EndedName, Digest], key) && are_fields(&[Number, Count, Event], row),
        10 => are_fields(&[Digest], key) && are_fields(&[Number, Count, Event], row),
        _ => false,
    }
}

fn is_meta_row(key: &[u8], row: &[u8]) -> bool
    ensures { result ≡ has_line lines 0 key.now row.now }
{
    use Field::{Byte, Number, One};
    (are_fields(&[Byte(0)], key) && are_fields(&[One], row))
        || (are_fields(&[Byte(1)], key) && are_fields(&[Number], row))
        || (are_fields(&[Byte(2)], key) && is_phase(row))
        || (are_fields(&[Byte(3)], key) && are_fields(&[Number], row))
}

fn is_phase(row: &[u8]) -> bool
    ensures { result ≡ is_one_of phases row.now }
{
    use Field::{Byte, Path, Positive, Table};
    are_fields(&[Byte(1), Byte(0)], row)
        || are_fields(&[Byte(1), Byte(1), Path], row)
        || are_fields(&[Byte(1), Byte(2)], row)
        || are_fields(&[Byte(2), Byte(0)], row)
        || are_fields(&[Byte(2), Byte(1), Path], row)
        || are_fields(&[Byte(2), Byte(2)], row)
        || are_fields(&[Byte(2), Byte(3), Table, Field::Key], row)
        || are_fields(&[Byte(3), Positive, Byte(0)], row)
        || are_fields(&[Byte(3), Positive, Byte(1), Path], row)
        || are_fields(&[Byte(3), Positive, Byte(2)], row)
}

fn is_standing(row: &[u8]) -> bool
    ensures { result ≡ is_one_of standings row.now }
{
    use Field::{Byte, Number};
    are_fields(&[Byte(1), Number], row)
        || are_fields(&[Byte(2), Number, Number], row)
        || are_fields(&[Byte(3), Number], row)
}
