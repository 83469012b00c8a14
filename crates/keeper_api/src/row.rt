//! Keys and rows.
ghost use Rattle.std.specs.Prelude.{◌≡◌, ◌∷◌, IfOk};

use reg_names::{Bytes, NoMemory};
use std::alloc::Global;
use std::cmp::Ordering;
use std::marker::Model;

/// Where a row stands: the number of its table, and bytes. Keys are ordered by their tables, and then by their bytes.
/// Contracts see a key as the list of the number and the bytes.
#[derive(Debug, Drop)]
pub struct Key {
    table: u8,
    bytes: Bytes,
}

impl Model for Key {
    ghost use Rattle.std.specs.Prelude.{List, ℕ, ◌∷◌};

    ghost Value = { List ℕ };

    ghost view = { λ k. k.table ∷ k.bytes };
}

impl Key {
    /// The key with these bytes, of a table. It takes no memory.
    pub fn new(table: u8, bytes: Bytes) -> Key
        ensures { result ≡ table ∷ bytes }
    {
        Key { table, bytes }
    }

    /// The number of the table, and the bytes.
    pub fn parts(&self) -> (u8, &[u8])
        ensures { self.now ≡ result.0 ∷ result.1.now }
    {
        (self.table, self.bytes.as_slice())
    }

    /// An equal key.
    pub fn copy(&self, alloc: Global) -> Result<Key, NoMemory>
        ensures { IfOk result (λ k. k ≡ self.now) }
    {
        let bytes = self.bytes.copy(alloc)?;
        Ok(Key {
            table: self.table,
            bytes,
        })
    }
}

impl PartialEq for Key {
    ghost use Rattle.std.specs.Prelude.{nat_eq};
    ghost use Rattle.std.specs.Cmp.{partial_equiv_from_equiv};
    ghost use Rattle.std.specs.Cmp.Lexicographic.{pointwise, nat_list_eq_equiv};

    ghost eq = { pointwise nat_eq };

    ghost laws = { partial_equiv_from_equiv nat_list_eq_equiv };

    fn eq(&self, other: &Key) -> bool {
        self.table == other.table && self.bytes == other.bytes
    }
}

impl Eq for Key {
    ghost use Rattle.std.specs.Cmp.Lexicographic.{nat_list_eq_equiv};

    ghost laws = { nat_list_eq_equiv };
}

impl Ord for Key {
    ghost use Rattle.std.proofs.Common.{rules};
    ghost use Rattle.std.specs.Ordering.{nat_cmp};
    ghost use Rattle.std.specs.Cmp.Rules.{comparing};
    ghost use Rattle.std.specs.Cmp.Lexicographic.{slice_cmp, nat_list_cmp_total};

    ghost cmp = { slice_cmp nat_cmp };

    ghost total = { nat_list_cmp_total };

    ghost matches_partial_cmp = { Prim.search (comparing, rules) };

    ghost matches_eq = { Prim.search (comparing, rules) };

    fn cmp(&self, other: &Key) -> Ordering {
        self.table
            .cmp(&other.table)
            .then(self.bytes.cmp(&other.bytes))
    }
}

impl PartialOrd for Key {
    ghost use Rattle.std.specs.Ordering.{nat_cmp, as_partial_cmp};
    ghost use Rattle.std.specs.Cmp.Lexicographic.{slice_cmp};
    ghost use Rattle.reg_names.specs.InnerOrders.{texts_partial_order};

    ghost partial_cmp = { as_partial_cmp (slice_cmp nat_cmp) };

    ghost laws = { texts_partial_order };

    fn partial_cmp(&self, other: &Key) -> Option<Ordering> {
        Some(self.cmp(other))
    }
}

/// The bytes of a row, which contracts see as the list of them.
#[derive(Debug, Drop, PartialEq, Eq)]
pub struct Row {
    bytes: Bytes,
}

impl Model for Row {
    ghost use Rattle.std.specs.Prelude.{List, ℕ};

    ghost Value = { List ℕ };

    ghost view = { λ r. r.bytes };

    ghost inverse = { λ bytes. record { bytes = bytes } };
}

impl Row {
    /// The row of these bytes. It takes no memory.
    pub fn new(bytes: Bytes) -> Row
        ensures { result ≡ bytes }
    {
        Row { bytes }
    }

    pub fn as_slice(&self) -> &[u8]
        ensures { result.now ≡ self.now }
    {
        self.bytes.as_slice()
    }

    /// The bytes of the row. It takes no memory.
    pub fn into_bytes(self) -> Bytes
        ensures { result ≡ self }
    {
        let Row { bytes } = self;
        bytes
    }

    /// An equal row.
    pub fn copy(&self, alloc: Global) -> Result<Row, NoMemory>
        ensures { IfOk result (λ r. r ≡ self.now) }
    {
        let bytes = self.bytes.copy(alloc)?;
        Ok(Row { bytes })
    }
}
