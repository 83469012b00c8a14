//! Changes of rows.
ghost use Rattle.std.specs.Prelude.{◌≡◌};
ghost use Rattle.keeper_api.specs.Rows.{key_of};

use crate::{Key, Row};

/// A change of one row.
#[derive(Debug, Drop)]
pub enum Change {
    /// The row stands at the key, in the place of what stood there.
    Put(Key, Row),
    /// No row stands at the key.
    Drop(Key),
}

impl Change {
    /// The key whose row it changes.
    pub fn key(&self) -> &Key
        ensures { result.now ≡ key_of self.now }
    {
        match self {
            Change::Put(key, _) | Change::Drop(key) => key,
        }
    }
}
