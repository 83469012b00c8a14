//! The bytes of a manifest, as a change.
ghost use Rattle.std.specs.Prelude.{◌≡◌, ◌∷◌, [], IfOk};
ghost use Rattle.keeper_api.specs.Changes.{ArePutsFit};
ghost use Rattle.keeper_api.specs.declared.change.Change.TheVariants as change;
ghost use Rattle.reg_tables.specs.Keys.{payload_key};

use crate::keys::spot_key;
use keeper_api::{Bytes, Change, Row};
use reg_names::{Digest, Name, NoMemory};
use std::alloc::Global;

/// The change that puts the bytes of a manifest of a repository. It hands the bytes on.
pub fn payload_change(
    alloc: Global,
    name: &Name,
    digest: &Digest,
    bytes: Bytes,
) -> Result<Change, NoMemory>
    ensures change { IfOk result (λ c. c ≡ change.Put (payload_key name.now digest.now) bytes) }
    ensures fits { IfOk result (λ c. ArePutsFit (c ∷ [])) }
{
    let key = spot_key(alloc, 3, name, digest)?;
    Ok(Change::Put(key, Row::new(bytes)))
}
