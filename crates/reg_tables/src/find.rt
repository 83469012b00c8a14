//! Look-ups of single rows.
ghost use Rattle.std.specs.Prelude.{◌≡◌, Ok, Err, IfOk, OnErr};
ghost use Rattle.reg_entries.specs.declared.trouble.Trouble.TheVariants as troubles;
ghost use Rattle.keeper_api.specs.Rows.{IsRowAt, IfFound, Finds};
ghost use Rattle.keeper_api.specs.Tables.{Fits};
ghost use Rattle.reg_tables.specs.Finds.{IsFoundAt, LooksUp};
ghost use Rattle.reg_tables.specs.Keys.{manifest_key, payload_key, tag_key as key_of_tag, link_key, blob_key as key_of_blob};
ghost use Rattle.reg_tables.specs.Spelled.{manifest_spelled, link_spelled, blob_spelled};

use crate::keys::{blob_key, spot_key, tag_key};
use crate::rows::digest_of;
use crate::{BlobRow, LinkRow, ManifestRow};
use keeper_api::{Bytes, Keeper, Key, Row};
use reg_entries::Trouble;
use reg_names::{Digest, Name, NoMemory, Refused, Tag};
use std::alloc::Global;

/// The row of a manifest, and `None` exactly where the repository has no such manifest.
///
/// Errors, here and in the calls below: `Keeper` where the keeper failed and its count of faults rose, and `NoMemory`.
/// All rows stay as they are.
pub fn find_manifest<K: Keeper>(
    alloc: Global,
    keeper: &mut K,
    name: &Name,
    digest: &Digest,
) -> Result<Option<ManifestRow>, Trouble>
    ensures value { Finds (K.kept keeper.old) result
        (IsFoundAt (manifest_key name.now digest.now) manifest_spelled) }
    ensures reads { LooksUp K.kept K.faults keeper.old keeper.new result }
{
    let key = noting(spot_key(alloc, 2, name, digest))?;
    match find_row(alloc, keeper, &key)? {
        Some(row) => Ok(Some(ManifestRow::read(row.as_slice()))),
        None => Ok(None),
    }
}

/// The bytes of a manifest, and `None` exactly where there are none.
pub fn find_payload<K: Keeper>(
    alloc: Global,
    keeper: &mut K,
    name: &Name,
    digest: &Digest,
) -> Result<Option<Bytes>, Trouble>
    ensures value { Finds (K.kept keeper.old) result
        (IsFoundAt (payload_key name.now digest.now) (λ bytes. bytes)) }
    ensures reads { LooksUp K.kept K.faults keeper.old keeper.new result }
{
    let key = noting(spot_key(alloc, 3, name, digest))?;
    match find_row(alloc, keeper, &key)? {
        Some(row) => Ok(Some(row.into_bytes())),
        None => Ok(None),
    }
}

/// The digest that a tag points to, and `None` exactly where the repository has no such tag.
pub fn find_tag<K: Keeper>(
    alloc: Global,
    keeper: &mut K,
    name: &Name,
    tag: &Tag,
) -> Result<Option<Digest>, Trouble>
    ensures value { Finds (K.kept keeper.old) result
        (IsFoundAt (key_of_tag name.now tag.now) (λ digest. digest)) }
    ensures reads { LooksUp K.kept K.faults keeper.old keeper.new result }
{
    let key = noting(tag_key(alloc, name, tag))?;
    match find_row(alloc, keeper, &key)? {
        Some(row) => Ok(Some(digest_of(row.as_slice()))),
        None => Ok(None),
    }
}

/// The row of a link, and `None` exactly where the repository does not link the blob.
pub fn find_link<K: Keeper>(
    alloc: Global,
    keeper: &mut K,
    name: &Name,
    digest: &Digest,
) -> Result<Option<LinkRow>, Trouble>
    ensures value { Finds (K.kept keeper.old) result
        (IsFoundAt (link_key name.now digest.now) link_spelled) }
    ensures reads { LooksUp K.kept K.faults keeper.old keeper.new result }
{
    let key = noting(spot_key(alloc, 7, name, digest))?;
    match find_row(alloc, keeper, &key)? {
        Some(row) => Ok(Some(LinkRow::read(row.as_slice()))),
        None => Ok(None),
    }
}

/// The row of a blob, and `None` exactly where its digest has none.
pub fn find_blob<K: Keeper>(
    alloc: Global,
    keeper: &mut K,
    digest: &Digest,
) -> Result<Option<BlobRow>, Trouble>
    ensures value { Finds (K.kept keeper.old) result
        (IsFoundAt (key_of_blob digest.now) blob_spelled) }
    ensures reads { LooksUp K.kept K.faults keeper.old keeper.new result }
{
    let key = noting(blob_key(alloc, digest))?;
    match find_row(alloc, keeper, &key)? {
        Some(row) => Ok(Some(BlobRow::read(row.as_slice()))),
        None => Ok(None),
    }
}

/// The row at a key, and `None` exactly where there is none.
pub fn find_row<K: Keeper>(alloc: Global, keeper: &mut K, key: &Key) -> Result<Option<Row>, Trouble>
    ensures value { Finds (K.kept keeper.old) result (IsRowAt key.now) }
    ensures fits { IfFound result (λ row. Fits key.now row) }
    ensures reads { LooksUp K.kept K.faults keeper.old keeper.new result }
{
    match keeper.get(alloc, key) {
        Ok(row) => Ok(row),
        Err(Refused::Failed) => Err(Trouble::Keeper),
        Err(Refused::NoMemory) => Err(Trouble::NoMemory),
    }
}

/// Want of memory, as a trouble.
pub fn noting<T: Drop>(made: Result<T, NoMemory>) -> Result<T, Trouble>
    ensures ok { IfOk result (λ x. made ≡ Ok x) }
    ensures trouble { OnErr result (result ≡ Err troubles.NoMemory) }
{
    match made {
        Ok(made) => Ok(made),
        Err(NoMemory) => Err(Trouble::NoMemory),
    }
}
