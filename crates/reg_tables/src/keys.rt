//! Keys of the tables.
ghost use Rattle.std.specs.Prelude.{◌≡◌, ◌∷◌, ◌++◌, IfOk, OnOk, option_copied};
ghost use Rattle.keeper_api.specs.Fields.{ended};
ghost use Rattle.reg_names.specs.Digests.{IsDigest};
ghost use Rattle.reg_names.specs.Names.{IsName};
ghost use Rattle.reg_names.specs.Tags.{IsTag};
ghost use Rattle.reg_tables.specs.InnerNexts.{bound_of};
ghost use Rattle.reg_tables.specs.Keys.{spot_key, tag_key, blob_key};

use keeper_api::{Bytes, Key};
use reg_names::{Digest, Name, NoMemory, Tag, Text};
use std::alloc::Global;

/// The key of a repository and a digest, in a table.
pub(crate) fn spot_key(
    alloc: Global,
    table: u8,
    name: &Name,
    digest: &Digest,
) -> Result<Key, NoMemory>
    ensures key { IfOk result (λ k. k ≡ spot_key table name.now digest.now) }
    ensures name { OnOk result (IsName name.now) }
    ensures digest { OnOk result (IsDigest digest.now) }
{
    let bytes = spot_part(alloc, name, digest)?;
    Ok(Key::new(table, Bytes::from_vec(bytes)))
}

/// The key of a tag.
pub(crate) fn tag_key(alloc: Global, name: &Name, tag: &Tag) -> Result<Key, NoMemory>
    ensures key { IfOk result (λ k. k ≡ tag_key name.now tag.now) }
    ensures name { OnOk result (IsName name.now) }
    ensures tag { OnOk result (IsTag tag.now) }
{
    let bytes = tag_part(alloc, name, tag)?;
    Ok(Key::new(4, Bytes::from_vec(bytes)))
}

/// The key of a blob.
pub(crate) fn blob_key(alloc: Global, digest: &Digest) -> Result<Key, NoMemory>
    ensures key { IfOk result (λ k. k ≡ blob_key digest.now) }
    ensures digest { OnOk result (IsDigest digest.now) }
{
    let mut bytes = Vec::new(alloc);
    put_digest(&mut bytes, digest)?;
    Ok(Key::new(8, Bytes::from_vec(bytes)))
}

/// What the keys of a repository have behind the table's number.
pub(crate) fn name_part(alloc: Global, name: &Name) -> Result<Vec<u8>, NoMemory>
    ensures part { IfOk result (λ b. b.items ≡ ended name.now) }
    ensures name { OnOk result (IsName name.now) }
{
    let mut bytes = Vec::new(alloc);
    put_ended(&mut bytes, name.as_str())?;
    Ok(bytes)
}

/// What the keys of a repository and a digest have there.
pub(crate) fn spot_part(alloc: Global, name: &Name, digest: &Digest) -> Result<Vec<u8>, NoMemory>
    ensures part { IfOk result (λ b. b.items ≡ ended name.now ++ digest.now) }
    ensures name { OnOk result (IsName name.now) }
    ensures digest { OnOk result (IsDigest digest.now) }
{
    let mut bytes = Vec::new(alloc);
    put_ended(&mut bytes, name.as_str())?;
    put_digest(&mut bytes, digest)?;
    Ok(bytes)
}

/// What the key of a tag has there.
pub(crate) fn tag_part(alloc: Global, name: &Name, tag: &Tag) -> Result<Vec<u8>, NoMemory>
    ensures part { IfOk result (λ b. b.items ≡ ended name.now ++ ended tag.now) }
    ensures name { OnOk result (IsName name.now) }
    ensures tag { OnOk result (IsTag tag.now) }
{
    let mut bytes = Vec::new(alloc);
    put_ended(&mut bytes, name.as_str())?;
    put_ended(&mut bytes, tag.as_str())?;
    Ok(bytes)
}

/// The key of a table with these bytes and more behind them.
pub(crate) fn longer(alloc: Global, table: u8, front: &[u8], more: &[u8]) -> Result<Key, NoMemory>
    ensures { IfOk result (λ k. k ≡ table ∷ (front.now ++ more.now)) }
{
    let mut bytes = Vec::from_slice(alloc, front)?;
    bytes.extend_from_slice(more)?;
    Ok(Key::new(table, Bytes::from_vec(bytes)))
}

/// What a tag's key ends with, or nothing where there is no tag.
pub(crate) fn tag_bound(alloc: Global, tag: Option<&Text>) -> Result<Vec<u8>, NoMemory>
    ensures { IfOk result (λ b. b.items ≡ bound_of ended (option_copied tag.entry)) }
{
    let mut bytes = Vec::new(alloc);
    if let Some(tag) = tag {
        put_ended(&mut bytes, tag.as_str())?;
    }
    Ok(bytes)
}

/// What a key of a digest ends with, or nothing where there is no digest.
pub(crate) fn digest_bound(alloc: Global, digest: Option<&Digest>) -> Result<Vec<u8>, NoMemory>
    ensures { IfOk result (λ b. b.items ≡ bound_of (λ d. d) (option_copied digest.entry)) }
{
    let mut bytes = Vec::new(alloc);
    if let Some(digest) = digest {
        put_digest(&mut bytes, digest)?;
    }
    Ok(bytes)
}

fn put_ended(bytes: &mut Vec<u8>, text: &str) -> Result<(), NoMemory>
    ensures { OnOk result (bytes.new.items ≡ bytes.old.items ++ ended text.now) }
{
    bytes.extend_from_slice(text.as_bytes())?;
    bytes.push(0)?;
    Ok(())
}

/// Adds a digest.
pub(crate) fn put_digest(bytes: &mut Vec<u8>, digest: &Digest) -> Result<(), NoMemory>
    ensures bytes { OnOk result (bytes.new.items ≡ bytes.old.items ++ digest.now) }
    ensures digest { IsDigest digest.now }
{
    let raw = digest.raw();
    bytes.push(1)?;
    bytes.extend_from_slice(raw)?;
    Ok(())
}
