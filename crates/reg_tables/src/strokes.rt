//! Rows that are put and dropped, each by what it is of.
ghost use Rattle.std.specs.Prelude.{◌≡◌, ◌≤◌, ◌∷◌, ◌++◌, [], ℕ, List, Some, None, OnOk, IfOk};
ghost use Rattle.keeper_api.specs.Changes.{after};
ghost use Rattle.keeper_api.specs.Rows.{Rows, with_row};
ghost use Rattle.keeper_api.specs.Tables.{Fits};
ghost use Rattle.reg_names.specs.Digests.{IsDigest};
ghost use Rattle.reg_names.specs.Names.{IsName};
ghost use Rattle.reg_names.specs.Tags.{IsTag};
ghost use Rattle.reg_journal.specs.Entries.{IsNumber};
ghost use Rattle.reg_journal.specs.Spelling.{entry_spelled, number_field, free_field, kind_number};
ghost use Rattle.reg_tables.specs.Keys.{last_number_key, entry_key, spot_key, manifest_key, tag_key, named_key, child_key, link_key, blob_key};
ghost use Rattle.reg_tables.specs.Spelled.{manifest_spelled, link_spelled, blob_spelled};

use crate::keys::{put_digest, spot_part, tag_part};
use crate::pending::Pending;
use crate::{BlobRow, LinkRow, ManifestRow};
use keeper_api::{Bytes, Key, Row};
use reg_entries::Named;
use reg_journal::{Entry, entry_bytes};
use reg_names::{Digest, Kind, Name, NoMemory, Tag};
use std::alloc::Global;

// ---- rows that are put

/// Puts an entry under its number.
pub(crate) fn put_entry(
    alloc: Global,
    pending: &mut Pending,
    number: u64,
    entry: &Entry,
) -> Result<(), NoMemory>
    requires { 1 ≤ number }
    ensures { OnOk result ((rows : Rows) → after rows pending.new
        ≡ with_row (after rows pending.old) (entry_key number) (Some (entry_spelled entry.now))) }
{
    let row = entry_bytes(alloc, entry)?;
    let key = number_bytes(alloc, number)?;
    put(pending, 1, key, row.into_vec())?;
    Ok(())
}

/// Puts the number of the last entry.
pub(crate) fn put_last_number(
    alloc: Global,
    pending: &mut Pending,
    number: u64,
) -> Result<(), NoMemory>
    ensures { OnOk result ((rows : Rows) → after rows pending.new
        ≡ with_row (after rows pending.old) last_number_key (Some (number_field number))) }
{
    let mut key = Vec::new(alloc);
    key.push(3)?;
    let row = number_bytes(alloc, number)?;
    put(pending, 0, key, row)?;
    Ok(())
}

pub(crate) fn put_manifest(
    alloc: Global,
    pending: &mut Pending,
    name: &Name,
    digest: &Digest,
    row: ManifestRow,
) -> Result<(), NoMemory>
    ensures rows { OnOk result ((rows : Rows) → after rows pending.new
        ≡ with_row (after rows pending.old) (manifest_key name.now digest.now)
        (Some (manifest_spelled row))) }
    ensures name { OnOk result (IsName name.now) }
    ensures digest { OnOk result (IsDigest digest.now) }
{
    let key = spot_part(alloc, name, digest)?;
    let mut bytes = Vec::new(alloc);
    bytes.push(number_of_kind(row.kind))?;
    put_number(&mut bytes, row.size)?;
    put_number(&mut bytes, row.touched)?;
    put(pending, 2, key, bytes)?;
    Ok(())
}

pub(crate) fn put_tag(
    alloc: Global,
    pending: &mut Pending,
    name: &Name,
    tag: &Tag,
    digest: &Digest,
) -> Result<(), NoMemory>
    ensures rows { OnOk result ((rows : Rows) → after rows pending.new
        ≡ with_row (after rows pending.old) (tag_key name.now tag.now) (Some digest.now)) }
    ensures name { OnOk result (IsName name.now) }
    ensures tag { OnOk result (IsTag tag.now) }
{
    let key = tag_part(alloc, name, tag)?;
    let mut bytes = Vec::new(alloc);
    put_digest(&mut bytes, digest)?;
    put(pending, 4, key, bytes)?;
    Ok(())
}

/// Puts the row of a digest that a manifest names.
pub(crate) fn put_named(
    alloc: Global,
    pending: &mut Pending,
    name: &Name,
    manifest: &Digest,
    named: &Named,
) -> Result<(), NoMemory>
    ensures rows { OnOk result ((rows : Rows) → after rows pending.new
        ≡ with_row (after rows pending.old) (named_key name.now manifest.now named.now.digest)
        (Some (free_field named.now.free))) }
    ensures name { OnOk result (IsName name.now) }
    ensures manifest { OnOk result (IsDigest manifest.now) }
    ensures digest { OnOk result (IsDigest named.now.digest) }
{
    let mut key = spot_part(alloc, name, manifest)?;
    put_digest(&mut key, &named.digest)?;
    let mut bytes = Vec::new(alloc);
    bytes.push(named.free as u8)?;
    put(pending, 5, key, bytes)?;
    Ok(())
}

/// Puts the row of a digest that a manifest lists.
pub(crate) fn put_child(
    alloc: Global,
    pending: &mut Pending,
    name: &Name,
    parent: &Digest,
    child: &Digest,
) -> Result<(), NoMemory>
    ensures rows { OnOk result ((rows : Rows) → after rows pending.new
        ≡ with_row (after rows pending.old) (child_key name.now parent.now child.now) (Some [])) }
    ensures name { OnOk result (IsName name.now) }
    ensures parent { OnOk result (IsDigest parent.now) }
    ensures digest { OnOk result (IsDigest child.now) }
{
    let mut key = spot_part(alloc, name, parent)?;
    put_digest(&mut key, child)?;
    put(pending, 6, key, Vec::new(alloc))?;
    Ok(())
}

pub(crate) fn put_link(
    alloc: Global,
    pending: &mut Pending,
    name: &Name,
    digest: &Digest,
    row: LinkRow,
) -> Result<(), NoMemory>
    ensures rows { OnOk result ((rows : Rows) → after rows pending.new
        ≡ with_row (after rows pending.old) (link_key name.now digest.now)
        (Some (link_spelled row))) }
    ensures name { OnOk result (IsName name.now) }
    ensures digest { OnOk result (IsDigest digest.now) }
{
    let key = spot_part(alloc, name, digest)?;
    let mut bytes = Vec::new(alloc);
    put_number(&mut bytes, row.size)?;
    put_number(&mut bytes, row.moment)?;
    put(pending, 7, key, bytes)?;
    Ok(())
}

pub(crate) fn put_blob(
    alloc: Global,
    pending: &mut Pending,
    digest: &Digest,
    row: BlobRow,
) -> Result<(), NoMemory>
    ensures rows { OnOk result ((rows : Rows) → after rows pending.new
        ≡ with_row (after rows pending.old) (blob_key digest.now) (Some (blob_spelled row))) }
    ensures digest { OnOk result (IsDigest digest.now) }
{
    let mut key = Vec::new(alloc);
    put_digest(&mut key, digest)?;
    let bytes = standing_bytes(alloc, row)?;
    put(pending, 8, key, bytes)?;
    Ok(())
}

// ---- rows that are dropped

/// Drops the row of a repository and a digest, in a table.
pub(crate) fn drop_spot(
    alloc: Global,
    pending: &mut Pending,
    table: u8,
    name: &Name,
    digest: &Digest,
) -> Result<(), NoMemory>
    ensures rows { OnOk result ((rows : Rows) → after rows pending.new
        ≡ with_row (after rows pending.old) (spot_key table name.now digest.now) None) }
    ensures name { OnOk result (IsName name.now) }
    ensures digest { OnOk result (IsDigest digest.now) }
{
    let key = spot_part(alloc, name, digest)?;
    pending.forget(Key::new(table, Bytes::from_vec(key)))?;
    Ok(())
}

pub(crate) fn drop_tag(
    alloc: Global,
    pending: &mut Pending,
    name: &Name,
    tag: &Tag,
) -> Result<(), NoMemory>
    ensures rows { OnOk result ((rows : Rows) → after rows pending.new
        ≡ with_row (after rows pending.old) (tag_key name.now tag.now) None) }
    ensures name { OnOk result (IsName name.now) }
    ensures tag { OnOk result (IsTag tag.now) }
{
    let key = tag_part(alloc, name, tag)?;
    pending.forget(Key::new(4, Bytes::from_vec(key)))?;
    Ok(())
}

/// Drops the row of a digest, in a table.
pub(crate) fn drop_digest(
    alloc: Global,
    pending: &mut Pending,
    table: u8,
    digest: &Digest,
) -> Result<(), NoMemory>
    ensures rows { OnOk result ((rows : Rows) → after rows pending.new
        ≡ with_row (after rows pending.old) (table ∷ digest.now) None) }
    ensures digest { OnOk result (IsDigest digest.now) }
{
    let mut key = Vec::new(alloc);
    put_digest(&mut key, digest)?;
    pending.forget(Key::new(table, Bytes::from_vec(key)))?;
    Ok(())
}

// ---- bytes

fn put(pending: &mut Pending, table: u8, key: Vec<u8>, row: Vec<u8>) -> Result<(), NoMemory>
    requires { Fits (table ∷ key.items) row.items }
    ensures { OnOk result ((rows : Rows) → after rows pending.new
        ≡ with_row (after rows pending.old) (table ∷ key.items) (Some row.items)) }
{
    let key = Key::new(table, Bytes::from_vec(key));
    pending.put(key, Row::new(Bytes::from_vec(row)))?;
    Ok(())
}

fn number_bytes(alloc: Global, number: u64) -> Result<Vec<u8>, NoMemory>
    ensures { IfOk result (λ b. b.items ≡ number_field number) }
{
    let mut bytes = Vec::new(alloc);
    put_number(&mut bytes, number)?;
    Ok(bytes)
}

fn put_number(bytes: &mut Vec<u8>, number: u64) -> Result<(), NoMemory>
    ensures bytes { OnOk result (bytes.new.items ≡ bytes.old.items ++ number_field number) }
    ensures number { IsNumber number }
{
    bytes.extend_from_slice(&number.to_be_bytes())?;
    Ok(())
}

fn number_of_kind(kind: Kind) -> u8
    ensures { result ≡ kind_number kind }
{
    match kind {
        Kind::OciImage => 1,
        Kind::OciIndex => 2,
        Kind::DockerImage => 3,
        Kind::DockerList => 4,
    }
}

fn standing_bytes(alloc: Global, row: BlobRow) -> Result<Vec<u8>, NoMemory>
    ensures bytes { IfOk result (λ b. b.items ≡ blob_spelled row) }
    ensures form { OnOk result ((digest : List ℕ) → IsDigest digest →
        Fits (8 ∷ digest) (blob_spelled row)) }
{
    match row {
        BlobRow::Pending { touched } => Ok(one_number(alloc, 1, touched)?),
        BlobRow::Here { size, touched } => {
            let mut bytes = one_number(alloc, 2, size)?;
            put_number(&mut bytes, touched)?;
            Ok(bytes)
        }
        BlobRow::Doomed { entry } => Ok(one_number(alloc, 3, entry)?),
    }
}

// A byte, and a number.
fn one_number(alloc: Global, byte: u8, number: u64) -> Result<Vec<u8>, NoMemory>
    ensures bytes { IfOk result (λ b. b.items ≡ byte ∷ number_field number) }
    ensures number { IsNumber number }
{
    let mut bytes = Vec::new(alloc);
    bytes.push(byte)?;
    put_number(&mut bytes, number)?;
    Ok(bytes)
}
