//! What entries do, one row at a time.
ghost use Rattle.std.specs.Prelude.{◌≡◌, ◌∷◌, ◌+◌, ◌≤◌, [], ℕ, List, Some, None, OnOk, length, option_map};
ghost use Rattle.keeper_api.specs.Changes.{after};
ghost use Rattle.keeper_api.specs.Rows.{Rows, Finds};
ghost use Rattle.reg_names.specs.Digests.{IsDigest};
ghost use Rattle.reg_names.specs.Names.{IsName};
ghost use Rattle.reg_journal.specs.Changes.{with_tag, with_link, with_condemned, link_of, condemned_at};
ghost use Rattle.reg_journal.specs.Past.{Past};
ghost use Rattle.reg_tables.specs.Derived.{with_past, journal_limit};
ghost use Rattle.reg_tables.specs.Finds.{LooksUp};
ghost use Rattle.reg_tables.specs.InnerPending.{Takes, Makes};
ghost use Rattle.reg_tables.specs.Keys.{manifest_key, blob_key as key_of_blob};
ghost use Rattle.reg_tables.specs.Spelled.{manifest_spelled, blob_spelled};
ghost use Rattle.reg_tables.specs.InnerSteps.{logged, touched_manifests, touched_blobs, marked as past_marked, come, erased, touched_row, marked_row, come_row};

use crate::find::noting;
use crate::keys::{blob_key, spot_key};
use crate::pending::{Pending, find_at};
use crate::strokes::{
    drop_digest, drop_spot, drop_tag, put_blob, put_entry, put_last_number, put_link, put_manifest,
    put_tag,
};
use crate::{BlobRow, LinkRow, ManifestRow};
use keeper_api::Keeper;
use reg_entries::Trouble;
use reg_journal::Entry;
use reg_names::{Digest, Name, NoMemory, Tag};
use std::alloc::Global;

/// Adds an entry to the journal, under the number that comes next.
pub(crate) fn log(
    alloc: Global,
    pending: &mut Pending,
    number: u64,
    entry: &Entry,
) -> Result<(), NoMemory>
    requires { 1 ≤ number }
    ensures { OnOk result ((rows : Rows) (past : Past) (base : Rows) →
        number ≡ length past.entries + 1 → number ≤ journal_limit →
        after rows pending.old ≡ with_past past base →
        after rows pending.new ≡ with_past (logged entry.now past) base) }
{
    put_entry(alloc, pending, number, entry)?;
    put_last_number(alloc, pending, number)?;
    Ok(())
}

// ---- tags and links

pub(crate) fn set_tag(
    alloc: Global,
    pending: &mut Pending,
    name: &Name,
    tag: &Tag,
    digest: &Digest,
) -> Result<(), NoMemory>
    ensures { Makes result pending.old pending.new
        (with_tag name.now tag.now (Some digest.now)) }
{
    put_tag(alloc, pending, name, tag, digest)?;
    Ok(())
}

pub(crate) fn remove_tag(
    alloc: Global,
    pending: &mut Pending,
    name: &Name,
    tag: &Tag,
) -> Result<(), NoMemory>
    ensures { Makes result pending.old pending.new (with_tag name.now tag.now None) }
{
    drop_tag(alloc, pending, name, tag)?;
    Ok(())
}

pub(crate) fn link(
    alloc: Global,
    pending: &mut Pending,
    name: &Name,
    digest: &Digest,
    size: u64,
    now: u64,
) -> Result<(), NoMemory>
    ensures { Makes result pending.old pending.new
        (with_link name.now digest.now (Some (link_of size now))) }
{
    put_link(alloc, pending, name, digest, LinkRow { size, moment: now })?;
    Ok(())
}

pub(crate) fn unlink(
    alloc: Global,
    pending: &mut Pending,
    name: &Name,
    digest: &Digest,
) -> Result<(), NoMemory>
    ensures { Makes result pending.old pending.new (with_link name.now digest.now None) }
{
    drop_spot(alloc, pending, 7, name, digest)?;
    Ok(())
}

// ---- manifests that are touched

/// Touches a manifest of a repository, where it stands.
pub(crate) fn touch_manifest<K: Keeper>(
    alloc: Global,
    keeper: &mut K,
    pending: &mut Pending,
    now: u64,
    name: &Name,
    digest: &Digest,
) -> Result<(), Trouble>
    ensures step { Takes (K.kept keeper.old) result pending.old pending.new
        (touched_manifests name.now (digest.now ∷ []) now) (λ rows. rows) }
    ensures reads { LooksUp K.kept K.faults keeper.old keeper.new result }
{
    match manifest_at(alloc, keeper, pending, name, digest)? {
        Some(row) => {
            let row = ManifestRow {
                touched: now,
                ..row
            };
            noting(put_manifest(alloc, pending, name, digest, row))?;
            Ok(())
        }
        None => Ok(()),
    }
}

// The row of a manifest after the changes.
fn manifest_at<K: Keeper>(
    alloc: Global,
    keeper: &mut K,
    pending: &Pending,
    name: &Name,
    digest: &Digest,
) -> Result<Option<ManifestRow>, Trouble>
    ensures value { Finds (K.kept keeper.old) result (λ rows row. option_map manifest_spelled row
        ≡ after rows pending.now (manifest_key name.now digest.now)) }
    ensures name { OnOk result (IsName name.now) }
    ensures digest { OnOk result (IsDigest digest.now) }
    ensures reads { LooksUp K.kept K.faults keeper.old keeper.new result }
{
    let key = noting(spot_key(alloc, 2, name, digest))?;
    match find_at(alloc, keeper, pending, &key)? {
        Some(row) => Ok(Some(ManifestRow::read(row.as_slice()))),
        None => Ok(None),
    }
}

// ---- blobs

/// Touches a blob, where it has a row.
pub(crate) fn touch_blob<K: Keeper>(
    alloc: Global,
    keeper: &mut K,
    pending: &mut Pending,
    now: u64,
    digest: &Digest,
) -> Result<(), Trouble>
    ensures step { Takes (K.kept keeper.old) result pending.old pending.new
        (touched_blobs (digest.now ∷ []) now) (λ rows. rows) }
    ensures reads { LooksUp K.kept K.faults keeper.old keeper.new result }
{
    match standing_at(alloc, keeper, pending, digest)? {
        Some(row) => {
            noting(put_blob(alloc, pending, digest, touched(row, now)))?;
            Ok(())
        }
        None => Ok(()),
    }
}

/// A blob is about to come: it has a row from now on, and is touched.
pub(crate) fn mark<K: Keeper>(
    alloc: Global,
    keeper: &mut K,
    pending: &mut Pending,
    now: u64,
    digest: &Digest,
) -> Result<(), Trouble>
    ensures step { Takes (K.kept keeper.old) result pending.old pending.new
        (past_marked digest.now now) (λ rows. rows) }
    ensures reads { LooksUp K.kept K.faults keeper.old keeper.new result }
{
    let row = marked(standing_at(alloc, keeper, pending, digest)?, now);
    noting(put_blob(alloc, pending, digest, row))?;
    Ok(())
}

/// A blob of a size is here, and is touched.
pub(crate) fn bring_blob<K: Keeper>(
    alloc: Global,
    keeper: &mut K,
    pending: &mut Pending,
    now: u64,
    digest: &Digest,
    size: u64,
) -> Result<(), Trouble>
    ensures step { Takes (K.kept keeper.old) result pending.old pending.new
        (come digest.now size now) (λ rows. rows) }
    ensures reads { LooksUp K.kept K.faults keeper.old keeper.new result }
{
    let row = brought(standing_at(alloc, keeper, pending, digest)?, size, now);
    noting(put_blob(alloc, pending, digest, row))?;
    Ok(())
}

/// Condemns a digest by the entry of a number.
pub(crate) fn doom(
    alloc: Global,
    pending: &mut Pending,
    now: u64,
    digest: &Digest,
    number: u64,
) -> Result<(), NoMemory>
    ensures { Makes result pending.old pending.new
        (with_condemned digest.now (Some (condemned_at number now))) }
{
    put_blob(alloc, pending, digest, BlobRow::Doomed { entry: number })?;
    Ok(())
}

/// A digest is condemned no more, and its blob is gone.
pub(crate) fn erase(alloc: Global, pending: &mut Pending, digest: &Digest) -> Result<(), NoMemory>
    ensures { Makes result pending.old pending.new (erased digest.now) }
{
    drop_digest(alloc, pending, 8, digest)?;
    Ok(())
}

// How a blob stands after the changes.
fn standing_at<K: Keeper>(
    alloc: Global,
    keeper: &mut K,
    pending: &Pending,
    digest: &Digest,
) -> Result<Option<BlobRow>, Trouble>
    ensures value { Finds (K.kept keeper.old) result (λ rows row. option_map blob_spelled row
        ≡ after rows pending.now (key_of_blob digest.now)) }
    ensures digest { OnOk result (IsDigest digest.now) }
    ensures reads { LooksUp K.kept K.faults keeper.old keeper.new result }
{
    let key = noting(blob_key(alloc, digest))?;
    match find_at(alloc, keeper, pending, &key)? {
        Some(row) => Ok(Some(BlobRow::read(row.as_slice()))),
        None => Ok(None),
    }
}

// How a blob stands that is touched. One that is being removed shows no moment.
fn touched(row: BlobRow, now: u64) -> BlobRow
    ensures { result ≡ touched_row now row }
{
    match row {
        BlobRow::Pending { .. } => BlobRow::Pending { touched: now },
        BlobRow::Here { size, .. } => BlobRow::Here { size, touched: now },
        BlobRow::Doomed { entry } => BlobRow::Doomed { entry },
    }
}

fn marked(row: Option<BlobRow>, now: u64) -> BlobRow
    ensures { result ≡ marked_row now row }
{
    match row {
        Some(row) => touched(row, now),
        None => BlobRow::Pending { touched: now },
    }
}

fn brought(row: Option<BlobRow>, size: u64, now: u64) -> BlobRow
    ensures { result ≡ come_row size now row }
{
    match row {
        Some(BlobRow::Doomed { entry }) => BlobRow::Doomed { entry },
        _ => BlobRow::Here { size, touched: now },
    }
}
