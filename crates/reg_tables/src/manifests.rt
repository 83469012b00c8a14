//! Manifests that entries drop, with what goes with them.
ghost use Rattle.std.specs.Prelude.{◌≡◌, ◌∷◌, [], ℕ, List, None, IfOk, OnOk};
ghost use Rattle.std.specs.List.{AllByRecursion};
ghost use Rattle.keeper_api.specs.Changes.{after};
ghost use Rattle.keeper_api.specs.Rows.{Rows};
ghost use Rattle.reg_journal.specs.Changes.{with_manifest, without_tags};
ghost use Rattle.reg_journal.specs.Past.{Past};
ghost use Rattle.reg_names.specs.Digests.{IsDigest};
ghost use Rattle.reg_names.specs.declared.kind.Kind.{Kind};
ghost use Rattle.reg_names.specs.declared.named.Named.{Named as NamedDigest};
ghost use Rattle.reg_tables.specs.Derived.{with_past};
ghost use Rattle.reg_tables.specs.Finds.{LooksUp};
ghost use Rattle.reg_tables.specs.InnerPending.{Takes, without_parts, ArePartsBehind};
ghost use Rattle.reg_tables.specs.InnerSteps.{stored, removed, with_lists, touched_manifests, touched_blobs};
ghost use Rattle.reg_tables.specs.Keys.{spot_key};

use crate::find::noting;
use crate::gather::gather;
use crate::keys::{longer, name_part, put_digest, spot_part};
use crate::pending::Pending;
use crate::rows::{ManifestRow, digest_of};
use crate::steps::{touch_blob, touch_manifest};
use crate::strokes::{drop_spot, put_child, put_manifest, put_named};
use keeper_api::{Bytes, Keeper};
use reg_entries::{Document, Named, Trouble};
use reg_names::{Digest, Name, NoMemory};
use std::alloc::Global;

/// Drops all tags of a repository to a digest.
pub(crate) fn untag<K: Keeper>(
    alloc: Global,
    keeper: &mut K,
    pending: &mut Pending,
    name: &Name,
    digest: &Digest,
) -> Result<(), Trouble>
    ensures step { Takes (K.kept keeper.old) result pending.old pending.new
        (without_tags name.now digest.now) (λ rows. rows) }
    ensures reads { LooksUp K.kept K.faults keeper.old keeper.new result }
{
    let front = noting(name_part(alloc, name))?;
    let target = noting(digest_bytes(alloc, digest))?;
    let tags = gather(alloc, keeper, pending, 4, &front, Some(&target))?;
    noting(drop_all(alloc, pending, 4, &front, &tags))?;
    Ok(())
}

/// Stores a manifest of a repository in the place of what stood there, and touches it.
pub(crate) fn store_manifest<K: Keeper>(
    alloc: Global,
    keeper: &mut K,
    pending: &mut Pending,
    now: u64,
    name: &Name,
    digest: &Digest,
    doc: &Document,
) -> Result<(), Trouble>
    ensures step { Takes (K.kept keeper.old) result pending.old pending.new
        (stored name.now digest.now doc.now now) (λ rows. rows) }
    ensures reads { LooksUp K.kept K.faults keeper.old keeper.new result }
{
    take_manifest(alloc, keeper, pending, name, digest)?;
    let row = ManifestRow {
        kind: doc.kind,
        size: doc.size,
        touched: now,
    };
    noting(put_manifest(alloc, pending, name, digest, row))?;
    let named = doc.named.as_slice();
    noting(put_all_named(alloc, pending, name, digest, named))?;
    let children = doc.children.as_slice();
    noting(put_children(alloc, pending, name, digest, children))?;
    Ok(())
}

/// Removes a manifest of a repository, and touches what it listed and named.
pub(crate) fn remove_manifest<K: Keeper>(
    alloc: Global,
    keeper: &mut K,
    pending: &mut Pending,
    now: u64,
    name: &Name,
    digest: &Digest,
) -> Result<(), Trouble>
    ensures step { Takes (K.kept keeper.old) result pending.old pending.new
        (removed name.now digest.now now) (λ rows. rows) }
    ensures reads { LooksUp K.kept K.faults keeper.old keeper.new result }
{
    let front = noting(spot_part(alloc, name, digest))?;
    let named = gather(alloc, keeper, pending, 5, &front, None)?;
    let children = gather(alloc, keeper, pending, 6, &front, None)?;
    noting(drop_manifest(alloc, pending, name, digest, &named, &children))?;
    touch_children(alloc, keeper, pending, now, name, &children)?;
    touch_named(alloc, keeper, pending, now, &named)?;
    Ok(())
}

// Drops a manifest with its lists.
fn take_manifest<K: Keeper>(
    alloc: Global,
    keeper: &mut K,
    pending: &mut Pending,
    name: &Name,
    digest: &Digest,
) -> Result<(), Trouble>
    ensures step { Takes (K.kept keeper.old) result pending.old pending.new
        (with_manifest name.now digest.now None) (λ rows. rows) }
    ensures reads { LooksUp K.kept K.faults keeper.old keeper.new result }
{
    let front = noting(spot_part(alloc, name, digest))?;
    let named = gather(alloc, keeper, pending, 5, &front, None)?;
    let children = gather(alloc, keeper, pending, 6, &front, None)?;
    noting(drop_manifest(alloc, pending, name, digest, &named, &children))?;
    Ok(())
}

// Drops a manifest with these lists.
fn drop_manifest(
    alloc: Global,
    pending: &mut Pending,
    name: &Name,
    digest: &Digest,
    named: &[Bytes],
    children: &[Bytes],
) -> Result<(), NoMemory>
    ensures { OnOk result ((past : Past) (base rows : Rows) →
        after rows pending.old ≡ with_past past base →
        ArePartsBehind (spot_key 5 name.now digest.now) None (after rows pending.old) named.now →
        ArePartsBehind (spot_key 6 name.now digest.now) None (after rows pending.old) children.now →
        after rows pending.new ≡ with_past (with_manifest name.now digest.now None past) base) }
{
    let front = spot_part(alloc, name, digest)?;
    drop_all(alloc, pending, 5, &front, named)?;
    drop_all(alloc, pending, 6, &front, children)?;
    drop_spot(alloc, pending, 2, name, digest)?;
    Ok(())
}

// Puts the rows of what a manifest names, the last one first.
fn put_all_named(
    alloc: Global,
    pending: &mut Pending,
    name: &Name,
    manifest: &Digest,
    named: &[Named],
) -> Result<(), NoMemory>
    ensures { OnOk result ((rows base : Rows) (past : Past) (kind : Kind) (size : ℕ) →
        after rows pending.old
        ≡ with_past (with_lists name.now manifest.now kind size [] [] past) base →
        after rows pending.new
        ≡ with_past (with_lists name.now manifest.now kind size named.now [] past) base) }
{
    for named in named.iter().rev() {
        put_named(alloc, pending, name, manifest, named)?;
    }
    Ok(())
}

// Puts the rows of what a manifest lists, the last one first.
fn put_children(
    alloc: Global,
    pending: &mut Pending,
    name: &Name,
    parent: &Digest,
    children: &[Digest],
) -> Result<(), NoMemory>
    ensures { OnOk result ((rows base : Rows) (past : Past)
        (kind : Kind) (size : ℕ) (named : List NamedDigest) →
        after rows pending.old
        ≡ with_past (with_lists name.now parent.now kind size named [] past) base →
        after rows pending.new
        ≡ with_past (with_lists name.now parent.now kind size named children.now past) base) }
{
    for child in children.iter().rev() {
        put_child(alloc, pending, name, parent, child)?;
    }
    Ok(())
}

// Touches the manifests of these digests.
fn touch_children<K: Keeper>(
    alloc: Global,
    keeper: &mut K,
    pending: &mut Pending,
    now: u64,
    name: &Name,
    children: &[Bytes],
) -> Result<(), Trouble>
    requires { AllByRecursion IsDigest children.now }
    ensures step { Takes (K.kept keeper.old) result pending.old pending.new
        (touched_manifests name.now children.now now) (λ rows. rows) }
    ensures reads { LooksUp K.kept K.faults keeper.old keeper.new result }
{
    for child in children {
        let child = digest_of(child.as_slice());
        touch_manifest(alloc, keeper, pending, now, name, &child)?;
    }
    Ok(())
}

// Touches the blobs of these digests.
fn touch_named<K: Keeper>(
    alloc: Global,
    keeper: &mut K,
    pending: &mut Pending,
    now: u64,
    named: &[Bytes],
) -> Result<(), Trouble>
    requires { AllByRecursion IsDigest named.now }
    ensures step { Takes (K.kept keeper.old) result pending.old pending.new
        (touched_blobs named.now now) (λ rows. rows) }
    ensures reads { LooksUp K.kept K.faults keeper.old keeper.new result }
{
    for digest in named {
        let digest = digest_of(digest.as_slice());
        touch_blob(alloc, keeper, pending, now, &digest)?;
    }
    Ok(())
}

fn digest_bytes(alloc: Global, digest: &Digest) -> Result<Vec<u8>, NoMemory>
    ensures { IfOk result (λ b. b.items ≡ digest.now) }
{
    let mut bytes = Vec::new(alloc);
    put_digest(&mut bytes, digest)?;
    Ok(bytes)
}

// Drops the rows of keys that have these parts behind a front.
pub(crate) fn drop_all(
    alloc: Global,
    pending: &mut Pending,
    table: u8,
    front: &[u8],
    parts: &[Bytes],
) -> Result<(), NoMemory>
    ensures { OnOk result ((rows : Rows) → after rows pending.new
        ≡ without_parts (table ∷ front.now) parts.now (after rows pending.old)) }
{
    for part in parts {
        let key = longer(alloc, table, front, part.as_slice())?;
        pending.forget(key)?;
    }
    Ok(())
}
