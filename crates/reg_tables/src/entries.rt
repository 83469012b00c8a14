//! What an entry makes of the rows.
ghost use Rattle.std.specs.Prelude.{◌≡◌, ◌≤◌, ◌∷◌, [], ℕ, Some, None, OnOk, IsTrue};
ghost use Rattle.keeper_api.specs.Changes.{after};
ghost use Rattle.keeper_api.specs.Rows.{Rows, Finds};
ghost use Rattle.reg_names.specs.Tags.{IsTag};
ghost use Rattle.reg_names.specs.Names.{IsName};
ghost use Rattle.reg_journal.specs.Changes.{apply};
ghost use Rattle.reg_journal.specs.Past.{Past, next_number};
ghost use Rattle.reg_tables.specs.Derived.{with_past, without_taken, journal_limit};
ghost use Rattle.reg_tables.specs.Finds.{LooksUp};
ghost use Rattle.reg_tables.specs.InnerPending.{Takes, Works};
ghost use Rattle.reg_tables.specs.InnerSteps.{touched_target, pointed, unpointed, removed, untagged, linked, unlinked, erased, made, without_beside_manifest, without_beside_blob, without_beside};
ghost use Rattle.reg_tables.specs.Keys.{tag_key as key_of_tag};

use crate::find::noting;
use crate::keys::tag_key;
use crate::manifests::{remove_manifest, store_manifest, untag};
use crate::pending::{Pending, find_at};
use crate::rows::digest_of;
use crate::steps::{
    bring_blob, doom, erase, link, log, mark, remove_tag, set_tag, touch_blob, touch_manifest,
    unlink,
};
use crate::strokes::{drop_digest, drop_spot};
use keeper_api::Keeper;
use reg_entries::Trouble;
use reg_journal::{Entry, What};
use reg_names::{Digest, Name, NoMemory, Tag};
use std::alloc::Global;

/// Makes what an entry does, and adds it to the journal under the number that comes next.
pub(crate) fn enter<K: Keeper>(
    alloc: Global,
    keeper: &mut K,
    pending: &mut Pending,
    number: u64,
    entry: &Entry,
) -> Result<(), Trouble>
    requires { 1 ≤ number }
    ensures step { IsTrue (K.kept keeper.old).tells → OnOk result ((past : Past) (base : Rows) →
        number ≡ next_number past → number ≤ journal_limit →
        after (K.kept keeper.old).rows pending.old ≡ with_past past base →
        after (K.kept keeper.old).rows pending.new
        ≡ with_past (apply past entry.now) (without_taken (entry.now ∷ []) base)) }
    ensures reads { LooksUp K.kept K.faults keeper.old keeper.new result }
{
    change(alloc, keeper, pending, number, entry.moment, &entry.what)?;
    noting(log(alloc, pending, number, entry))?;
    Ok(())
}

// Makes what an entry of a number and a moment does, by its kind.
fn change<K: Keeper>(
    alloc: Global,
    keeper: &mut K,
    pending: &mut Pending,
    number: u64,
    now: u64,
    what: &What,
) -> Result<(), Trouble>
    ensures step { Takes (K.kept keeper.old) result pending.old pending.new
        (made number now what.now) (without_beside what.now) }
    ensures reads { LooksUp K.kept K.faults keeper.old keeper.new result }
{
    match what {
        What::Put { name, digest, doc } | What::Brought { name, digest, doc } => {
            store_manifest(alloc, keeper, pending, now, name, digest, doc)
        }
        What::SetTag { name, tag, digest } | What::BroughtTag { name, tag, digest } => {
            point(alloc, keeper, pending, now, name, tag, digest)
        }
        What::DropTag { name, tag } => unpoint(alloc, keeper, pending, now, name, tag),
        What::DropManifest { name, digest } | What::Collect { name, digest } => {
            take_away(alloc, keeper, pending, now, name, digest)
        }
        What::RemovedManifest { name, digest } => {
            take_tagged(alloc, keeper, pending, now, name, digest)
        }
        What::Mark { digest } => mark(alloc, keeper, pending, now, digest),
        What::Link { name, digest, size } | What::BroughtLink { name, digest, size } => {
            bring_link(alloc, keeper, pending, now, name, digest, *size)
        }
        What::Unlink { name, digest }
        | What::RemovedLink { name, digest }
        | What::DropLink { name, digest } => drop_link(alloc, keeper, pending, now, name, digest),
        What::Opened => Ok(()),
        What::BroughtBlob { digest, size } => {
            bring_blob(alloc, keeper, pending, now, digest, *size)
        }
        What::Doom { digest } => noting(doom(alloc, pending, now, digest, number)),
        What::Erase { digest } => noting(erase_blob(alloc, pending, digest)),
    }
}

// ---- tags

// Points a tag to a manifest, and touches that and the one it pointed to before.
fn point<K: Keeper>(
    alloc: Global,
    keeper: &mut K,
    pending: &mut Pending,
    now: u64,
    name: &Name,
    tag: &Tag,
    digest: &Digest,
) -> Result<(), Trouble>
    ensures step { Takes (K.kept keeper.old) result pending.old pending.new
        (pointed name.now tag.now digest.now now) (λ rows. rows) }
    ensures reads { LooksUp K.kept K.faults keeper.old keeper.new result }
{
    touch_target(alloc, keeper, pending, now, name, tag)?;
    noting(set_tag(alloc, pending, name, tag, digest))?;
    touch_manifest(alloc, keeper, pending, now, name, digest)?;
    Ok(())
}

// Drops a tag, and touches the manifest that it pointed to.
fn unpoint<K: Keeper>(
    alloc: Global,
    keeper: &mut K,
    pending: &mut Pending,
    now: u64,
    name: &Name,
    tag: &Tag,
) -> Result<(), Trouble>
    ensures step { Takes (K.kept keeper.old) result pending.old pending.new
        (unpointed name.now tag.now now) (λ rows. rows) }
    ensures reads { LooksUp K.kept K.faults keeper.old keeper.new result }
{
    touch_target(alloc, keeper, pending, now, name, tag)?;
    noting(remove_tag(alloc, pending, name, tag))?;
    Ok(())
}

// Touches the manifest that a tag points to.
fn touch_target<K: Keeper>(
    alloc: Global,
    keeper: &mut K,
    pending: &mut Pending,
    now: u64,
    name: &Name,
    tag: &Tag,
) -> Result<(), Trouble>
    ensures step { Takes (K.kept keeper.old) result pending.old pending.new
        (touched_target name.now tag.now now) (λ rows. rows) }
    ensures reads { LooksUp K.kept K.faults keeper.old keeper.new result }
{
    match target_at(alloc, keeper, pending, name, tag)? {
        Some(digest) => {
            touch_manifest(alloc, keeper, pending, now, name, &digest)?;
            Ok(())
        }
        None => Ok(()),
    }
}

// What a tag points to after the changes.
fn target_at<K: Keeper>(
    alloc: Global,
    keeper: &mut K,
    pending: &Pending,
    name: &Name,
    tag: &Tag,
) -> Result<Option<Digest>, Trouble>
    ensures value { Finds (K.kept keeper.old) result (λ rows target.
        target ≡ after rows pending.now (key_of_tag name.now tag.now)) }
    ensures name { OnOk result (IsName name.now) }
    ensures tag { OnOk result (IsTag tag.now) }
    ensures reads { LooksUp K.kept K.faults keeper.old keeper.new result }
{
    let key = noting(tag_key(alloc, name, tag))?;
    match find_at(alloc, keeper, pending, &key)? {
        Some(row) => Ok(Some(digest_of(row.as_slice()))),
        None => Ok(None),
    }
}

// ---- manifests

// Removes a manifest with its payload and its place among those that wait for a review.
fn take_away<K: Keeper>(
    alloc: Global,
    keeper: &mut K,
    pending: &mut Pending,
    now: u64,
    name: &Name,
    digest: &Digest,
) -> Result<(), Trouble>
    ensures step { Takes (K.kept keeper.old) result pending.old pending.new
        (removed name.now digest.now now) (without_beside_manifest name.now digest.now) }
    ensures reads { LooksUp K.kept K.faults keeper.old keeper.new result }
{
    remove_manifest(alloc, keeper, pending, now, name, digest)?;
    noting(drop_spot(alloc, pending, 3, name, digest))?;
    noting(drop_spot(alloc, pending, 9, name, digest))?;
    Ok(())
}

// Removes a manifest so, and the tags to it.
fn take_tagged<K: Keeper>(
    alloc: Global,
    keeper: &mut K,
    pending: &mut Pending,
    now: u64,
    name: &Name,
    digest: &Digest,
) -> Result<(), Trouble>
    ensures step { Takes (K.kept keeper.old) result pending.old pending.new
        (untagged name.now digest.now now) (without_beside_manifest name.now digest.now) }
    ensures reads { LooksUp K.kept K.faults keeper.old keeper.new result }
{
    take_away(alloc, keeper, pending, now, name, digest)?;
    untag(alloc, keeper, pending, name, digest)?;
    Ok(())
}

// ---- links and blobs

// Links a blob of a size, which is here.
fn bring_link<K: Keeper>(
    alloc: Global,
    keeper: &mut K,
    pending: &mut Pending,
    now: u64,
    name: &Name,
    digest: &Digest,
    size: u64,
) -> Result<(), Trouble>
    ensures step { Takes (K.kept keeper.old) result pending.old pending.new
        (linked name.now digest.now size now) (λ rows. rows) }
    ensures reads { LooksUp K.kept K.faults keeper.old keeper.new result }
{
    noting(link(alloc, pending, name, digest, size, now))?;
    bring_blob(alloc, keeper, pending, now, digest, size)?;
    Ok(())
}

// Drops a link, and touches its blob.
fn drop_link<K: Keeper>(
    alloc: Global,
    keeper: &mut K,
    pending: &mut Pending,
    now: u64,
    name: &Name,
    digest: &Digest,
) -> Result<(), Trouble>
    ensures step { Takes (K.kept keeper.old) result pending.old pending.new
        (unlinked name.now digest.now now) (λ rows. rows) }
    ensures reads { LooksUp K.kept K.faults keeper.old keeper.new result }
{
    noting(unlink(alloc, pending, name, digest))?;
    touch_blob(alloc, keeper, pending, now, digest)?;
    Ok(())
}

// Erases a blob with its place among those that wait for a review.
fn erase_blob(alloc: Global, pending: &mut Pending, digest: &Digest) -> Result<(), NoMemory>
    ensures { OnOk result ((rows : Rows) → Works rows pending.old pending.new
        (erased digest.now) (without_beside_blob digest.now)) }
{
    erase(alloc, pending, digest)?;
    drop_digest(alloc, pending, 10, digest)?;
    Ok(())
}
