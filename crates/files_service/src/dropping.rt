//! What is removed: links to blobs, tags, and manifests with their tags.
ghost use Rattle.std.specs.Prelude.{◌≡◌, ◌∷◌, [], IfOk};
ghost use Rattle.reg_names.specs.Refusals.{HasFailed as HasRefused};
ghost use Rattle.depot_api.specs.Changes.{Changes};
ghost use Rattle.link_paths.specs.Places.{layer_path, tag_path};
ghost use Rattle.reg_model.specs.Changing.{Drops, DropsManifest, DropsStanding, Unlinks, Untags, dropped};
ghost use Rattle.reg_entries.specs.declared.reply.Reply.TheVariants as replies;
ghost use Rattle.files_service.specs.Answers.{HasTrouble, HasFailed};
ghost use Rattle.files_service.specs.Changing.{MakesAll, Serves, files_of_all};
ghost use Rattle.files_service.specs.declared.change.FileChange.TheVariants as file;

use crate::change::{FileChange, make_all};
use crate::lacks::lacks;
use crate::refusal::refusal_telling;
use crate::trouble::trouble;
use depot_api::Depot;
use link_paths::{layer_path, revision_path, tag_path};
use link_reading::{has_layer, listed_by, manifest, resolve, tags_to};
use reg_entries::numbers::{BLOB_UNKNOWN, MANIFEST_LISTED, MANIFEST_UNKNOWN};
use reg_entries::{Reply, Trouble};
use reg_names::{Digest, Name, NoMemory, Reference, Refused, Tag, Tags};
use std::alloc::Global;

/// Removes a repository's link to a blob (OCI Distribution Specification 1.1, "Deleting Blobs"). Else a refusal: it
/// does not link the digest, or is unknown.
pub fn drop_blob<D: Depot>(
    alloc: Global,
    depot: &mut D,
    name: &Name,
    digest: &Digest,
) -> Result<Reply, Trouble>
    ensures changes { Changes D.held D.faults depot.old depot.new
        (Serves (Unlinks name.now digest.now) result) (HasFailed result) }
    ensures trouble { HasTrouble result }
{
    unlink(alloc, depot, name, digest).map_err(trouble)
}

/// Removes what a reference of a repository stands for: a tag ("Deleting tags"), or a manifest, behind all tags that
/// point to it, in byte order ("Deleting Manifests"). Else a refusal: nothing stands there, or another manifest lists
/// the manifest.
pub fn drop_reference<D: Depot>(
    alloc: Global,
    depot: &mut D,
    name: &Name,
    at: &Option<Reference>,
) -> Result<Reply, Trouble>
    ensures changes { Changes D.held D.faults depot.old depot.new
        (Serves (Drops name.now at.now) result) (HasFailed result) }
    ensures trouble { HasTrouble result }
{
    drop_at(alloc, depot, name, at).map_err(trouble)
}

fn drop_at<D: Depot>(
    alloc: Global,
    depot: &mut D,
    name: &Name,
    at: &Option<Reference>,
) -> Result<Reply, Refused>
    ensures { Changes D.held D.faults depot.old depot.new
        (Serves (Drops name.now at.now) result) (HasRefused result) }
{
    match at {
        Some(Reference::Tag(tag)) => untag(alloc, depot, name, tag),
        Some(Reference::Digest(digest)) => drop_manifest(alloc, depot, name, digest),
        None => lacks(alloc, depot, name, MANIFEST_UNKNOWN),
    }
}

fn unlink<D: Depot>(
    alloc: Global,
    depot: &mut D,
    name: &Name,
    digest: &Digest,
) -> Result<Reply, Refused>
    ensures { Changes D.held D.faults depot.old depot.new
        (Serves (Unlinks name.now digest.now) result) (HasRefused result) }
{
    if has_layer(alloc, depot, name, digest)?.is_none() {
        return lacks(alloc, depot, name, BLOB_UNKNOWN);
    }
    let at = layer_path(alloc, name, digest)?;
    remove(alloc, depot, &[FileChange::Remove { at }])
}

fn untag<D: Depot>(alloc: Global, depot: &mut D, name: &Name, tag: &Tag) -> Result<Reply, Refused>
    ensures { Changes D.held D.faults depot.old depot.new
        (Serves (Untags name.now tag.now) result) (HasRefused result) }
{
    if resolve(alloc, depot, name, tag)?.is_none() {
        return lacks(alloc, depot, name, MANIFEST_UNKNOWN);
    }
    let at = tag_path(alloc, name, tag)?;
    remove(alloc, depot, &[FileChange::Remove { at }])
}

// Removes files one after the other, and tells that what they stand for is gone.
fn remove<D: Depot>(alloc: Global, depot: &mut D, files: &[FileChange]) -> Result<Reply, Refused>
    ensures reply { IfOk result (λ reply. reply ≡ replies.Dropped) }
    ensures changes { Changes D.held D.faults depot.old depot.new
        (MakesAll files.now result) (HasRefused result) }
{
    make_all(alloc, depot, files)?;
    Ok(Reply::Dropped)
}

fn drop_manifest<D: Depot>(
    alloc: Global,
    depot: &mut D,
    name: &Name,
    digest: &Digest,
) -> Result<Reply, Refused>
    ensures { Changes D.held D.faults depot.old depot.new
        (Serves (DropsManifest name.now digest.now) result) (HasRefused result) }
{
    if manifest(alloc, depot, name, digest)?.is_none() {
        return lacks(alloc, depot, name, MANIFEST_UNKNOWN);
    }
    drop_standing(alloc, depot, name, digest)
}

// Removes a manifest that stands, and its tags before it, unless another manifest lists it.
fn drop_standing<D: Depot>(
    alloc: Global,
    depot: &mut D,
    name: &Name,
    digest: &Digest,
) -> Result<Reply, Refused>
    ensures { Changes D.held D.faults depot.old depot.new
        (Serves (λ told facts. DropsStanding told facts.state name.now digest.now) result)
        (HasRefused result) }
{
    match listed_by(alloc, depot, name, digest)? {
        Some(lister) => Ok(refusal_telling(alloc, MANIFEST_LISTED, &lister)?),
        None => {
            let tags = tags_to(alloc, depot, name, digest)?;
            let files = files_of(alloc, name, digest, tags.as_slice())?;
            remove(alloc, depot, &files)
        }
    }
}

// The files of a manifest's tags, and of the manifest behind them, to be removed.
fn files_of(
    alloc: Global,
    name: &Name,
    digest: &Digest,
    tags: &[Tag],
) -> Result<Vec<FileChange>, NoMemory>
    ensures { IfOk result (λ files.
        files.items ≡ files_of_all (dropped name.now digest.now tags.now)) }
{
    let mut files = Vec::new(alloc);
    for tag in tags {
        let at = tag_path(alloc, name, tag)?;
        files.push(FileChange::Remove { at })?;
    }
    let at = revision_path(alloc, name, digest)?;
    files.push(FileChange::Remove { at })?;
    Ok(files)
}
