//! Uploads that begin, and blobs that are linked instead.
ghost use Rattle.std.specs.Prelude.{◌≡◌, ◌∷◌, [], IfOk, is_some};
ghost use Rattle.std.specs.Fmt.{decimal};
ghost use Rattle.reg_names.specs.Cause.{OnlyReads};
ghost use Rattle.reg_names.specs.Refusals.{HasFailed as HasRefused};
ghost use Rattle.depot_api.specs.Changes.{Changes};
ghost use Rattle.depot_api.specs.Holdings.{Finds};
ghost use Rattle.link_paths.specs.Places.{layer_path};
ghost use Rattle.reg_model.specs.Changing.{Starts, begins};
ghost use Rattle.reg_model.specs.Uploads.{upload_at};
ghost use Rattle.reg_entries.specs.declared.reply.Reply.TheVariants as replies;
ghost use Rattle.files_service.specs.Answers.{HasTrouble, HasFailed};
ghost use Rattle.files_service.specs.Changing.{MakesAll, Serves, files_of, puts_link};

use crate::change::{FileChange, make_all};
use crate::refusal::refusal;
use crate::trouble::trouble;
use depot_api::Depot;
use link_paths::{layer_path, upload_started_path};
use link_reading::has_layer;
use reg_entries::numbers::UPLOAD_IN_USE;
use reg_entries::{Reply, Trouble};
use reg_names::{Bytes, Digest, Name, NoMemory, Refused, UploadId};
use std::alloc::Global;

/// Starts an upload of a repository with this id, at this moment in seconds: its start is noted (OCI Distribution
/// Specification 1.1, "Pushing blobs"). Where `mount` has a digest that another repository links, that is linked here
/// instead ("Mounting a blob from another repository"). The id of an upload that stands is refused.
pub fn start_upload<D: Depot>(
    alloc: Global,
    depot: &mut D,
    name: &Name,
    mount: &Option<(Digest, Name)>,
    id: &UploadId,
    now: u64,
) -> Result<Reply, Trouble>
    ensures changes { Changes D.held D.faults depot.old depot.new
        (Serves (Starts name.now id.now mount.now now) result) (HasFailed result) }
    ensures trouble { HasTrouble result }
{
    start(alloc, depot, name, mount, id, now).map_err(trouble)
}

fn start<D: Depot>(
    alloc: Global,
    depot: &mut D,
    name: &Name,
    mount: &Option<(Digest, Name)>,
    id: &UploadId,
    now: u64,
) -> Result<Reply, Refused>
    ensures { Changes D.held D.faults depot.old depot.new
        (Serves (Starts name.now id.now mount.now now) result) (HasRefused result) }
{
    if stands(alloc, depot, name, id)? {
        return Ok(refusal(UPLOAD_IN_USE));
    }
    let Some((digest, from)) = mount else {
        return begin(alloc, depot, name, id, now);
    };
    if has_layer(alloc, depot, from, digest)?.is_none() {
        return begin(alloc, depot, name, id, now);
    }
    link(alloc, depot, name, digest)
}

// Whether an upload stands.
fn stands<D: Depot>(
    alloc: Global,
    depot: &mut D,
    name: &Name,
    id: &UploadId,
) -> Result<bool, Refused>
    ensures value { Finds (D.held depot.old) result (λ files stands.
        stands ≡ is_some (upload_at files name.now id.now)) }
    ensures reads { OnlyReads D.held D.faults depot.old depot.new (HasRefused result) }
{
    let started = upload_started_path(alloc, name, id)?;
    Ok(depot.size(alloc, &started)?.is_some())
}

// Links a blob in a repository.
fn link<D: Depot>(
    alloc: Global,
    depot: &mut D,
    name: &Name,
    digest: &Digest,
) -> Result<Reply, Refused>
    ensures reply { IfOk result (λ reply. reply ≡ replies.Mounted name.now digest.now) }
    ensures changes { Changes D.held D.faults depot.old depot.new
        (MakesAll (puts_link (layer_path name.now digest.now) digest.now ∷ []) result)
        (HasRefused result) }
{
    let layer = layer_path(alloc, name, digest)?;
    let changes = [FileChange::link(alloc, layer, digest)?];
    let name = name.copy(alloc)?;
    make_all(alloc, depot, &changes)?;
    Ok(Reply::Mounted {
        name,
        digest: *digest,
    })
}

// Notes the start of an upload.
fn begin<D: Depot>(
    alloc: Global,
    depot: &mut D,
    name: &Name,
    id: &UploadId,
    now: u64,
) -> Result<Reply, Refused>
    ensures reply { IfOk result (λ reply. reply ≡ replies.Started name.now id.now) }
    ensures changes { Changes D.held D.faults depot.old depot.new
        (MakesAll (files_of (begins name.now id.now now)) result) (HasRefused result) }
{
    let changes = [start_note(alloc, name, id, now)?];
    let name = name.copy(alloc)?;
    make_all(alloc, depot, &changes)?;
    Ok(Reply::Started { name, id: *id })
}

// The note of an upload's start: the moment in decimal digits.
fn start_note(alloc: Global, name: &Name, id: &UploadId, now: u64) -> Result<FileChange, NoMemory>
    ensures { IfOk result (λ note. note ∷ [] ≡ files_of (begins name.now id.now now)) }
{
    let at = upload_started_path(alloc, name, id)?;
    let text = format!(in alloc; "{now}")?;
    let bytes = Bytes::from_slice(alloc, text.as_bytes())?;
    Ok(FileChange::Put { at, bytes })
}
