//! Manifests that are pushed.
ghost use Rattle.std.specs.Prelude.{◌≡◌, IfOk};
ghost use Rattle.reg_names.specs.Refusals.{HasFailed as HasRefused};
ghost use Rattle.depot_api.specs.Changes.{Changes};
ghost use Rattle.reg_model.specs.Changing.{Pushes, PushesDocument, is_other};
ghost use Rattle.reg_entries.specs.declared.reply.Reply.TheVariants as replies;
ghost use Rattle.files_service.specs.Answers.{HasTrouble, HasFailed};
ghost use Rattle.files_service.specs.Changing.{MakesAll, Serves};
ghost use Rattle.files_service.specs.InnerChanging.{manifest_files, manifest_links};

use crate::change::{FileChange, make_all};
use crate::missing::missing;
use crate::refusal::{refusal_telling, refusal_with};
use crate::trouble::trouble;
use depot_api::Depot;
use link_paths::{data_path, revision_path, tag_index_path, tag_path};
use manifest_doc::{Doc, Judged, Pushed};
use reg_entries::numbers::{CONTENT_UNKNOWN, DIGEST_DIFFERS, MANIFEST_INVALID};
use reg_entries::{Reply, Trouble};
use reg_names::{Digest, Name, NoMemory, Reference, Refused, Text};
use std::alloc::Global;

/// Keeps a manifest under a reference of a repository (OCI Distribution Specification 1.1, "Pushing Manifests"): its
/// bytes, its revision, and the tag, where it is pushed to one, in this order. Else a refusal: the text of the reference
/// is none, or the bytes are no manifest, or not that of the digest they are pushed to, or what the manifest names or
/// lists is not in the repository.
pub fn put_manifest<D: Depot>(
    alloc: Global,
    depot: &mut D,
    name: &Name,
    at: &Option<Reference>,
    pushed: &Pushed,
) -> Result<Reply, Trouble>
    ensures changes { Changes D.held D.faults depot.old depot.new
        (Serves (Pushes name.now at.now pushed.now) result) (HasFailed result) }
    ensures trouble { HasTrouble result }
{
    push(alloc, depot, name, at, pushed).map_err(trouble)
}

fn push<D: Depot>(
    alloc: Global,
    depot: &mut D,
    name: &Name,
    at: &Option<Reference>,
    pushed: &Pushed,
) -> Result<Reply, Refused>
    ensures { Changes D.held D.faults depot.old depot.new
        (Serves (Pushes name.now at.now pushed.now) result) (HasRefused result) }
{
    let Some(at) = at else {
        let word = Text::from_str(alloc, "Reference")?;
        return Ok(refusal_with(MANIFEST_INVALID, word));
    };
    match &pushed.judged {
        Judged::Bad(word) => Ok(refusal_with(MANIFEST_INVALID, word.copy(alloc)?)),
        Judged::Good(doc) => {
            let bytes = pushed.bytes.as_slice();
            push_document(alloc, depot, name, at, &pushed.digest, bytes, doc)
        }
    }
}

fn push_document<D: Depot>(
    alloc: Global,
    depot: &mut D,
    name: &Name,
    at: &Reference,
    digest: &Digest,
    bytes: &[u8],
    doc: &Doc,
) -> Result<Reply, Refused>
    ensures { Changes D.held D.faults depot.old depot.new
        (Serves (PushesDocument name.now at.now digest.now bytes.now doc.now) result)
        (HasRefused result) }
{
    if is_other(at, digest) {
        return Ok(refusal_telling(alloc, DIGEST_DIFFERS, digest)?);
    }
    match missing(alloc, depot, name, doc)? {
        Some(missing) => Ok(refusal_telling(alloc, CONTENT_UNKNOWN, &missing)?),
        None => store(alloc, depot, name, at, digest, bytes),
    }
}

// Whether a reference is a digest, and another one.
fn is_other(at: &Reference, digest: &Digest) -> bool
    ensures { result ≡ is_other at.now digest.now }
{
    match at {
        Reference::Tag(_) => false,
        Reference::Digest(named) => named != digest,
    }
}

// Keeps the bytes of a manifest, and links it.
fn store<D: Depot>(
    alloc: Global,
    depot: &mut D,
    name: &Name,
    at: &Reference,
    digest: &Digest,
    bytes: &[u8],
) -> Result<Reply, Refused>
    ensures reply { IfOk result (λ reply. reply ≡ replies.Stored name.now digest.now) }
    ensures changes { Changes D.held D.faults depot.old depot.new
        (MakesAll (manifest_files name.now at.now digest.now bytes.now) result)
        (HasRefused result) }
{
    let data = data_path(alloc, digest)?;
    let links = links_of(alloc, name, at, digest)?;
    let name = name.copy(alloc)?;
    depot.put_small(alloc, &data, bytes)?;
    make_all(alloc, depot, &links)?;
    Ok(Reply::Stored {
        name,
        digest: *digest,
    })
}

// The links of a manifest: its revision, and its tag, where it is pushed to one.
fn links_of(
    alloc: Global,
    name: &Name,
    at: &Reference,
    digest: &Digest,
) -> Result<Vec<FileChange>, NoMemory>
    ensures { IfOk result (λ links. links.items ≡ manifest_links name.now at.now digest.now) }
{
    let revision = revision_path(alloc, name, digest)?;
    let mut links = vec![in alloc; FileChange::link(alloc, revision, digest)?]?;
    if let Reference::Tag(tag) = at {
        let index = tag_index_path(alloc, name, tag, digest)?;
        let current = tag_path(alloc, name, tag)?;
        links.push(FileChange::link(alloc, index, digest)?)?;
        links.push(FileChange::link(alloc, current, digest)?)?;
    }
    Ok(links)
}
