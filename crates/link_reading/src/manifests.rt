//! Manifests, by digest and by tag.
ghost use Rattle.std.specs.Prelude.{◌≡◌, Some, IfOk};
ghost use Rattle.reg_names.specs.Cause.{OnlyReads};
ghost use Rattle.reg_names.specs.Refusals.{HasFailed};
ghost use Rattle.manifest_doc.specs.Stored.{IsStoredManifest};
ghost use Rattle.depot_api.specs.Holdings.{Finds, IfFound};
ghost use Rattle.link_reading.specs.Meaning.{Means, data_at};
ghost use Rattle.link_reading.specs.Answers.{FindsManifest, FindsTagged};
ghost use Rattle.link_reading.specs.InnerAnswers.{FindsStored};

use crate::links::{is_linked, named_digest, short_file};
use depot_api::Depot;
use link_paths::{data_path, revision_path, tag_path};
use manifest_doc::{Doc, MANIFEST_LIMIT, read_stored};
use reg_names::{Bytes, Digest, Name, NoMemory, Refused, Tag};
use std::alloc::Global;

/// A manifest as it was stored, with its digest and the document that its bytes are (OCI Image Specification 1.1).
#[derive(Debug, Drop)]
pub struct StoredManifest {
    pub digest: Digest,
    pub doc: Doc,
    pub bytes: Bytes,
}

/// The digest that a tag of a repository points to, and `None` exactly where the files do not mean the tag.
/// `Refused::Failed` is a fault of the depot, `Refused::NoMemory` want of memory, as in the calls below.
pub fn resolve<D: Depot>(
    alloc: Global,
    depot: &mut D,
    name: &Name,
    tag: &Tag,
) -> Result<Option<Digest>, Refused>
    ensures value { Finds (D.held depot.old) result (λ files digest.
        digest ≡ (Means files).tags name.now tag.now) }
    ensures reads { OnlyReads D.held D.faults depot.old depot.new (HasFailed result) }
{
    match manifest_by_tag(alloc, depot, name, tag)? {
        Some(manifest) => Ok(Some(manifest.digest)),
        None => Ok(None),
    }
}

/// The manifest that a tag of a repository points to, and `None` exactly where the files do not mean the tag.
pub fn manifest_by_tag<D: Depot>(
    alloc: Global,
    depot: &mut D,
    name: &Name,
    tag: &Tag,
) -> Result<Option<StoredManifest>, Refused>
    ensures value { Finds (D.held depot.old) result (λ files. FindsTagged files name.now tag.now) }
    ensures verified { IfFound result (λ m. IsStoredManifest m.digest m.bytes m.doc) }
    ensures reads { OnlyReads D.held D.faults depot.old depot.new (HasFailed result) }
{
    let at = tag_path(alloc, name, tag)?;
    let Some(digest) = named_digest(alloc, depot, &at)? else {
        return Ok(None);
    };
    match manifest(alloc, depot, name, &digest)? {
        Some((doc, bytes)) => Ok(Some(StoredManifest { digest, doc, bytes })),
        None => Ok(None),
    }
}

/// The document and the bytes of the manifest that a repository has under a digest, and `None` exactly where it has
/// none.
pub fn manifest<D: Depot>(
    alloc: Global,
    depot: &mut D,
    name: &Name,
    digest: &Digest,
) -> Result<Option<(Doc, Bytes)>, Refused>
    ensures value { Finds (D.held depot.old) result (λ files.
        FindsManifest files name.now digest.now) }
    ensures verified { IfFound result (λ m. IsStoredManifest digest.now m.1 m.0) }
    ensures reads { OnlyReads D.held D.faults depot.old depot.new (HasFailed result) }
{
    let at = revision_path(alloc, name, digest)?;
    if is_linked(alloc, depot, &at, digest)? {
        stored(alloc, depot, digest)
    } else {
        Ok(None)
    }
}

// The manifest in a digest's data file.
fn stored<D: Depot>(
    alloc: Global,
    depot: &mut D,
    digest: &Digest,
) -> Result<Option<(Doc, Bytes)>, Refused>
    ensures value { Finds (D.held depot.old) result (λ files.
        FindsStored digest.now (data_at files digest.now)) }
    ensures verified { IfFound result (λ m. IsStoredManifest digest.now m.1 m.0) }
    ensures reads { OnlyReads D.held D.faults depot.old depot.new (HasFailed result) }
{
    let at = data_path(alloc, digest)?;
    match short_file(alloc, depot, &at, MANIFEST_LIMIT)? {
        Some(bytes) => Ok(judged(alloc, digest, bytes)?),
        None => Ok(None),
    }
}

// The manifest that bytes are under a digest.
fn judged(alloc: Global, digest: &Digest, bytes: Bytes) -> Result<Option<(Doc, Bytes)>, NoMemory>
    ensures value { IfOk result (FindsStored digest.now (Some bytes)) }
    ensures verified { IfFound result (λ m. IsStoredManifest digest.now m.1 m.0) }
{
    match read_stored(alloc, digest, bytes.as_slice())? {
        Some(doc) => Ok(Some((doc, bytes))),
        None => Ok(None),
    }
}
