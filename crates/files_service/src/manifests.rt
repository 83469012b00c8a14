//! Manifests.
ghost use Rattle.std.specs.Prelude.{◌≡◌, Some};
ghost use Rattle.reg_names.specs.Cause.{OnlyReads};
ghost use Rattle.reg_names.specs.Refusals.{HasFailed as HasRefused};
ghost use Rattle.manifest_doc.specs.Stored.{IsStoredManifest};
ghost use Rattle.depot_api.specs.Holdings.{Finds, IfFound};
ghost use Rattle.reg_names.specs.declared.reference.Reference.TheVariants as references;
ghost use Rattle.reg_entries.specs.declared.ask.Ask.TheVariants as asks;
ghost use Rattle.reg_model.specs.Fits.{MayBe};
ghost use Rattle.files_service.specs.Answers.{IfReplied, HasTrouble, HasFailed};
ghost use Rattle.files_service.specs.InnerAnswers.{FindsReferred};

use crate::lacks::lacks;
use crate::trouble::trouble;
use depot_api::Depot;
use link_reading::{StoredManifest, manifest, manifest_by_tag};
use reg_entries::numbers::MANIFEST_UNKNOWN;
use reg_entries::{Reply, Trouble};
use reg_names::{Digest, Name, Reference, Refused};
use std::alloc::Global;

/// A manifest that a repository has under a reference, or a refusal (OCI Distribution Specification 1.1, "Pulling
/// manifests"). `None` stands for a text that is no reference, under which nothing is.
pub fn pull_manifest<D: Depot>(
    alloc: Global,
    depot: &mut D,
    name: &Name,
    at: &Option<Reference>,
) -> Result<Reply, Trouble>
    ensures answer { IfReplied (D.held depot.old) (asks.GetManifest name.now at.now) result }
    ensures trouble { HasTrouble result }
    ensures reads { OnlyReads D.held D.faults depot.old depot.new (HasFailed result) }
{
    match find_manifest(alloc, depot, name, at).map_err(trouble)? {
        Some(found) => Ok(Reply::Manifest {
            kind: found.doc.kind,
            digest: found.digest,
            bytes: found.bytes,
        }),
        None => lacks(alloc, depot, name, MANIFEST_UNKNOWN).map_err(trouble),
    }
}

// The manifest that a repository has under a reference.
fn find_manifest<D: Depot>(
    alloc: Global,
    depot: &mut D,
    name: &Name,
    at: &Option<Reference>,
) -> Result<Option<StoredManifest>, Refused>
    ensures value { Finds (D.held depot.old) result (λ files. FindsReferred files name.now at.now) }
    ensures verified { IfFound result (λ m. IsStoredManifest m.digest m.bytes m.doc) }
    ensures named { IfFound result (λ m. MayBe at.now m.digest) }
    ensures reads { OnlyReads D.held D.faults depot.old depot.new (HasRefused result) }
{
    match at {
        Some(Reference::Tag(tag)) => manifest_by_tag(alloc, depot, name, tag),
        Some(Reference::Digest(digest)) => manifest_by_digest(alloc, depot, name, digest),
        None => Ok(None),
    }
}

// The manifest that a repository has under a digest.
fn manifest_by_digest<D: Depot>(
    alloc: Global,
    depot: &mut D,
    name: &Name,
    digest: &Digest,
) -> Result<Option<StoredManifest>, Refused>
    ensures value { Finds (D.held depot.old) result (λ files.
        FindsReferred files name.now (Some (references.Digest digest.now))) }
    ensures verified { IfFound result (λ m. IsStoredManifest m.digest m.bytes m.doc) }
    ensures named { IfFound result (λ m. m.digest ≡ digest.now) }
    ensures reads { OnlyReads D.held D.faults depot.old depot.new (HasRefused result) }
{
    match manifest(alloc, depot, name, digest)? {
        Some((doc, bytes)) => Ok(Some(StoredManifest {
            digest: *digest,
            doc,
            bytes,
        })),
        None => Ok(None),
    }
}
