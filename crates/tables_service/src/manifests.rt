//! Manifests.
ghost use Rattle.std.specs.Prelude.{◌≡◌, Some, IfOk};
ghost use Rattle.manifest_doc.specs.Stored.{IsStoredManifest};
ghost use Rattle.reg_entries.specs.declared.ask.Ask.TheVariants as asks;
ghost use Rattle.reg_model.specs.Answers.{referred as referred_in};
ghost use Rattle.reg_model.specs.Fits.{MayBe};
ghost use Rattle.keeper_api.specs.Rows.{Finds, IfFound};
ghost use Rattle.reg_tables.specs.Finds.{LooksUp};
ghost use Rattle.reg_tables.specs.Keys.{payload_key};
ghost use Rattle.tables_service.specs.Answers.{IfReplied, IfFitting};
ghost use Rattle.tables_service.specs.InnerAnswers.{FindsPayload, FindsKept, FindsWith};
ghost use Rattle.tables_service.specs.Telling.{FindsIn};

use crate::lacks::lacks;
use crate::lookups::{has_manifest, target_of};
use manifest_doc::{Doc, read_stored};
use reg_entries::numbers::MANIFEST_UNKNOWN;
use reg_entries::{Reply, Trouble};
use reg_names::{Bytes, Digest, Name, NoMemory, Reference};
use reg_tables::{Keeper, find_payload, noting};
use std::alloc::Global;

/// A manifest that a repository has under a reference, or a refusal (OCI Distribution Specification 1.1, "Pulling
/// manifests"). `None` stands for a text that is no reference, under which nothing is. Bytes that have not the digest,
/// or are no document, are never sent: the manifest counts as absent.
///
/// Errors, here and in the other calls: `Keeper` where the keeper's count of faults rose, and `NoMemory`.
pub fn pull_manifest<K: Keeper>(
    alloc: Global,
    keeper: &mut K,
    name: &Name,
    at: &Option<Reference>,
) -> Result<Reply, Trouble>
    ensures answer { IfReplied (K.kept keeper.old) (asks.GetManifest name.now at.now) result }
    ensures fits { IfFitting (asks.GetManifest name.now at.now) result }
    ensures reads { LooksUp K.kept K.faults keeper.old keeper.new result }
{
    let Some(digest) = referred(alloc, keeper, name, at)? else {
        return lacks(alloc, keeper, name, MANIFEST_UNKNOWN);
    };
    match stored(alloc, keeper, name, &digest)? {
        Some((doc, bytes)) => Ok(Reply::Manifest {
            kind: doc.kind,
            digest,
            bytes,
        }),
        None => lacks(alloc, keeper, name, MANIFEST_UNKNOWN),
    }
}

// The digest that a reference stands for.
fn referred<K: Keeper>(
    alloc: Global,
    keeper: &mut K,
    name: &Name,
    at: &Option<Reference>,
) -> Result<Option<Digest>, Trouble>
    ensures value { FindsIn (K.kept keeper.old) result (λ state found.
        found ≡ referred_in state name.now at.now) }
    ensures named { IfFound result (λ digest. MayBe at.now digest) }
    ensures reads { LooksUp K.kept K.faults keeper.old keeper.new result }
{
    match at {
        Some(Reference::Tag(tag)) => target_of(alloc, keeper, name, tag),
        Some(Reference::Digest(digest)) => Ok(Some(*digest)),
        None => Ok(None),
    }
}

// The manifest that a repository has under a digest.
fn stored<K: Keeper>(
    alloc: Global,
    keeper: &mut K,
    name: &Name,
    digest: &Digest,
) -> Result<Option<(Doc, Bytes)>, Trouble>
    ensures value { FindsWith (K.kept keeper.old) result (λ state rows.
        FindsKept state rows name.now digest.now) }
    ensures verified { IfFound result (λ m. IsStoredManifest digest.now m.1 m.0) }
    ensures reads { LooksUp K.kept K.faults keeper.old keeper.new result }
{
    if has_manifest(alloc, keeper, name, digest)? {
        payload(alloc, keeper, name, digest)
    } else {
        Ok(None)
    }
}

// The manifest that the bytes in its row are.
fn payload<K: Keeper>(
    alloc: Global,
    keeper: &mut K,
    name: &Name,
    digest: &Digest,
) -> Result<Option<(Doc, Bytes)>, Trouble>
    ensures value { Finds (K.kept keeper.old) result (λ rows.
        FindsPayload digest.now (rows (payload_key name.now digest.now))) }
    ensures verified { IfFound result (λ m. IsStoredManifest digest.now m.1 m.0) }
    ensures reads { LooksUp K.kept K.faults keeper.old keeper.new result }
{
    match find_payload(alloc, keeper, name, digest)? {
        Some(bytes) => noting(judged(alloc, digest, bytes)),
        None => Ok(None),
    }
}

// The manifest that bytes are under a digest.
fn judged(alloc: Global, digest: &Digest, bytes: Bytes) -> Result<Option<(Doc, Bytes)>, NoMemory>
    ensures value { IfOk result (FindsPayload digest.now (Some bytes)) }
    ensures verified { IfFound result (λ m. IsStoredManifest digest.now m.1 m.0) }
{
    match read_stored(alloc, digest, bytes.as_slice())? {
        Some(doc) => Ok(Some((doc, bytes))),
        None => Ok(None),
    }
}
