//! Stored manifests.
ghost use Rattle.std.specs.Prelude.{◌≡◌, IfOk};
ghost use Rattle.manifest_doc.specs.Stored.{stored_in};

use crate::{Doc, DocFault, read_doc};
use reg_digest::is_digest_of;
use reg_names::{Digest, NoMemory};
use std::alloc::Global;

/// The most bytes that a manifest may have.
pub const MANIFEST_LIMIT: u64 = 4_194_304;

/// The document of the manifest that bytes are under a digest, and `None` exactly where they are none: they are more
/// than `MANIFEST_LIMIT`, hash to another digest, or are no document. Too many bytes are neither hashed nor parsed.
#[tactic(auto, using(crate::proofs::StoredLaws::stored, crate::proofs::StoredLaws::not_stored))]
pub fn read_stored(alloc: Global, digest: &Digest, bytes: &[u8]) -> Result<Option<Doc>, NoMemory>
    ensures { IfOk result (λ found. found ≡ stored_in digest.now bytes.now) }
{
    if bytes.len() as u64 > MANIFEST_LIMIT || !is_digest_of(digest, bytes) {
        return Ok(None);
    }
    match read_doc(alloc, bytes) {
        Ok(doc) => Ok(Some(doc)),
        Err(DocFault::NoMemory) => Err(NoMemory),
        Err(_) => Ok(None),
    }
}
