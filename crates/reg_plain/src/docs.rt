//! What a manifest lists and names.
ghost use Rattle.std.specs.Prelude.{◌≡◌};
ghost use Rattle.reg_names.specs.Named.{has_digest, digests_of};

use reg_entries::Document;
use reg_names::Digest;

/// Whether the manifest lists the digest.
pub(crate) fn lists(doc: &Document, digest: &Digest) -> bool
    ensures { result ≡ has_digest digest.now doc.now.children }
{
    doc.children.as_slice().iter().any(|child| digest == child)
}

/// Whether the manifest names the digest, be it freely or not.
pub(crate) fn names(doc: &Document, digest: &Digest) -> bool
    ensures { result ≡ has_digest digest.now (digests_of doc.now.named) }
{
    doc.named
        .as_slice()
        .iter()
        .any(|named| *digest == named.digest)
}
