//! What a request asks for.
use reg_names::{Digest, Name, Reference, Text, UploadId};

/// What a request asks for (OCI Distribution Specification 1.1, "Endpoints"). A reference or an id
/// that is `None` stands for a text that is none.
#[derive(Debug, PartialEq, Eq, Drop)]
pub enum Ask {
    /// Whether the registry is there.
    Base,
    GetBlob {
        name: Name,
        digest: Digest,
    },
    GetManifest {
        name: Name,
        at: Option<Reference>,
    },
    /// To keep the manifest that is the body; `typed` is its Content-Type.
    PutManifest {
        name: Name,
        at: Option<Reference>,
        typed: Option<Text>,
    },
    /// To remove a tag, or a manifest with its tags.
    DropReference {
        name: Name,
        at: Option<Reference>,
    },
    /// To remove a repository's link to a blob.
    DropBlob {
        name: Name,
        digest: Digest,
    },
    /// To start an upload, or to link a blob that another repository links.
    Start {
        name: Name,
        mount: Option<(Digest, Name)>,
    },
    /// How many bytes of an upload are there.
    State {
        name: Name,
        id: Option<UploadId>,
    },
    /// To add the body to an upload. `start` is how many bytes it should have before.
    Patch {
        name: Name,
        id: Option<UploadId>,
        start: Option<u64>,
    },
    /// To add the body to an upload, and to keep what was uploaded as the blob of `digest`.
    Finish {
        name: Name,
        id: Option<UploadId>,
        digest: Digest,
        start: Option<u64>,
    },
    /// To give up an upload.
    Cancel {
        name: Name,
        id: Option<UploadId>,
    },
    /// The tags of a repository in byte order: those above `last`, and at most `n`.
    Tags {
        name: Name,
        n: Option<u64>,
        last: Option<Text>,
    },
}
