//! What lies in a registry's storage.
use reg_names::{Digest, Name, Tag, UploadId};

/// Where a file of a registry lies. In the examples `2cf2..9824` stands for the 64 digits of a
/// digest and `0f8f..950e` for the 36 characters of an upload's id.
#[derive(Debug, Drop, PartialEq, Eq)]
pub enum Place {
    /// The bytes of a blob:
    /// `docker/registry/v2/blobs/sha256/2c/2cf2..9824/data`.
    BlobData(Digest),
    /// The link of a repository to a manifest:
    /// `docker/registry/v2/repositories/a/b/_manifests/revisions/sha256/2cf2..9824/link`.
    Revision(Name, Digest),
    /// The link of a tag to its manifest:
    /// `docker/registry/v2/repositories/a/b/_manifests/tags/v1/current/link`.
    TagCurrent(Name, Tag),
    /// The link of a tag to a manifest that it points to or has pointed to:
    /// `docker/registry/v2/repositories/a/b/_manifests/tags/v1/index/sha256/2cf2..9824/link`.
    TagIndex(Name, Tag, Digest),
    /// The link of a repository to a blob:
    /// `docker/registry/v2/repositories/a/b/_layers/sha256/2cf2..9824/link`.
    Layer(Name, Digest),
    /// The bytes of an upload so far:
    /// `docker/registry/v2/repositories/a/b/_uploads/0f8f..950e/data`.
    UploadData(Name, UploadId),
    /// The moment at which an upload was started:
    /// `docker/registry/v2/repositories/a/b/_uploads/0f8f..950e/startedat`.
    UploadStarted(Name, UploadId),
}
