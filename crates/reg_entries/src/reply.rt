//! What a request is answered.
use crate::Route;
use reg_names::{Bytes, Digest, Kind, Name, Tags, Text, UploadId};

/// What a request is answered (OCI Distribution Specification 1.1, "Endpoints").
#[derive(Debug, PartialEq, Eq, Drop)]
pub enum Reply {
    Base,
    Manifest {
        kind: Kind,
        digest: Digest,
        bytes: Bytes,
    },
    /// A blob of so many bytes, which follow.
    Blob {
        digest: Digest,
        size: u64,
    },
    /// `more` is the most tags that were asked for, where there are further ones.
    Tags {
        name: Name,
        tags: Tags,
        more: Option<u64>,
    },
    Started {
        name: Name,
        id: UploadId,
    },
    Mounted {
        name: Name,
        digest: Digest,
    },
    /// The upload has `offset` bytes now.
    Patched {
        name: Name,
        id: UploadId,
        offset: u64,
    },
    /// The upload has `offset` bytes.
    Offset {
        name: Name,
        id: UploadId,
        offset: u64,
    },
    Finished {
        name: Name,
        digest: Digest,
    },
    Stored {
        name: Name,
        digest: Digest,
    },
    Dropped,
    Cancelled,
    /// A body was to begin where the upload does not end: it has `offset` bytes.
    WrongStart {
        name: Name,
        id: UploadId,
        offset: u64,
    },
    /// The route does not have the request's method.
    NotAllowed {
        route: Route,
    },
    Refused(No),
}

/// A refusal, by one of the `numbers`.
#[derive(Debug, PartialEq, Eq, Drop)]
pub struct No {
    pub number: u8,
    pub detail: Detail,
}

/// What a refusal tells beside its code.
#[derive(Debug, PartialEq, Eq, Drop)]
pub enum Detail {
    Nothing,
    Number(u64),
    Word(Text),
}
