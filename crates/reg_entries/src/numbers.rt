//! The numbers of the refusals.

/// No repository name.
pub const NAME_INVALID: u8 = 1;

/// No digest.
pub const DIGEST_INVALID: u8 = 2;

/// The repository has neither a manifest nor a link.
pub const NAME_UNKNOWN: u8 = 3;

/// The repository does not link the blob.
pub const BLOB_UNKNOWN: u8 = 4;

/// The repository does not have the manifest.
pub const MANIFEST_UNKNOWN: u8 = 5;

/// No manifest, or it has no reference. The detail names the fault.
pub const MANIFEST_INVALID: u8 = 6;

/// What a manifest names is not there. The detail is the least digest of that.
pub const CONTENT_UNKNOWN: u8 = 7;

/// The upload is not there.
pub const UPLOAD_UNKNOWN: u8 = 8;

/// A body was to begin where the upload does not end. The detail is where it ends.
pub const WRONG_START: u8 = 9;

/// Another request has the upload.
pub const UPLOAD_IN_USE: u8 = 10;

/// The digest is another than the content's, which is the detail.
pub const DIGEST_DIFFERS: u8 = 11;

/// An index lists the manifest. The detail is the least digest of those that do.
pub const MANIFEST_LISTED: u8 = 12;

/// Nothing is changed now.
pub const READ_ONLY: u8 = 13;

/// The route does not have the method.
pub const METHOD_NOT_ALLOWED: u8 = 14;

/// No route.
pub const ROUTE_UNKNOWN: u8 = 15;

/// The body is longer than its limit.
pub const BODY_TOO_LARGE: u8 = 16;

/// The blob is being removed. The detail is the number of the entry that says so.
pub const BLOB_BUSY: u8 = 17;

/// No request of HTTP/1.1 as it is read here.
pub const NOT_A_REQUEST: u8 = 18;

/// The head is longer than its limit.
pub const HEAD_TOO_LARGE: u8 = 19;

/// A device failed.
pub const STORAGE_FAULT: u8 = 20;

/// There was no memory.
pub const NO_MEMORY: u8 = 21;

/// The journal is at its end.
pub const JOURNAL_FULL: u8 = 22;
