//! The table of refusals.
ghost use Rattle.reg_replies.specs.Refusals.{IsRow, row, row_of as row_numbered};

use crate::Status;
use Status::{
    BadRequest, Conflict, ContentTooLarge, HeadTooLarge, InsufficientStorage, InternalServerError,
    MethodNotAllowed, NotFound, RangeNotSatisfiable, ServiceUnavailable,
};
use reg_entries::numbers::{
    BLOB_BUSY, BLOB_UNKNOWN, BODY_TOO_LARGE, CONTENT_UNKNOWN, DIGEST_DIFFERS, DIGEST_INVALID,
    HEAD_TOO_LARGE, JOURNAL_FULL, MANIFEST_INVALID, MANIFEST_LISTED, MANIFEST_UNKNOWN,
    METHOD_NOT_ALLOWED, NAME_INVALID, NAME_UNKNOWN, NO_MEMORY, NOT_A_REQUEST, READ_ONLY,
    ROUTE_UNKNOWN, STORAGE_FAULT, UPLOAD_IN_USE, UPLOAD_UNKNOWN, WRONG_START,
};

/// How a refusal is told: its status, its code (OCI Distribution Specification 1.1, "Error Codes")
/// and its message.
#[derive(Clone, Copy, Debug)]
pub(crate) struct Row {
    pub(crate) status: Status,
    pub(crate) code: &'static str,
    pub(crate) message: &'static str,
}

/// The row of a refusal. A number that is no refusal's is told as a storage fault.
#[rattlefmt::skip]
pub(crate) fn row_of(number: u8) -> Row
    ensures { IsRow (row_numbered number) result }
{
    match number {
        NAME_INVALID => told(BadRequest, "NAME_INVALID", "invalid repository name"),
        DIGEST_INVALID => told(BadRequest, "DIGEST_INVALID", "invalid digest"),
        NAME_UNKNOWN => told(NotFound, "NAME_UNKNOWN", "repository unknown"),
        BLOB_UNKNOWN => told(NotFound, "BLOB_UNKNOWN", "blob unknown"),
        MANIFEST_UNKNOWN => told(NotFound, "MANIFEST_UNKNOWN", "manifest unknown"),
        MANIFEST_INVALID => told(BadRequest, "MANIFEST_INVALID", "manifest invalid"),
        CONTENT_UNKNOWN => told(BadRequest, "MANIFEST_BLOB_UNKNOWN", "named content is unknown"),
        UPLOAD_UNKNOWN => told(NotFound, "BLOB_UPLOAD_UNKNOWN", "upload unknown"),
        WRONG_START => told(RangeNotSatisfiable, "BLOB_UPLOAD_INVALID", "wrong start"),
        UPLOAD_IN_USE => told(Conflict, "BLOB_UPLOAD_INVALID", "upload in use"),
        DIGEST_DIFFERS => told(BadRequest, "DIGEST_INVALID", "digest differs from the content"),
        MANIFEST_LISTED => told(Conflict, "MANIFEST_REFERENCED", "manifest is listed by an index"),
        READ_ONLY => told(MethodNotAllowed, "UNSUPPORTED", "read-only during import"),
        METHOD_NOT_ALLOWED => told(MethodNotAllowed, "UNSUPPORTED", "method not allowed here"),
        ROUTE_UNKNOWN => told(NotFound, "UNSUPPORTED", "no such route"),
        BODY_TOO_LARGE => told(ContentTooLarge, "SIZE_INVALID", "body too large"),
        BLOB_BUSY => told(ServiceUnavailable, "BUSY", "blob is being removed"),
        NOT_A_REQUEST => told(BadRequest, "UNSUPPORTED", "not a request of this profile"),
        HEAD_TOO_LARGE => told(HeadTooLarge, "UNSUPPORTED", "request head too large"),
        STORAGE_FAULT => told(InternalServerError, "FAULT", "storage fault"),
        NO_MEMORY => told(InsufficientStorage, "NO_MEMORY", "no memory"),
        JOURNAL_FULL => told(InsufficientStorage, "FULL", "journal full"),
        _ => told(InternalServerError, "FAULT", "storage fault"),
    }
}

fn told(status: Status, code: &'static str, message: &'static str) -> Row
    ensures { IsRow (row status code.now message.now) result }
{
    Row {
        status,
        code,
        message,
    }
}
