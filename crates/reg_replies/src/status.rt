//! The status of each reply.
ghost use Rattle.std.specs.Prelude.{◌≡◌};
ghost use Rattle.reg_replies.specs.Statuses.{line_of};
ghost use Rattle.reg_replies.specs.Replies.{status_of as status_of_reply};

use crate::refusals::row_of;
use reg_entries::Reply;
use reg_entries::numbers::{METHOD_NOT_ALLOWED, WRONG_START};

/// The status of a reply (RFC 9110, section 15; RFC 6585; RFC 4918).
#[derive(Clone, Copy, Debug, PartialEq, Eq)]
pub enum Status {
    Done,
    Created,
    Accepted,
    NoContent,
    BadRequest,
    NotFound,
    MethodNotAllowed,
    Conflict,
    ContentTooLarge,
    RangeNotSatisfiable,
    HeadTooLarge,
    InternalServerError,
    ServiceUnavailable,
    InsufficientStorage,
}

impl Status {
    /// The number of the status and its reason.
    pub fn line(self) -> &'static str
        ensures { result.now ≡ line_of self }
    {
        match self {
            Status::Done => "200 OK",
            Status::Created => "201 Created",
            Status::Accepted => "202 Accepted",
            Status::NoContent => "204 No Content",
            Status::BadRequest => "400 Bad Request",
            Status::NotFound => "404 Not Found",
            Status::MethodNotAllowed => "405 Method Not Allowed",
            Status::Conflict => "409 Conflict",
            Status::ContentTooLarge => "413 Content Too Large",
            Status::RangeNotSatisfiable => "416 Range Not Satisfiable",
            Status::HeadTooLarge => "431 Request Header Fields Too Large",
            Status::InternalServerError => "500 Internal Server Error",
            Status::ServiceUnavailable => "503 Service Unavailable",
            Status::InsufficientStorage => "507 Insufficient Storage",
        }
    }
}

pub(crate) fn status_of(reply: &Reply) -> Status
    ensures { result ≡ status_of_reply reply.now }
{
    match reply {
        Reply::Base | Reply::Manifest { .. } | Reply::Blob { .. } | Reply::Tags { .. } => {
            Status::Done
        }
        Reply::Mounted { .. } | Reply::Finished { .. } | Reply::Stored { .. } => Status::Created,
        Reply::Started { .. } | Reply::Patched { .. } | Reply::Dropped => Status::Accepted,
        Reply::Offset { .. } | Reply::Cancelled => Status::NoContent,
        Reply::WrongStart { .. } => row_of(WRONG_START).status,
        Reply::NotAllowed { .. } => row_of(METHOD_NOT_ALLOWED).status,
        Reply::Refused(no) => row_of(no.number).status,
    }
}
