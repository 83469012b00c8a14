//! Request heads.

use depot_api::{Bytes, Text};

/// A field of a head (RFC 9112, section 5): its name as it was written, and its value without the
/// white space around it.
#[derive(Debug, Drop)]
pub struct Field {
    pub name: Text,
    pub value: Bytes,
}

/// The head of a request (RFC 9112, section 3), with its fields in their order. `minor` is 0 or 1,
/// of HTTP/1.0 or HTTP/1.1.
#[derive(Debug, Drop)]
pub struct Head {
    pub method: Text,
    pub target: Text,
    pub minor: u8,
    pub fields: Vec<Field>,
}

/// The number of the refusal of a malformed head: no bytes that could follow make it a head.
pub const MALFORMED: u8 = 18;

/// The number of the refusal of a head that is too large: the first 16,384 bytes hold no whole one,
/// or it has more than 64 fields.
pub const TOO_LARGE: u8 = 19;

/// What a stream begins with.
#[derive(Debug, Drop)]
pub enum Heading {
    Head(Head),
    /// The input ended, with nothing but empty lines.
    End,
    /// The input ended inside a head.
    Cut,
    /// It is refused, as `MALFORMED` or as `TOO_LARGE`.
    Bad(u8),
    /// The source failed, and its count of faults rose.
    SourceFault,
    /// The feed has taken 2^50 bytes.
    Long,
    NoMemory,
}

/// How the body of a request is delimited (RFC 9112, section 6).
#[derive(Clone, Copy, Debug, PartialEq, Eq)]
pub enum Framing {
    /// A body of so many bytes.
    Length(u64),
    Chunked,
    /// The head does not say where the body ends.
    Bad,
}
