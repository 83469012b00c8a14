//! How a session ends.

/// How a session ended.
#[derive(Drop)]
pub enum Ended<B> {
    /// The input ended between requests, or the last one ended the connection.
    Done,
    /// A refusal that ends the session was written, with this number.
    Refused(u8),
    /// The input ended inside a request.
    Cut,
    /// The source failed, and its count of faults rose.
    SourceFault,
    /// The sink failed, and its count of faults rose.
    SinkFault,
    /// The blob failed while it was sent. It is handed back, with its count of faults.
    BlobFault(B),
    /// The source has given 2^50 bytes.
    Long,
    /// Memory was wanting. The reply that says so was tried.
    NoMemory,
}

/// What came of one request.
#[derive(Drop)]
pub(crate) enum Step<B> {
    /// It was served, and the session goes on.
    Next,
    Ended(Ended<B>),
}
