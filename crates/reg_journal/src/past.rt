//! What a journal leaves of links and of condemned digests.

/// A link of a repository to a blob.
#[derive(Clone, Copy, Debug, PartialEq, Eq)]
pub struct KeptLink {
    /// The number of the blob's bytes.
    pub size: u64,
    /// When the link was made, in seconds.
    pub moment: u64,
}

/// The condemnation of a digest, whose blob is being removed.
#[derive(Clone, Copy, Debug, PartialEq, Eq)]
pub struct Condemned {
    /// The number of the entry that condemned it.
    pub number: u64,
    /// When that was, in seconds.
    pub moment: u64,
}
