//! The lengths of texts.

/// The longest repository name, in bytes.
pub const NAME_LIMIT: usize = 255;

/// The longest tag, in bytes.
pub const TAG_LIMIT: usize = 128;

/// The bytes of a digest by SHA-256.
pub const SHA256_LENGTH: usize = 32;

/// The bytes of the text of a digest: `sha256:` and two digits for each byte.
pub const DIGEST_TEXT_LENGTH: usize = 71;
