//! Hashing: the digest of bytes that lie in memory, or that come in pieces.
//! Both ways give the SHA-256 digest of exactly the bytes that were given, in any cut, and take no memory.
//! Whoever checks content against its digest stands on this crate, and on the words of `specs/Hashing.antt` for
//! the digests that bytes have. SHA-256 is that of FIPS 180-4; digests are those of the OCI Image Specification
//! 1.1, "Digests".
#![tactic(auto)]

mod hashing;

pub use hashing::{
    Hashing, bytes_have_one_digest, digest_of, hashes_are_digests, hashing_is_tested, is_digest_of,
};
