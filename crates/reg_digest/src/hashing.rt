//! Digests of bytes.
ghost use Rattle.std.specs.Prelude.{◌≡◌, ◌↔◌, List, ℕ, [], ◌++◌, IsTrue};
ghost use Rattle.reg_names.specs.Digests.{IsDigest};
ghost use Rattle.reg_digest.specs.Hashing.{digest_by_sha256, HashesTo, hashes_to};
ghost use Rattle.reg_digest.specs.Fed.{Holds};

use reg_names::Digest;
use sha2::Sha256;

/// The SHA-256 digest of bytes (FIPS 180-4, section 6.2).
pub fn digest_of(bytes: &[u8]) -> Digest
    ensures value { result ≡ digest_by_sha256 bytes.now }
    ensures digest { IsDigest result }
{
    Digest::from_sha256(<Sha256 as sha2::Digest>::digest(bytes))
}

/// Whether bytes hash to a digest, by the digest's own algorithm.
pub fn is_digest_of(digest: &Digest, bytes: &[u8]) -> bool
    ensures { result ≡ hashes_to digest.now bytes.now }
{
    digest_of(bytes).raw() == digest.raw()
}

/// The SHA-256 digest of bytes that come in pieces. `Holds hashing fed` says which bytes came so far.
#[derive(Drop)]
pub struct Hashing {
    hasher: Sha256,
}

impl Hashing {
    /// Before the first piece.
    pub fn new() -> Hashing
        ensures { Holds result [] }
    {
        Hashing {
            hasher: <Sha256 as sha2::Digest>::new(),
        }
    }

    /// Takes the next piece.
    pub fn feed(&mut self, piece: &[u8])
        ensures { (fed : List ℕ) → Holds self.old fed → Holds self.new (fed ++ piece.now) }
    {
        sha2::Digest::update(&mut self.hasher, piece);
    }

    /// The digest of the bytes that came.
    pub fn done(self) -> Digest
        ensures value { (fed : List ℕ) → Holds self fed → result ≡ digest_by_sha256 fed }
        ensures digest { IsDigest result }
    {
        let Hashing { hasher } = self;
        Digest::from_sha256(sha2::Digest::finalize(hasher))
    }
}

/// The test of a digest against bytes is what it is to hash to that digest.
pub fn hashing_is_tested()
    ensures { (digest bytes : List ℕ) → HashesTo digest bytes ↔ IsTrue (hashes_to digest bytes) }
{}

/// Bytes hash to one digest alone, that by SHA-256.
pub fn bytes_have_one_digest()
    ensures { (digest bytes : List ℕ) → HashesTo digest bytes ↔ (digest ≡ digest_by_sha256 bytes) }
{}

/// What SHA-256 gives is a digest.
pub fn hashes_are_digests()
    ensures { (bytes : List ℕ) → IsDigest (digest_by_sha256 bytes) }
{}
