//! Digests.
ghost use Rattle.std.specs.Prelude.{◌≡◌, ℕ, List, ◌∷◌, drop, length, codes, IfOk};
ghost use Rattle.std.specs.Ordering.{nat_cmp};
ghost use Rattle.std.specs.Cmp.Lexicographic.{slice_cmp};
ghost use Rattle.hex.specs.Hex.{encode_lower};
ghost use Rattle.reg_names.specs.Digests.{IsDigest, digest_text, digest_named};
ghost use Rattle.reg_names.specs.Limits.{digest_text_length};
ghost use Rattle.reg_names.specs.Reading.{ReadsBack};

use crate::{NoMemory, SHA256_LENGTH, Text};
use std::alloc::Global;
use std::cmp::Ordering;
use std::marker::Model;

/// A digest by SHA-256 (OCI Image Specification 1.1, "Digests"): its text is `sha256:` and 64 lower-case
/// hexadecimal digits. Contracts see its algorithm's byte, 1, and then its 32 bytes.
#[derive(Clone, Copy, Debug)]
pub struct Digest {
    raw: [u8; SHA256_LENGTH],
}

impl Model for Digest {
    ghost use Rattle.std.specs.Prelude.{List, ℕ, ◌∷◌, drop, ◌≡◌, length};
    ghost use Rattle.reg_names.specs.Digests.{AreBytes};
    ghost use Rattle.reg_names.specs.Limits.{sha256_length};

    ghost Value = { List ℕ };

    ghost view = { λ d. 1 ∷ d.raw };

    ghost invariant = { λ d. (length d.raw ≡ sha256_length) × AreBytes d.raw };

    ghost inverse = { λ digest. record { raw = drop 1 digest } };
}

impl Digest {
    /// The SHA-256 digest with these bytes. It takes no memory.
    pub fn from_sha256(raw: [u8; SHA256_LENGTH]) -> Digest
        ensures { result ≡ 1 ∷ raw }
    {
        Digest { raw }
    }

    /// The digest's bytes without the algorithm: 32 by SHA-256.
    pub fn raw(&self) -> &[u8]
        ensures raw { result.now ≡ drop 1 self.now }
        ensures digest { IsDigest self.now }
    {
        &self.raw
    }

    /// The digest whose text this is, and `None` exactly where it is no digest's: one in capitals, of another algorithm
    /// or of another length is none. It takes no memory.
    pub fn read(text: &str) -> Option<Digest>
        ensures exact { ReadsBack IsDigest digest_text text.now result }
        ensures value { result ≡ digest_named text.now }
    {
        Digest::read_bytes(text.as_bytes())
    }

    /// The same of bytes that may be no text.
    pub fn read_bytes(text: &[u8]) -> Option<Digest>
        ensures exact { ReadsBack IsDigest digest_text text.now result }
        ensures value { result ≡ digest_named text.now }
    {
        let digits = text.strip_prefix(b"sha256:")?;
        let mut raw = [0; SHA256_LENGTH];
        hex::decode_to_slice(digits, &mut raw).ok()?;
        (digits == digits_of(&raw).as_slice()).then_some(Digest { raw })
    }

    /// The digest as a text: its 71 bytes, `sha256:` and the digits.
    pub fn text(&self, alloc: Global) -> Result<Text, NoMemory>
        ensures { IfOk result (λ t. t ≡ digest_text self.now) }
    {
        let digits = hex::encode(alloc, self.raw)?;
        Ok(Text::from_string(format!(in alloc; "sha256:{digits}")?))
    }

    // What the text begins with, up to the colon.
    pub(crate) fn front(&self) -> &'static str
        ensures text { result.now ≡ codes "sha256:" }
        ensures digest { IsDigest self.now }
    {
        let _ = &self.raw;
        "sha256:"
    }
}

// The 64 lower-case digits of 32 bytes.
fn digits_of(raw: &[u8; SHA256_LENGTH]) -> [u8; 64]
    ensures { result ≡ encode_lower raw.now }
{
    let mut digits = [0; 64];
    let encoded = hex::encode_to_slice(raw, &mut digits);
    prove!(encoded.is_ok());
    digits
}

/// The text of each digest reads back to that digest.
pub fn digests_read_back()
    ensures { (digest : List ℕ) → IsDigest digest → digest_named (digest_text digest) ≡ Some digest }
{}

/// The text of a digest has 71 bytes.
pub fn digest_texts_have_one_length()
    ensures { (digest : List ℕ) → IsDigest digest → length (digest_text digest) ≡ digest_text_length }
{}

/// The order of digests is that of their texts.
pub fn digests_are_ordered_as_texts()
    ensures { (digest other : List ℕ) → IsDigest digest → IsDigest other → slice_cmp nat_cmp digest other ≡ slice_cmp nat_cmp (digest_text digest) (digest_text other) }
{}

impl PartialEq for Digest {
    ghost use Rattle.std.specs.Prelude.{nat_eq};
    ghost use Rattle.std.specs.Cmp.{partial_equiv_from_equiv};
    ghost use Rattle.std.specs.Cmp.Lexicographic.{pointwise, nat_list_eq_equiv};

    ghost eq = { pointwise nat_eq };

    ghost laws = { partial_equiv_from_equiv nat_list_eq_equiv };

    fn eq(&self, other: &Digest) -> bool {
        self.raw == other.raw
    }
}

impl Eq for Digest {
    ghost use Rattle.std.specs.Cmp.Lexicographic.{nat_list_eq_equiv};

    ghost laws = { nat_list_eq_equiv };
}

impl Ord for Digest {
    ghost use Rattle.std.proofs.Common.{rules};
    ghost use Rattle.std.specs.Ordering.{nat_cmp};
    ghost use Rattle.std.specs.Cmp.Rules.{comparing};
    ghost use Rattle.std.specs.Cmp.Lexicographic.{slice_cmp, nat_list_cmp_total};

    ghost cmp = { slice_cmp nat_cmp };

    ghost total = { nat_list_cmp_total };

    ghost matches_partial_cmp = { Prim.search (comparing, rules) };

    ghost matches_eq = { Prim.search (comparing, rules) };

    fn cmp(&self, other: &Digest) -> Ordering {
        self.raw.cmp(&other.raw)
    }
}

impl PartialOrd for Digest {
    ghost use Rattle.std.specs.Ordering.{nat_cmp, as_partial_cmp};
    ghost use Rattle.std.specs.Cmp.Lexicographic.{slice_cmp};
    ghost use Rattle.reg_names.specs.InnerOrders.{texts_partial_order};

    ghost partial_cmp = { as_partial_cmp (slice_cmp nat_cmp) };

    ghost laws = { texts_partial_order };

    fn partial_cmp(&self, other: &Digest) -> Option<Ordering> {
        Some(self.cmp(other))
    }
}
