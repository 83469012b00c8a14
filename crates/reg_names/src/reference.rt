//! References to manifests.
ghost use Rattle.std.specs.Prelude.{◌≡◌, IfOk};
ghost use Rattle.reg_names.specs.Reading.{ReadsBack};
ghost use Rattle.reg_names.specs.References.{IsReference, reference_text, reference_named};
ghost use Rattle.reg_names.specs.declared.reference.Reference.{Reference as RefersTo};

use crate::{Digest, NoMemory, Tag, Text};
use std::alloc::Global;
use std::cmp::Ordering;

/// What a manifest is asked for by (OCI Distribution Specification 1.1, "Pulling manifests"): a tag of
/// a repository, or the digest of the manifest. No text is both, since a digest's has a colon. References
/// are ordered as their texts are.
#[derive(Debug, Drop)]
pub enum Reference {
    Tag(Tag),
    Digest(Digest),
}

impl Reference {
    /// The reference whose text this is, and `None` exactly where it is neither a tag's nor a digest's.
    pub fn read(alloc: Global, text: &str) -> Result<Option<Reference>, NoMemory>
        ensures exact { IfOk result (ReadsBack IsReference reference_text text.now) }
        ensures value { IfOk result (λ found. found ≡ reference_named text.now) }
    {
        Reference::read_bytes(alloc, text.as_bytes())
    }

    /// The same of bytes that may be no text.
    pub fn read_bytes(alloc: Global, text: &[u8]) -> Result<Option<Reference>, NoMemory>
        ensures exact { IfOk result (ReadsBack IsReference reference_text text.now) }
        ensures value { IfOk result (λ found. found ≡ reference_named text.now) }
    {
        let tag = Tag::read_bytes(alloc, text)?;
        Ok(match tag {
            Some(tag) => Some(Reference::Tag(tag)),
            None => Digest::read_bytes(text).map(Reference::Digest),
        })
    }

    /// The reference as a text.
    pub fn text(&self, alloc: Global) -> Result<Text, NoMemory>
        ensures { IfOk result (λ t. t ≡ reference_text self.now) }
    {
        match self {
            Reference::Tag(tag) => tag.text(alloc),
            Reference::Digest(digest) => digest.text(alloc),
        }
    }

    /// An equal reference.
    pub fn copy(&self, alloc: Global) -> Result<Reference, NoMemory>
        ensures { IfOk result (λ r. r ≡ self.now) }
    {
        Ok(match self {
            Reference::Tag(tag) => Reference::Tag(tag.copy(alloc)?),
            Reference::Digest(digest) => Reference::Digest(*digest),
        })
    }
}

/// The text of each reference reads back to that reference.
pub fn references_read_back()
    ensures { (r : RefersTo) → IsReference r → reference_named (reference_text r) ≡ Some r }
{}

impl PartialEq for Reference {
    ghost use Rattle.std.specs.Prelude.{nat_eq};
    ghost use Rattle.std.specs.Ordering.{on};
    ghost use Rattle.std.specs.Cmp.{partial_equiv_from_equiv};
    ghost use Rattle.std.specs.Cmp.Lexicographic.{pointwise, on_texts_equal};
    ghost use Rattle.reg_names.specs.References.{reference_text};

    ghost eq = { on reference_text (pointwise nat_eq) };

    ghost laws = { partial_equiv_from_equiv (on_texts_equal reference_text) };

    fn eq(&self, other: &Reference) -> bool {
        self.cmp(other).is_eq()
    }
}

impl Eq for Reference {
    ghost use Rattle.std.specs.Cmp.Lexicographic.{on_texts_equal};
    ghost use Rattle.reg_names.specs.References.{reference_text};

    ghost laws = { on_texts_equal reference_text };
}

impl Ord for Reference {
    ghost use Rattle.std.proofs.Common.{rules};
    ghost use Rattle.std.specs.Ordering.{nat_cmp, on};
    ghost use Rattle.std.specs.Cmp.Rules.{comparing};
    ghost use Rattle.std.specs.Cmp.Lexicographic.{slice_cmp, on_texts};
    ghost use Rattle.reg_names.specs.References.{reference_text};

    ghost cmp = { on reference_text (slice_cmp nat_cmp) };

    ghost total = { on_texts reference_text };

    ghost matches_partial_cmp = { Prim.search (comparing, rules) };

    ghost matches_eq = { Prim.search (comparing, rules) };

    fn cmp(&self, other: &Reference) -> Ordering {
        match (self, other) {
            (Reference::Tag(tag), Reference::Tag(other)) => tag.cmp(other),
            (Reference::Digest(digest), Reference::Digest(other)) => digest.raw().cmp(other.raw()),
            // the colon of a digest's front is no byte of a tag, so the front decides
            (Reference::Tag(tag), Reference::Digest(digest)) => tag.as_str().cmp(digest.front()),
            (Reference::Digest(digest), Reference::Tag(tag)) => digest.front().cmp(tag.as_str()),
        }
    }
}

impl PartialOrd for Reference {
    ghost use Rattle.std.specs.Ordering.{nat_cmp, on, as_partial_cmp};
    ghost use Rattle.std.specs.Cmp.Lexicographic.{slice_cmp};
    ghost use Rattle.reg_names.specs.InnerOrders.{on_texts_partial_order};
    ghost use Rattle.reg_names.specs.References.{reference_text};

    ghost partial_cmp = { as_partial_cmp (on reference_text (slice_cmp nat_cmp)) };

    ghost laws = { on_texts_partial_order reference_text };

    fn partial_cmp(&self, other: &Reference) -> Option<Ordering> {
        Some(self.cmp(other))
    }
}
