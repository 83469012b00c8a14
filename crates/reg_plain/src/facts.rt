//! What is held, looked up or found by a walk.
ghost use Rattle.std.specs.Prelude.{◌≡◌, ◌↔◌, List, MatchBool, IfOk, IsTrue, option_map, option_copied};
ghost use Rattle.reg_journal.specs.Legal.{IsUnlinked, IsUnlisted, IsUnnamed, IsUntagged};
ghost use Rattle.reg_journal.specs.declared.entry.Entry.{Entry as Written};
ghost use Rattle.reg_plain.specs.Held.{held, known_at, link_at, standing_at, tag_at, unknown};

use crate::docs::{lists, names};
use crate::state::{Known, Standing, State};
use reg_entries::Document;
use reg_journal::KeptLink;
use reg_names::{Digest, Name, NoMemory, Tag};
use std::alloc::Global;

impl State {
    /// The manifest of a repository.
    pub(crate) fn standing(
        &self,
        alloc: Global,
        name: &Name,
        digest: &Digest,
    ) -> Result<Option<&Standing>, NoMemory>
        ensures { IfOk result (λ found. option_copied found ≡ standing_at self.now name.now digest.now) }
    {
        let spot = (name.copy(alloc)?, *digest);
        Ok(self.manifests.get(&spot))
    }

    /// The link of a repository.
    pub(crate) fn link(
        &self,
        alloc: Global,
        name: &Name,
        digest: &Digest,
    ) -> Result<Option<KeptLink>, NoMemory>
        ensures { IfOk result (λ found. found ≡ link_at self.now name.now digest.now) }
    {
        let spot = (name.copy(alloc)?, *digest);
        Ok(self.links.get(&spot).copied())
    }

    /// The digest that a tag of a repository points to.
    pub(crate) fn target(
        &self,
        alloc: Global,
        name: &Name,
        tag: &Tag,
    ) -> Result<Option<Digest>, NoMemory>
        ensures { IfOk result (λ found. found ≡ tag_at self.now name.now tag.now) }
    {
        let spot = (name.copy(alloc)?, tag.copy(alloc)?);
        Ok(self.tags.get(&spot).copied())
    }

    /// What is known of a digest.
    pub(crate) fn known(&self, digest: &Digest) -> Known
        ensures { result ≡ known_at self.now digest.now }
    {
        match self.digests.get(digest) {
            Some(known) => *known,
            None => Known::NOTHING,
        }
    }

    /// Whether a tag of the repository points to the digest.
    pub(crate) fn is_tagged(&self, name: &Name, digest: &Digest) -> bool
        ensures { (entries : List Written) → MatchBool result
            (¬ IsUntagged (held entries self.now) name.now digest.now)
            (IsUntagged (held entries self.now) name.now digest.now) }
    {
        self.tags
            .iter()
            .any(|(spot, target)| spot.0 == *name && *target == *digest)
    }

    /// Whether a manifest of the repository lists the digest.
    pub(crate) fn is_listed(&self, name: &Name, digest: &Digest) -> bool
        ensures { (entries : List Written) → MatchBool result
            (¬ IsUnlisted (held entries self.now) name.now digest.now)
            (IsUnlisted (held entries self.now) name.now digest.now) }
    {
        self.manifests.iter().any(|(spot, standing)| spot.0 == *name
            && lists(&standing.doc, digest))
    }

    /// Whether a manifest of any repository names the digest.
    pub(crate) fn is_named(&self, digest: &Digest) -> bool
        ensures { (entries : List Written) → MatchBool result
            (¬ IsUnnamed (held entries self.now) digest.now)
            (IsUnnamed (held entries self.now) digest.now) }
    {
        self.manifests
            .iter()
            .any(|(_, standing)| names(&standing.doc, digest))
    }

    /// Whether a repository links the digest.
    pub(crate) fn is_linked(&self, digest: &Digest) -> bool
        ensures { (entries : List Written) → MatchBool result
            (¬ IsUnlinked (held entries self.now) digest.now)
            (IsUnlinked (held entries self.now) digest.now) }
    {
        self.links.iter().any(|(spot, _)| spot.1 == *digest)
    }
}
