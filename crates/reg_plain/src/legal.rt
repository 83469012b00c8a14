//! Which entries may follow. Each condition is a look-up, or a walk over all that is held.
ghost use Rattle.std.specs.Prelude.{◌≡◌, false, List, IfOk, IsSome};
ghost use Rattle.reg_journal.specs.Legal.{HasContent, IsAbandoned, IsLegal, IsLinkOver, IsLoose, IsOver, IsUnnamed, Meets};
ghost use Rattle.reg_journal.specs.Past.{Past};
ghost use Rattle.reg_journal.specs.declared.entry.Entry.{Entry as Written};
ghost use Rattle.reg_plain.specs.Held.{Decided, IsLeftOf, held, known_at, link_at};

use crate::state::State;
use reg_entries::Document;
use reg_journal::{Entry, What};
use reg_names::{Digest, Name, Named, NoMemory};
use std::alloc::Global;

impl State {
    /// Whether the entry may follow those that were applied.
    pub(crate) fn allows(&self, alloc: Global, entry: &Entry) -> Result<bool, NoMemory>
        ensures { IfOk result (λ legal. (past : Past) → IsLeftOf past self.now →
            Decided legal (IsLegal self.now.delay past entry.now)) }
    {
        if self.opened == entry.what.is_early() {
            return Ok(false);
        }
        self.meets(alloc, entry.moment, &entry.what)
    }

    // Whether the condition of an entry of this moment is met.
    fn meets(&self, alloc: Global, now: u64, what: &What) -> Result<bool, NoMemory>
        ensures { IfOk result (λ met. (entries : List Written) →
            Decided met (Meets self.now.delay (held entries self.now) now what.now)) }
    {
        match what {
            What::Put { name, doc, .. } => self.has_content(alloc, name, doc),
            What::SetTag { name, digest, .. }
            | What::BroughtTag { name, digest, .. }
            | What::RemovedManifest { name, digest } => {
                Ok(self.standing(alloc, name, digest)?.is_some())
            }
            What::DropTag { name, tag } => Ok(self.target(alloc, name, tag)?.is_some()),
            What::DropManifest { name, digest } => self.is_loose(alloc, name, digest),
            What::Mark { digest } | What::Link { digest, .. } | What::BroughtBlob { digest, .. } =>
                { Ok(self.known(digest).condemned.is_none()) }
            What::Unlink { name, digest } | What::RemovedLink { name, digest } => {
                Ok(self.link(alloc, name, digest)?.is_some())
            }
            What::Brought { .. } | What::BroughtLink { .. } | What::Opened => Ok(true),
            What::Collect { name, digest } => self.may_collect(alloc, name, digest, now),
            What::DropLink { name, digest } => self.may_drop_link(alloc, name, digest, now),
            What::Doom { digest } => Ok(self.may_doom(digest, now)),
            What::Erase { digest } => Ok(self.known(digest).condemned.is_some()),
        }
    }

    // Whether the repository links what a manifest names other than freely, and has what it lists.
    fn has_content(&self, alloc: Global, name: &Name, doc: &Document) -> Result<bool, NoMemory>
        ensures { IfOk result (λ has. (entries : List Written) →
            Decided has (HasContent (held entries self.now) name.now doc.now)) }
    {
        for named in doc.named.as_slice() {
            if !self.has_named(alloc, name, named)? {
                return Ok(false);
            }
        }
        for child in doc.children.as_slice() {
            if self.standing(alloc, name, child)?.is_none() {
                return Ok(false);
            }
        }
        Ok(true)
    }

    // Whether the repository links what is named other than freely.
    fn has_named(&self, alloc: Global, name: &Name, named: &Named) -> Result<bool, NoMemory>
        ensures { IfOk result (λ has. Decided has
            (named.now.free ≡ false → IsSome (link_at self.now name.now named.now.digest))) }
    {
        if named.free {
            return Ok(true);
        }
        Ok(self.link(alloc, name, &named.digest)?.is_some())
    }

    // Whether the repository has the manifest, and nothing holds it there.
    fn is_loose(&self, alloc: Global, name: &Name, digest: &Digest) -> Result<bool, NoMemory>
        ensures { IfOk result (λ loose. (entries : List Written) →
            Decided loose (IsLoose (held entries self.now) name.now digest.now)) }
    {
        if self.standing(alloc, name, digest)?.is_none() || self.is_tagged(name, digest) {
            return Ok(false);
        }
        Ok(!self.is_listed(name, digest))
    }

    fn may_collect(
        &self,
        alloc: Global,
        name: &Name,
        digest: &Digest,
        now: u64,
    ) -> Result<bool, NoMemory>
        ensures { IfOk result (λ may. (entries : List Written) →
            Decided may (IsLoose (held entries self.now) name.now digest.now
            × IsOver self.now.delay now ((held entries self.now).manifest_touched name.now digest.now))) }
    {
        if !self.is_loose(alloc, name, digest)? {
            return Ok(false);
        }
        let touched = self.standing(alloc, name, digest)?.map(|s| s.touched);
        Ok(self.is_over(touched, now))
    }

    fn may_drop_link(
        &self,
        alloc: Global,
        name: &Name,
        digest: &Digest,
        now: u64,
    ) -> Result<bool, NoMemory>
        ensures { IfOk result (λ may. (entries : List Written) →
            Decided may (IsUnnamed (held entries self.now) digest.now
            × IsLinkOver self.now.delay now (link_at self.now name.now digest.now))) }
    {
        match self.link(alloc, name, digest)? {
            Some(link) => Ok(!self.is_named(digest) && self.is_over(Some(link.moment), now)),
            None => Ok(false),
        }
    }

    fn may_doom(&self, digest: &Digest, now: u64) -> bool
        ensures { (entries : List Written) →
            Decided result (IsAbandoned (held entries self.now) digest.now
            × IsOver self.now.delay now (known_at self.now digest.now).touched) }
    {
        if self.is_linked(digest) || self.is_named(digest) {
            return false;
        }
        let known = self.known(digest);
        known.condemned.is_none() && self.is_over(known.touched, now)
    }

    // Whether the delay after a moment is over, where there is one.
    fn is_over(&self, moment: Option<u64>, now: u64) -> bool
        ensures { Decided result (IsOver self.now.delay now moment) }
    {
        match moment {
            Some(moment) => now
                .checked_sub(self.delay)
                .is_some_and(|since| moment <= since),
            None => true,
        }
    }
}
