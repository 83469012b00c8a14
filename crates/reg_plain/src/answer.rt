//! Answers to pulls. A repository's tags are found by a walk over all tags.
ghost use Rattle.std.specs.Prelude.{◌≡◌, ◌↔◌, ◌++◌, ◌∷◌, [], ℕ, Bool, List, length, option_copied, Some, IfOk, IsSome, IsTrue, MatchBool};
ghost use Rattle.reg_journal.specs.Past.{Past, shown};
ghost use Rattle.reg_entries.specs.Listing.{IsListing, is_behind as is_behind_text};
ghost use Rattle.reg_entries.specs.declared.ask.Ask.TheVariants as asks;
ghost use Rattle.reg_entries.specs.declared.reply.Reply.TheVariants as replies;
ghost use Rattle.reg_model.specs.Answers.{IsKnownAs, LacksIn, referred as referred_in, refusal as refusal_with};
ghost use Rattle.reg_plain.specs.Held.{IsLeftOf, link_at, standing_at};
ghost use Rattle.reg_plain.specs.Answers.{IsPlain, IsPull, shown_by};
ghost use Rattle.reg_plain.specs.InnerAnswers.{is_asked as is_asked_for};

use crate::state::State;
use reg_entries::numbers::{BLOB_UNKNOWN, MANIFEST_UNKNOWN, NAME_UNKNOWN};
use reg_entries::{Ask, Detail, No, Tags};
use reg_names::{Digest, Kind, Name, NoMemory, Reference, Tag, Text};
use std::alloc::Global;

/// What is answered to a pull (OCI Distribution Specification 1.1, "Pulling manifests", "Pulling blobs" and "Listing
/// Tags"), without content.
#[derive(Debug, PartialEq, Eq, Drop)]
pub enum Plain {
    /// `size` is the number of the manifest's bytes.
    Manifest {
        kind: Kind,
        digest: Digest,
        size: u64,
    },
    /// A blob of `size` bytes.
    Blob {
        digest: Digest,
        size: u64,
    },
    /// `more` is the most tags that were asked for, where there are further ones.
    Tags {
        tags: Tags,
        more: Option<u64>,
    },
    Refused(No),
}

impl State {
    /// The answer to a pull, as the entries that were applied have left the repositories.
    pub fn answer(&self, alloc: Global, ask: &Ask) -> Result<Plain, NoMemory>
        requires { IsPull ask.now }
        ensures { IfOk result (λ plain. (past : Past) → IsLeftOf past self.now →
            IsPlain (shown past) ask.now plain) }
    {
        match ask {
            Ask::GetBlob { name, digest } => self.blob(alloc, name, digest),
            Ask::GetManifest { name, at } => self.manifest(alloc, name, at),
            Ask::Tags { name, n, last } => self.list(alloc, name, *n, last.as_ref()),
            _ => unreachable!(),
        }
    }

    fn blob(&self, alloc: Global, name: &Name, digest: &Digest) -> Result<Plain, NoMemory>
        ensures { IfOk result (IsPlain (shown_by self.now) (asks.GetBlob name.now digest.now)) }
    {
        match self.link(alloc, name, digest)? {
            Some(link) => Ok(Plain::Blob {
                digest: *digest,
                size: link.size,
            }),
            None => Ok(Plain::Refused(self.lacks(name, BLOB_UNKNOWN))),
        }
    }

    fn manifest(
        &self,
        alloc: Global,
        name: &Name,
        at: &Option<Reference>,
    ) -> Result<Plain, NoMemory>
        ensures { IfOk result (IsPlain (shown_by self.now) (asks.GetManifest name.now at.now)) }
    {
        let Some(digest) = self.referred(alloc, name, at)? else {
            return Ok(Plain::Refused(self.lacks(name, MANIFEST_UNKNOWN)));
        };
        match self.standing(alloc, name, &digest)? {
            Some(standing) => Ok(Plain::Manifest {
                kind: standing.doc.kind,
                digest,
                size: standing.doc.size,
            }),
            None => Ok(Plain::Refused(self.lacks(name, MANIFEST_UNKNOWN))),
        }
    }

    // The digest that a reference stands for.
    fn referred(
        &self,
        alloc: Global,
        name: &Name,
        at: &Option<Reference>,
    ) -> Result<Option<Digest>, NoMemory>
        ensures { IfOk result (λ found. found ≡ referred_in (shown_by self.now) name.now at.now) }
    {
        match at {
            Some(Reference::Tag(tag)) => self.target(alloc, name, tag),
            Some(Reference::Digest(digest)) => Ok(Some(*digest)),
            None => Ok(None),
        }
    }

    fn list(
        &self,
        alloc: Global,
        name: &Name,
        n: Option<u64>,
        last: Option<&Text>,
    ) -> Result<Plain, NoMemory>
        ensures { IfOk result (IsPlain (shown_by self.now)
            (asks.Tags name.now n (option_copied last.entry))) }
    {
        if !self.is_known(name) {
            return Ok(Plain::Refused(refusal(NAME_UNKNOWN)));
        }
        let (tags, more) = self.listing(alloc, name, n, last)?;
        Ok(Plain::Tags { tags, more })
    }

    // The tags of a repository behind `last`, at most `n`, and `n` where there are more.
    fn listing(
        &self,
        alloc: Global,
        name: &Name,
        n: Option<u64>,
        last: Option<&Text>,
    ) -> Result<(Tags, Option<u64>), NoMemory>
        ensures { IfOk result (λ l. IsListing (shown_by self.now) name.now n
            (option_copied last.entry) l.0 l.1) }
    {
        let mut found = Vec::new(alloc);
        if n == Some(0) {
            return Ok((Tags::from_vec(found), None));
        }
        for (spot, _) in self.tags.iter() {
            if !is_asked(spot, name, last) {
                continue;
            }
            if is_full(&found, n) {
                return Ok((Tags::from_vec(found), n));
            }
            add(alloc, &mut found, &spot.1)?;
        }
        Ok((Tags::from_vec(found), None))
    }

    // The refusal for what a repository lacks: by this number, or by that of an unknown repository.
    fn lacks(&self, name: &Name, number: u8) -> No
        ensures { LacksIn (shown_by self.now) name.now number (replies.Refused result) }
    {
        if self.is_known(name) {
            refusal(number)
        } else {
            refusal(NAME_UNKNOWN)
        }
    }

    // Whether the repository has a manifest or a link.
    fn is_known(&self, name: &Name) -> bool
        ensures { IsKnownAs (shown_by self.now) name.now result }
    {
        if self.has_manifests(name) {
            return true;
        }
        self.has_links(name)
    }

    fn has_manifests(&self, name: &Name) -> bool
        ensures { MatchBool result
            ((digest : List ℕ) × IsSome (standing_at self.now name.now digest))
            (¬ ((digest : List ℕ) × IsSome (standing_at self.now name.now digest))) }
    {
        self.manifests.iter().any(|(spot, _)| spot.0 == *name)
    }

    fn has_links(&self, name: &Name) -> bool
        ensures { MatchBool result
            ((digest : List ℕ) × IsSome (link_at self.now name.now digest))
            (¬ ((digest : List ℕ) × IsSome (link_at self.now name.now digest))) }
    {
        self.links.iter().any(|(spot, _)| spot.0 == *name)
    }
}

// The refusal with this number.
fn refusal(number: u8) -> No
    ensures { replies.Refused result ≡ refusal_with number }
{
    No {
        number,
        detail: Detail::Nothing,
    }
}

// Whether the tag is one of the repository, behind `last`.
fn is_asked(spot: &(Name, Tag), name: &Name, last: Option<&Text>) -> bool
    ensures { result ≡ is_asked_for name.now (option_copied last.entry) spot.now }
{
    spot.0 == *name && is_behind(&spot.1, last)
}

fn is_behind(tag: &Tag, last: Option<&Text>) -> bool
    ensures { result ≡ is_behind_text (option_copied last.entry) tag.now }
{
    match last {
        Some(last) => last.as_str() < tag.as_str(),
        None => true,
    }
}

// Whether as many tags were found as are asked for.
fn is_full(found: &[Tag], n: Option<u64>) -> bool
    ensures { IsTrue result ↔ (n ≡ Some (length found.now)) }
{
    n == Some(found.len() as u64)
}

// One more tag.
fn add(alloc: Global, found: &mut Vec<Tag>, tag: &Tag) -> Result<(), NoMemory>
    ensures { IfOk result (λ _. found.new.items ≡ found.old.items ++ tag.now ∷ []) }
{
    found.push(tag.copy(alloc)?)?;
    Ok(())
}
