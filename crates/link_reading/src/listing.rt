//! The tags of a repository.
ghost use Rattle.std.specs.Prelude.{◌≡◌, ◌↔◌, [], ◌∷◌, ◌++◌, IsTrue, IfOk, OnOk, Some, is_some, length, option_copied};
ghost use Rattle.std.specs.BTreeMap as tree;
ghost use Rattle.std.specs.Ordering.{nat_cmp};
ghost use Rattle.std.specs.Cmp.Lexicographic.{slice_cmp};
ghost use Rattle.reg_names.specs.Cause.{OnlyReads};
ghost use Rattle.reg_names.specs.Refusals.{HasFailed};
ghost use Rattle.depot_api.specs.Holdings.{Finds};
ghost use Rattle.reg_entries.specs.Listing.{IsListing, is_behind as is_behind_text};
ghost use Rattle.link_paths.specs.Folders.{tags_folder as tags_folder_of};
ghost use Rattle.link_reading.specs.Meaning.{Means};
ghost use Rattle.link_reading.specs.InnerLinks.{tag_quest, with_note, AreNoted};
ghost use Rattle.link_reading.specs.InnerListing.{LiesBefore};

use crate::links::named_digest;
use crate::manifests::manifest;
use crate::walk::{Seek, TURNS, Walk};
use depot_api::{Depot, Path};
use link_paths::{tag_below, tag_index_path, tags_folder};
use reg_entries::Tags;
use reg_names::{Digest, Name, NoMemory, Refused, Tag, Text};
use std::alloc::Global;
use std::collections::BTreeMap;

/// The tags of a repository in byte order that are greater than `last`, which need not be a tag, and at most `n` of
/// them. Beside them stands `n` where it is above 0 and more of them follow (OCI Distribution Specification 1.1,
/// "Listing Tags"). It walks through the links of the repository's tags, from `last` on, and reads each manifest that
/// they point to once. `Refused::Failed` is a fault of the depot, `Refused::NoMemory` want of memory.
pub fn tags<D: Depot>(
    alloc: Global,
    depot: &mut D,
    name: &Name,
    n: Option<u64>,
    last: Option<&Text>,
) -> Result<(Tags, Option<u64>), Refused>
    ensures value { Finds (D.held depot.old) result (λ files listing.
        IsListing (Means files) name.now n (option_copied last.entry) listing.0 listing.1) }
    ensures reads { OnlyReads D.held D.faults depot.old depot.new (HasFailed result) }
    ensures none { n ≡ Some 0 → depot.new ≡ depot.old }
{
    let mut found = Vec::new(alloc);
    if n == Some(0) {
        return Ok((Tags::from_vec(found), None));
    }
    let mut links = TagLinks::of(alloc, name, last)?;
    let mut walk = Walk::below(
        alloc,
        tags_folder(alloc, name)?,
        path_before(alloc, name, last)?,
    );
    for _ in 0..TURNS {
        let Some(tag) = walk.first(alloc, depot, &mut links)? else {
            return Ok((Tags::from_vec(found), None));
        };
        if is_full(&found, n) {
            return Ok((Tags::from_vec(found), n));
        }
        add(&mut found, tag)?;
    }
    Err(Refused::NoMemory)
}

// Notes whether the repository has a manifest under a digest.
fn note(noted: &mut BTreeMap<Digest, bool>, digest: Digest, has: bool) -> Result<(), NoMemory>
    ensures { OnOk result ((q : _) → tree.get (slice_cmp nat_cmp) noted.new q
        ≡ with_note (tree.get (slice_cmp nat_cmp) noted.old) digest has q) }
{
    noted.insert(digest, has)?;
    Ok(())
}

/// One more tag.
pub fn add(found: &mut Vec<Tag>, tag: Tag) -> Result<(), NoMemory>
    ensures { IfOk result (λ _. found.new.items ≡ found.old.items ++ tag ∷ []) }
{
    found.push(tag)?;
    Ok(())
}

// Whether as many tags were found as are asked for.
fn is_full(found: &[Tag], n: Option<u64>) -> bool
    ensures { IsTrue result ↔ (n ≡ Some (length found.now)) }
{
    n == Some(found.len() as u64)
}

// The path behind which the tags lie that are greater than `last`. Where `last` is a tag, it is the greatest that any
// link of that tag may have.
fn path_before(alloc: Global, name: &Name, last: Option<&Text>) -> Result<Option<Path>, NoMemory>
    ensures { IfOk result (LiesBefore name.now (option_copied last.entry)) }
{
    let Some(last) = last else { return Ok(None) };
    let Some(tag) = Tag::read(alloc, last.as_str())? else {
        return Ok(None);
    };
    let greatest = Digest::from_sha256([0xff; 32]);
    let _ = greatest.raw();
    Ok(Some(tag_index_path(alloc, name, &tag, &greatest)?))
}

// The links of a repository's tags, and what was found of the digests that they are to.
#[derive(Drop)]
struct TagLinks {
    name: Name,
    folder: Path,
    last: Option<Text>,
    /// Whether the repository has a manifest under each digest that was met.
    noted: BTreeMap<Digest, bool>,
    ghost own: { folder ≡ tags_folder_of name },
}

impl TagLinks {
    // Those of the tags that are greater than `last`.
    fn of(alloc: Global, name: &Name, last: Option<&Text>) -> Result<TagLinks, NoMemory>
        ensures name { IfOk result (λ links. links.name ≡ name.now) }
        ensures last { IfOk result (λ links. links.last ≡ option_copied last.entry) }
        ensures none { IfOk result (λ links.
            (digest : _) → tree.get (slice_cmp nat_cmp) links.noted digest ≡ None) }
    {
        Ok(TagLinks {
            name: name.copy(alloc)?,
            folder: tags_folder(alloc, name)?,
            last: last.map(|last| last.copy(alloc)).transpose()?,
            noted: BTreeMap::new(alloc),
        })
    }

    // Whether the repository has a manifest under a digest.
    fn has_manifest<D: Depot>(
        &mut self,
        alloc: Global,
        depot: &mut D,
        digest: &Digest,
    ) -> Result<bool, Refused>
        ensures value { Finds (D.held depot.old) result (λ files has.
            AreNoted files self.old.name (tree.get (slice_cmp nat_cmp) self.old.noted)
            → has ≡ is_some ((Means files).manifests self.old.name digest.now)) }
        ensures noted { Finds (D.held depot.old) result (λ files _.
            AreNoted files self.old.name (tree.get (slice_cmp nat_cmp) self.old.noted)
            → AreNoted files self.old.name (tree.get (slice_cmp nat_cmp) self.new.noted)) }
        ensures name { self.new.name ≡ self.old.name }
        ensures last { self.new.last ≡ self.old.last }
        ensures reads { OnlyReads D.held D.faults depot.old depot.new (HasFailed result) }
    {
        if let Some(has) = self.noted.get(digest).copied() {
            return Ok(has);
        }
        let has = manifest(alloc, depot, &self.name, digest)?.is_some();
        note(&mut self.noted, *digest, has)?;
        Ok(has)
    }

    // Whether a tag is greater than `last`, where that is given.
    fn is_behind(&self, tag: &Tag) -> bool
        ensures { result ≡ is_behind_text self.now.last tag.now }
    {
        match &self.last {
            Some(last) => last.as_str() < tag.as_str(),
            None => true,
        }
    }
}

impl Seek for TagLinks {
    type Found = Tag;

    ghost quest = { λ s. tag_quest s.name s.last };

    ghost sound = { λ s files. AreNoted files s.name (tree.get (slice_cmp nat_cmp) s.noted) };

    fn look<D: Depot>(
        &mut self,
        alloc: Global,
        depot: &mut D,
        path: &Path,
    ) -> Result<Option<Tag>, Refused> {
        let _name = self.name.as_str();
        let Some(tag) = tag_below(alloc, &self.folder, path)? else {
            return Ok(None);
        };
        if !self.is_behind(&tag) {
            return Ok(None);
        }
        let Some(digest) = named_digest(alloc, depot, path)? else {
            return Ok(None);
        };
        let has = self.has_manifest(alloc, depot, &digest)?;
        Ok(has.then_some(tag))
    }
}
