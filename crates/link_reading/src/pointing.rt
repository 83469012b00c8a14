//! The tags of a repository that point to a digest.
ghost use Rattle.std.specs.Prelude.{◌≡◌, IfOk};
ghost use Rattle.reg_names.specs.Cause.{OnlyReads};
ghost use Rattle.reg_names.specs.Refusals.{HasFailed};
ghost use Rattle.depot_api.specs.Holdings.{Finds};
ghost use Rattle.reg_entries.specs.Listing.{AreTagsTo};
ghost use Rattle.link_paths.specs.Folders.{tags_folder as tags_folder_of};
ghost use Rattle.link_reading.specs.Meaning.{Means};
ghost use Rattle.link_reading.specs.InnerPointing.{AreLinkedTo, pointing_quest};

use crate::links::is_linked;
use crate::listing::add;
use crate::manifests::manifest;
use crate::walk::{Seek, TURNS, Walk};
use depot_api::{Depot, Path};
use link_paths::{tag_below, tags_folder};
use reg_entries::Tags;
use reg_names::{Digest, Name, NoMemory, Refused, Tag};
use std::alloc::Global;

/// The tags of a repository that point to a digest, in byte order. Where the repository has no manifest under the
/// digest there are none, whatever the links of its tags hold; else it walks through all of these.
/// `Refused::Failed` is a fault of the depot, `Refused::NoMemory` want of memory.
pub fn tags_to<D: Depot>(
    alloc: Global,
    depot: &mut D,
    name: &Name,
    digest: &Digest,
) -> Result<Tags, Refused>
    ensures value { Finds (D.held depot.old) result (λ files tags.
        AreTagsTo (Means files) name.now digest.now tags) }
    ensures reads { OnlyReads D.held D.faults depot.old depot.new (HasFailed result) }
{
    if manifest(alloc, depot, name, digest)?.is_none() {
        return Ok(Tags::from_vec(Vec::new(alloc)));
    }
    linked_tags(alloc, depot, name, digest)
}

// The tags whose links hold the digest's text.
fn linked_tags<D: Depot>(
    alloc: Global,
    depot: &mut D,
    name: &Name,
    digest: &Digest,
) -> Result<Tags, Refused>
    ensures value { Finds (D.held depot.old) result (λ files.
        AreLinkedTo files name.now digest.now) }
    ensures reads { OnlyReads D.held D.faults depot.old depot.new (HasFailed result) }
{
    let mut found = Vec::new(alloc);
    let mut links = LinksTo::of(alloc, name, digest)?;
    let mut walk = Walk::below(alloc, tags_folder(alloc, name)?, None);
    for _ in 0..TURNS {
        let Some(tag) = walk.first(alloc, depot, &mut links)? else {
            return Ok(Tags::from_vec(found));
        };
        add(&mut found, tag)?;
    }
    Err(Refused::NoMemory)
}

// The links of a repository's tags, of which those to one digest are wanted.
#[derive(Drop)]
struct LinksTo {
    name: Name,
    folder: Path,
    digest: Digest,
    ghost own: { folder ≡ tags_folder_of name },
}

impl LinksTo {
    fn of(alloc: Global, name: &Name, digest: &Digest) -> Result<LinksTo, NoMemory>
        ensures name { IfOk result (λ links. links.name ≡ name.now) }
        ensures digest { IfOk result (λ links. links.digest ≡ digest.now) }
    {
        Ok(LinksTo {
            name: name.copy(alloc)?,
            folder: tags_folder(alloc, name)?,
            digest: *digest,
        })
    }
}

impl Seek for LinksTo {
    type Found = Tag;

    ghost use Rattle.std.specs.Prelude.{⊤};

    ghost quest = { λ s. pointing_quest s.name s.digest };

    ghost sound = { λ _ _. ⊤ };

    fn look<D: Depot>(
        &mut self,
        alloc: Global,
        depot: &mut D,
        path: &Path,
    ) -> Result<Option<Tag>, Refused> {
        let _name = self.name.as_str();
        let Some(tag) = tag_below(alloc, &self.folder, path)? else {
            return Ok(None);
        };
        let linked = is_linked(alloc, depot, path, &self.digest)?;
        Ok(linked.then_some(tag))
    }
}
