//! The links of a repository to digests, from the least on.
ghost use Rattle.std.specs.Prelude.{◌≡◌, IfOk};
ghost use Rattle.reg_names.specs.Cause.{OnlyReads};
ghost use Rattle.reg_names.specs.Digests.{IsDigest};
ghost use Rattle.reg_names.specs.Named.{has_digest};
ghost use Rattle.reg_names.specs.Names.{IsName};
ghost use Rattle.reg_names.specs.Reading.{ReadsBack};
ghost use Rattle.reg_names.specs.Refusals.{HasFailed};
ghost use Rattle.depot_api.specs.Holdings.{Finds};
ghost use Rattle.reg_entries.specs.State.{lists_child};
ghost use Rattle.link_reading.specs.Meaning.{Means};
ghost use Rattle.link_reading.specs.InnerLinks.{wants, links_folder, link_path, link_quest, IsLeastWanted};

use crate::blobs::has_layer;
use crate::manifests::manifest;
use crate::walk::{Seek, Walk};
use depot_api::{Depot, Path};
use link_paths::{layer_below, layers_folder, revision_below, revisions_folder};
use manifest_doc::Doc;
use reg_names::{Digest, Name, NoMemory, Refused};
use std::alloc::Global;

/// Which links are looked for.
#[derive(Clone, Copy, Debug)]
pub enum Wanted {
    /// Links to blobs that are there.
    Layer,
    /// Links to manifests that are there.
    Manifest,
    /// Links to manifests that list this digest.
    ListerOf(Digest),
}

/// The least digest to which the repository has such a link.
pub fn first_linked<D: Depot>(
    alloc: Global,
    depot: &mut D,
    name: &Name,
    wanted: Wanted,
) -> Result<Option<Digest>, Refused>
    ensures value { Finds (D.held depot.old) result (λ files.
        IsLeastWanted (Means files) name.now wanted) }
    ensures reads { OnlyReads D.held D.faults depot.old depot.new (HasFailed result) }
{
    let folder = folder_of(alloc, name, wanted)?;
    let mut walk = Walk::below(alloc, folder.copy(alloc)?, None);
    let mut links = Links {
        name: name.copy(alloc)?,
        folder,
        wanted,
    };
    walk.first(alloc, depot, &mut links)
}

// The folder of such links.
fn folder_of(alloc: Global, name: &Name, wanted: Wanted) -> Result<Path, NoMemory>
    ensures { IfOk result (λ folder. folder ≡ links_folder name.now wanted) }
{
    match wanted {
        Wanted::Layer => layers_folder(alloc, name),
        Wanted::Manifest | Wanted::ListerOf(_) => revisions_folder(alloc, name),
    }
}

// The links of one kind.
#[derive(Drop)]
struct Links {
    name: Name,
    folder: Path,
    wanted: Wanted,
    ghost own: { folder ≡ links_folder name wanted },
}

impl Links {
    // The digest of the link at a path.
    fn digest_at(&self, alloc: Global, path: &Path) -> Result<Option<Digest>, NoMemory>
        ensures digest { IfOk result
            (ReadsBack IsDigest (link_path self.now.name self.now.wanted) path.now) }
        ensures name { IsName self.now.name }
    {
        let _name = self.name.as_str();
        match self.wanted {
            Wanted::Layer => layer_below(alloc, &self.folder, path),
            Wanted::Manifest | Wanted::ListerOf(_) => revision_below(alloc, &self.folder, path),
        }
    }

    // Whether a digest is wanted.
    fn wants<D: Depot>(
        &self,
        alloc: Global,
        depot: &mut D,
        digest: &Digest,
    ) -> Result<bool, Refused>
        ensures value { Finds (D.held depot.old) result (λ files wanted.
            wanted ≡ wants (Means files) self.now.name self.now.wanted digest.now) }
        ensures reads { OnlyReads D.held D.faults depot.old depot.new (HasFailed result) }
    {
        match &self.wanted {
            Wanted::Layer => Ok(has_layer(alloc, depot, &self.name, digest)?.is_some()),
            Wanted::Manifest => Ok(manifest(alloc, depot, &self.name, digest)?.is_some()),
            Wanted::ListerOf(child) => self.lists(alloc, depot, digest, child),
        }
    }

    // Whether the manifest under a digest lists the child.
    fn lists<D: Depot>(
        &self,
        alloc: Global,
        depot: &mut D,
        digest: &Digest,
        child: &Digest,
    ) -> Result<bool, Refused>
        ensures value { Finds (D.held depot.old) result (λ files lists.
            lists ≡ lists_child child.now ((Means files).manifests self.now.name digest.now)) }
        ensures reads { OnlyReads D.held D.faults depot.old depot.new (HasFailed result) }
    {
        match manifest(alloc, depot, &self.name, digest)? {
            Some((doc, _)) => Ok(has_child(&doc, child)),
            None => Ok(false),
        }
    }
}

// Whether a document lists the child.
fn has_child(doc: &Doc, child: &Digest) -> bool
    ensures { result ≡ has_digest child.now doc.now.children }
{
    doc.children
        .as_slice()
        .iter()
        .any(|digest| *child == *digest)
}

impl Seek for Links {
    type Found = Digest;

    ghost use Rattle.std.specs.Prelude.{⊤};

    ghost quest = { λ s. link_quest s.name s.wanted };

    ghost sound = { λ _ _. ⊤ };

    fn look<D: Depot>(
        &mut self,
        alloc: Global,
        depot: &mut D,
        path: &Path,
    ) -> Result<Option<Digest>, Refused> {
        let Some(digest) = self.digest_at(alloc, path)? else {
            return Ok(None);
        };
        let wanted = self.wants(alloc, depot, &digest)?;
        Ok(wanted.then_some(digest))
    }
}
