//! The paths of places. In the examples `2cf2..9824` stands for the 64 digits of a digest.
#![tactic(auto, unfolding(crate::specs::Places::place_path))]

ghost use Rattle.std.specs.Prelude.{◌≡◌, ◌++◌, IfOk, take};
ghost use Rattle.std.specs.String.{string_bytes};
ghost use Rattle.reg_names.specs.Names.{IsName};
ghost use Rattle.reg_names.specs.Digests.{IsDigest};
ghost use Rattle.reg_names.specs.UploadIds.{IsUploadId, upload_id_text};
ghost use Rattle.depot_api.specs.Paths.{IsPath, parts_of};
ghost use Rattle.link_paths.specs.Places.{digits, in_repository, data_path, layer_path, revision_path, tag_path, tag_index_path, upload_data_path, upload_started_path, place_path, IsPlace};
ghost use Rattle.link_paths.specs.declared.place.Place.TheVariants as places;
ghost use Rattle.link_paths.specs.InnerParts.{IsTail};
ghost use Rattle.link_paths.specs.Folders.{repository_folder, tags_folder, revisions_folder, layers_folder};

use crate::Place;
use depot_api::Path;
use reg_names::{Digest, Name, NoMemory, Tag, Text, UploadId};
use std::alloc::Global;

/// Where a place lies: `Place::TagCurrent` of `a/b` and `v1` at
/// `docker/registry/v2/repositories/a/b/_manifests/tags/v1/current/link`.
/// It fails only for want of memory, as all here.
pub fn path_of(alloc: Global, place: &Place) -> Result<Path, NoMemory>
    ensures path { IfOk result (λ p. p ≡ place_path place.now) }
    ensures place { IsPlace place.now }
{
    match place {
        Place::BlobData(digest) => data_path(alloc, digest),
        Place::Revision(name, digest) => revision_path(alloc, name, digest),
        Place::TagCurrent(name, tag) => tag_path(alloc, name, tag),
        Place::TagIndex(name, tag, digest) => tag_index_path(alloc, name, tag, digest),
        Place::Layer(name, digest) => layer_path(alloc, name, digest),
        Place::UploadData(name, id) => upload_data_path(alloc, name, id),
        Place::UploadStarted(name, id) => upload_started_path(alloc, name, id),
    }
}

/// Where the bytes of a blob lie: `docker/registry/v2/blobs/sha256/2c/2cf2..9824/data`.
pub fn data_path(alloc: Global, digest: &Digest) -> Result<Path, NoMemory>
    ensures path { IfOk result (λ p. p ≡ data_path digest.now) }
    ensures place { IsPlace (places.BlobData digest.now) }
{
    let first = first_digits_of(alloc, digest)?;
    let digits = digits_of(alloc, digest)?;
    path(
        alloc,
        &format!(in alloc; "docker/registry/v2/blobs/sha256/{first}/{digits}/data")?,
    )
}

/// Where a repository keeps the link to a blob:
/// `docker/registry/v2/repositories/a/b/_layers/sha256/2cf2..9824/link`.
pub fn layer_path(alloc: Global, name: &Name, digest: &Digest) -> Result<Path, NoMemory>
    ensures path { IfOk result (λ p. p ≡ layer_path name.now digest.now) }
    ensures place { IsPlace (places.Layer name.now digest.now) }
{
    let name = name.as_str();
    let digits = digits_of(alloc, digest)?;
    in_repository(
        alloc,
        name,
        &format!(in alloc; "_layers/sha256/{digits}/link")?,
    )
}

/// Where a repository keeps the link to a manifest:
/// `docker/registry/v2/repositories/a/b/_manifests/revisions/sha256/2cf2..9824/link`.
pub fn revision_path(alloc: Global, name: &Name, digest: &Digest) -> Result<Path, NoMemory>
    ensures path { IfOk result (λ p. p ≡ revision_path name.now digest.now) }
    ensures place { IsPlace (places.Revision name.now digest.now) }
{
    let name = name.as_str();
    let digits = digits_of(alloc, digest)?;
    in_repository(
        alloc,
        name,
        &format!(in alloc; "_manifests/revisions/sha256/{digits}/link")?,
    )
}

/// Where a repository keeps the link of a tag:
/// `docker/registry/v2/repositories/a/b/_manifests/tags/v1/current/link`.
pub fn tag_path(alloc: Global, name: &Name, tag: &Tag) -> Result<Path, NoMemory>
    ensures path { IfOk result (λ p. p ≡ tag_path name.now tag.now) }
    ensures place { IsPlace (places.TagCurrent name.now tag.now) }
{
    let name = name.as_str();
    let tag = tag.as_str();
    in_repository(
        alloc,
        name,
        &format!(in alloc; "_manifests/tags/{tag}/current/link")?,
    )
}

/// Where a repository keeps the link of a tag to a manifest that it points to or has pointed to:
/// `docker/registry/v2/repositories/a/b/_manifests/tags/v1/index/sha256/2cf2..9824/link`.
pub fn tag_index_path(
    alloc: Global,
    name: &Name,
    tag: &Tag,
    digest: &Digest,
) -> Result<Path, NoMemory>
    ensures path { IfOk result (λ p. p ≡ tag_index_path name.now tag.now digest.now) }
    ensures place { IsPlace (places.TagIndex name.now tag.now digest.now) }
{
    let name = name.as_str();
    let tag = tag.as_str();
    let digits = digits_of(alloc, digest)?;
    in_repository(
        alloc,
        name,
        &format!(in alloc; "_manifests/tags/{tag}/index/sha256/{digits}/link")?,
    )
}

/// Where a repository keeps the bytes of an upload so far:
/// `docker/registry/v2/repositories/a/b/_uploads/0f8fad5b-d9cb-469f-a165-70867728950e/data`.
pub fn upload_data_path(alloc: Global, name: &Name, id: &UploadId) -> Result<Path, NoMemory>
    ensures path { IfOk result (λ p. p ≡ upload_data_path name.now id.now) }
    ensures place { IsPlace (places.UploadData name.now id.now) }
{
    let name = name.as_str();
    let id = id_text(alloc, id)?;
    let id = id.as_str();
    in_repository(alloc, name, &format!(in alloc; "_uploads/{id}/data")?)
}

/// Where a repository keeps the moment at which an upload was started:
/// `docker/registry/v2/repositories/a/b/_uploads/0f8fad5b-d9cb-469f-a165-70867728950e/startedat`.
pub fn upload_started_path(alloc: Global, name: &Name, id: &UploadId) -> Result<Path, NoMemory>
    ensures path { IfOk result (λ p. p ≡ upload_started_path name.now id.now) }
    ensures place { IsPlace (places.UploadStarted name.now id.now) }
{
    let name = name.as_str();
    let id = id_text(alloc, id)?;
    let id = id.as_str();
    in_repository(alloc, name, &format!(in alloc; "_uploads/{id}/startedat")?)
}

/// The folder in which a repository keeps the links of its tags:
/// `docker/registry/v2/repositories/a/b/_manifests/tags`.
pub fn tags_folder(alloc: Global, name: &Name) -> Result<Path, NoMemory>
    ensures path { IfOk result (λ p. p ≡ tags_folder name.now) }
    ensures name { IsName name.now }
{
    in_repository(alloc, name.as_str(), "_manifests/tags")
}

/// The folder in which a repository keeps its links to manifests:
/// `docker/registry/v2/repositories/a/b/_manifests/revisions`.
pub fn revisions_folder(alloc: Global, name: &Name) -> Result<Path, NoMemory>
    ensures path { IfOk result (λ p. p ≡ revisions_folder name.now) }
    ensures name { IsName name.now }
{
    in_repository(alloc, name.as_str(), "_manifests/revisions")
}

/// The folder in which a repository keeps its links to blobs:
/// `docker/registry/v2/repositories/a/b/_layers`.
pub fn layers_folder(alloc: Global, name: &Name) -> Result<Path, NoMemory>
    ensures path { IfOk result (λ p. p ≡ layers_folder name.now) }
    ensures name { IsName name.now }
{
    in_repository(alloc, name.as_str(), "_layers")
}

// The path of what lies in a repository.
fn in_repository(alloc: Global, name: &str, inside: &str) -> Result<Path, NoMemory>
    requires name { IsName name.now }
    requires inside { IsTail inside.now }
    ensures path { IfOk result (λ p. p ≡ parts_of (in_repository name.now inside.now)) }
    ensures parts { IfOk result (λ p. p ≡ repository_folder name.now ++ parts_of inside.now) }
{
    path(
        alloc,
        &format!(in alloc; "docker/registry/v2/repositories/{name}/{inside}")?,
    )
}

// The digest's 64 digits.
fn digits_of(alloc: Global, digest: &Digest) -> Result<String, NoMemory>
    ensures digits { IfOk result (λ text. string_bytes text ≡ digits digest.now) }
    ensures digest { IsDigest digest.now }
{
    Ok(hex::encode(alloc, digest.raw())?)
}

// The first two of them.
fn first_digits_of(alloc: Global, digest: &Digest) -> Result<String, NoMemory>
    ensures digits { IfOk result (λ text. string_bytes text ≡ take 2 (digits digest.now)) }
    ensures digest { IsDigest digest.now }
{
    Ok(hex::encode(alloc, &digest.raw()[..1])?)
}

// The text of an id.
fn id_text(alloc: Global, id: &UploadId) -> Result<Text, NoMemory>
    ensures text { IfOk result (λ text. text ≡ upload_id_text id.now) }
    ensures id { IsUploadId id.now }
{
    let _raw = id.raw();
    id.text(alloc)
}

// The path with this text.
fn path(alloc: Global, text: &str) -> Result<Path, NoMemory>
    requires { IsPath (parts_of text.now) }
    ensures { IfOk result (λ p. p ≡ parts_of text.now) }
{
    match Path::read(alloc, text)? {
        Some(path) => Ok(path),
        None => unreachable!(),
    }
}
