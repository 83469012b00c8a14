//! The place of a path.
ghost use Rattle.std.specs.Prelude.{◌≡◌, ◌≢◌, ◌↔◌, ℕ, ◌≤◌, false, ◌∷◌, List, length, take, MatchOption, IfOk, IsTrue, codes};
ghost use Rattle.std.specs.List.{list_all, list_any};
ghost use Rattle.reg_names.specs.Names.{IsName};
ghost use Rattle.reg_names.specs.Tags.{IsTag};
ghost use Rattle.reg_names.specs.Digests.{IsDigest};
ghost use Rattle.depot_api.specs.Paths.{is_part, parts_of};
ghost use Rattle.link_paths.specs.Places.{digits, place_path, IsPlace};
ghost use Rattle.link_paths.specs.Folders.{digest_link, blob_file, inside, place_parts};
ghost use Rattle.link_paths.specs.InnerParts.{root, in_repositories, Follows, is_hidden, AreOpen, IsNameCut, ReadsInside};
ghost use Rattle.reg_names.specs.Reading.{ReadsBack};

use crate::Place;
use depot_api::{Part, Path};
use reg_names::{Digest, Name, NoMemory, Tag, UploadId};
use std::alloc::Global;

// Whether a part is this text.
pub(crate) fn is(part: &Part, text: &str) -> bool
    ensures { IsTrue result ↔ (part.now ≡ text.now) }
{
    part.as_str() == text
}

// The digest with these digits.
fn read_digits(alloc: Global, part: &Part) -> Result<Option<Digest>, NoMemory>
    ensures { IfOk result (ReadsBack IsDigest digits part.now) }
{
    let digits = part.as_str();
    Ok(Digest::read(&format!(in alloc; "sha256:{digits}")?))
}

// The digest of a link that is named by it.
pub(crate) fn read_digest_link(alloc: Global, parts: &[Part]) -> Result<Option<Digest>, NoMemory>
    ensures { IfOk result (ReadsBack IsDigest digest_link parts.now) }
{
    match parts {
        [folder, digits, file] if is(folder, "sha256") && is(file, "link") => {
            read_digits(alloc, digits)
        }
        _ => Ok(None),
    }
}

// The digest of a blob's file.
fn read_blob(alloc: Global, parts: &[Part]) -> Result<Option<Digest>, NoMemory>
    ensures { IfOk result (ReadsBack IsDigest blob_file parts.now) }
{
    match parts {
        [folder, first, digits, file] if is(folder, "sha256") && is(file, "data") => {
            match read_digits(alloc, digits)? {
                Some(digest) if begins(digits, first) => Ok(Some(digest)),
                _ => Ok(None),
            }
        }
        _ => Ok(None),
    }
}

// Whether these are the first two of the digits.
fn begins(digits: &Part, first: &Part) -> bool
    requires { 2 ≤ length digits.now }
    ensures { IsTrue result ↔ (take 2 digits.now ≡ first.now) }
{
    &digits.as_str().as_bytes()[..2] == first.as_str().as_bytes()
}

// The name with these components.
fn read_name(alloc: Global, components: &[Part]) -> Result<Option<Name>, NoMemory>
    requires { IsTrue (list_all is_part components.now) }
    ensures { IfOk result (ReadsBack IsName parts_of components.now) }
{
    let text = Part::join(alloc, components)?;
    Name::read(alloc, text.as_str())
}

// Whether a part begins with an underscore.
fn is_hidden(part: &Part) -> bool
    ensures { result ≡ is_hidden part.now }
{
    part.as_str().starts_with('_')
}

// The parts before the first that begins with an underscore, and that one with what follows it.
fn cut_at_hidden(parts: &[Part]) -> Option<(&[Part], &[Part])>
    ensures { MatchOption result (AreOpen parts.now) (λ c. IsNameCut parts.now c.0.now c.1.now) }
{
    let end = parts.iter().position(is_hidden)?;
    Some(parts.split_at(end))
}

// What lies in a repository.
fn read_inside(alloc: Global, name: Name, parts: &[Part]) -> Result<Option<Place>, NoMemory>
    requires { IsName name }
    ensures { ReadsInside name parts.now result }
{
    let Some((folder, parts)) = parts.split_first() else {
        return Ok(None);
    };
    match folder.as_str() {
        "_manifests" => read_manifest_link(alloc, name, parts),
        "_layers" => {
            Ok(read_digest_link(alloc, parts)?.map(|digest| Place::Layer(name, digest)))
        }
        "_uploads" => read_upload_file(name, parts),
        _ => Ok(None),
    }
}

// What lies in its folder of manifests.
fn read_manifest_link(alloc: Global, name: Name, parts: &[Part]) -> Result<Option<Place>, NoMemory>
    requires { IsName name }
    ensures { ReadsInside name (codes "_manifests" ∷ parts.now) result }
{
    match parts {
        [folder, link @ ..] if is(folder, "revisions") => {
            Ok(read_digest_link(alloc, link)?.map(|digest| Place::Revision(name, digest)))
        }
        [folder, tag, parts @ ..] if is(folder, "tags") => match Tag::read(alloc, tag.as_str())? {
            Some(tag) => read_tag_link(alloc, name, tag, parts),
            None => Ok(None),
        },
        _ => Ok(None),
    }
}

// What lies in the folder of a tag.
fn read_tag_link(
    alloc: Global,
    name: Name,
    tag: Tag,
    parts: &[Part],
) -> Result<Option<Place>, NoMemory>
    requires name { IsName name }
    requires tag { IsTag tag }
    ensures { ReadsInside name (codes "_manifests" ∷ codes "tags" ∷ tag ∷ parts.now) result }
{
    match parts {
        [folder, file] if is(folder, "current") && is(file, "link") => {
            Ok(Some(Place::TagCurrent(name, tag)))
        }
        [folder, link @ ..] if is(folder, "index") => {
            Ok(read_digest_link(alloc, link)?.map(|digest| Place::TagIndex(name, tag, digest)))
        }
        _ => Ok(None),
    }
}

// What lies in its folder of uploads.
fn read_upload_file(name: Name, parts: &[Part]) -> Result<Option<Place>, NoMemory>
    requires { IsName name }
    ensures { ReadsInside name (codes "_uploads" ∷ parts.now) result }
{
    let [id, file] = parts else {
        return Ok(None);
    };
    let Some(id) = UploadId::read(id.as_str())? else {
        return Ok(None);
    };
    match file.as_str() {
        "data" => Ok(Some(Place::UploadData(name, id))),
        "startedat" => Ok(Some(Place::UploadStarted(name, id))),
        _ => Ok(None),
    }
}

// What lies in one of the repositories.
fn read_in_repositories(alloc: Global, parts: &[Part]) -> Result<Option<Place>, NoMemory>
    requires { IsTrue (list_all is_part parts.now) }
    ensures { IfOk result (ReadsBack IsPlace place_parts (in_repositories parts.now)) }
{
    let Some((name, parts)) = cut_at_hidden(parts) else {
        return Ok(None);
    };
    match read_name(alloc, name)? {
        Some(name) => read_inside(alloc, name, parts),
        None => Ok(None),
    }
}

// The place whose path has these parts.
fn read_parts(alloc: Global, parts: &[Part]) -> Result<Option<Place>, NoMemory>
    requires { IsTrue (list_all is_part parts.now) }
    ensures { IfOk result (ReadsBack IsPlace place_parts parts.now) }
{
    let Some([folder, parts @ ..]) = below_root(parts) else {
        return Ok(None);
    };
    match folder.as_str() {
        "blobs" => Ok(read_blob(alloc, parts)?.map(Place::BlobData)),
        "repositories" => read_in_repositories(alloc, parts),
        _ => Ok(None),
    }
}

// What follows the folder of all that a registry keeps.
fn below_root(parts: &[Part]) -> Option<&[Part]>
    ensures { Follows result (λ rest. rest.now) root parts.now }
{
    match parts {
        [first, second, third, rest @ ..]
            if is(first, "docker") && is(second, "registry") && is(third, "v2") => { Some(rest) }
        _ => None,
    }
}

/// The place that lies at a path, and `None` exactly where none does:
/// `docker/registry/v2/repositories/a/b/_manifests/tags/v1/current/link` is `Place::TagCurrent` of
/// `a/b` and `v1`, and `docker/registry/v2/repositories/a/b/_manifests/tags/v1/current` is no place.
/// It fails only for want of memory.
pub fn read_path(alloc: Global, path: &Path) -> Result<Option<Place>, NoMemory>
    ensures { IfOk result (ReadsBack IsPlace place_path path.now) }
{
    read_parts(alloc, path.parts())
}
