//! What a link is to, read by what follows the folder that it lies below.
ghost use Rattle.std.specs.Prelude.{IfOk};
ghost use Rattle.reg_names.specs.Tags.{IsTag};
ghost use Rattle.reg_names.specs.Digests.{IsDigest};
ghost use Rattle.link_paths.specs.Places.{layer_path, revision_path, tag_path};
ghost use Rattle.link_paths.specs.Folders.{current_link, tags_folder, revisions_folder, layers_folder, ReadsBelow};
ghost use Rattle.link_paths.specs.InnerParts.{Follows};
ghost use Rattle.reg_names.specs.Reading.{ReadsBack};

use crate::reading::{is, read_digest_link};
use depot_api::{Part, Path};
use reg_names::{Digest, NoMemory, Tag};
use std::alloc::Global;

/// The tag whose link lies at a path, given the folder of a repository's tags, and `None` exactly
/// where none of its links does: `v1` below `docker/registry/v2/repositories/a/b/_manifests/tags` at
/// `docker/registry/v2/repositories/a/b/_manifests/tags/v1/current/link`.
pub fn tag_below(alloc: Global, folder: &Path, path: &Path) -> Result<Option<Tag>, NoMemory>
    ensures { IfOk result (ReadsBelow tags_folder IsTag tag_path folder.now path.now) }
{
    match after_folder(folder, path) {
        Some(parts) => read_current_link(alloc, parts),
        None => Ok(None),
    }
}

/// The digest of the manifest whose link lies at a path, given the folder of a repository's links to
/// manifests, and `None` exactly where none of them does:
/// `docker/registry/v2/repositories/a/b/_manifests/revisions/sha256/2cf2..9824/link`.
pub fn revision_below(alloc: Global, folder: &Path, path: &Path) -> Result<Option<Digest>, NoMemory>
    ensures { IfOk result (ReadsBelow revisions_folder IsDigest revision_path folder.now path.now) }
{
    match after_folder(folder, path) {
        Some(parts) => read_digest_link(alloc, parts),
        None => Ok(None),
    }
}

/// The digest of the blob whose link lies at a path, given the folder of a repository's links to
/// blobs, and `None` exactly where none of them does:
/// `docker/registry/v2/repositories/a/b/_layers/sha256/2cf2..9824/link`.
pub fn layer_below(alloc: Global, folder: &Path, path: &Path) -> Result<Option<Digest>, NoMemory>
    ensures { IfOk result (ReadsBelow layers_folder IsDigest layer_path folder.now path.now) }
{
    match after_folder(folder, path) {
        Some(parts) => read_digest_link(alloc, parts),
        None => Ok(None),
    }
}

// What follows a folder.
fn after_folder<'a>(folder: &Path, path: &'a Path) -> Option<&'a [Part]>
    ensures { Follows result (λ rest. rest.now) folder.now path.now }
{
    path.parts().strip_prefix(folder.parts())
}

// The tag of its link.
fn read_current_link(alloc: Global, parts: &[Part]) -> Result<Option<Tag>, NoMemory>
    ensures { IfOk result (ReadsBack IsTag current_link parts.now) }
{
    match parts {
        [tag, folder, file] if is(folder, "current") && is(file, "link") => {
            Tag::read(alloc, tag.as_str())
        }
        _ => Ok(None),
    }
}
