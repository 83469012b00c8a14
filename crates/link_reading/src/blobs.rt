//! The blobs that a repository links.
ghost use Rattle.std.specs.Prelude.{◌≡◌};
ghost use Rattle.reg_names.specs.Cause.{OnlyReads};
ghost use Rattle.reg_names.specs.Refusals.{HasFailed};
ghost use Rattle.depot_api.specs.Holdings.{Finds};
ghost use Rattle.link_reading.specs.Meaning.{Means};

use crate::links::is_linked;
use depot_api::Depot;
use link_paths::{data_path, layer_path};
use reg_names::{Digest, Name, Refused};
use std::alloc::Global;

/// The size in bytes of a blob that a repository links, and `None` exactly where the files do not mean that link.
/// `Refused::Failed` is a fault of the depot, `Refused::NoMemory` want of memory.
pub fn has_layer<D: Depot>(
    alloc: Global,
    depot: &mut D,
    name: &Name,
    digest: &Digest,
) -> Result<Option<u64>, Refused>
    ensures value { Finds (D.held depot.old) result (λ files size.
        size ≡ (Means files).links name.now digest.now) }
    ensures reads { OnlyReads D.held D.faults depot.old depot.new (HasFailed result) }
{
    let at = layer_path(alloc, name, digest)?;
    if !is_linked(alloc, depot, &at, digest)? {
        return Ok(None);
    }
    let data = data_path(alloc, digest)?;
    depot.size(alloc, &data)
}
