//! Which manifests list another.
ghost use Rattle.reg_names.specs.Cause.{OnlyReads};
ghost use Rattle.reg_names.specs.Refusals.{HasFailed};
ghost use Rattle.depot_api.specs.Holdings.{Finds};
ghost use Rattle.reg_entries.specs.State.{IsLeastParent};
ghost use Rattle.link_reading.specs.Meaning.{Means};

use crate::links_below::{Wanted, first_linked};
use depot_api::Depot;
use reg_names::{Digest, Name, Refused};
use std::alloc::Global;

/// The least digest of a manifest of the repository that lists the child, and `None` exactly where none does.
/// `Refused::Failed` is a fault of the depot, `Refused::NoMemory` want of memory.
pub fn listed_by<D: Depot>(
    alloc: Global,
    depot: &mut D,
    name: &Name,
    child: &Digest,
) -> Result<Option<Digest>, Refused>
    ensures value { Finds (D.held depot.old) result (λ files.
        IsLeastParent (Means files) name.now child.now) }
    ensures reads { OnlyReads D.held D.faults depot.old depot.new (HasFailed result) }
{
    first_linked(alloc, depot, name, Wanted::ListerOf(*child))
}
