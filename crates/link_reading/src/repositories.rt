//! Whether a repository is known.
ghost use Rattle.std.specs.Prelude.{◌≡◌};
ghost use Rattle.reg_names.specs.Cause.{OnlyReads};
ghost use Rattle.reg_names.specs.Refusals.{HasFailed};
ghost use Rattle.depot_api.specs.Holdings.{Finds};
ghost use Rattle.link_reading.specs.Meaning.{Means};
ghost use Rattle.link_reading.specs.Answers.{Knows};

use crate::links_below::{Wanted, first_linked};
use depot_api::Depot;
use reg_names::{Name, Refused};
use std::alloc::Global;

/// Whether a repository has a manifest or a link to a blob. It walks through its links, up to the first that is one.
/// `Refused::Failed` is a fault of the depot, `Refused::NoMemory` want of memory.
pub fn known<D: Depot>(alloc: Global, depot: &mut D, name: &Name) -> Result<bool, Refused>
    ensures value { Finds (D.held depot.old) result (λ files. Knows (Means files) name.now) }
    ensures reads { OnlyReads D.held D.faults depot.old depot.new (HasFailed result) }
{
    if first_linked(alloc, depot, name, Wanted::Layer)?.is_some() {
        return Ok(true);
    }
    Ok(first_linked(alloc, depot, name, Wanted::Manifest)?.is_some())
}
