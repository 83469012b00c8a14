//! Tags.
ghost use Rattle.std.specs.Prelude.{◌≡◌, IfOk, IsErrOf, option_copied};
ghost use Rattle.reg_names.specs.declared.refused.Refused.TheVariants as refusals;
ghost use Rattle.reg_names.specs.Cause.{OnlyReads};
ghost use Rattle.reg_entries.specs.declared.ask.Ask.TheVariants as asks;
ghost use Rattle.files_service.specs.Answers.{IfReplied, HasTrouble, HasFailed};

use crate::refusal::refusal;
use crate::trouble::trouble;
use depot_api::Depot;
use link_reading::{known, tags};
use reg_entries::numbers::NAME_UNKNOWN;
use reg_entries::{Reply, Trouble};
use reg_names::{Name, Refused, Text};
use std::alloc::Global;

/// The tags of a repository in byte order that are greater than `last`, and at most `n` of them, or a refusal where it
/// is unknown (OCI Distribution Specification 1.1, "Listing Tags").
pub fn list_tags<D: Depot>(
    alloc: Global,
    depot: &mut D,
    name: &Name,
    n: Option<u64>,
    last: Option<&Text>,
) -> Result<Reply, Trouble>
    ensures answer { IfReplied (D.held depot.old)
        (asks.Tags name.now n (option_copied last.entry)) result }
    ensures trouble { HasTrouble result }
    ensures reads { OnlyReads D.held D.faults depot.old depot.new (HasFailed result) }
{
    if !known(alloc, depot, name).map_err(trouble)? {
        return Ok(refusal(NAME_UNKNOWN));
    }
    let (tags, more) = tags(alloc, depot, name, n, last).map_err(trouble)?;
    let name = copied(alloc, name).map_err(trouble)?;
    Ok(Reply::Tags { name, tags, more })
}

// An equal name.
fn copied(alloc: Global, name: &Name) -> Result<Name, Refused>
    ensures value { IfOk result (λ copy. copy ≡ name.now) }
    ensures memory { ¬ IsErrOf result refusals.Failed }
{
    Ok(name.copy(alloc)?)
}
