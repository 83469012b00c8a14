//! Refusals for what a repository lacks.
ghost use Rattle.std.specs.Prelude.{◌≡◌, IfOk};
ghost use Rattle.reg_names.specs.Cause.{OnlyReads};
ghost use Rattle.reg_names.specs.Refusals.{HasFailed};
ghost use Rattle.depot_api.specs.Holdings.{Finds};
ghost use Rattle.link_reading.specs.Meaning.{Means};
ghost use Rattle.reg_model.specs.Answers.{LacksIn};
ghost use Rattle.reg_model.specs.Fits.{IsLacking};

use crate::refusal::refusal;
use depot_api::Depot;
use link_reading::known;
use reg_entries::Reply;
use reg_entries::numbers::NAME_UNKNOWN;
use reg_names::{Name, Refused};
use std::alloc::Global;

/// The refusal for what a repository lacks: by this number, or by that of an unknown repository.
pub fn lacks<D: Depot>(
    alloc: Global,
    depot: &mut D,
    name: &Name,
    number: u8,
) -> Result<Reply, Refused>
    ensures value { Finds (D.held depot.old) result (λ files.
        LacksIn (Means files) name.now number) }
    ensures fits { IfOk result (IsLacking number) }
    ensures reads { OnlyReads D.held D.faults depot.old depot.new (HasFailed result) }
{
    if known(alloc, depot, name)? {
        Ok(refusal(number))
    } else {
        Ok(refusal(NAME_UNKNOWN))
    }
}
