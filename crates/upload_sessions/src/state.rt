//! Where an upload ends.
ghost use Rattle.std.specs.Prelude.{IfOk};
ghost use Rattle.reg_names.specs.Cause.{OnlyReads};
ghost use Rattle.upload_sessions.specs.Meeting.{IsStateReply};
ghost use Rattle.upload_sessions.specs.Troubles.{HasTrouble, HasFailed};

use crate::meeting::meet;
use crate::trouble::{depot_trouble, no_memory, refusal};
use depot_api::Depot;
use reg_claims::Claims;
use reg_entries::{Reply, Trouble};
use reg_names::{Name, UploadId};
use std::alloc::Global;

/// Where an upload ends, in bytes, or a refusal: it does not stand, or another request has it (OCI Distribution
/// Specification 1.1, "Pushing a blob in chunks"). `None` stands for a text that is no id.
///
/// Errors, here and in the other calls: `Trouble::Depot` where the depot's count of faults rose, and
/// `Trouble::NoMemory`.
pub fn upload_state<D: Depot>(
    alloc: Global,
    depot: &mut D,
    claims: &Claims,
    name: &Name,
    id: &Option<UploadId>,
) -> Result<Reply, Trouble>
    ensures answer { IfOk result (IsStateReply (D.held depot.old) claims.now name.now id.now) }
    ensures trouble { HasTrouble result }
    ensures reads { OnlyReads D.held D.faults depot.old depot.new (HasFailed result) }
{
    match meet(alloc, depot, claims, name, id).map_err(depot_trouble)? {
        Ok((id, offset)) => {
            let name = name.copy(alloc).map_err(no_memory)?;
            Ok(Reply::Offset { name, id, offset })
        }
        Err(number) => Ok(refusal(number)),
    }
}
