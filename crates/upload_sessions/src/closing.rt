//! Sessions that end.
ghost use Rattle.std.specs.Prelude.{◌≡◌, IfOk};
ghost use Rattle.reg_names.specs.Refusals.{HasFailed as HasRefused};
ghost use Rattle.depot_api.specs.Changes.{Changes, Removes};
ghost use Rattle.link_paths.specs.Places.{upload_data_path, upload_started_path};
ghost use Rattle.reg_claims.specs.Claims.{claim_of, without};
ghost use Rattle.upload_sessions.specs.Closing.{IsCancelReply, Cancels, RemovesStart, RemovesBoth};
ghost use Rattle.upload_sessions.specs.Troubles.{HasTrouble, HasFailed};

use crate::meeting::meet;
use crate::trouble::{depot_trouble, no_memory, refusal};
use depot_api::Depot;
use link_paths::{upload_data_path, upload_started_path};
use reg_claims::{Claims, Held};
use reg_entries::{Reply, Trouble};
use reg_names::{Name, Refused, UploadId};
use std::alloc::Global;

/// Gives an upload up: its bytes and the note of its start are removed, in this order. Else a refusal: it does not
/// stand, or another request has it.
pub fn cancel_upload<D: Depot>(
    alloc: Global,
    depot: &mut D,
    claims: &Claims,
    name: &Name,
    id: &Option<UploadId>,
) -> Result<Reply, Trouble>
    ensures answer { IfOk result (IsCancelReply (D.held depot.old) claims.now name.now id.now) }
    ensures depot { Changes D.held D.faults depot.old depot.new (Cancels name.now id.now result)
        (HasFailed result) }
    ensures trouble { HasTrouble result }
{
    match meet(alloc, depot, claims, name, id).map_err(depot_trouble)? {
        Ok((id, _)) => {
            remove_upload(alloc, depot, name, &id).map_err(depot_trouble)?;
            Ok(Reply::Cancelled)
        }
        Err(number) => Ok(refusal(number)),
    }
}

// Removes the bytes of an upload, and then the note of its start.
fn remove_upload<D: Depot>(
    alloc: Global,
    depot: &mut D,
    name: &Name,
    id: &UploadId,
) -> Result<(), Refused>
    ensures { Changes D.held D.faults depot.old depot.new (RemovesBoth name.now id.now result)
        (HasRefused result) }
{
    let data = upload_data_path(alloc, name, id)?;
    depot.remove(alloc, &data)?;
    remove_start(alloc, depot, name, id)
}

// Removes the note of an upload's start.
fn remove_start<D: Depot>(
    alloc: Global,
    depot: &mut D,
    name: &Name,
    id: &UploadId,
) -> Result<(), Refused>
    ensures { Changes D.held D.faults depot.old depot.new
        (Removes (upload_started_path name.now id.now) result) (HasRefused result) }
{
    let started = upload_started_path(alloc, name, id)?;
    depot.remove(alloc, &started)
}

/// Ends a session whose bytes have become a blob: the note of its start is removed. Its claim is ended in every case.
pub fn close_session<D: Depot>(
    alloc: Global,
    depot: &mut D,
    claims: &mut Claims,
    held: Held,
) -> Result<(), Trouble>
    ensures claims { claims.new ≡ without (claim_of held) claims.old }
    ensures depot { Changes D.held D.faults depot.old depot.new
        (RemovesStart held.name held.id result) (HasFailed result) }
    ensures trouble { HasTrouble result }
{
    let removed = remove_start(alloc, depot, held.name(), held.id());
    claims.end_hold(held);
    removed.map_err(depot_trouble)
}

/// Ends the claim of a session, and leaves its files as they are. Takes no memory.
pub fn release(claims: &mut Claims, held: Held)
    ensures { claims.new ≡ without (claim_of held) claims.old }
{
    claims.end_hold(held);
}
