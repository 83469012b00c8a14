//! What a request meets of an upload.
ghost use Rattle.std.specs.Prelude.{◌≡◌, IfOk};
ghost use Rattle.std.specs.Option.{option_map_or};
ghost use Rattle.reg_names.specs.Cause.{OnlyReads};
ghost use Rattle.reg_names.specs.Refusals.{HasFailed};
ghost use Rattle.depot_api.specs.Holdings.{Finds};
ghost use Rattle.link_paths.specs.Places.{upload_data_path};
ghost use Rattle.reg_model.specs.Uploads.{upload_at, is_busy};
ghost use Rattle.upload_sessions.specs.Meeting.{Meets, data_end};

use depot_api::Depot;
use link_paths::{upload_data_path, upload_started_path};
use reg_claims::Claims;
use reg_entries::numbers::{UPLOAD_IN_USE, UPLOAD_UNKNOWN};
use reg_names::{Name, NoMemory, Refused, UploadId};
use std::alloc::Global;

/// What a request meets of an upload: its id and where it ends, or the number of the refusal. An id that is none names
/// no upload.
pub(crate) fn meet<D: Depot>(
    alloc: Global,
    depot: &mut D,
    claims: &Claims,
    name: &Name,
    id: &Option<UploadId>,
) -> Result<Result<(UploadId, u64), u8>, Refused>
    ensures meets { IfOk result (Meets (D.held depot.old) claims.now name.now id.now) }
    ensures reads { OnlyReads D.held D.faults depot.old depot.new (HasFailed result) }
{
    let Some(id) = id else {
        return Ok(Err(UPLOAD_UNKNOWN));
    };
    let Some(end) = end_of(alloc, depot, name, id)? else {
        return Ok(Err(UPLOAD_UNKNOWN));
    };
    if is_busy(alloc, depot, claims, name, id)? {
        return Ok(Err(UPLOAD_IN_USE));
    }
    Ok(Ok((*id, end)))
}

// Where an upload ends, and `None` where it does not stand.
fn end_of<D: Depot>(
    alloc: Global,
    depot: &mut D,
    name: &Name,
    id: &UploadId,
) -> Result<Option<u64>, Refused>
    ensures value { Finds (D.held depot.old) result
        (λ files end. end ≡ upload_at files name.now id.now) }
    ensures reads { OnlyReads D.held D.faults depot.old depot.new (HasFailed result) }
{
    let started = upload_started_path(alloc, name, id)?;
    if depot.size(alloc, &started)?.is_none() {
        return Ok(None);
    }
    let end = data_end(alloc, depot, name, id)?;
    Ok(Some(end))
}

// How many bytes of an upload are there.
fn data_end<D: Depot>(
    alloc: Global,
    depot: &mut D,
    name: &Name,
    id: &UploadId,
) -> Result<u64, Refused>
    ensures value { Finds (D.held depot.old) result
        (λ files end. end ≡ data_end files name.now id.now) }
    ensures reads { OnlyReads D.held D.faults depot.old depot.new (HasFailed result) }
{
    let data = upload_data_path(alloc, name, id)?;
    Ok(depot.size(alloc, &data)?.unwrap_or(0))
}

// Whether another request has an upload.
fn is_busy<D: Depot>(
    alloc: Global,
    depot: &D,
    claims: &Claims,
    name: &Name,
    id: &UploadId,
) -> Result<bool, NoMemory>
    ensures { IfOk result (λ busy. busy ≡ is_busy (D.held depot.now) claims.now name.now id.now) }
{
    let data = upload_data_path(alloc, name, id)?;
    Ok(claims.session_held(name, id) || depot.is_lent(&data))
}
