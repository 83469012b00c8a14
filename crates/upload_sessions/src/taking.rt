//! Sessions that are taken and given back.
ghost use Rattle.std.specs.Prelude.{◌≡◌, ◌<◌, false, IfOk, IfErr};
ghost use Rattle.reg_claims.specs.Claims.{claim_of, without};
ghost use Rattle.depot_api.specs.Changes.{Changes, Shelves};
ghost use Rattle.reg_model.specs.Uploads.{is_busy, met_from};
ghost use Rattle.upload_sessions.specs.Troubles.{HasFailed};
ghost use Rattle.upload_sessions.specs.Taking.{Takes, ClaimsSession, FindsFree, LendsSession, IsFresh, HasTakeTrouble};
ghost use Rattle.upload_sessions.specs.InnerTaking.{IsOutOf, unless_refused};
ghost use Rattle.reg_entries.specs.declared.trouble.Trouble.TheVariants as troubles;

use crate::meeting::meet;
use crate::trouble::{depot_trouble, no_memory, refusal};
use depot_api::{Depot, Stage};
use link_paths::upload_data_path;
use reg_claims::{Claims, Held, NotClaimed};
use reg_entries::{Reply, Trouble};
use reg_names::{Name, UploadId};
use std::alloc::Global;

/// What a request that adds to an upload is given.
pub enum Taken<S> {
    /// The session, which is claimed, and its bytes, of which there are `offset`.
    Out { held: Held, stage: S, offset: u64 },
    /// Why it is given nothing.
    Refused(Reply),
}

/// Takes a session for the pass or holder of that number: it is claimed, and its bytes are lent, until both are given
/// back. Else a refusal: the upload does not stand, another request has it, or `start` is told and is not where it ends
/// (OCI Distribution Specification 1.1, "Pushing a blob in chunks").
///
/// Errors: also `Trouble::Full`, exactly where the session is free and the number of the next claim would pass its limit.
/// The claims are as before, but for that number.
pub fn take_upload<D: Depot>(
    alloc: Global,
    depot: &mut D,
    claims: &mut Claims,
    who: u32,
    name: &Name,
    id: &Option<UploadId>,
    start: Option<u64>,
) -> Result<Taken<D::S>, Trouble>
    ensures answer { IfOk result
        (Takes D.S.held (D.held depot.old) claims.old name.now id.now start) }
    ensures free { FindsFree (D.held depot.old) claims.old name.now id.now start result }
    ensures fresh { IfOk result (IsFresh D.S.faults) }
    ensures claims { ClaimsSession who claims.old result claims.new }
    ensures depot { Changes D.held D.faults depot.old depot.new (LendsSession result)
        (HasFailed result) }
    ensures trouble { HasTakeTrouble result }
{
    match meet(alloc, depot, claims, name, id).map_err(depot_trouble)? {
        Ok((id, end)) => {
            if let Some(reply) = wrong_start(alloc, name, &id, end, start)? {
                return Ok(Taken::Refused(reply));
            }
            take_out(alloc, depot, claims, who, name, &id)
        }
        Err(number) => Ok(Taken::Refused(refusal(number))),
    }
}

// The refusal of a start that is not where the upload ends.
fn wrong_start(
    alloc: Global,
    name: &Name,
    id: &UploadId,
    end: u64,
    start: Option<u64>,
) -> Result<Option<Reply>, Trouble>
    ensures met { IfOk result (λ wrong.
        met_from name.now start (Ok (id.now, end)) ≡ unless_refused (id.now, end) wrong) }
    ensures memory { IfErr result (λ trouble. trouble ≡ troubles.NoMemory) }
{
    if start.is_none_or(|start| start == end) {
        return Ok(None);
    }
    let name = name.copy(alloc).map_err(no_memory)?;
    Ok(Some(Reply::WrongStart {
        name,
        id: *id,
        offset: end,
    }))
}

// Claims a session that nobody has, and lends its bytes.
fn take_out<D: Depot>(
    alloc: Global,
    depot: &mut D,
    claims: &mut Claims,
    who: u32,
    name: &Name,
    id: &UploadId,
) -> Result<Taken<D::S>, Trouble>
    requires { is_busy (D.held depot.old) claims.old name.now id.now ≡ false }
    ensures out { IfOk result
        (IsOutOf D.S.held (D.held depot.old) claims.old name.now id.now) }
    ensures fresh { IfOk result (IsFresh D.S.faults) }
    ensures claims { ClaimsSession who claims.old result claims.new }
    ensures depot { Changes D.held D.faults depot.old depot.new (LendsSession result)
        (HasFailed result) }
    ensures trouble { HasTakeTrouble result }
{
    let data = upload_data_path(alloc, name, id).map_err(no_memory)?;
    let held = match claims.hold(alloc, who, name, id) {
        Ok(held) => held,
        Err(NotClaimed::Full) => return Err(Trouble::Full),
        Err(NotClaimed::NoMemory) => return Err(Trouble::NoMemory),
        Err(NotClaimed::Taken) => unreachable!(),
    };
    match depot.stage(alloc, &data) {
        Ok(Some(stage)) => {
            let offset = stage.length();
            Ok(Taken::Out {
                held,
                stage,
                offset,
            })
        }
        Ok(None) => unreachable!(),
        Err(refused) => {
            claims.end_hold(held);
            Err(depot_trouble(refused))
        }
    }
}

/// Gives a session back: its claim is ended, and its bytes lie at their path again. Takes no memory, and cannot fail;
/// the faults that the stage has had count as one fault of the depot.
pub fn shelve<D: Depot>(depot: &mut D, claims: &mut Claims, held: Held, stage: D::S)
    ensures claims { claims.new ≡ without (claim_of held) claims.old }
    ensures depot { Changes D.held D.faults depot.old depot.new (Shelves (D.S.held stage))
        (0 < D.S.faults stage) }
{
    claims.end_hold(held);
    depot.shelve(stage);
}
