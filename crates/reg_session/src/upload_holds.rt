//! One hold each: for the session of an upload, which is taken, and spent by one of the other holds.
ghost use Rattle.std.specs.Prelude.{◌≡◌, IfOk};
ghost use Rattle.files_service.specs.Finishing.{IsBack, ending_of};
ghost use Rattle.reg_world.specs.Moves.{came_to, closes, ended, finishes, releases, seen_of_end, seen_of_take, shelves, takes};
ghost use Rattle.upload_sessions.specs.Taking.{IsFresh};
ghost use Rattle.reg_session.specs.Holds.{Held};

use crate::holder::Holder;
use depot_api::Depot;
use reg_claims::Held as Claim;
use reg_entries::Trouble;
use reg_names::{Name, UploadId};
use std::alloc::Global;
use upload_sessions::{Finish, Sealed, Taken};

/// Takes the session of an upload, from a start, if that is told. Else a refusal.
pub(crate) fn take_upload<D: Depot, K, P, H: Holder<D, K, P>>(
    alloc: Global,
    holder: &mut H,
    pass: &P,
    name: &Name,
    id: &Option<UploadId>,
    start: Option<u64>,
) -> Result<Taken<D::S>, Trouble>
    requires { H.may_enter holder.old }
    ensures outside { H.may_enter holder.new }
    ensures same { (origin : H) → H.is_of origin holder.old → H.is_of origin holder.new }
    ensures held { Held H.between (H.at holder.old)
        (takes (H.number holder.old) name.now id.now start) (seen_of_take D.S.held result)
        (H.at holder.new) }
    ensures fresh { IfOk result (IsFresh D.S.faults) }
{
    let who = holder.who();
    holder.enter(pass);
    let found = holder.world().take_upload(alloc, who, name, id, start);
    holder.leave();
    found
}

/// Gives a session back, with its bytes.
pub(crate) fn shelve<D: Depot, K, P, H: Holder<D, K, P>>(
    holder: &mut H,
    pass: &P,
    claim: Claim,
    stage: D::S,
)
    requires { H.may_enter holder.old }
    ensures outside { H.may_enter holder.new }
    ensures same { (origin : H) → H.is_of origin holder.old → H.is_of origin holder.new }
    ensures held { Held H.between (H.at holder.old)
        (shelves claim (D.S.held stage) (D.S.faults stage)) ended (H.at holder.new) }
{
    holder.enter(pass);
    holder.world().shelve(claim, stage);
    holder.leave();
}

/// Finishes an upload: its sealed bytes become a blob, which its repository links.
pub(crate) fn finish<D: Depot, K, P, H: Holder<D, K, P>>(
    alloc: Global,
    holder: &mut H,
    pass: &P,
    claim: Claim,
    sealed: Sealed<D::S>,
) -> Finish<D::S>
    requires { H.may_enter holder.old }
    ensures outside { H.may_enter holder.new }
    ensures same { (origin : H) → H.is_of origin holder.old → H.is_of origin holder.new }
    ensures held { Held H.between (H.at holder.old)
        (finishes claim (D.S.held sealed.stage) sealed.digest) (came_to (ending_of result))
        (H.at holder.new) }
    ensures back { IsBack claim sealed result }
{
    holder.enter(pass);
    let found = holder.world().finish(alloc, claim, sealed);
    holder.leave();
    found
}

/// Ends the claim of a session.
pub(crate) fn release<D: Depot, K, P, H: Holder<D, K, P>>(holder: &mut H, pass: &P, claim: Claim)
    requires { H.may_enter holder.old }
    ensures outside { H.may_enter holder.new }
    ensures same { (origin : H) → H.is_of origin holder.old → H.is_of origin holder.new }
    ensures held { Held H.between (H.at holder.old)
        (releases claim) ended (H.at holder.new) }
{
    holder.enter(pass);
    holder.world().release(claim);
    holder.leave();
}

/// Ends a session whose bytes have become a blob.
pub(crate) fn close_session<D: Depot, K, P, H: Holder<D, K, P>>(
    alloc: Global,
    holder: &mut H,
    pass: &P,
    claim: Claim,
) -> Result<(), Trouble>
    requires { H.may_enter holder.old }
    ensures outside { H.may_enter holder.new }
    ensures same { (origin : H) → H.is_of origin holder.old → H.is_of origin holder.new }
    ensures held { Held H.between (H.at holder.old)
        (closes claim) (seen_of_end result) (H.at holder.new) }
{
    holder.enter(pass);
    let found = holder.world().close_session(alloc, claim);
    holder.leave();
    found
}
