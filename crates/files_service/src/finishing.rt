//! Uploads that are finished.
ghost use Rattle.std.specs.Prelude.{◌≡◌, IfOk};
ghost use Rattle.depot_api.specs.Changes.{Changes};
ghost use Rattle.link_paths.specs.Places.{data_path, layer_path};
ghost use Rattle.reg_entries.specs.declared.reply.Reply.TheVariants as replies;
ghost use Rattle.files_service.specs.Answers.{HasFailed};
ghost use Rattle.files_service.specs.Changing.{puts_link};
ghost use Rattle.files_service.specs.Finishing.{EndsUpload, HasFailedToEnd, IsBack, ending_of};
ghost use Rattle.files_service.specs.InnerFinishing.{CarriesOut, HasStopped, IfKept, LinksBlob};

use crate::change::FileChange;
use crate::refusal::refusal;
use crate::trouble::trouble;
use depot_api::{Depot, Path, Unplaced};
use link_paths::{data_path, layer_path};
use reg_claims::{Claims, Held};
use reg_entries::numbers::UPLOAD_IN_USE;
use reg_entries::{Reply, Trouble};
use reg_names::{Digest, Name, NoMemory};
use std::alloc::Global;
use upload_sessions::{Finish, Sealed, place_sealed};

/// Finishes an upload: its sealed bytes become the blob of their digest, unless that stands, and its repository links
/// it, in this order (OCI Distribution Specification 1.1, "Pushing blobs"). A session whose claim is lost is refused.
/// The upload's start is noted until its session is closed.
pub fn finish<D: Depot>(
    alloc: Global,
    depot: &mut D,
    claims: &Claims,
    held: Held,
    sealed: Sealed<D::S>,
) -> Finish<D::S>
    ensures changes { Changes D.held D.faults depot.old depot.new
        (EndsUpload claims.now held (D.S.held sealed.stage) sealed.digest (ending_of result))
        (HasFailedToEnd (ending_of result)) }
    ensures back { IsBack held sealed result }
{
    if !claims.has_hold(&held) {
        let reply = refusal(UPLOAD_IN_USE);
        return Finish::Back {
            held,
            sealed,
            reply,
        };
    }
    let plan = match Plan::of(alloc, held.name(), &sealed.digest()) {
        Ok(plan) => plan,
        Err(NoMemory) => {
            return Finish::Failed {
                held,
                sealed: Some(sealed),
                trouble: Trouble::NoMemory,
            };
        }
    };
    match plan.carry_out(alloc, depot, sealed) {
        Ok(()) => Finish::Done {
            held,
            reply: plan.into_reply(),
        },
        Err((sealed, trouble)) => Finish::Failed {
            held,
            sealed,
            trouble,
        },
    }
}

// What finishing an upload needs, before it changes anything.
#[derive(Drop)]
struct Plan {
    data: Path,
    link: FileChange,
    reply: Reply,
}

impl Plan {
    fn of(alloc: Global, name: &Name, digest: &Digest) -> Result<Plan, NoMemory>
        ensures data { IfOk result (λ plan. plan.data ≡ data_path digest.now) }
        ensures link { IfOk result (λ plan.
            plan.link ≡ puts_link (layer_path name.now digest.now) digest.now) }
        ensures reply { IfOk result (λ plan.
            plan.reply ≡ replies.Finished name.now digest.now) }
    {
        let layer = layer_path(alloc, name, digest)?;
        Ok(Plan {
            data: data_path(alloc, digest)?,
            link: FileChange::link(alloc, layer, digest)?,
            reply: Reply::Finished {
                name: name.copy(alloc)?,
                digest: *digest,
            },
        })
    }

    // Places sealed bytes, and links them. They come back where nothing was made of them.
    fn carry_out<D: Depot>(
        &self,
        alloc: Global,
        depot: &mut D,
        sealed: Sealed<D::S>,
    ) -> Result<(), (Option<Sealed<D::S>>, Trouble)>
        ensures changes { Changes D.held D.faults depot.old depot.new
            (CarriesOut self.now (D.S.held sealed.stage) result) (HasStopped result) }
        ensures back { IfKept result (λ back. back ≡ sealed) }
    {
        match place_sealed(alloc, depot, sealed, &self.data) {
            Ok(_) => match link_blob(alloc, depot, &self.link) {
                Ok(()) => Ok(()),
                Err(trouble) => Err((None, trouble)),
            },
            Err(Unplaced::Failed) => Err((None, Trouble::Depot)),
            Err(Unplaced::NoMemory(sealed)) => Err((Some(sealed), Trouble::NoMemory)),
        }
    }

    fn into_reply(self) -> Reply
        ensures { result ≡ self.reply }
    {
        self.reply
    }
}

// Links a blob that was placed.
fn link_blob<D: Depot>(alloc: Global, depot: &mut D, link: &FileChange) -> Result<(), Trouble>
    ensures { Changes D.held D.faults depot.old depot.new (LinksBlob link.now result)
        (HasFailed result) }
{
    link.make(alloc, depot).map_err(trouble)
}
