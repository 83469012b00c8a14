//! One hold each: for asks that are answered by one.
ghost use Rattle.std.specs.Prelude.{◌≡◌, IfOk, option_copied};
ghost use Rattle.reg_entries.specs.declared.ask.Ask.TheVariants as asks;
ghost use Rattle.reg_model.specs.Blobs.{IsPaired};
ghost use Rattle.files_service.specs.Answers.{IsFresh};
ghost use Rattle.reg_world.specs.Moves.{answers, cancels, drops, locates, pushes, seen_of, starts, unlinks};
ghost use Rattle.reg_session.specs.Holds.{Held, HeldBlob};

use crate::holder::Holder;
use depot_api::Depot;
use manifest_doc::Pushed;
use reg_entries::{Reply, Trouble};
use reg_names::{Digest, Name, Reference, Text, UploadId};
use std::alloc::Global;

/// The manifest that a repository has under a reference, or a refusal.
pub(crate) fn pull_manifest<D: Depot, K, P, H: Holder<D, K, P>>(
    alloc: Global,
    holder: &mut H,
    pass: &P,
    name: &Name,
    at: &Option<Reference>,
) -> Result<Reply, Trouble>
    requires { H.may_enter holder.old }
    ensures outside { H.may_enter holder.new }
    ensures same { (origin : H) → H.is_of origin holder.old → H.is_of origin holder.new }
    ensures held { Held H.between (H.at holder.old) (answers (asks.GetManifest name.now at.now))
        (seen_of result) (H.at holder.new) }
{
    holder.enter(pass);
    let found = holder.world().pull_manifest(alloc, name, at);
    holder.leave();
    found
}

/// A blob that a repository links, with the reply that tells its size, or a refusal.
pub(crate) fn pull_blob<D: Depot, K, P, H: Holder<D, K, P>>(
    alloc: Global,
    holder: &mut H,
    pass: &P,
    name: &Name,
    digest: &Digest,
) -> Result<(Reply, Option<D::B>), Trouble>
    requires { H.may_enter holder.old }
    ensures outside { H.may_enter holder.new }
    ensures same { (origin : H) → H.is_of origin holder.old → H.is_of origin holder.new }
    ensures held { HeldBlob D.B.rest H.between (H.at holder.old)
        (answers (asks.GetBlob name.now digest.now)) result (H.at holder.new) }
    ensures paired { IfOk result IsPaired }
    ensures fresh { IsFresh D.B.faults result }
{
    holder.enter(pass);
    let found = holder.world().pull_blob(alloc, name, digest);
    holder.leave();
    found
}

/// The tags of a repository, or a refusal.
pub(crate) fn list_tags<D: Depot, K, P, H: Holder<D, K, P>>(
    alloc: Global,
    holder: &mut H,
    pass: &P,
    name: &Name,
    n: Option<u64>,
    last: Option<&Text>,
) -> Result<Reply, Trouble>
    requires { H.may_enter holder.old }
    ensures outside { H.may_enter holder.new }
    ensures same { (origin : H) → H.is_of origin holder.old → H.is_of origin holder.new }
    ensures held { Held H.between (H.at holder.old)
        (answers (asks.Tags name.now n (option_copied last.entry))) (seen_of result)
        (H.at holder.new) }
{
    holder.enter(pass);
    let found = holder.world().list_tags(alloc, name, n, last);
    holder.leave();
    found
}

/// Starts an upload with this id, at this moment, or links a blob of another repository.
pub(crate) fn start_upload<D: Depot, K, P, H: Holder<D, K, P>>(
    alloc: Global,
    holder: &mut H,
    pass: &P,
    name: &Name,
    mount: &Option<(Digest, Name)>,
    id: &UploadId,
    now: u64,
) -> Result<Reply, Trouble>
    requires { H.may_enter holder.old }
    ensures outside { H.may_enter holder.new }
    ensures same { (origin : H) → H.is_of origin holder.old → H.is_of origin holder.new }
    ensures held { Held H.between (H.at holder.old)
        (starts name.now mount.now id.now now) (seen_of result) (H.at holder.new) }
{
    holder.enter(pass);
    let found = holder.world().start_upload(alloc, name, mount, id, now);
    holder.leave();
    found
}

/// Keeps a manifest under a reference, or refuses it.
pub(crate) fn put_manifest<D: Depot, K, P, H: Holder<D, K, P>>(
    alloc: Global,
    holder: &mut H,
    pass: &P,
    name: &Name,
    at: &Option<Reference>,
    pushed: &Pushed,
) -> Result<Reply, Trouble>
    requires { H.may_enter holder.old }
    ensures outside { H.may_enter holder.new }
    ensures same { (origin : H) → H.is_of origin holder.old → H.is_of origin holder.new }
    ensures held { Held H.between (H.at holder.old)
        (pushes name.now at.now pushed.now) (seen_of result) (H.at holder.new) }
{
    holder.enter(pass);
    let found = holder.world().put_manifest(alloc, name, at, pushed);
    holder.leave();
    found
}

/// Removes what a reference stands for, or refuses it.
pub(crate) fn drop_reference<D: Depot, K, P, H: Holder<D, K, P>>(
    alloc: Global,
    holder: &mut H,
    pass: &P,
    name: &Name,
    at: &Option<Reference>,
) -> Result<Reply, Trouble>
    requires { H.may_enter holder.old }
    ensures outside { H.may_enter holder.new }
    ensures same { (origin : H) → H.is_of origin holder.old → H.is_of origin holder.new }
    ensures held { Held H.between (H.at holder.old)
        (drops name.now at.now) (seen_of result) (H.at holder.new) }
{
    holder.enter(pass);
    let found = holder.world().drop_reference(alloc, name, at);
    holder.leave();
    found
}

/// Removes the link of a repository to a blob, or refuses it.
pub(crate) fn drop_blob<D: Depot, K, P, H: Holder<D, K, P>>(
    alloc: Global,
    holder: &mut H,
    pass: &P,
    name: &Name,
    digest: &Digest,
) -> Result<Reply, Trouble>
    requires { H.may_enter holder.old }
    ensures outside { H.may_enter holder.new }
    ensures same { (origin : H) → H.is_of origin holder.old → H.is_of origin holder.new }
    ensures held { Held H.between (H.at holder.old)
        (unlinks name.now digest.now) (seen_of result) (H.at holder.new) }
{
    holder.enter(pass);
    let found = holder.world().drop_blob(alloc, name, digest);
    holder.leave();
    found
}

/// Where an upload ends, or a refusal.
pub(crate) fn upload_state<D: Depot, K, P, H: Holder<D, K, P>>(
    alloc: Global,
    holder: &mut H,
    pass: &P,
    name: &Name,
    id: &Option<UploadId>,
) -> Result<Reply, Trouble>
    requires { H.may_enter holder.old }
    ensures outside { H.may_enter holder.new }
    ensures same { (origin : H) → H.is_of origin holder.old → H.is_of origin holder.new }
    ensures held { Held H.between (H.at holder.old)
        (locates name.now id.now) (seen_of result) (H.at holder.new) }
{
    holder.enter(pass);
    let found = holder.world().upload_state(alloc, name, id);
    holder.leave();
    found
}

/// Gives an upload up, or refuses it.
pub(crate) fn cancel_upload<D: Depot, K, P, H: Holder<D, K, P>>(
    alloc: Global,
    holder: &mut H,
    pass: &P,
    name: &Name,
    id: &Option<UploadId>,
) -> Result<Reply, Trouble>
    requires { H.may_enter holder.old }
    ensures outside { H.may_enter holder.new }
    ensures same { (origin : H) → H.is_of origin holder.old → H.is_of origin holder.new }
    ensures held { Held H.between (H.at holder.old)
        (cancels name.now id.now) (seen_of result) (H.at holder.new) }
{
    holder.enter(pass);
    let found = holder.world().cancel_upload(alloc, name, id);
    holder.leave();
    found
}
