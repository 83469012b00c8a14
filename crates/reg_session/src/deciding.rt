//! Answers to asks that are answered by one hold or by none, whatever their body is.
ghost use Rattle.std.specs.Prelude.{◌≡◌, List, ℕ, IsSome, MatchResult, true};
ghost use Rattle.depot_api.specs.Ids.{Words};
ghost use Rattle.reg_model.specs.Answers.{Answer, plain};
ghost use Rattle.reg_model.specs.Blobs.{GivesBlob, IsBlob, IsPaired};
ghost use Rattle.reg_entries.specs.declared.ask.Ask.TheVariants as asks;
ghost use Rattle.reg_session.specs.Answering.{trouble_reply as reply_for};
ghost use Rattle.reg_session.specs.Chains.{Own, own};
ghost use Rattle.reg_session.specs.Requests.{limit_of_ask};
ghost use Rattle.reg_session.specs.InnerSteps.{Decides, is_plain_single, is_single, store};

use crate::holder::Holder;
use crate::holds::{
    cancel_upload, drop_blob, drop_reference, list_tags, pull_blob, pull_manifest, start_upload,
    upload_state,
};
use crate::replies::refusal;
use depot_api::{Clock, Depot, Ids};
use reg_entries::numbers::{JOURNAL_FULL, NO_MEMORY, STORAGE_FAULT};
use reg_entries::{Ask, Reply, Trouble};
use reg_names::{Digest, Name, UploadId};
use std::alloc::Global;

/// The most bytes of the body of an upload.
pub(crate) const UPLOAD_LIMIT: u64 = 1 << 40;

/// The most bytes of any other body.
pub(crate) const BODY_LIMIT: u64 = 4_194_304;

/// The most bytes of the body of a request that asks this.
pub(crate) fn limit_of(ask: &Ask) -> u64
    ensures { result ≡ limit_of_ask ask.now }
{
    match ask {
        Ask::Start { .. } | Ask::Patch { .. } | Ask::Finish { .. } => UPLOAD_LIMIT,
        _ => BODY_LIMIT,
    }
}

/// The answer to an ask: a reply, with the blob that follows it.
pub(crate) fn decide<D: Depot, K, P, H: Holder<D, K, P>, C: Clock, I: Ids>(
    alloc: Global,
    holder: &mut H,
    pass: &P,
    clock: &C,
    ids: &mut I,
    ask: &Ask,
) -> (Reply, Option<D::B>)
    requires may { H.may_enter holder.old }
    requires single { is_single ask.now ≡ true }
    ensures outside { H.may_enter holder.new }
    ensures same { (origin : H) → H.is_of origin holder.old → H.is_of origin holder.new }
    ensures decides { (answer : Answer) (body : List ℕ) → GivesBlob D.B.rest result answer
        → Decides H.between (own (H.number holder.old) (C.reading clock.now))
        (store (H.at holder.old) (I.words ids.old)) (store (H.at holder.new) (I.words ids.new))
        ask.now body answer }
    ensures paired { IsSome result.1 → IsBlob result.0 }
{
    match ask {
        Ask::GetBlob { name, digest } => decide_blob(alloc, holder, pass, name, digest),
        _ => (decide_plain(alloc, holder, pass, clock, ids, ask), None),
    }
}

// The reply to an ask that no blob answers.
fn decide_plain<D: Depot, K, P, H: Holder<D, K, P>, C: Clock, I: Ids>(
    alloc: Global,
    holder: &mut H,
    pass: &P,
    clock: &C,
    ids: &mut I,
    ask: &Ask,
) -> Reply
    requires may { H.may_enter holder.old }
    requires single { is_plain_single ask.now ≡ true }
    ensures outside { H.may_enter holder.new }
    ensures same { (origin : H) → H.is_of origin holder.old → H.is_of origin holder.new }
    ensures decides { (body : List ℕ)
        → Decides H.between (own (H.number holder.old) (C.reading clock.now))
        (store (H.at holder.old) (I.words ids.old)) (store (H.at holder.new) (I.words ids.new))
        ask.now body (plain result) }
{
    match ask {
        Ask::Base => Reply::Base,
        Ask::GetManifest { name, at } => reply_to(pull_manifest(alloc, holder, pass, name, at)),
        Ask::Tags { name, n, last } => {
            reply_to(list_tags(alloc, holder, pass, name, *n, last.as_ref()))
        }
        Ask::DropReference { name, at } => {
            reply_to(drop_reference(alloc, holder, pass, name, at))
        }
        Ask::DropBlob { name, digest } => reply_to(drop_blob(alloc, holder, pass, name, digest)),
        Ask::Start { name, mount } => start(alloc, holder, pass, clock, ids, name, mount),
        Ask::State { name, id } => reply_to(upload_state(alloc, holder, pass, name, id)),
        Ask::Cancel { name, id } => reply_to(cancel_upload(alloc, holder, pass, name, id)),
        Ask::GetBlob { .. } | Ask::PutManifest { .. } | Ask::Patch { .. } | Ask::Finish { .. } =>
            unreachable!(),
    }
}

// Starts an upload, with the id of the next word, at this moment.
fn start<D: Depot, K, P, H: Holder<D, K, P>, C: Clock, I: Ids>(
    alloc: Global,
    holder: &mut H,
    pass: &P,
    clock: &C,
    ids: &mut I,
    name: &Name,
    mount: &Option<(Digest, Name)>,
) -> Reply
    requires { H.may_enter holder.old }
    ensures outside { H.may_enter holder.new }
    ensures same { (origin : H) → H.is_of origin holder.old → H.is_of origin holder.new }
    ensures decides { (body : List ℕ)
        → Decides H.between (own (H.number holder.old) (C.reading clock.now))
        (store (H.at holder.old) (I.words ids.old)) (store (H.at holder.new) (I.words ids.new))
        (asks.Start name.now mount.now) body (plain result) }
{
    let id = UploadId::of_bytes(ids.draw());
    reply_to(start_upload(alloc, holder, pass, name, mount, &id, clock.now()))
}

fn decide_blob<D: Depot, K, P, H: Holder<D, K, P>>(
    alloc: Global,
    holder: &mut H,
    pass: &P,
    name: &Name,
    digest: &Digest,
) -> (Reply, Option<D::B>)
    requires { H.may_enter holder.old }
    ensures outside { H.may_enter holder.new }
    ensures same { (origin : H) → H.is_of origin holder.old → H.is_of origin holder.new }
    ensures decides { (o : Own) (words : Words) (answer : Answer) (body : List ℕ)
        → GivesBlob D.B.rest result answer
        → Decides H.between o (store (H.at holder.old) words) (store (H.at holder.new) words)
        (asks.GetBlob name.now digest.now) body answer }
    ensures paired { IsPaired result }
{
    match pull_blob(alloc, holder, pass, name, digest) {
        Ok(given) => given,
        Err(trouble) => (trouble_reply(trouble), None),
    }
}

/// The reply of a call, or the one for its trouble.
pub(crate) fn reply_to(found: Result<Reply, Trouble>) -> Reply
    ensures { MatchResult found (λ reply. result ≡ reply) (λ trouble. result ≡ reply_for trouble) }
{
    match found {
        Ok(reply) => reply,
        Err(trouble) => trouble_reply(trouble),
    }
}

/// The reply for a trouble.
pub(crate) fn trouble_reply(trouble: Trouble) -> Reply
    ensures { result ≡ reply_for trouble }
{
    match trouble {
        Trouble::Depot | Trouble::Keeper => refusal(STORAGE_FAULT),
        Trouble::Full => refusal(JOURNAL_FULL),
        Trouble::NoMemory => refusal(NO_MEMORY),
    }
}
