//! Uploads whose body has come whole.
ghost use Rattle.std.specs.Prelude.{◌≡◌, ◌⊎◌, List, ℕ, Some, is_some};
ghost use Rattle.reg_names.specs.Digests.{digest_text};
ghost use Rattle.depot_api.specs.Stages.{Staged};
ghost use Rattle.files_service.specs.Finishing.{ending_of, failed};
ghost use Rattle.reg_claims.specs.declared.claim.Held.{Held as HeldOf};
ghost use Rattle.reg_entries.specs.Numbers.{digest_differs, no_memory};
ghost use Rattle.reg_entries.specs.declared.ask.Ask.{Ask};
ghost use Rattle.reg_entries.specs.declared.reply.Reply.{Reply as ReplyOf};
ghost use Rattle.reg_entries.specs.declared.reply.Reply.TheVariants as replies;
ghost use Rattle.reg_entries.specs.declared.trouble.Trouble.{Trouble as TroubleOf};
ghost use Rattle.reg_model.specs.Answers.{refusal as refusal_of};
ghost use Rattle.reg_model.specs.Changing.{refusal_with};
ghost use Rattle.reg_session.specs.Answering.{trouble_reply as trouble_of};
ghost use Rattle.reg_session.specs.Chains.{Hold};
ghost use Rattle.reg_session.specs.Uploads.{Gives, Stages};
ghost use Rattle.reg_session.specs.InnerUploads.{Completes, EndsFinish, IsBackOf, IsStill, IsUpload};

use crate::deciding::trouble_reply;
use crate::holder::Holder;
use crate::replies::refusal;
use crate::upload_holds::{close_session, finish, release, shelve};
use depot_api::{Depot, Stage};
use reg_claims::Held as Claim;
use reg_entries::numbers::{DIGEST_DIFFERS, NO_MEMORY, STORAGE_FAULT};
use reg_entries::{Detail, No, Reply};
use reg_names::{Digest, NoMemory};
use std::alloc::Global;
use upload_sessions::{Finish, Sealed, Unsealed, seal};

/// The reply to a request whose body is all behind the bytes of its upload: its session is given back, or finished with
/// a digest.
pub(crate) fn complete<D: Depot, K, P, H: Holder<D, K, P>>(
    alloc: Global,
    holder: &mut H,
    pass: &P,
    digest: Option<Digest>,
    claim: Claim,
    stage: D::S,
) -> Reply
    requires { H.may_enter holder.old }
    ensures outside { H.may_enter holder.new }
    ensures same { (origin : H) → H.is_of origin holder.old → H.is_of origin holder.new }
    ensures completes { (ask : Ask) (body : List ℕ) (before : Staged) (h : Hold)
        → IsUpload ask digest → Gives ask h claim before → Stages before (D.S.held stage) body
        → Completes H.between (H.at holder.old) (H.at holder.new) ask body h result }
{
    match digest {
        Some(digest) => finish_with(alloc, holder, pass, &digest, claim, stage),
        None => {
            let reply = patched(alloc, &claim, stage.length());
            shelve(holder, pass, claim, stage);
            reply
        }
    }
}

// The reply that tells how many bytes an upload has, or that memory was wanting.
fn patched(alloc: Global, claim: &Claim, offset: u64) -> Reply
    ensures { (result ≡ refusal_of no_memory)
        ⊎ (result ≡ replies.Patched claim.now.name claim.now.id offset) }
{
    match claim.name().copy(alloc) {
        Ok(name) => Reply::Patched {
            name,
            id: *claim.id(),
            offset,
        },
        Err(NoMemory) => refusal(NO_MEMORY),
    }
}

// Finishes an upload with a digest, if that is the one of its bytes.
fn finish_with<D: Depot, K, P, H: Holder<D, K, P>>(
    alloc: Global,
    holder: &mut H,
    pass: &P,
    digest: &Digest,
    claim: Claim,
    stage: D::S,
) -> Reply
    requires { H.may_enter holder.old }
    ensures outside { H.may_enter holder.new }
    ensures same { (origin : H) → H.is_of origin holder.old → H.is_of origin holder.new }
    ensures completes { (ask : Ask) (body : List ℕ) (before : Staged) (h : Hold)
        → IsUpload ask (Some digest.now) → Gives ask h claim before
        → Stages before (D.S.held stage) body
        → Completes H.between (H.at holder.old) (H.at holder.new) ask body h result }
{
    match seal(alloc, stage) {
        Ok(sealed) => finish_sealed(alloc, holder, pass, digest, claim, sealed),
        Err(unsealed) => match unsealed {
            Unsealed::Failed(stage) => {
                shelve(holder, pass, claim, stage);
                refusal(STORAGE_FAULT)
            }
            Unsealed::NoMemory(stage) => {
                shelve(holder, pass, claim, stage);
                refusal(NO_MEMORY)
            }
        },
    }
}

fn finish_sealed<D: Depot, K, P, H: Holder<D, K, P>>(
    alloc: Global,
    holder: &mut H,
    pass: &P,
    digest: &Digest,
    claim: Claim,
    sealed: Sealed<D::S>,
) -> Reply
    requires { H.may_enter holder.old }
    ensures outside { H.may_enter holder.new }
    ensures same { (origin : H) → H.is_of origin holder.old → H.is_of origin holder.new }
    ensures completes { (ask : Ask) (body : List ℕ) (before : Staged) (h : Hold)
        → IsUpload ask (Some digest.now) → Gives ask h claim before
        → Stages before (D.S.held sealed.stage) body
        → Completes H.between (H.at holder.old) (H.at holder.new) ask body h result }
{
    let found = sealed.digest();
    if found != *digest {
        let reply = differs(alloc, &found);
        shelve(holder, pass, claim, sealed.unseal());
        return reply;
    }
    let finished = finish(alloc, holder, pass, claim, sealed);
    end(alloc, holder, pass, finished)
}

// The refusal that tells the digest of what was uploaded, or that memory was wanting.
fn differs(alloc: Global, found: &Digest) -> Reply
    ensures { (result ≡ refusal_of no_memory)
        ⊎ (result ≡ refusal_with digest_differs (digest_text found.now)) }
{
    match found.text(alloc) {
        Ok(text) => Reply::Refused(No {
            number: DIGEST_DIFFERS,
            detail: Detail::Word(text),
        }),
        Err(NoMemory) => refusal(NO_MEMORY),
    }
}

// Spends the session of an upload that was finished, and the reply.
fn end<D: Depot, K, P, H: Holder<D, K, P>>(
    alloc: Global,
    holder: &mut H,
    pass: &P,
    finished: Finish<D::S>,
) -> Reply
    requires { H.may_enter holder.old }
    ensures outside { H.may_enter holder.new }
    ensures same { (origin : H) → H.is_of origin holder.old → H.is_of origin holder.new }
    ensures ends { (claim : HeldOf) (staged : Staged) → IsBackOf D.S.held claim staged finished
        → EndsFinish H.between (H.at holder.old) (H.at holder.new) claim staged
        (ending_of finished) result }
{
    match finished {
        Finish::Done { held, reply } => match close_session(alloc, holder, pass, held) {
            Ok(()) => reply,
            Err(trouble) => trouble_reply(trouble),
        },
        Finish::Back {
            held,
            sealed,
            reply,
        } => {
            shelve(holder, pass, held, sealed.unseal());
            reply
        }
        Finish::Failed {
            held,
            sealed,
            trouble,
        } => {
            give_up(holder, pass, held, sealed);
            trouble_reply(trouble)
        }
    }
}

// Spends the session of an upload whose finish failed: gives it back, where its bytes are still there.
fn give_up<D: Depot, K, P, H: Holder<D, K, P>>(
    holder: &mut H,
    pass: &P,
    claim: Claim,
    sealed: Option<Sealed<D::S>>,
)
    requires { H.may_enter holder.old }
    ensures outside { H.may_enter holder.new }
    ensures same { (origin : H) → H.is_of origin holder.old → H.is_of origin holder.new }
    ensures gives_up { (after : Staged) (trouble : TroubleOf) (reply : ReplyOf)
        → IsStill D.S.held after sealed → reply ≡ trouble_of trouble
        → EndsFinish H.between (H.at holder.old) (H.at holder.new)
        claim after (failed (is_some sealed) trouble) reply }
{
    match sealed {
        Some(sealed) => shelve(holder, pass, claim, sealed.unseal()),
        None => release(holder, pass, claim),
    }
}
