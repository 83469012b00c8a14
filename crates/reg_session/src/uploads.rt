//! Requests that add their body to an upload.
ghost use Rattle.std.specs.Prelude.{◌≡◌, ◌↔◌, ◌<◌, ◌≤◌, ℕ, Ok, Option, true};
ghost use Rattle.reg_names.specs.Cause.{Rose};
ghost use Rattle.depot_api.specs.Ids.{Words};
ghost use Rattle.http_wire.specs.Bodies.{due};
ghost use Rattle.http_wire.specs.Flow.{stream, spent, Counts};
ghost use Rattle.reg_session.specs.Chains.{Hold, own};
ghost use Rattle.reg_session.specs.Requests.{parts_in, asked_in, body_state, upload_limit};
ghost use Rattle.reg_session.specs.Uploads.{upload_ask};
ghost use Rattle.reg_session.specs.InnerSteps.{line, Responds, StepCauses, store};
ghost use Rattle.reg_session.specs.InnerUploads.{Adds, HasSession};

use crate::completing::complete;
use crate::deciding::{UPLOAD_LIMIT, trouble_reply};
use crate::ended::{Ended, Step};
use crate::gathering::{Gathered, gather};
use crate::holder::Holder;
use crate::refusing::{break_off, deny};
use crate::replies::{conclude, is_head, refusal, refuse, send_continue};
use crate::upload_holds::{shelve, take_upload};
use depot_api::{Depot, Sink, Source};
use http_wire::{Feed, Framing, Head, framing};
use reg_claims::Held as Claim;
use reg_entries::numbers::{BODY_TOO_LARGE, STORAGE_FAULT};
use reg_names::{Digest, Name, UploadId};
use std::alloc::Global;
use upload_sessions::Taken;

/// Answers a request that adds its body to an upload, from a start, if that is told, and finishes it, where there is a
/// digest. A body whose Content-Length is too large is refused before the session is taken.
pub(crate) fn upload<D: Depot, K, P, H: Holder<D, K, P>, S: Source, O: Sink>(
    alloc: Global,
    feed: &mut Feed,
    holder: &mut H,
    pass: &P,
    source: &mut S,
    sink: &mut O,
    head: &Head,
    name: &Name,
    id: &Option<UploadId>,
    start: Option<u64>,
    digest: Option<Digest>,
) -> Step<D::B>
where
    D::B: Drop,
    requires may { H.may_enter holder.old }
    requires asked { asked_in (parts_in head.now)
        ≡ Ok (upload_ask name.now id.now start digest) }
    ensures outside { H.may_enter holder.new }
    ensures same { (origin : H) → H.is_of origin holder.old → H.is_of origin holder.new }
    ensures responds { (reading : Option ℕ) (words : Words)
        → Responds H.between (own (H.number holder.old) reading)
        (Rose (O.faults sink.old) (O.faults sink.new)) (parts_in head.now)
        (store (H.at holder.old) words) (store (H.at holder.new) words)
        (line (stream feed.old (S.left source.old)) (S.left source.old) (O.taken sink.old))
        (line (stream feed.new (S.left source.new)) (S.left source.new) (O.taken sink.new))
        result }
    ensures causes { StepCauses (S.faults source.old) (S.faults source.new) (O.faults sink.old)
        (O.faults sink.new) feed.new.taken D.B.faults result }
    ensures progress { spent feed.old ≤ spent feed.new }
    ensures counts { Counts feed.old (S.given source.old) feed.new (S.given source.new) }
{
    if is_too_long(head) {
        return Step::Ended(refuse(alloc, sink, &refusal(BODY_TOO_LARGE), is_head(head)));
    }
    match take_upload(alloc, holder, pass, name, id, start) {
        Ok(taken) => match taken {
            Taken::Out {
                held,
                stage,
                offset: _,
            } => add(
                alloc, feed, holder, pass, source, sink, head, digest, held, stage,
            ),
            Taken::Refused(reply) => {
                deny(alloc, feed, source, sink, head, &reply, Some(UPLOAD_LIMIT))
            }
        },
        Err(trouble) => {
            let reply = trouble_reply(trouble);
            deny(alloc, feed, source, sink, head, &reply, Some(UPLOAD_LIMIT))
        }
    }
}

// Whether the Content-Length of a request passes the limit of uploads.
fn is_too_long(head: &Head) -> bool
    ensures { (result ≡ true) ↔ (upload_limit < due (body_state (parts_in head.now))) }
{
    match framing(head) {
        Framing::Length(length) => length > UPLOAD_LIMIT,
        _ => false,
    }
}

// Adds the body to an upload whose session was given.
fn add<D: Depot, K, P, H: Holder<D, K, P>, S: Source, O: Sink>(
    alloc: Global,
    feed: &mut Feed,
    holder: &mut H,
    pass: &P,
    source: &mut S,
    sink: &mut O,
    head: &Head,
    digest: Option<Digest>,
    claim: Claim,
    mut stage: D::S,
) -> Step<D::B>
where
    D::B: Drop,
    requires { H.may_enter holder.old }
    ensures outside { H.may_enter holder.new }
    ensures same { (origin : H) → H.is_of origin holder.old → H.is_of origin holder.new }
    ensures adds { (h : Hold) → HasSession (parts_in head.now) digest h claim (D.S.held stage)
        → Adds H.between (Rose (O.faults sink.old) (O.faults sink.new)) (parts_in head.now)
        (H.at holder.old) (H.at holder.new)
        (line (stream feed.old (S.left source.old)) (S.left source.old) (O.taken sink.old))
        (line (stream feed.new (S.left source.new)) (S.left source.new) (O.taken sink.new))
        h result }
    ensures causes { StepCauses (S.faults source.old) (S.faults source.new) (O.faults sink.old)
        (O.faults sink.new) feed.new.taken D.B.faults result }
    ensures progress { spent feed.old ≤ spent feed.new }
    ensures counts { Counts feed.old (S.given source.old) feed.new (S.given source.new) }
{
    if send_continue(sink, head).is_err() {
        shelve(holder, pass, claim, stage);
        return Step::Ended(Ended::SinkFault);
    }
    match gather(feed, source, head, &mut stage) {
        Gathered::Whole => {
            let reply = complete(alloc, holder, pass, digest, claim, stage);
            conclude(alloc, sink, head, &reply, None)
        }
        Gathered::Failed => {
            shelve(holder, pass, claim, stage);
            conclude(alloc, sink, head, &refusal(STORAGE_FAULT), None)
        }
        Gathered::Broken(dropped) => {
            shelve(holder, pass, claim, stage);
            Step::Ended(break_off(alloc, sink, head, dropped))
        }
    }
}
