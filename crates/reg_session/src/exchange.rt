//! One request.
ghost use Rattle.std.specs.Prelude.{◌≡◌, ◌≤◌, true, Ok};
ghost use Rattle.reg_names.specs.Cause.{Rose};
ghost use Rattle.http_wire.specs.Flow.{stream, spent, Counts};
ghost use Rattle.reg_session.specs.Chains.{own};
ghost use Rattle.reg_session.specs.Requests.{parts_in, asked_in};
ghost use Rattle.reg_session.specs.Sessions.{here};
ghost use Rattle.reg_session.specs.InnerSteps.{Advances, Exchanges, is_single, line, Responds, StepCauses, store};

use crate::bodies::{Dropped, drop_body};
use crate::deciding::{decide, limit_of};
use crate::ended::{Ended, Step};
use crate::holder::Holder;
use crate::manifests::push;
use crate::refusing::{break_off, deny};
use crate::replies::{conclude, is_head, no_memory, refusal, refuse, send_continue};
use crate::uploads::upload;
use depot_api::{Clock, Depot, Ids, Sink, Source};
use http_wire::{Feed, Head, Heading, read_head};
use reg_entries::Ask;
use reg_routes::{Unrouted, route};
use std::alloc::Global;

/// Reads one request, answers it, and writes the reply.
pub(crate) fn exchange<D: Depot, K, P, H: Holder<D, K, P>, C: Clock, I: Ids, S: Source, O: Sink>(
    alloc: Global,
    feed: &mut Feed,
    holder: &mut H,
    pass: &P,
    clock: &C,
    ids: &mut I,
    source: &mut S,
    sink: &mut O,
) -> Step<D::B>
where
    D::B: Drop,
    requires { H.may_enter holder.old }
    ensures outside { H.may_enter holder.new }
    ensures same { (origin : H) → H.is_of origin holder.old → H.is_of origin holder.new }
    ensures exchanges { Exchanges H.between (own (H.number holder.old) (C.reading clock.now))
        (Rose (O.faults sink.old) (O.faults sink.new))
        (here (H.at holder.old) (I.words ids.old) (stream feed.old (S.left source.old))
        (S.left source.old) (O.taken sink.old))
        (here (H.at holder.new) (I.words ids.new) (stream feed.new (S.left source.new))
        (S.left source.new) (O.taken sink.new)) result }
    ensures causes { StepCauses (S.faults source.old) (S.faults source.new) (O.faults sink.old)
        (O.faults sink.new) feed.new.taken D.B.faults result }
    ensures advances { Advances feed.old feed.new result }
    ensures counts { Counts feed.old (S.given source.old) feed.new (S.given source.new) }
{
    match read_head(alloc, feed, source) {
        Heading::Head(head) => respond(alloc, feed, holder, pass, clock, ids, source, sink, &head),
        Heading::End => Step::Ended(Ended::Done),
        Heading::Cut => Step::Ended(Ended::Cut),
        Heading::Bad(number) => Step::Ended(refuse(alloc, sink, &refusal(number), false)),
        Heading::SourceFault => Step::Ended(Ended::SourceFault),
        Heading::Long => Step::Ended(Ended::Long),
        Heading::NoMemory => Step::Ended(no_memory(sink, false)),
    }
}

// Answers a request whose head was read.
fn respond<D: Depot, K, P, H: Holder<D, K, P>, C: Clock, I: Ids, S: Source, O: Sink>(
    alloc: Global,
    feed: &mut Feed,
    holder: &mut H,
    pass: &P,
    clock: &C,
    ids: &mut I,
    source: &mut S,
    sink: &mut O,
    head: &Head,
) -> Step<D::B>
where
    D::B: Drop,
    requires { H.may_enter holder.old }
    ensures outside { H.may_enter holder.new }
    ensures same { (origin : H) → H.is_of origin holder.old → H.is_of origin holder.new }
    ensures responds { Responds H.between (own (H.number holder.old) (C.reading clock.now))
        (Rose (O.faults sink.old) (O.faults sink.new)) (parts_in head.now)
        (store (H.at holder.old) (I.words ids.old)) (store (H.at holder.new) (I.words ids.new))
        (line (stream feed.old (S.left source.old)) (S.left source.old) (O.taken sink.old))
        (line (stream feed.new (S.left source.new)) (S.left source.new) (O.taken sink.new))
        result }
    ensures causes { StepCauses (S.faults source.old) (S.faults source.new) (O.faults sink.old)
        (O.faults sink.new) feed.new.taken D.B.faults result }
    ensures progress { spent feed.old ≤ spent feed.new }
    ensures counts { Counts feed.old (S.given source.old) feed.new (S.given source.new) }
{
    match route(alloc, head) {
        Ok(ask) => respond_to(
            alloc, feed, holder, pass, clock, ids, source, sink, head, &ask,
        ),
        Err(Unrouted::Refused(reply)) => deny(alloc, feed, source, sink, head, &reply, None),
        Err(Unrouted::NoMemory) => Step::Ended(no_memory(sink, is_head(head))),
    }
}

// Answers an ask.
fn respond_to<D: Depot, K, P, H: Holder<D, K, P>, C: Clock, I: Ids, S: Source, O: Sink>(
    alloc: Global,
    feed: &mut Feed,
    holder: &mut H,
    pass: &P,
    clock: &C,
    ids: &mut I,
    source: &mut S,
    sink: &mut O,
    head: &Head,
    ask: &Ask,
) -> Step<D::B>
where
    D::B: Drop,
    requires may { H.may_enter holder.old }
    requires asked { asked_in (parts_in head.now) ≡ Ok ask.now }
    ensures outside { H.may_enter holder.new }
    ensures same { (origin : H) → H.is_of origin holder.old → H.is_of origin holder.new }
    ensures responds { Responds H.between (own (H.number holder.old) (C.reading clock.now))
        (Rose (O.faults sink.old) (O.faults sink.new)) (parts_in head.now)
        (store (H.at holder.old) (I.words ids.old)) (store (H.at holder.new) (I.words ids.new))
        (line (stream feed.old (S.left source.old)) (S.left source.old) (O.taken sink.old))
        (line (stream feed.new (S.left source.new)) (S.left source.new) (O.taken sink.new))
        result }
    ensures causes { StepCauses (S.faults source.old) (S.faults source.new) (O.faults sink.old)
        (O.faults sink.new) feed.new.taken D.B.faults result }
    ensures progress { spent feed.old ≤ spent feed.new }
    ensures counts { Counts feed.old (S.given source.old) feed.new (S.given source.new) }
{
    match ask {
        Ask::PutManifest { name, at, typed } => {
            push(
                alloc, feed, holder, pass, source, sink, head, name, at, typed,
            )
        }
        Ask::Patch { name, id, start } => {
            upload(
                alloc, feed, holder, pass, source, sink, head, name, id, *start, None,
            )
        }
        Ask::Finish {
            name,
            id,
            digest,
            start,
        } => {
            upload(
                alloc,
                feed,
                holder,
                pass,
                source,
                sink,
                head,
                name,
                id,
                *start,
                Some(*digest),
            )
        }
        _ => single(
            alloc, feed, holder, pass, clock, ids, source, sink, head, ask,
        ),
    }
}

// Answers an ask that one hold answers, or none, behind the body of its request.
fn single<D: Depot, K, P, H: Holder<D, K, P>, C: Clock, I: Ids, S: Source, O: Sink>(
    alloc: Global,
    feed: &mut Feed,
    holder: &mut H,
    pass: &P,
    clock: &C,
    ids: &mut I,
    source: &mut S,
    sink: &mut O,
    head: &Head,
    ask: &Ask,
) -> Step<D::B>
where
    D::B: Drop,
    requires may { H.may_enter holder.old }
    requires asked { asked_in (parts_in head.now) ≡ Ok ask.now }
    requires single { is_single ask.now ≡ true }
    ensures outside { H.may_enter holder.new }
    ensures same { (origin : H) → H.is_of origin holder.old → H.is_of origin holder.new }
    ensures responds { Responds H.between (own (H.number holder.old) (C.reading clock.now))
        (Rose (O.faults sink.old) (O.faults sink.new)) (parts_in head.now)
        (store (H.at holder.old) (I.words ids.old)) (store (H.at holder.new) (I.words ids.new))
        (line (stream feed.old (S.left source.old)) (S.left source.old) (O.taken sink.old))
        (line (stream feed.new (S.left source.new)) (S.left source.new) (O.taken sink.new))
        result }
    ensures causes { StepCauses (S.faults source.old) (S.faults source.new) (O.faults sink.old)
        (O.faults sink.new) feed.new.taken D.B.faults result }
    ensures progress { spent feed.old ≤ spent feed.new }
    ensures counts { Counts feed.old (S.given source.old) feed.new (S.given source.new) }
{
    if send_continue(sink, head).is_err() {
        return Step::Ended(Ended::SinkFault);
    }
    match drop_body(feed, source, head, Some(limit_of(ask))) {
        Dropped::Whole => {
            let (reply, blob) = decide(alloc, holder, pass, clock, ids, ask);
            conclude(alloc, sink, head, &reply, blob)
        }
        other => Step::Ended(break_off(alloc, sink, head, other)),
    }
}
