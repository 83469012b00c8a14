//! Manifests that are pushed.
ghost use Rattle.std.specs.Prelude.{◌≡◌, ◌≤◌, Ok};
ghost use Rattle.reg_names.specs.Cause.{Rose};
ghost use Rattle.depot_api.specs.Ids.{Words};
ghost use Rattle.http_wire.specs.Flow.{stream, spent, Counts};
ghost use Rattle.reg_entries.specs.declared.ask.Ask.TheVariants as asks;
ghost use Rattle.reg_session.specs.Chains.{Own};
ghost use Rattle.reg_session.specs.Requests.{parts_in, asked_in};
ghost use Rattle.reg_session.specs.InnerSteps.{line, Responds, StepCauses, store};

use crate::deciding::reply_to;
use crate::ended::{Ended, Step};
use crate::gathering::take_manifest;
use crate::holder::Holder;
use crate::holds::put_manifest;
use crate::refusing::break_off;
use crate::replies::{conclude, send_continue};
use depot_api::{Depot, Sink, Source};
use http_wire::{Feed, Head};
use reg_names::{Name, Reference, Text};
use std::alloc::Global;

/// Answers a push of the manifest that is the body of a request.
pub(crate) fn push<D: Depot, K, P, H: Holder<D, K, P>, S: Source, O: Sink>(
    alloc: Global,
    feed: &mut Feed,
    holder: &mut H,
    pass: &P,
    source: &mut S,
    sink: &mut O,
    head: &Head,
    name: &Name,
    at: &Option<Reference>,
    typed: &Option<Text>,
) -> Step<D::B>
where
    D::B: Drop,
    requires may { H.may_enter holder.old }
    requires asked { asked_in (parts_in head.now)
        ≡ Ok (asks.PutManifest name.now at.now typed.now) }
    ensures outside { H.may_enter holder.new }
    ensures same { (origin : H) → H.is_of origin holder.old → H.is_of origin holder.new }
    ensures responds { (o : Own) (words : Words) → Responds H.between o
        (Rose (O.faults sink.old) (O.faults sink.new)) (parts_in head.now)
        (store (H.at holder.old) words) (store (H.at holder.new) words)
        (line (stream feed.old (S.left source.old)) (S.left source.old) (O.taken sink.old))
        (line (stream feed.new (S.left source.new)) (S.left source.new) (O.taken sink.new))
        result }
    ensures causes { StepCauses (S.faults source.old) (S.faults source.new) (O.faults sink.old)
        (O.faults sink.new) feed.new.taken D.B.faults result }
    ensures progress { spent feed.old ≤ spent feed.new }
    ensures counts { Counts feed.old (S.given source.old) feed.new (S.given source.new) }
{
    if send_continue(sink, head).is_err() {
        return Step::Ended(Ended::SinkFault);
    }
    match take_manifest(alloc, feed, source, head, typed.as_ref()) {
        Ok(pushed) => {
            let reply = reply_to(put_manifest(alloc, holder, pass, name, at, &pushed));
            conclude(alloc, sink, head, &reply, None)
        }
        Err(dropped) => Step::Ended(break_off(alloc, sink, head, dropped)),
    }
}
