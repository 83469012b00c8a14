//! Requests that are refused, for their head or for their body.
ghost use Rattle.std.specs.Prelude.{◌≡◌, ◌≤◌, ℕ, List, Option};
ghost use Rattle.std.specs.Io.KnownBytes.{Appends};
ghost use Rattle.reg_names.specs.Cause.{Rose, HasCause};
ghost use Rattle.http_wire.specs.Flow.{stream, spent, Counts};
ghost use Rattle.reg_session.specs.Chains.{Hold};
ghost use Rattle.reg_session.specs.Requests.{parts_in, limit_of};
ghost use Rattle.reg_session.specs.Turns.{interim};
ghost use Rattle.reg_session.specs.Works.{Begun, Wrote};
ghost use Rattle.reg_session.specs.InnerBodies.{IsSmallLimit};
ghost use Rattle.reg_session.specs.InnerSteps.{Behind, BreaksWith, broken, IsBroken, IsKnown, line, StepCauses};

use crate::bodies::{Dropped, drop_body};
use crate::ended::{Ended, Step};
use crate::replies::{conclude, is_head, no_memory, refusal, refuse, wants_memory};
use depot_api::{Blob, Sink, Source};
use http_wire::{Feed, Head, expects_continue};
use reg_entries::Reply;
use reg_entries::numbers::{BODY_TOO_LARGE, NOT_A_REQUEST};
use std::alloc::Global;

/// Refuses a request by its head, or by the session of its upload: at once where it waits to be told to go on, else
/// behind its body.
pub(crate) fn deny<B: Blob + Drop, S: Source, O: Sink>(
    alloc: Global,
    feed: &mut Feed,
    source: &mut S,
    sink: &mut O,
    head: &Head,
    reply: &Reply,
    limit: Option<u64>,
) -> Step<B>
    requires limited { limit ≡ limit_of (parts_in head.now) }
    requires small { IsSmallLimit limit }
    ensures behind { (holds : List Hold) → IsKnown (parts_in head.now) holds reply.now
        → Behind (Rose (O.faults sink.old) (O.faults sink.new)) (parts_in head.now)
        (line (stream feed.old (S.left source.old)) (S.left source.old) (O.taken sink.old))
        (line (stream feed.new (S.left source.new)) (S.left source.new) (O.taken sink.new)) holds
        result }
    ensures causes { StepCauses (S.faults source.old) (S.faults source.new) (O.faults sink.old)
        (O.faults sink.new) feed.new.taken B.faults result }
    ensures progress { spent feed.old ≤ spent feed.new }
    ensures counts { Counts feed.old (S.given source.old) feed.new (S.given source.new) }
{
    if expects_continue(head) {
        if wants_memory(reply) {
            return Step::Ended(no_memory(sink, is_head(head)));
        }
        return Step::Ended(refuse(alloc, sink, reply, is_head(head)));
    }
    match drop_body(feed, source, head, limit) {
        Dropped::Whole => conclude(alloc, sink, head, reply, None),
        other => Step::Ended(break_off(alloc, sink, head, other)),
    }
}

/// Ends a session whose body did not come whole.
pub(crate) fn break_off<B: Drop, O: Sink>(
    alloc: Global,
    sink: &mut O,
    head: &Head,
    dropped: Dropped,
) -> Ended<B>
    requires { IsBroken dropped }
    ensures ends { BreaksWith dropped result }
    ensures wrote { (b : Begun) (start : Option (List ℕ)) → b.parts ≡ parts_in head.now
        → Appends start (O.taken sink.old) (interim b.parts b.holds)
        → Wrote (Rose (O.faults sink.old) (O.faults sink.new)) result start (O.taken sink.new)
        (broken b dropped) }
    ensures cause { HasCause (O.faults sink.old) (O.faults sink.new) (result ≡ Ended.SinkFault) }
{
    match dropped {
        Dropped::TooLong => refuse(alloc, sink, &refusal(BODY_TOO_LARGE), is_head(head)),
        Dropped::Malformed => refuse(alloc, sink, &refusal(NOT_A_REQUEST), is_head(head)),
        Dropped::Cut => Ended::Cut,
        Dropped::SourceFault => Ended::SourceFault,
        Dropped::Long => Ended::Long,
        Dropped::NoMemory | Dropped::Whole => no_memory(sink, is_head(head)),
    }
}
