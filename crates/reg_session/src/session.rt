//! Whole sessions.
ghost use Rattle.std.specs.Prelude.{◌≡◌};
ghost use Rattle.reg_names.specs.Cause.{Rose};
ghost use Rattle.reg_world.specs.Worlds.{shown, keeper_of};
ghost use Rattle.reg_session.specs.Chains.{own};
ghost use Rattle.reg_session.specs.Sessions.{here, Session, Causes};

use crate::ended::{Ended, Step};
use crate::exchange::exchange;
use crate::holder::{Holder, Lent, Nothing};
use crate::replies::no_memory;
use depot_api::{Clock, Depot, Ids, Sink, Source};
use http_wire::Feed;
use reg_world::World;
use std::alloc::Global;

/// Answers the requests of one connection, one after the other, until it ends. Each hold of the world is entered by
/// `holder`.
pub fn serve<D: Depot, K, P, H: Holder<D, K, P>, C: Clock, I: Ids, S: Source, O: Sink>(
    alloc: Global,
    holder: &mut H,
    pass: &P,
    clock: &C,
    ids: &mut I,
    source: &mut S,
    sink: &mut O,
) -> Ended<D::B>
where
    D::B: Drop,
    requires { H.may_enter holder.old }
    ensures outside { H.may_enter holder.new }
    ensures same { (origin : H) → H.is_of origin holder.old → H.is_of origin holder.new }
    ensures session { Session H.between (own (H.number holder.old) (C.reading clock.now))
        (Rose (O.faults sink.old) (O.faults sink.new))
        (here (H.at holder.old) (I.words ids.old) (S.left source.old) (S.left source.old)
        (O.taken sink.old))
        (here (H.at holder.new) (I.words ids.new) (S.left source.new) (S.left source.new)
        (O.taken sink.new)) result }
    ensures causes { Causes (S.faults source.old) (S.faults source.new) (O.faults sink.old)
        (O.faults sink.new) (S.given source.old) (S.given source.new) D.B.faults result }
{
    let Ok(mut feed) = Feed::new(alloc) else {
        return no_memory(sink, false);
    };
    'requests: loop {
        match exchange(alloc, &mut feed, holder, pass, clock, ids, source, sink) {
            Step::Next => {}
            Step::Ended(ended) => return ended,
        }
    }
}

/// Answers the requests of one connection from a world that nobody else enters (OCI Distribution Specification 1.1).
/// It never waits. Each upload that starts has the id of the next word of `ids`, and the moment that the clock reads.
pub fn serve_alone<D: Depot, K, C: Clock, I: Ids, S: Source, O: Sink>(
    alloc: Global,
    world: &mut World<D, K>,
    clock: &C,
    ids: &mut I,
    source: &mut S,
    sink: &mut O,
) -> Ended<D::B>
where
    D::B: Drop,
    ensures session { Session (λ old new. new ≡ old) (own 0 (C.reading clock.now))
        (Rose (O.faults sink.old) (O.faults sink.new))
        (here (shown D.held D.faults world.old) (I.words ids.old) (S.left source.old)
        (S.left source.old) (O.taken sink.old))
        (here (shown D.held D.faults world.new) (I.words ids.new) (S.left source.new)
        (S.left source.new) (O.taken sink.new)) result }
    ensures causes { Causes (S.faults source.old) (S.faults source.new) (O.faults sink.old)
        (O.faults sink.new) (S.given source.old) (S.given source.new) D.B.faults result }
    ensures keeper { keeper_of world.new ≡ keeper_of world.old }
{
    let mut lent = Lent { world };
    serve(alloc, &mut lent, &Nothing, clock, ids, source, sink)
}
