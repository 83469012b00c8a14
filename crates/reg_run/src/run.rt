//! The top call.
ghost use Rattle.std.specs.Prelude.{◌≡◌, ◌≤◌, ◌↔◌, map};
ghost use Rattle.std.specs.String.{string_bytes};
ghost use Rattle.reg_session.specs.Sessions.{IfBlobFault};
ghost use Rattle.reg_run.specs.Devices.{seen, depots, drawn_of, read_of, written_of};
ghost use Rattle.reg_run.specs.Arguments.{AreArguments, usage};
ghost use Rattle.reg_run.specs.Statuses.{code, status_of};
ghost use Rattle.reg_run.specs.Runs.{Once, HandsBack, Writes};
ghost use Rattle.reg_run.specs.declared.status.Status.TheVariants as statuses;

use crate::arguments::{USAGE, are_accepted};
use crate::status::Status;
use depot_api::{Clock, Depot, Ids, Sink, Source};
use reg_replies::write_all;
use reg_session::{Ended, serve_alone};
use reg_world::begin;
use std::alloc::Global;

/// How a run ended, and the devices that it was given.
#[derive(Drop)]
pub struct Ran<D, K> {
    /// The code of the `Status` that the run ended with.
    pub status: u8,
    pub depot: D,
    pub keeper: K,
}

/// Runs one command. `once` answers the requests of the input, one after the other, until the connection ends.
pub fn run_plain<D: Depot, K, C: Clock, I: Ids, S: Source, O: Sink>(
    alloc: Global,
    words: &[String],
    depot: D,
    keeper: K,
    clock: &mut C,
    ids: &mut I,
    input: &mut S,
    out: &mut O,
) -> Ran<D, K>
where
    D::B: Drop,
    // The arguments decide.
    ensures arguments { (result.status ≡ code statuses.Usage)
        ↔ (¬ AreArguments (map string_bytes words.now)) }
    ensures usage { ¬ AreArguments (map string_bytes words.now)
        → Writes (written_of O.taken O.faults out.old out.new) usage }
    ensures untouched { ¬ AreArguments (map string_bytes words.now)
        → (result.depot ≡ depot) × (input.new ≡ input.old) × (ids.new ≡ ids.old) }
    // The session, and the status.
    ensures once { AreArguments (map string_bytes words.now)
        → Once D.B.faults (depots D.held D.faults depot result.depot)
        (drawn_of C.reading I.words clock.old ids.old ids.new)
        (read_of S.left S.given S.faults input.old input.new)
        (written_of O.taken O.faults out.old out.new) result.status }
    // What is not needed comes back as it was.
    ensures keeper { result.keeper ≡ keeper }
    ensures clock { clock.new ≡ clock.old }
{
    if !are_accepted(words) {
        let _ = write_all(out, USAGE.as_bytes());
        return Ran {
            status: Status::Usage.code(),
            depot,
            keeper,
        };
    }
    once(alloc, depot, keeper, clock, ids, input, out)
}

// Serves the connection whose bytes are the input.
fn once<D: Depot, K, C: Clock, I: Ids, S: Source, O: Sink>(
    alloc: Global,
    depot: D,
    keeper: K,
    clock: &C,
    ids: &mut I,
    input: &mut S,
    out: &mut O,
) -> Ran<D, K>
where
    D::B: Drop,
    ensures once { Once D.B.faults (depots D.held D.faults depot result.depot)
        (drawn_of C.reading I.words clock.now ids.old ids.new)
        (read_of S.left S.given S.faults input.old input.new)
        (written_of O.taken O.faults out.old out.new) result.status }
    ensures keeper { result.keeper ≡ keeper }
{
    let mut world = begin(alloc, depot, keeper);
    let ended = serve_alone(alloc, &mut world, clock, ids, input, out);
    let (mut depot, keeper) = world.stop();
    let status = settle(&mut depot, ended);
    Ran {
        status: status.code(),
        depot,
        keeper,
    }
}

// Hands a blob that failed back to its depot, and tells the status.
fn settle<D: Depot>(depot: &mut D, ended: Ended<D::B>) -> Status
where
    D::B: Drop,
    requires { IfBlobFault D.B.faults ended }
    ensures status { result ≡ status_of ended }
    ensures depot { HandsBack ended (seen D.held D.faults depot.old)
        (seen D.held D.faults depot.new) }
{
    let status = Status::of(&ended);
    if let Ended::BlobFault(blob) = ended {
        depot.done(blob);
    }
    status
}
