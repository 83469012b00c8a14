//! Reading the body of a request.
ghost use Rattle.std.specs.Prelude.{◌≡◌, ℕ, ◌+◌, ◌<◌, ◌≤◌, ◌⊎◌, ◌^◌, List, [], ◌++◌, length, take, IfOk, IsErrOf};
ghost use Rattle.std.specs.Io.KnownBytes.{Consumes, IsAtEnd};
ghost use Rattle.reg_names.specs.Cause.{HasCause};
ghost use Rattle.http_wire.specs.Bodies.{Outcome, Runs, Moves, is_cut_short};
ghost use Rattle.http_wire.specs.BodyAnswers.{state_of, given, count_of, IsStepEnd, CanStep, IfBytes};
ghost use Rattle.http_wire.specs.Flow.{stream, spent, IsBounded, OnStream, Counts};
ghost use Rattle.http_wire.specs.Limits.{feed_limit};
ghost use Rattle.http_wire.specs.InnerReaching.{GivesData};

use crate::reach::reach_data;
use crate::stop::Stop;
use crate::{BodyReader, BodyStep, Feed, Source};

/// Reads the next decoded bytes of a body (RFC 9112, sections 6 and 7) into the front of `into`, or
/// says how the body ends. It takes no memory. After `End` the stream begins behind the body. Where
/// the source tells its bytes, the reader moves over exactly what it gives, and after `Cut` or
/// `Bad` it stands before what ends the body: every further call answers the same.
pub fn read_body<S: Source>(
    feed: &mut Feed,
    source: &mut S,
    body: &mut BodyReader,
    into: &mut [u8],
) -> BodyStep
    // What the bytes are: the waiting ones and those that the source has left.
    ensures moved { OnStream (stream feed.old (S.left source.old))
        (stream feed.new (S.left source.new))
        (λ old new. Moves (state_of body.old) old (given result into.new) (state_of body.new) new) }
    ensures ended { OnStream (stream feed.old (S.left source.old))
        (stream feed.new (S.left source.new))
        (λ old new. IsStepEnd result (state_of body.new) new) }

    // Also where the source does not tell its bytes.
    ensures known { CanStep (state_of body.old) result }
    ensures some { IfBytes result (λ n. (n ≤ length into.new) × (0 < length into.new → 0 < n)) }

    // The source is not read where what waits gives data, or ends the body, and it has ended where
    // the answer says so.
    ensures at_hand { ¬ (Runs (state_of body.old) feed.old.pending [] is_cut_short)
        → source.new ≡ source.old }
    ensures at_end { result ≡ BodyStep.Cut → IsAtEnd (S.left source.new) }

    // That readers come to an end.
    ensures progress { spent feed.old + count_of result ≤ spent feed.new }
    ensures bounded { IfBytes result (λ _. IsBounded feed.new) }

    // Why it gave up.
    ensures cause { HasCause (S.faults source.old) (S.faults source.new)
        (result ≡ BodyStep.SourceFault) }
    ensures long { result ≡ BodyStep.Long → feed_limit ≤ feed.new.taken }
    ensures counts { Counts feed.old (S.given source.old) feed.new (S.given source.new) }
{
    match reach_data(feed, source, body) {
        Ok(0) => BodyStep::End,
        Ok(left) => match read_data(feed, source, left, into) {
            Ok(count) => {
                body.pass(count as u64);
                BodyStep::Bytes(count)
            }
            Err(stop) => BodyStep::of(stop),
        },
        Err(stop) => BodyStep::of(stop),
    }
}

// Reads some of the `left` bytes that stand in the stream as they are.
fn read_data<S: Source>(
    feed: &mut Feed,
    source: &mut S,
    left: u64,
    into: &mut [u8],
) -> Result<usize, Stop>
    requires { 0 < left }
    ensures bytes { OnStream (stream feed.old (S.left source.old))
        (stream feed.new (S.left source.new)) (GivesData result into.new) }
    ensures few { IfOk result (λ n. n ≤ left) }
    ensures some { IfOk result (λ n. (n ≤ length into.new) × (0 < length into.new → 0 < n)) }
    ensures sound { ¬ (IsErrOf result Stop.Malformed) }
    ensures at_hand { (source.new ≡ source.old) ⊎ (feed.old.pending ≡ []) }
    ensures at_end { IsErrOf result Stop.Ended → IsAtEnd (S.left source.new) }
    ensures bounded { IsBounded feed.new }
    ensures progress { spent feed.old ≤ spent feed.new }
    ensures passed { IfOk result (λ n. spent feed.old + n ≤ spent feed.new) }
    ensures cause { HasCause (S.faults source.old) (S.faults source.new)
        (IsErrOf result Stop.SourceFault) }
    ensures long { IsErrOf result Stop.Long → feed_limit ≤ feed.new.taken }
    ensures counts { Counts feed.old (S.given source.old) feed.new (S.given source.new) }
{
    feed.wait(source)?;
    let most = (into.len() as u64).min(left) as usize;
    Ok(feed.copy_to(&mut into[..most]))
}

/// A law: what `read_body` gave on its way, and then what is made of the rest, is what is made of
/// the whole.
pub fn reads_add_up()
    ensures { (old new : BodyReader) (bytes given rest decoded : List ℕ) (outcome : Outcome)
        → Moves (state_of old) bytes given (state_of new) rest
        → Runs (state_of new) rest decoded outcome
        → Runs (state_of old) bytes (given ++ decoded) outcome }
{}

/// A law: one decoded body at most is read from where a reader stands, and it ends in one way.
pub fn bodies_are_exact()
    ensures { (reader : BodyReader) (bytes one other : List ℕ) (end last : Outcome)
        → Runs (state_of reader) bytes one end → Runs (state_of reader) bytes other last
        → (one ≡ other) × (end ≡ last) }
{}
