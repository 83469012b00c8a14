//! Putting the body of a request into a stage.
ghost use Rattle.std.specs.Prelude.{◌≡◌, ℕ, ◌+◌, ◌-◌, ◌<◌, ◌≤◌, ◌⊎◌, ◌^◌, List, [], ◌++◌, length, IfOk, IfErr, IsErrOf};
ghost use Rattle.std.specs.Io.KnownBytes.{IsAtEnd};
ghost use Rattle.reg_names.specs.Cause.{HasCause};
ghost use Rattle.depot_api.specs.Limits.{file_limit};
ghost use Rattle.http_wire.specs.BodyAnswers.{state_of};
ghost use Rattle.http_wire.specs.Bodies.{due, Outcome, Runs, ends_before, Stops};
ghost use Rattle.http_wire.specs.Filling.{TakesBody, IsTakingEnd, KeepsLimit, CanAnswer, Extends, IfWhole, FillsOn, Fills, Filling, within, is_too_long, IsBodyOpen};
ghost use Rattle.http_wire.specs.Flow.{stream, spent, OnStream, Counts};
ghost use Rattle.http_wire.specs.Limits.{feed_limit};
ghost use Rattle.http_wire.specs.InnerPuts.{PutsSome, PutsUpTo, IsInData, IsOfStage, TakesOff};

use crate::reach::reach_data;
use crate::{BodyReader, BodyTaken, Feed, Source, Stage};
use depot_api::Refused;

/// Puts the rest of a body (RFC 9112, sections 6.2 and 7.1) behind the staged bytes, where it has
/// at most `most` bytes. It is too long as soon as what its Content-Length, or its chunks so far,
/// say passes that. Whatever the answer is, what was staged before stays, and what the reader gave
/// stands behind it. A stage that failed may also hold a front of the data that were due, which are
/// not taken off the stream.
///
/// What was not read still stands in the stream: what follows a whole body, the data that would
/// pass `most`, a malformed piece, or one that is cut. So a body that is whole, cut or malformed is
/// so at each later call too, and after the other answers a later call goes on.
///
/// What the bytes are is told where the source tells its bytes, and which are staged where the
/// stage tells that.
pub fn take_body<S: Source, T: Stage>(
    feed: &mut Feed,
    source: &mut S,
    body: &mut BodyReader,
    most: u64,
    stage: &mut T,
) -> BodyTaken
    requires { (T.held stage.old).count + most ≤ file_limit }

    // Where the source tells its bytes: what the reader moved on over, and where it stands.
    ensures moved { OnStream (stream feed.old (S.left source.old))
        (stream feed.new (S.left source.new))
        (λ old new. TakesBody result most (state_of body.old) old (state_of body.new) new
        (T.held stage.old) (T.held stage.new)) }
    ensures ended { OnStream (stream feed.old (S.left source.old))
        (stream feed.new (S.left source.new))
        (λ old new. IsTakingEnd result (state_of body.new) new) }

    // Over every source: when it is too long, and what the reader knows before it reads.
    ensures too_long { KeepsLimit result most ((T.held stage.new).count - (T.held stage.old).count)
        (due (state_of body.new)) }
    ensures known { CanAnswer (state_of body.old) most result }

    // What stays staged, and how many bytes come behind it, also where a device does not tell
    // which.
    ensures kept { Extends (T.held stage.old) (T.held stage.new) }
    ensures whole { IfWhole result (λ n. (T.held stage.new).count ≡ (T.held stage.old).count + n) }
    ensures grows { (T.held stage.old).count ≤ (T.held stage.new).count }
    ensures limit { (T.held stage.new).count ≤ (T.held stage.old).count + most }

    // The source is not read where what waits says how the body ends, and it has ended where the
    // answer says so.
    ensures at_hand { ¬ (IsBodyOpen most (state_of body.old) feed.old.pending)
        → source.new ≡ source.old }
    ensures at_end { result ≡ BodyTaken.Cut → IsAtEnd (S.left source.new) }

    // That readers come to an end.
    ensures progress { spent feed.old ≤ spent feed.new }

    // Why it gave up.
    ensures source_cause { HasCause (S.faults source.old) (S.faults source.new)
        (result ≡ BodyTaken.SourceFault) }
    ensures stage_cause { HasCause (T.faults stage.old) (T.faults stage.new)
        (result ≡ BodyTaken.StageFault) }
    ensures long { result ≡ BodyTaken.Long → feed_limit ≤ feed.new.taken }
    ensures counts { Counts feed.old (S.given source.old) feed.new (S.given source.new) }
{
    let mut room = most;
    loop {
        match reach_data(feed, source, body) {
            Ok(0) => return BodyTaken::Whole(most - room),
            Ok(left) if left > room => return BodyTaken::TooLong,
            Ok(left) => match put_data(feed, source, left, stage) {
                Ok(count) => {
                    body.pass(count);
                    room -= count;
                }
                Err(answer) => return answer,
            },
            Err(stop) => return BodyTaken::of(stop),
        }
    }
}

// Stages some of the `left` bytes that stand in the stream as they are, and answers how many.
fn put_data<S: Source, T: Stage>(
    feed: &mut Feed,
    source: &mut S,
    left: u64,
    stage: &mut T,
) -> Result<u64, BodyTaken>
    requires some { 0 < left }
    requires room { (T.held stage.old).count + left ≤ file_limit }
    ensures bytes { OnStream (stream feed.old (S.left source.old))
        (stream feed.new (S.left source.new)) (λ old new. PutsSome result left old new
        (T.held stage.old) (T.held stage.new)) }
    ensures count { PutsUpTo result left (T.held stage.old).count (T.held stage.new).count }
    ensures kept { Extends (T.held stage.old) (T.held stage.new) }
    ensures inside { IfErr result IsInData }
    ensures at_hand { ((source.new ≡ source.old)
        × IfOk result (λ n. TakesOff n feed.old.pending feed.new.pending))
        ⊎ (feed.old.pending ≡ []) }
    ensures at_end { IsErrOf result BodyTaken.Cut → IsAtEnd (S.left source.new) }
    ensures progress { spent feed.old ≤ spent feed.new }
    ensures source_cause { HasCause (S.faults source.old) (S.faults source.new)
        (IsErrOf result BodyTaken.SourceFault) }
    ensures stage_cause { HasCause (T.faults stage.old) (T.faults stage.new)
        (IsErrOf result BodyTaken.StageFault) }
    ensures long { IsErrOf result BodyTaken.Long → feed_limit ≤ feed.new.taken }
    ensures counts { Counts feed.old (S.given source.old) feed.new (S.given source.new) }
{
    match feed.wait(source) {
        Ok(()) => put_waiting(feed, left, stage),
        Err(stop) => Err(BodyTaken::of(stop)),
    }
}

// Stages the bytes that wait, but no more than are left.
fn put_waiting<T: Stage>(feed: &mut Feed, left: u64, stage: &mut T) -> Result<u64, BodyTaken>
    requires some { 0 < left }
    requires waiting { 0 < length feed.old.pending }
    requires room { (T.held stage.old).count + left ≤ file_limit }
    ensures bytes { PutsSome result left feed.old.pending feed.new.pending
        (T.held stage.old) (T.held stage.new) }
    ensures count { PutsUpTo result left (T.held stage.old).count (T.held stage.new).count }
    ensures kept { Extends (T.held stage.old) (T.held stage.new) }
    ensures of_stage { IfErr result IsOfStage }
    ensures moved { IfOk result (λ n. TakesOff n feed.old.pending feed.new.pending) }
    ensures taken { feed.new.taken ≡ feed.old.taken }
    ensures progress { spent feed.old ≤ spent feed.new }
    ensures stage_cause { HasCause (T.faults stage.old) (T.faults stage.new)
        (IsErrOf result BodyTaken.StageFault) }
{
    let waiting = feed.pending();
    let count = left.min(waiting.len() as u64) as usize;
    match stage.append(&waiting[..count]) {
        Ok(()) => {
            feed.skip(count);
            Ok(count as u64)
        }
        Err(Refused::Failed) => Err(BodyTaken::StageFault),
        Err(Refused::NoMemory) => Err(BodyTaken::NoMemory),
    }
}

/// A law: a body of which so many bytes may come is taken in one way.
pub fn limits_are_exact()
    ensures { (most : ℕ) (reader : BodyReader) (bytes one other : List ℕ) (end last : Filling)
        → Fills most (state_of reader) bytes one end
        → Fills most (state_of reader) bytes other last → (one ≡ other) × (end ≡ last) }
{}

/// A law: a whole body is taken exactly where it has at most `most` bytes, and else it is too long,
/// and a front of it of at most so many bytes is taken; and what is taken is the body that
/// `read_body` reads.
pub fn limits_count_decoded_bytes()
    ensures fits { (most : ℕ) (reader : BodyReader) (bytes body rest : List ℕ)
        → Runs (state_of reader) bytes body (ends_before rest)
        → length body ≤ most → Fills most (state_of reader) bytes body (within (ends_before rest)) }
    ensures passes { (most : ℕ) (reader : BodyReader) (bytes body rest : List ℕ)
        → Runs (state_of reader) bytes body (ends_before rest)
        → most < length body → (begin : List ℕ) × (more : List ℕ) × (body ≡ begin ++ more)
        × (length begin ≤ most)
        × Fills most (state_of reader) bytes begin is_too_long }
    ensures same { (most : ℕ) (reader : BodyReader) (bytes body : List ℕ) (outcome : Outcome)
        → Fills most (state_of reader) bytes body (within outcome)
        → Runs (state_of reader) bytes body outcome }
{}

/// A law: what the calls of `take_body` give one after another is what one call gives of the whole
/// body, and where an answer says how the body ended, or that it is too long, that is so of the
/// whole.
pub fn takings_add_up()
    ensures goes_on { (most : ℕ) (reader moved : BodyReader) (bytes given rest decoded : List ℕ)
        (filling : Filling)
        → FillsOn most (state_of reader) bytes given (state_of moved) rest
        → Fills (most - length given) (state_of moved) rest decoded filling
        → Fills most (state_of reader) bytes (given ++ decoded) filling }
    ensures ends { (most : ℕ) (reader moved : BodyReader) (bytes given rest : List ℕ)
        (outcome : Outcome)
        → FillsOn most (state_of reader) bytes given (state_of moved) rest
        → due (state_of moved) ≤ most - length given
        → Stops (state_of moved) rest [] outcome
        → Fills most (state_of reader) bytes given (within outcome) }
    ensures is_long { (most : ℕ) (reader moved : BodyReader) (bytes given rest : List ℕ)
        → FillsOn most (state_of reader) bytes given (state_of moved) rest
        → most - length given < due (state_of moved)
        → Fills most (state_of reader) bytes given is_too_long }
{}
