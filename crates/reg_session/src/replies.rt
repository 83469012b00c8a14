//! Replies, as they are written.
ghost use Rattle.std.specs.Prelude.{◌≡◌, ◌++◌, ◌≤◌, List, ℕ, Option, IsErr, IsSome, MatchResult, true};
ghost use Rattle.std.specs.Io.KnownBytes.{Appends};
ghost use Rattle.reg_names.specs.Cause.{Rose, HasCause};
ghost use Rattle.reg_model.specs.Answers.{refusal as refusal_with};
ghost use Rattle.reg_model.specs.Blobs.{IsBlob};
ghost use Rattle.reg_replies.specs.Replies.{wire as wire_of};
ghost use Rattle.reg_replies.specs.Writing.{Sends, memory_wire};
ghost use Rattle.reg_session.specs.Requests.{parts_in, is_last, awaits, head_only};
ghost use Rattle.reg_session.specs.Sending.{Tries};
ghost use Rattle.reg_session.specs.Turns.{wants_memory as has_no_memory};
ghost use Rattle.reg_session.specs.Works as words;
ghost use Rattle.reg_session.specs.InnerReplies.{line_for, RefusesWith, GoesOn, IsWhole, SendsAfter, Concludes, IsAfterReply, IfStepBlob, LeavesSome};

use crate::CONTINUE;
use crate::ended::{Ended, Step};
use crate::sending::{Sent, send_with_head};
use depot_api::{Blob, Sink, SinkFault};
use http_wire::{Head, ends_connection, expects_continue};
use reg_entries::numbers::{METHOD_NOT_ALLOWED, NO_MEMORY, WRONG_START};
use reg_entries::{Detail, No, Reply};
use reg_replies::{no_memory as memory_reply, wire, write_all};
use std::alloc::Global;

/// How many bytes of a blob are held at once.
const PIECE: usize = 65_536;

/// Tells a request that waits for it to go on.
pub(crate) fn send_continue<O: Sink>(sink: &mut O, head: &Head) -> Result<(), SinkFault>
    ensures wrote { Sends (O.taken sink.old) (O.taken sink.new) (line_for (parts_in head.now))
        result }
    ensures waits { IsErr result → awaits (parts_in head.now) ≡ true }
    ensures cause { HasCause (O.faults sink.old) (O.faults sink.new) (IsErr result) }
{
    if expects_continue(head) {
        write_all(sink, CONTINUE.as_bytes())
    } else {
        Ok(())
    }
}

/// Whether a reply to the request has no body.
pub(crate) fn is_head(head: &Head) -> bool
    ensures { result ≡ head_only (parts_in head.now) }
{
    head.method.as_str() == "HEAD"
}

/// The refusal with this number, which tells nothing beside it.
pub(crate) fn refusal(number: u8) -> Reply
    ensures { result ≡ refusal_with number }
{
    Reply::Refused(No {
        number,
        detail: Detail::Nothing,
    })
}

/// Writes a reply that ends the session.
pub(crate) fn refuse<B: Drop, O: Sink>(
    alloc: Global,
    sink: &mut O,
    reply: &Reply,
    head_only: bool,
) -> Ended<B>
    ensures ends { RefusesWith (words.number_of reply.now) result }
    ensures wrote { (work : words.Work) (start : Option (List ℕ))
        → Appends start (O.taken sink.old) (words.before_reply work)
        → words.text_of work ≡ words.before_reply work ++ wire_of reply.now head_only true
        → words.is_head work ≡ head_only
        → words.Wrote (Rose (O.faults sink.old) (O.faults sink.new)) result start
        (O.taken sink.new) work }
    ensures cause { HasCause (O.faults sink.old) (O.faults sink.new) (result ≡ Ended.SinkFault) }
{
    let Ok(text) = wire(alloc, reply, head_only, true) else {
        return no_memory(sink, head_only);
    };
    match write_all(sink, text.as_slice()) {
        Ok(()) => Ended::Refused(number_of(reply)),
        Err(SinkFault) => Ended::SinkFault,
    }
}

// The number of a refusal.
fn number_of(reply: &Reply) -> u8
    ensures { result ≡ words.number_of reply.now }
{
    match reply {
        Reply::Refused(no) => no.number,
        Reply::NotAllowed { .. } => METHOD_NOT_ALLOWED,
        Reply::WrongStart { .. } => WRONG_START,
        _ => 0,
    }
}

/// Tries to tell that memory was wanting, and ends the session. It takes no memory.
pub(crate) fn no_memory<B: Drop, O: Sink>(sink: &mut O, head_only: bool) -> Ended<B>
    ensures ends { result ≡ Ended.NoMemory }
    ensures wrote { Tries (Rose (O.faults sink.old) (O.faults sink.new)) (O.taken sink.old)
        (O.taken sink.new) (memory_wire head_only) }
    ensures faults { O.faults sink.old ≤ O.faults sink.new }
{
    let _ = write_all(sink, memory_reply(head_only).as_bytes());
    Ended::NoMemory
}

/// Writes the reply to a request, and the blob that follows it. The session goes on behind it, or ends.
pub(crate) fn conclude<B: Blob + Drop, O: Sink>(
    alloc: Global,
    sink: &mut O,
    head: &Head,
    reply: &Reply,
    blob: Option<B>,
) -> Step<B>
    requires { IsSome blob → IsBlob reply.now }
    ensures concludes { Concludes B.rest (Rose (O.faults sink.old) (O.faults sink.new))
        (parts_in head.now) reply.now blob (O.taken sink.old) (O.taken sink.new) result }
    ensures cause { HasCause (O.faults sink.old) (O.faults sink.new)
        (result ≡ Step.Ended Ended.SinkFault) }
    ensures blob { IfStepBlob B.faults result }
    ensures other { IsAfterReply result }
{
    let (last, head_only) = (ends_connection(head), is_head(head));
    ask_left(&blob);
    if wants_memory(reply) {
        return Step::Ended(no_memory(sink, head_only));
    }
    let Ok(text) = wire(alloc, reply, head_only, last) else {
        return Step::Ended(no_memory(sink, head_only));
    };
    match blob {
        Some(blob) => conclude_blob(sink, head_only, last, text.as_slice(), blob),
        None => after(write_all(sink, text.as_slice()), last),
    }
}

// Asks how much a blob has left, so that this is known also where none of it is sent.
fn ask_left<B: Blob>(blob: &Option<B>)
    ensures { LeavesSome B.rest blob.now }
{
    if let Some(blob) = blob {
        let _ = blob.left();
    }
}

/// Whether a reply says that memory was wanting.
pub(crate) fn wants_memory(reply: &Reply) -> bool
    ensures { result ≡ has_no_memory reply.now }
{
    matches!(
        reply,
        Reply::Refused(No {
            number: NO_MEMORY,
            ..
        })
    )
}

// Writes a head and a blob.
fn conclude_blob<B: Blob + Drop, O: Sink>(
    sink: &mut O,
    head_only: bool,
    last: bool,
    text: &[u8],
    mut blob: B,
) -> Step<B>
    ensures sends { SendsAfter (B.rest blob) head_only last text.now
        (O.taken sink.old) (O.taken sink.new) result }
    ensures whole { head_only ≡ true → IsWhole result }
    ensures cause { HasCause (O.faults sink.old) (O.faults sink.new)
        (result ≡ Step.Ended Ended.SinkFault) }
    ensures blob { IfStepBlob B.faults result }
    ensures other { IsAfterReply result }
{
    if head_only {
        let _ = blob.left();
        return after(write_all(sink, text), last);
    }
    let mut room = [0; PIECE];
    match send_with_head(text, &mut blob, sink, &mut room) {
        Sent::Whole => after(Ok(()), last),
        Sent::SinkFault => Step::Ended(Ended::SinkFault),
        Sent::BlobFault => Step::Ended(Ended::BlobFault(blob)),
    }
}

// What follows a reply that was written, or not.
fn after<B: Drop>(written: Result<(), SinkFault>, last: bool) -> Step<B>
    ensures goes { MatchResult written (λ _. GoesOn last result)
        (λ _. result ≡ Step.Ended Ended.SinkFault) }
    ensures other { IsAfterReply result }
{
    match written {
        Ok(()) if last => Step::Ended(Ended::Done),
        Ok(()) => Step::Next,
        Err(SinkFault) => Step::Ended(Ended::SinkFault),
    }
}
