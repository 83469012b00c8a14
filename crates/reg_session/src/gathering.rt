//! Bodies that are wanted: those that are put behind the bytes of an upload, and manifests.
ghost use Rattle.std.specs.Prelude.{◌≡◌, ◌+◌, ◌<◌, ◌≤◌, ◌^◌, IfErr, IfOk, option_copied, vec_len};
ghost use Rattle.std.specs.Io.KnownBytes.{IsAtEnd};
ghost use Rattle.reg_names.specs.Cause.{HasCause};
ghost use Rattle.depot_api.specs.Limits.{file_limit};
ghost use Rattle.http_wire.specs.BodyAnswers.{state_of};
ghost use Rattle.http_wire.specs.Flow.{stream, spent, OnStream, Counts};
ghost use Rattle.http_wire.specs.Limits.{feed_limit};
ghost use Rattle.manifest_doc.specs.Pushed.{IsJudged};
ghost use Rattle.reg_session.specs.InnerGathering.{dropped_of, gathered_of, Gathers, Grows, TakesManifest};
ghost use Rattle.reg_session.specs.InnerSteps.{IsBroken};
ghost use Rattle.reg_session.specs.Requests.{parts_in, body_limit, body_state};

use crate::bodies::{Dropped, drop_within};
use crate::deciding::{BODY_LIMIT, UPLOAD_LIMIT};
use depot_api::{Source, Stage};
use http_wire::{BodyReader, BodyTaken, Feed, Head, framing, take_body};
use manifest_doc::Pushed;
use reg_names::{Bytes, Refused, Text};
use std::alloc::{AllocError, Global};

/// What came of a body that was put behind the bytes of an upload.
#[derive(Clone, Copy, Debug, PartialEq, Eq)]
pub(crate) enum Gathered {
    /// All of it is there.
    Whole,
    /// It came whole, but the stage failed: some of it is there, from the first byte on.
    Failed,
    /// It did not come whole.
    Broken(Dropped),
}

impl Gathered {
    // What came of a body, where the stage did not fail.
    fn of(taken: BodyTaken) -> Gathered
        ensures { result ≡ gathered_of taken }
    {
        match taken {
            BodyTaken::Whole(_) => Gathered::Whole,
            other => Gathered::Broken(dropped(other)),
        }
    }
}

// What came of a body that was taken into a stage.
fn dropped(taken: BodyTaken) -> Dropped
    ensures { result ≡ dropped_of taken }
{
    match taken {
        BodyTaken::Whole(_) => Dropped::Whole,
        BodyTaken::TooLong => Dropped::TooLong,
        BodyTaken::Cut => Dropped::Cut,
        BodyTaken::Bad => Dropped::Malformed,
        BodyTaken::SourceFault => Dropped::SourceFault,
        BodyTaken::Long => Dropped::Long,
        BodyTaken::StageFault | BodyTaken::NoMemory => Dropped::NoMemory,
    }
}

/// Puts the body of a request behind the bytes of an upload, as far as its limit. Where the stage fails, the rest of the
/// body is dropped.
pub(crate) fn gather<S: Source, T: Stage>(
    feed: &mut Feed,
    source: &mut S,
    head: &Head,
    stage: &mut T,
) -> Gathered
    ensures body { OnStream (stream feed.old (S.left source.old))
        (stream feed.new (S.left source.new))
        (Gathers result (0 < T.faults stage.new) (body_state (parts_in head.now))
        (T.held stage.old) (T.held stage.new)) }
    ensures grows { Grows (T.held stage.old) (T.held stage.new) }
    ensures failed { result ≡ Gathered.Failed → 0 < T.faults stage.new }
    ensures broken { (d : Dropped) → result ≡ Gathered.Broken d → IsBroken d }
    ensures at_end { result ≡ Gathered.Broken Dropped.Cut → IsAtEnd (S.left source.new) }
    ensures progress { spent feed.old ≤ spent feed.new }
    ensures cause { HasCause (S.faults source.old) (S.faults source.new)
        (result ≡ Gathered.Broken Dropped.SourceFault) }
    ensures long { result ≡ Gathered.Broken Dropped.Long → feed_limit ≤ feed.new.taken }
    ensures counts { Counts feed.old (S.given source.old) feed.new (S.given source.new) }
{
    let before = stage.length();
    let room = UPLOAD_LIMIT.saturating_sub(before);
    let mut body = BodyReader::new(framing(head));
    let taken = take_body(feed, source, &mut body, room, stage);
    let grown = stage.length() - before;
    match taken {
        BodyTaken::StageFault => match drop_within(feed, source, &mut body, room - grown) {
            Dropped::Whole => Gathered::Failed,
            other => Gathered::Broken(other),
        },
        other => Gathered::of(other),
    }
}

/// Takes the body of a request into memory, and judges it as a manifest that came with this Content-Type.
pub(crate) fn take_manifest<S: Source>(
    alloc: Global,
    feed: &mut Feed,
    source: &mut S,
    head: &Head,
    typed: Option<&Text>,
) -> Result<Pushed, Dropped>
    ensures body { OnStream (stream feed.old (S.left source.old))
        (stream feed.new (S.left source.new))
        (TakesManifest result (body_state (parts_in head.now))) }
    ensures judged { IfOk result (λ pushed.
        IsJudged (option_copied typed.entry) pushed.bytes pushed.judged) }
    ensures broken { IfErr result IsBroken }
    ensures at_end { result ≡ Err Dropped.Cut → IsAtEnd (S.left source.new) }
    ensures progress { spent feed.old ≤ spent feed.new }
    ensures cause { HasCause (S.faults source.old) (S.faults source.new)
        (result ≡ Err Dropped.SourceFault) }
    ensures long { result ≡ Err Dropped.Long → feed_limit ≤ feed.new.taken }
    ensures counts { Counts feed.old (S.given source.old) feed.new (S.given source.new) }
{
    let mut body = BodyReader::new(framing(head));
    let mut room = Room {
        bytes: Vec::new(alloc),
    };
    let taken = take_body(feed, source, &mut body, BODY_LIMIT, &mut room);
    match taken {
        BodyTaken::Whole(_) => {
            let Room { bytes } = room;
            match Pushed::of(alloc, Bytes::from_vec(bytes), typed) {
                Ok(pushed) => Ok(pushed),
                Err(_) => Err(Dropped::NoMemory),
            }
        }
        other => Err(dropped(other)),
    }
}

// A stage in memory.
#[derive(Drop)]
struct Room {
    bytes: Vec<u8>,
    ghost few: { vec_len bytes ≤ 2 ^ 62 },
}

impl Stage for Room {
    ghost use Rattle.std.specs.Prelude.{true, [], length};

    ghost held = { λ s. record { path = []; tells = true; count = length s.bytes.items; bytes = s.bytes.items } };

    ghost faults = { λ _. 0 };

    fn length(&self) -> u64 {
        self.bytes.len() as u64
    }

    fn append(&mut self, piece: &[u8]) -> Result<(), Refused> {
        match self.bytes.extend_from_slice(piece) {
            Ok(()) => Ok(()),
            Err(AllocError) => Err(Refused::NoMemory),
        }
    }

    fn read_at(&mut self, at: u64, into: &mut [u8]) -> Result<usize, Refused> {
        let from = (at as usize).min(self.bytes.len());
        let staged = &self.bytes[from..];
        let given = staged.len().min(into.len());
        into[..given].copy_from_slice(&staged[..given]);
        Ok(given)
    }
}
