//! Bodies that nobody wants.
ghost use Rattle.std.specs.Prelude.{◌≡◌, ◌≤◌, ◌^◌, Some, None};
ghost use Rattle.std.specs.Io.KnownBytes.{IsAtEnd};
ghost use Rattle.reg_names.specs.Cause.{HasCause};
ghost use Rattle.depot_api.specs.Limits.{file_limit};
ghost use Rattle.http_wire.specs.BodyAnswers.{state_of};
ghost use Rattle.http_wire.specs.Flow.{stream, spent, OnStream, Counts};
ghost use Rattle.http_wire.specs.Limits.{feed_limit};
ghost use Rattle.reg_session.specs.Bodies.{Drops};
ghost use Rattle.reg_session.specs.Requests.{parts_in, body_state};
ghost use Rattle.reg_session.specs.InnerBodies.{IsSmallLimit};

use depot_api::{Source, Stage};
use http_wire::{BodyReader, BodyStep, BodyTaken, Feed, Head, framing, read_body, take_body};
use reg_names::Refused;

/// How many bytes of a body are held at once.
const PIECE: usize = 16_384;

/// What came of a body that was dropped.
#[derive(Clone, Copy, Debug, PartialEq, Eq)]
pub(crate) enum Dropped {
    Whole,
    TooLong,
    /// The input ended inside the body.
    Cut,
    Malformed,
    SourceFault,
    /// The feed has taken 2^50 bytes.
    Long,
    NoMemory,
}

/// Reads the body of a request and drops it: up to so many bytes, or however many there are.
pub(crate) fn drop_body<S: Source>(
    feed: &mut Feed,
    source: &mut S,
    head: &Head,
    limit: Option<u64>,
) -> Dropped
    requires { IsSmallLimit limit }
    ensures body { OnStream (stream feed.old (S.left source.old))
        (stream feed.new (S.left source.new))
        (Drops result limit (body_state (parts_in head.now))) }
    ensures at_end { result ≡ Dropped.Cut → IsAtEnd (S.left source.new) }
    ensures progress { spent feed.old ≤ spent feed.new }
    ensures cause { HasCause (S.faults source.old) (S.faults source.new)
        (result ≡ Dropped.SourceFault) }
    ensures long { result ≡ Dropped.Long → feed_limit ≤ feed.new.taken }
    ensures counts { Counts feed.old (S.given source.old) feed.new (S.given source.new) }
{
    let mut body = BodyReader::new(framing(head));
    match limit {
        Some(most) => drop_within(feed, source, &mut body, most),
        None => drop_all(feed, source, &mut body),
    }
}

/// Reads on in a body and drops it, up to so many bytes.
pub(crate) fn drop_within<S: Source>(
    feed: &mut Feed,
    source: &mut S,
    body: &mut BodyReader,
    most: u64,
) -> Dropped
    requires { most ≤ file_limit }
    ensures body { OnStream (stream feed.old (S.left source.old))
        (stream feed.new (S.left source.new)) (Drops result (Some most) (state_of body.old)) }
    ensures at_end { result ≡ Dropped.Cut → IsAtEnd (S.left source.new) }
    ensures progress { spent feed.old ≤ spent feed.new }
    ensures cause { HasCause (S.faults source.old) (S.faults source.new)
        (result ≡ Dropped.SourceFault) }
    ensures long { result ≡ Dropped.Long → feed_limit ≤ feed.new.taken }
    ensures counts { Counts feed.old (S.given source.old) feed.new (S.given source.new) }
{
    let mut sieve = Sieve { count: 0 };
    match take_body(feed, source, body, most, &mut sieve) {
        BodyTaken::Whole(_) => Dropped::Whole,
        BodyTaken::TooLong => Dropped::TooLong,
        BodyTaken::Cut => Dropped::Cut,
        BodyTaken::Bad => Dropped::Malformed,
        BodyTaken::SourceFault => Dropped::SourceFault,
        BodyTaken::Long => Dropped::Long,
        BodyTaken::StageFault | BodyTaken::NoMemory => Dropped::NoMemory,
    }
}

// However many there are.
fn drop_all<S: Source>(feed: &mut Feed, source: &mut S, body: &mut BodyReader) -> Dropped
    ensures body { OnStream (stream feed.old (S.left source.old))
        (stream feed.new (S.left source.new)) (Drops result None (state_of body.old)) }
    ensures at_end { result ≡ Dropped.Cut → IsAtEnd (S.left source.new) }
    ensures progress { spent feed.old ≤ spent feed.new }
    ensures cause { HasCause (S.faults source.old) (S.faults source.new)
        (result ≡ Dropped.SourceFault) }
    ensures long { result ≡ Dropped.Long → feed_limit ≤ feed.new.taken }
    ensures counts { Counts feed.old (S.given source.old) feed.new (S.given source.new) }
{
    let mut piece = [0; PIECE];
    loop {
        match read_body(feed, source, body, &mut piece) {
            BodyStep::Bytes(_) => {}
            BodyStep::End => return Dropped::Whole,
            BodyStep::Cut => return Dropped::Cut,
            BodyStep::Bad => return Dropped::Malformed,
            BodyStep::SourceFault => return Dropped::SourceFault,
            BodyStep::Long => return Dropped::Long,
        }
    }
}

// A stage that keeps nothing.
#[derive(Drop)]
struct Sieve {
    count: u64,
    ghost few: { count ≤ 2 ^ 62 },
}

impl Stage for Sieve {
    ghost use Rattle.std.specs.Prelude.{false, []};

    ghost held = { λ s. record { path = []; tells = false; count = s.count; bytes = [] } };

    ghost faults = { λ _. 0 };

    fn length(&self) -> u64 {
        self.count
    }

    fn append(&mut self, piece: &[u8]) -> Result<(), Refused> {
        self.count += piece.len() as u64;
        Ok(())
    }

    fn read_at(&mut self, at: u64, into: &mut [u8]) -> Result<usize, Refused> {
        Ok((into.len() as u64).min(self.count.saturating_sub(at)) as usize)
    }
}
