//! The pieces of a chunked body that stand between its data.
ghost use Rattle.std.specs.Prelude.{◌≡◌, ℕ, ◌+◌, ◌<◌, ◌≤◌, ◌⊎◌, ◌^◌, List, length, take, drop, min, false, IfOk, OnOk, IsErrOf};
ghost use Rattle.std.specs.Io.KnownBytes.{Keeps, IsAtEnd};
ghost use Rattle.reg_names.specs.Cause.{HasCause};
ghost use Rattle.http_wire.specs.Bodies as bodies;
ghost use Rattle.http_wire.specs.Bodies.{IsCutAt};
ghost use Rattle.http_wire.specs.InnerPieces.{limit_of, JudgesPiece, IsAfter, TakesPiece};
ghost use Rattle.http_wire.specs.Limits.{feed_limit, head_limit, size_line_limit, span_limit};
ghost use Rattle.http_wire.specs.Flow.{stream, spent, IsBounded, OnStream, Counts};

use crate::body::{BodyState, Piece};
use crate::stop::Stop;
use crate::{Feed, Source};
use httparse::spans::{HeaderSpan, parse_headers};
use httparse::{Status, parse_chunk_size};

// The most bytes of a chunk's size line, and of a trailer section.
const SIZE_LINE_LIMIT: usize = 1_024;

const TRAILER_LIMIT: usize = 16_384;

// The most hexadecimal digits of a chunk's size.
const MOST_DIGITS: usize = 16;

/// The most bytes of a piece.
pub(crate) fn limit(piece: Piece) -> usize
    ensures { result ≡ limit_of piece }
{
    match piece {
        Piece::Gap => 2,
        Piece::Line => SIZE_LINE_LIMIT,
        Piece::Trailer => TRAILER_LIMIT,
    }
}

/// The state behind the piece that bytes begin with and the number of its bytes, or none where more
/// have to come. The bytes are no more than the piece may have.
pub(crate) fn judge_piece(
    piece: Piece,
    bytes: &[u8],
    spans: &mut [HeaderSpan],
) -> Result<Option<(BodyState, usize)>, Stop>
    requires few { length bytes.now ≤ limit_of piece }
    requires spans { length spans.old ≡ span_limit }
    ensures { JudgesPiece result piece bytes.now }
{
    match piece {
        Piece::Gap => judge_gap(bytes),
        Piece::Line => judge_line(bytes),
        Piece::Trailer => judge_trailer(bytes, spans),
    }
}

fn judge_gap(bytes: &[u8]) -> Result<Option<(BodyState, usize)>, Stop>
    requires { length bytes.now ≤ 2 }
    ensures { JudgesPiece result Piece.Gap bytes.now }
{
    match bytes {
        [] => Ok(None),
        [b'\r'] => Ok(None),
        [b'\r', b'\n'] => Ok(Some((BodyState::Before(Piece::Line), 2))),
        _ => Err(Stop::Malformed),
    }
}

fn judge_line(bytes: &[u8]) -> Result<Option<(BodyState, usize)>, Stop>
    requires { length bytes.now ≤ size_line_limit }
    ensures { JudgesPiece result Piece.Line bytes.now }
{
    match parse_chunk_size(bytes) {
        Ok(Status::Complete((count, size))) => Ok(Some((after_size(size), count))),
        Ok(Status::Partial) if bytes.len() < limit(Piece::Line) => Ok(None),
        Ok(Status::Partial) => Err(Stop::Malformed),
        Err(_) => Err(Stop::Malformed),
    }
}

fn after_size(size: u64) -> BodyState
    ensures { result ≡ bodies.after_size size }
{
    if size == 0 {
        BodyState::Before(Piece::Trailer)
    } else {
        BodyState::Data(size)
    }
}

fn judge_trailer(bytes: &[u8], spans: &mut [HeaderSpan]) -> Result<Option<(BodyState, usize)>, Stop>
    requires few { length bytes.now ≤ head_limit }
    requires spans { length spans.old ≡ span_limit }
    ensures { JudgesPiece result Piece.Trailer bytes.now }
{
    match parse_headers(bytes, spans) {
        Ok(Status::Complete((count, _))) => Ok(Some((BodyState::Done, count))),
        Ok(Status::Partial) if bytes.len() < limit(Piece::Trailer) => Ok(None),
        Ok(Status::Partial) => Err(Stop::Malformed),
        Err(_) => Err(Stop::Malformed),
    }
}

/// Takes a piece off the stream, and answers where a reader stands behind it. With an error the
/// stream is as it was.
pub(crate) fn take_piece<S: Source>(
    feed: &mut Feed,
    source: &mut S,
    piece: Piece,
) -> Result<BodyState, Stop>
    ensures answer { OnStream (stream feed.old (S.left source.old))
        (stream feed.new (S.left source.new)) (TakesPiece result piece) }
    ensures next { IfOk result (IsAfter piece) }
    ensures at_hand { ((source.new ≡ source.old)
        × TakesPiece result piece feed.old.pending feed.new.pending)
        ⊎ IsCutAt piece feed.old.pending }
    ensures at_end { IsErrOf result Stop.Ended → IsAtEnd (S.left source.new) }
    ensures bounded { IsBounded feed.new }
    ensures progress { spent feed.old ≤ spent feed.new }
    ensures cause { HasCause (S.faults source.old) (S.faults source.new)
        (IsErrOf result Stop.SourceFault) }
    ensures long { IsErrOf result Stop.Long → feed_limit ≤ feed.new.taken }
    ensures counts { Counts feed.old (S.given source.old) feed.new (S.given source.new) }
{
    loop {
        match feed.judge_piece(piece)? {
            Some((next, count)) => {
                feed.skip(count);
                return Ok(next);
            }
            None => read_on(feed, source, piece)?,
        }
    }
}

// Reads behind bytes that were judged, until those that wait are to be judged again. What comes in
// short reads is judged when it may be whole, and else when it has grown to twice its length: so
// the bytes of a piece are gone through a few times in all.
fn read_on<S: Source>(feed: &mut Feed, source: &mut S, piece: Piece) -> Result<(), Stop>
    requires { length feed.old.pending < head_limit }
    ensures bytes { Keeps (stream feed.old (S.left source.old))
        (stream feed.new (S.left source.new)) }
    ensures grows { OnOk result (length feed.old.pending < length feed.new.pending) }
    ensures kept { IsErrOf result Stop.Ended → feed.new ≡ feed.old }
    ensures ended { IsErrOf result Stop.Ended → IsAtEnd (S.left source.new) }
    ensures sound { ¬ (IsErrOf result Stop.Malformed) }
    ensures bounded { IsBounded feed.new }
    ensures cause { HasCause (S.faults source.old) (S.faults source.new)
        (IsErrOf result Stop.SourceFault) }
    ensures long { IsErrOf result Stop.Long → feed_limit ≤ feed.new.taken }
    ensures counts { Counts feed.old (S.given source.old) feed.new (S.given source.new) }
    ensures read_already { spent feed.new ≡ spent feed.old }
{
    let judged = feed.pending().len();
    let mut seen = judged;
    loop {
        match feed.refill(source) {
            Ok(()) if is_due(piece, feed.pending(), judged, seen) => return Ok(()),
            Ok(()) => seen = feed.pending().len(),
            Err(Stop::Ended) if seen > judged => return Ok(()),
            stopped => return stopped,
        }
    }
}

// Whether bytes are to be judged again, of which the first ones were judged, and those behind
// `seen` have just come.
fn is_due(piece: Piece, bytes: &[u8], judged: usize, seen: usize) -> bool
    requires { seen ≤ length bytes.now }
    ensures { result ≡ false → length bytes.now < limit_of piece }
{
    bytes.len() >= limit(piece) || bytes.len() / 2 >= judged || may_be_whole(piece, bytes, seen)
}

// Whether the last byte of the piece may be among those behind `seen`. A size that is none is told
// at its first wrong byte.
fn may_be_whole(piece: Piece, bytes: &[u8], seen: usize) -> bool
    requires { seen ≤ length bytes.now }
{
    match piece {
        Piece::Gap => true,
        Piece::Line => bytes.len() <= MOST_DIGITS + 1 || bytes[seen..].contains(&b'\n'),
        Piece::Trailer => has_empty_line(bytes, seen),
    }
}

// Whether an empty line ends behind `seen`.
fn has_empty_line(bytes: &[u8], seen: usize) -> bool
    requires { seen ≤ length bytes.now }
{
    for end in seen..bytes.len() {
        if is_empty_line(&bytes[..=end]) {
            return true;
        }
    }
    false
}

// Whether bytes are an empty line, or end in one.
fn is_empty_line(bytes: &[u8]) -> bool {
    match bytes {
        [b'\n'] | [b'\r', b'\n'] => true,
        [.., b'\n', b'\n'] | [.., b'\n', b'\r', b'\n'] => true,
        _ => false,
    }
}
