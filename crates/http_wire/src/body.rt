//! Readers of bodies.
ghost use Rattle.std.specs.Prelude.{◌≡◌, ◌≤◌};
ghost use Rattle.http_wire.specs.Bodies.{due, less};
ghost use Rattle.http_wire.specs.BodyAnswers.{state_of, first_state};
ghost use Rattle.http_wire.specs.InnerReaching.{step_of, taking_of};

use crate::Framing;
use crate::stop::Stop;

/// What has to come before more data of a chunked body (RFC 9112, section 7.1).
#[derive(Clone, Copy, Debug, PartialEq, Eq)]
pub(crate) enum Piece {
    /// CR LF after the data of a chunk.
    Gap,
    /// The size line of a chunk.
    Line,
    /// The trailer fields and the empty line behind the last chunk.
    Trailer,
}

/// Where a reader stands.
#[derive(Clone, Copy, Debug, PartialEq, Eq)]
pub(crate) enum BodyState {
    /// So many bytes are left of a body of a known length.
    Fixed(u64),
    /// So many bytes are left of the data of a chunk.
    Data(u64),
    Before(Piece),
    Done,
    Refused,
}

/// Reads one body, step by step.
#[derive(Clone, Copy, Debug)]
pub struct BodyReader {
    pub(crate) state: BodyState,
}

/// What one step of a body gave.
#[derive(Clone, Copy, Debug, PartialEq, Eq)]
pub enum BodyStep {
    /// So many decoded bytes stand at the front of the buffer.
    Bytes(usize),
    /// The body is whole.
    End,
    /// The input ended inside the body.
    Cut,
    /// The body is malformed.
    Bad,
    /// The source failed, and its count of faults rose.
    SourceFault,
    /// The feed has taken 2^50 bytes.
    Long,
}

/// What came of a body that was to be staged.
#[derive(Clone, Copy, Debug, PartialEq, Eq)]
pub enum BodyTaken {
    /// The body is whole, and so many bytes were staged.
    Whole(u64),
    /// The Content-Length, or the sum of the chunks, passes what may come.
    TooLong,
    /// The input ended inside the body.
    Cut,
    /// The body is malformed.
    Bad,
    /// The source failed, and its count of faults rose.
    SourceFault,
    /// The feed has taken 2^50 bytes.
    Long,
    /// The stage failed, and its count of faults rose.
    StageFault,
    NoMemory,
}

impl BodyStep {
    /// What a reader that stopped so answers.
    pub(crate) fn of(stop: Stop) -> BodyStep
        ensures { result ≡ step_of stop }
    {
        match stop {
            Stop::Ended => BodyStep::Cut,
            Stop::Malformed => BodyStep::Bad,
            Stop::SourceFault => BodyStep::SourceFault,
            Stop::Long => BodyStep::Long,
        }
    }
}

impl BodyTaken {
    /// What a reader that stopped so answers.
    pub(crate) fn of(stop: Stop) -> BodyTaken
        ensures { result ≡ taking_of stop }
    {
        match stop {
            Stop::Ended => BodyTaken::Cut,
            Stop::Malformed => BodyTaken::Bad,
            Stop::SourceFault => BodyTaken::SourceFault,
            Stop::Long => BodyTaken::Long,
        }
    }
}

impl BodyReader {
    /// A reader that stands before the body. A body of bad framing is malformed.
    pub fn new(framing: Framing) -> BodyReader
        ensures { state_of result ≡ first_state framing }
    {
        let state = match framing {
            Framing::Length(length) => BodyState::Fixed(length),
            Framing::Chunked => BodyState::Before(Piece::Line),
            Framing::Bad => BodyState::Refused,
        };
        BodyReader { state }
    }

    /// So many bytes of the data that it stands in have come.
    pub(crate) fn pass(&mut self, count: u64)
        requires { count ≤ due (state_of self.old) }
        ensures { state_of self.new ≡ less (state_of self.old) count }
    {
        match self.state {
            BodyState::Fixed(left) => self.state = BodyState::Fixed(left - count),
            BodyState::Data(left) => self.state = BodyState::Data(left - count),
            _ => {}
        }
    }
}
