//! Moving a reader of a body to the next data.
ghost use Rattle.std.specs.Prelude.{◌≡◌, ℕ, ◌≤◌, ◌⊎◌, ◌^◌, List, IsErrOf};
ghost use Rattle.std.specs.Io.KnownBytes.{IsAtEnd};
ghost use Rattle.reg_names.specs.Cause.{HasCause};
ghost use Rattle.http_wire.specs.Bodies.{due, Skips};
ghost use Rattle.http_wire.specs.BodyAnswers.{state_of};
ghost use Rattle.http_wire.specs.InnerReaching.{CanReach, IsReachEnd, HasDue, EndsInPiece};
ghost use Rattle.http_wire.specs.Limits.{feed_limit};
ghost use Rattle.http_wire.specs.Flow.{stream, spent, OnStream, Counts};

use crate::body::{BodyState, Piece};
use crate::pieces::take_piece;
use crate::stop::Stop;
use crate::{BodyReader, Feed, Source};

/// Takes off the stream what stands before the next data of a body, or before its end, and answers
/// how many bytes of data are to come: 0 at the end.
pub(crate) fn reach_data<S: Source>(
    feed: &mut Feed,
    source: &mut S,
    body: &mut BodyReader,
) -> Result<u64, Stop>
    ensures moved { OnStream (stream feed.old (S.left source.old))
        (stream feed.new (S.left source.new))
        (λ old new. Skips (state_of body.old) old (state_of body.new) new) }
    ensures stopped { OnStream (stream feed.old (S.left source.old))
        (stream feed.new (S.left source.new))
        (λ old new. IsReachEnd result (state_of body.new) new) }
    ensures left { HasDue result (due (state_of body.new)) }
    ensures known { CanReach (state_of body.old) result (state_of body.new) }
    ensures at_hand { ((source.new ≡ source.old)
        × Skips (state_of body.old) feed.old.pending (state_of body.new) feed.new.pending)
        ⊎ EndsInPiece (state_of body.old) feed.old.pending }
    ensures at_end { IsErrOf result Stop.Ended → IsAtEnd (S.left source.new) }
    ensures progress { spent feed.old ≤ spent feed.new }
    ensures cause { HasCause (S.faults source.old) (S.faults source.new)
        (IsErrOf result Stop.SourceFault) }
    ensures long { IsErrOf result Stop.Long → feed_limit ≤ feed.new.taken }
    ensures counts { Counts feed.old (S.given source.old) feed.new (S.given source.new) }
{
    loop {
        match body.state {
            BodyState::Done => return Ok(0),
            BodyState::Refused => return Err(Stop::Malformed),
            BodyState::Fixed(0) => body.state = BodyState::Done,
            BodyState::Data(0) => body.state = BodyState::Before(Piece::Gap),
            BodyState::Fixed(left) => return Ok(left),
            BodyState::Data(left) => return Ok(left),
            BodyState::Before(piece) => body.state = take_piece(feed, source, piece)?,
        }
    }
}
