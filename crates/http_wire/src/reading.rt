//! Reading the head of a request.
ghost use Rattle.std.specs.Prelude.{◌≡◌, ℕ, ◌^◌, ◌<◌, ◌≤◌, ◌⊎◌, List};
ghost use Rattle.std.specs.Io.KnownBytes.{IsAtEnd};
ghost use Rattle.reg_names.specs.Cause.{HasCause};
ghost use Rattle.http_wire.specs.Answers.{IfHead, IfBad, TellsHead, IsEndOfInput, IsHeadOpen, malformed, too_large};
ghost use Rattle.http_wire.specs.InnerHeads.{EndsAs};
ghost use Rattle.http_wire.specs.Flow.{stream, spent, IsBounded, OnStream, Counts};
ghost use Rattle.http_wire.specs.Limits.{feed_limit};
ghost use Rattle.http_wire.specs.Heads.{Verdict, Holds};

use crate::judge::is_blank;
use crate::stop::Stop;
use crate::{Feed, Heading, Source};
use std::alloc::Global;

/// Reads the head of a request (RFC 9112, sections 2 to 5) that the stream begins with, and takes
/// it off the stream. With any other answer the stream is as it was. Where the source tells its
/// bytes, the answer is what they are. Nothing is judged before a line feed has come that stands
/// past the leading CR and LF bytes, or 16,384 bytes have come. Only the head takes memory.
pub fn read_head<S: Source>(alloc: Global, feed: &mut Feed, source: &mut S) -> Heading
    // What the bytes are: the waiting ones and those that the source has left.
    ensures answer { OnStream (stream feed.old (S.left source.old))
        (stream feed.new (S.left source.new)) (TellsHead result) }

    // Also where the source does not tell its bytes.
    ensures minor { IfHead result (λ head. head.minor ≤ 1) }
    ensures refusal { IfBad result (λ number. (number ≡ malformed) ⊎ (number ≡ too_large)) }

    // The source is not read where what waits is a head, or is refused, and it has ended where the
    // answer says so.
    ensures at_hand { ¬ (IsHeadOpen feed.old.pending) → source.new ≡ source.old }
    ensures at_end { IsEndOfInput result → IsAtEnd (S.left source.new) }

    // That readers come to an end.
    ensures bounded { IsBounded feed.new }
    ensures progress { spent feed.old ≤ spent feed.new }
    ensures heads { IfHead result (λ _. spent feed.old < spent feed.new) }

    // Why it gave up.
    ensures cause { HasCause (S.faults source.old) (S.faults source.new)
        (result ≡ Heading.SourceFault) }
    ensures long { result ≡ Heading.Long → feed_limit ≤ feed.new.taken }
    ensures counts { Counts feed.old (S.given source.old) feed.new (S.given source.new) }
{
    loop {
        match feed.judge(alloc) {
            Ok(Some((head, count))) => {
                feed.skip(count);
                return Heading::Head(head);
            }
            Ok(None) => {}
            Err(answer) => return answer,
        }
        match feed.refill(source) {
            Ok(()) => {}
            Err(Stop::Ended) => return ended(feed.pending()),
            Err(Stop::SourceFault) => return Heading::SourceFault,
            Err(Stop::Long) => return Heading::Long,
            Err(Stop::Malformed) => unreachable!(),
        }
    }
}

// What an input that ends here was.
fn ended(bytes: &[u8]) -> Heading
    ensures { EndsAs result bytes.now }
{
    if is_blank(bytes) {
        Heading::End
    } else {
        Heading::Cut
    }
}

/// A law: one answer at most holds of a stream, and a head is one.
pub fn heads_are_exact()
    ensures { (bytes : List ℕ) (one other : Verdict) → Holds bytes one → Holds bytes other
        → one ≡ other }
{}
