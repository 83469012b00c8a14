//! Bytes that have come from a source, and were not read yet.
ghost use Rattle.std.specs.Prelude.{◌≡◌, ℕ, ◌+◌, ◌-◌, ◌^◌, ◌<◌, ◌≤◌, [], ◌++◌, min, length, vec_len, take, drop, slice_range, IfOk, OnOk, OnErr, IsErr, IsErrOf, MatchResult};
ghost use Rattle.std.specs.Io.KnownBytes.{ReadConsumes, Keeps, IsAtEnd};
ghost use Rattle.reg_names.specs.Cause.{HasCause};
ghost use Rattle.depot_api.specs.Streams.{counted};
ghost use Rattle.http_wire.specs.InnerHeads.{Judges};
ghost use Rattle.http_wire.specs.InnerPieces.{JudgesFront, FitsFront};
ghost use Rattle.http_wire.specs.Flow.{stream, IsBounded, Counts};
ghost use Rattle.http_wire.specs.Limits.{feed_limit, head_limit};
ghost use Rattle.http_wire.specs.Flow as words;

use crate::body::{BodyState, Piece};
use crate::judge::judge;
use crate::pieces::{judge_piece, limit};
use crate::stop::Stop;
use crate::{Head, Heading, NoMemory};
use depot_api::{Source, SourceFault};
use httparse::spans::{EMPTY_HEADER_SPAN, HeaderSpan};
use std::alloc::Global;
use std::marker::Model;

/// The most bytes of a head, and of any piece of a body.
pub(crate) const HEAD_LIMIT: usize = 16_384;

// More than the fields that so many bytes can hold.
const SPAN_LIMIT: usize = 8_192;

// A feed that has taken so many bytes takes no more.
const FEED_LIMIT: u64 = 1_125_899_906_842_624;

/// A buffer between a source and the readers of messages, which is filled from the source piece by
/// piece. Contracts see the bytes that wait in it, and how many bytes it has taken in all.
#[derive(Drop)]
pub struct Feed {
    buffer: Vec<u8>,
    spans: Vec<HeaderSpan>,
    start: usize,
    end: usize,
    taken: u64,
}

impl Model for Feed {
    ghost use Rattle.std.specs.Prelude.{◌≡◌, ◌+◌, ◌*◌, ◌-◌, ◌<◌, ◌≤◌, slice_range, length};
    ghost use Rattle.http_wire.specs.Flow.{Flow};
    ghost use Rattle.http_wire.specs.Limits.{feed_limit, head_limit, span_limit};

    ghost Value = { Flow };

    ghost view = { λ f.
        record { pending = slice_range f.buffer.items f.start f.end; taken = f.taken } };

    ghost invariant = { λ f. (f.start ≤ f.end) × (f.end ≤ head_limit)
        × (length f.buffer.items ≡ head_limit) × (length f.spans.items ≡ span_limit)
        × (f.taken < feed_limit + 2 * head_limit) × (f.end - f.start ≤ f.taken) };
}

impl Feed {
    /// An empty feed. It takes all the memory that it will ever need, about 280 KB: an error is
    /// want of it.
    pub fn new(alloc: Global) -> Result<Feed, NoMemory>
        ensures pending { IfOk result (λ f. f.pending ≡ []) }
        ensures taken { IfOk result (λ f. f.taken ≡ 0) }
    {
        Ok(Feed {
            buffer: empty_buffer(alloc, HEAD_LIMIT)?,
            spans: empty_spans(alloc, SPAN_LIMIT)?,
            start: 0,
            end: 0,
            taken: 0,
        })
    }

    /// The bytes that wait.
    pub(crate) fn pending(&self) -> &[u8]
        ensures bytes { result.now ≡ self.now.pending }
        ensures few { length self.now.pending ≤ head_limit }
        ensures bounded { IsBounded self.now }
    {
        &self.buffer[self.start..self.end]
    }

    /// The head that waits, as `judge` finds it.
    pub(crate) fn judge(&mut self, alloc: Global) -> Result<Option<(Head, usize)>, Heading>
        ensures kept { self.new ≡ self.old }
        ensures judged { Judges result self.old.pending }
        ensures few { length self.old.pending ≤ head_limit }
        ensures bounded { IsBounded self.old }
    {
        judge(alloc, &self.buffer[self.start..self.end], &mut self.spans)
    }

    /// The piece that waits, as `judge_piece` finds it.
    pub(crate) fn judge_piece(&mut self, piece: Piece) -> Result<Option<(BodyState, usize)>, Stop>
        ensures kept { self.new ≡ self.old }
        ensures judged { JudgesFront result piece self.old.pending }
        ensures fits { FitsFront result self.old.pending }
        ensures bounded { IsBounded self.old }
    {
        let end = self.end.min(self.start + limit(piece));
        judge_piece(piece, &self.buffer[self.start..end], &mut self.spans)
    }

    /// Copies bytes off the front: as many as there are and as fit.
    pub(crate) fn copy_to(&mut self, into: &mut [u8]) -> usize
        ensures count { result ≡ min (length self.old.pending) (length into.old) }
        ensures bytes { self.old.pending ≡ take result into.new ++ self.new.pending }
        ensures taken { self.new.taken ≡ self.old.taken }
        ensures bounded { IsBounded self.old × IsBounded self.new }
    {
        let count = into.len().min(self.end - self.start);
        into[..count].copy_from_slice(&self.buffer[self.start..self.start + count]);
        self.start += count;
        count
    }

    /// Takes bytes off the front.
    pub(crate) fn skip(&mut self, count: usize)
        requires { count ≤ length self.old.pending }
        ensures pending { self.new.pending ≡ drop count self.old.pending }
        ensures taken { self.new.taken ≡ self.old.taken }
    {
        self.start += count;
    }

    /// Reads once from the source, where no bytes wait.
    pub(crate) fn wait<S: Source>(&mut self, source: &mut S) -> Result<(), Stop>
        ensures bytes { Keeps (stream self.old (S.left source.old))
            (stream self.new (S.left source.new)) }
        ensures some { OnOk result (0 < length self.new.pending) }
        ensures ended { IsErrOf result Stop.Ended → (self.new.pending ≡ [])
            × IsAtEnd (S.left source.new) }
        ensures at_hand { 0 < length self.old.pending → (source.new ≡ source.old)
            × (self.new ≡ self.old) }
        ensures sound { ¬ (IsErrOf result Stop.Malformed) }
        ensures cause { HasCause (S.faults source.old) (S.faults source.new)
            (IsErrOf result Stop.SourceFault) }
        ensures long { IsErrOf result Stop.Long → feed_limit ≤ self.new.taken }
        ensures counts { Counts self.old (S.given source.old) self.new (S.given source.new) }
        ensures bounded { IsBounded self.new }
        ensures read_already { words.spent self.new ≡ words.spent self.old }
    {
        if !self.pending().is_empty() {
            return Ok(());
        }
        self.refill(source)
    }

    /// Reads once from the source, behind the bytes that wait.
    pub(crate) fn refill<S: Source>(&mut self, source: &mut S) -> Result<(), Stop>
        requires { length self.old.pending < head_limit }
        ensures bytes { Keeps (stream self.old (S.left source.old))
            (stream self.new (S.left source.new)) }
        ensures grows { OnOk result (length self.old.pending < length self.new.pending) }
        ensures kept { OnErr result (self.new ≡ self.old) }
        ensures ended { IsErrOf result Stop.Ended → IsAtEnd (S.left source.new) }
        ensures sound { ¬ (IsErrOf result Stop.Malformed) }
        ensures cause { HasCause (S.faults source.old) (S.faults source.new)
            (IsErrOf result Stop.SourceFault) }
        ensures long { IsErrOf result Stop.Long → feed_limit ≤ self.new.taken }
        ensures counts { Counts self.old (S.given source.old) self.new (S.given source.new) }
        ensures bounded { IsBounded self.new }
        ensures read_already { words.spent self.new ≡ words.spent self.old }
    {
        if self.taken >= FEED_LIMIT {
            return Err(Stop::Long);
        }
        let waiting = self.end - self.start;
        let outcome = fill(&mut self.buffer, self.start, self.end, source);
        self.start = 0;
        self.end = waiting;
        match outcome {
            Ok(0) => Err(Stop::Ended),
            Ok(count) => {
                self.end = waiting + count;
                self.taken += count as u64;
                Ok(())
            }
            Err(SourceFault) => Err(Stop::SourceFault),
        }
    }
}

// So many bytes for a source to fill.
fn empty_buffer(alloc: Global, length: usize) -> Result<Vec<u8>, NoMemory>
    ensures { IfOk result (λ v. vec_len v ≡ length) }
{
    Ok(vec![in alloc; 0u8; length]?)
}

fn empty_spans(alloc: Global, length: usize) -> Result<Vec<HeaderSpan>, NoMemory>
    ensures { IfOk result (λ v. vec_len v ≡ length) }
{
    Ok(vec![in alloc; EMPTY_HEADER_SPAN; length]?)
}

// Moves `start..end` to the front, and reads once into what is behind.
fn fill<S: Source>(
    buffer: &mut [u8],
    start: usize,
    end: usize,
    source: &mut S,
) -> Result<usize, SourceFault>
    requires ordered { start ≤ end }
    requires within { end ≤ length buffer.old }
    ensures moved { take (end - start) buffer.new ≡ slice_range buffer.old start end }
    ensures fits { IfOk result (λ n. end - start + n ≤ length buffer.old) }
    ensures bytes { ReadConsumes (S.left source.old) (S.left source.new) result
        (drop (end - start) buffer.new) }
    ensures count { MatchResult result (λ n. S.given source.new ≡ counted (S.given source.old) n)
        (λ _. S.given source.new ≡ S.given source.old) }
    ensures cause { HasCause (S.faults source.old) (S.faults source.new) (IsErr result) }
{
    move_to_front(buffer, start, end);
    source.read(&mut buffer[end - start..])
}

fn move_to_front(buffer: &mut [u8], start: usize, end: usize)
    requires ordered { start ≤ end }
    requires within { end ≤ length buffer.old }
    ensures { take (end - start) buffer.new ≡ slice_range buffer.old start end }
{
    if start > 0 {
        buffer.copy_within(start..end, 0);
    }
}
