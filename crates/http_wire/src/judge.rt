//! What the bytes that have come are known to be.
ghost use Rattle.std.specs.Prelude.{◌≡◌, ℕ, ◌<◌, ◌≤◌, List, length, take, drop, map, not, All, IfOk, IfSome, true};
ghost use Rattle.std.specs.List.{list_all, position};
ghost use Rattle.httparse.specs.Pieces.{is_newline};
ghost use Rattle.std.specs.Str.{IsUtf8};
ghost use Rattle.httparse.specs.Grammar.{RequestHead};
ghost use Rattle.httparse.specs.Spans.{IsWithin, IsHeaderWithin, IsRequestAt, IsRequestWithin, header_bytes, span_bytes};
ghost use Rattle.http_wire.specs.InnerHeads.{Judges, Parses};
ghost use Rattle.http_wire.specs.Fields.{field_parts, Shows};
ghost use Rattle.http_wire.specs.Limits.{head_limit, span_limit};
ghost use Rattle.http_wire.specs.Heads as heads;

use crate::feed::HEAD_LIMIT;
use crate::head::{MALFORMED, TOO_LARGE};
use crate::{Bytes, Field, Head, Heading, NoMemory, Text};
use httparse::Status;
use httparse::spans::{HeaderSpan, RequestSpans, Span, parse_request};
use std::alloc::Global;

// The most fields of a head.
const FIELD_LIMIT: usize = 64;

/// The head that bytes begin with and the number of its bytes, or none where more have to come; an
/// error is the answer that refuses them. Nothing is refused before a line has come or the buffer
/// is full.
pub(crate) fn judge(
    alloc: Global,
    bytes: &[u8],
    spans: &mut [HeaderSpan],
) -> Result<Option<(Head, usize)>, Heading>
    requires few { length bytes.now ≤ head_limit }
    requires spans { length spans.old ≡ span_limit }
    ensures { Judges result bytes.now }
{
    match parse(bytes, spans)? {
        Some(found) if found.headers > FIELD_LIMIT => Err(Heading::Bad(TOO_LARGE)),
        Some(found) => match head_at(alloc, bytes, spans, &found) {
            Ok(head) => Ok(Some((head, found.len))),
            Err(NoMemory) => Err(Heading::NoMemory),
        },
        None if bytes.len() == HEAD_LIMIT => Err(Heading::Bad(TOO_LARGE)),
        None => Ok(None),
    }
}

// The same, before anything is copied.
fn parse(bytes: &[u8], spans: &mut [HeaderSpan]) -> Result<Option<RequestSpans>, Heading>
    requires few { length bytes.now ≤ head_limit }
    requires spans { length spans.old ≡ span_limit }
    ensures { Parses result spans.new bytes.now }
{
    if !has_line(bytes) {
        return Ok(None);
    }
    match parse_request(bytes, spans) {
        Ok(Status::Complete(found)) => Ok(Some(found)),
        Ok(Status::Partial) => Ok(None),
        Err(_) => Err(Heading::Bad(MALFORMED)),
    }
}

// Whether a line feed stands past the leading CR and LF bytes.
fn has_line(bytes: &[u8]) -> bool
    ensures { result ≡ heads.has_line bytes.now }
{
    match first_text(bytes) {
        Some(first) => bytes[first..].contains(&b'\n'),
        None => false,
    }
}

// Where the first byte stands that is not CR or LF.
fn first_text(bytes: &[u8]) -> Option<usize>
    ensures place { result ≡ position (λ b. not (is_newline b)) bytes.now }
    ensures within { IfSome result (λ first. first < length bytes.now) }
{
    bytes.iter().position(|b| !(*b == b'\r' || *b == b'\n'))
}

/// Whether there are CR and LF bytes alone.
pub(crate) fn is_blank(bytes: &[u8]) -> bool
    ensures { result ≡ list_all is_newline bytes.now }
{
    bytes.iter().all(|b| *b == b'\r' || *b == b'\n')
}

fn head_at(
    alloc: Global,
    bytes: &[u8],
    spans: &[HeaderSpan],
    found: &RequestSpans,
) -> Result<Head, NoMemory>
    requires within { IsRequestWithin bytes.now spans.now found.now }
    requires head { (h : RequestHead) × IsRequestAt bytes.now spans.now found.now h }
    ensures { IfOk result (λ head. (h : RequestHead) → IsRequestAt bytes.now spans.now found.now h
        → Shows head h) }
{
    Ok(Head {
        method: text_at(alloc, bytes, found.method)?,
        target: text_at(alloc, bytes, found.path)?,
        minor: found.version,
        fields: fields_at(alloc, bytes, &spans[..found.headers])?,
    })
}

fn fields_at(alloc: Global, bytes: &[u8], spans: &[HeaderSpan]) -> Result<Vec<Field>, NoMemory>
    requires within { All (IsHeaderWithin (length bytes.now)) spans.now }
    requires names { All (λ s. IsUtf8 (span_bytes bytes.now s.name)) spans.now }
    ensures { IfOk result (λ fields. map field_parts fields.items ≡ map
        (header_bytes bytes.now) spans.now) }
{
    let mut fields = Vec::with_capacity(alloc, spans.len())?;
    for span in spans {
        fields.push(field_at(alloc, bytes, span)?)?;
    }
    Ok(fields)
}

fn field_at(alloc: Global, bytes: &[u8], span: &HeaderSpan) -> Result<Field, NoMemory>
    requires within { IsHeaderWithin (length bytes.now) span.now }
    requires name { IsUtf8 (span_bytes bytes.now span.now.name) }
    ensures { IfOk result (λ field. field_parts field ≡ header_bytes bytes.now span.now) }
{
    Ok(Field {
        name: text_at(alloc, bytes, span.name)?,
        value: Bytes::from_slice(alloc, span.value.of(bytes))?,
    })
}

fn text_at(alloc: Global, bytes: &[u8], span: Span) -> Result<Text, NoMemory>
    requires within { IsWithin (length bytes.now) span }
    requires text { IsUtf8 (span_bytes bytes.now span) }
    ensures { IfOk result (λ text. text ≡ span_bytes bytes.now span) }
{
    match str::from_utf8(span.of(bytes)) {
        Ok(text) => Text::from_str(alloc, text),
        Err(_) => unreachable!(),
    }
}
