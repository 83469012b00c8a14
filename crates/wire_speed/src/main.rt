//! Reads all requests of standard input, which a benchmark measures. It is given `read` or `stage`,
//! and prints how many requests there are and how many bytes their bodies have: `read` decodes each
//! body into a buffer, `stage` into a stage in memory. To compare, `copy` counts all bytes, and
//! `input` only gets them. Where `requests` answers a count, that is of the messages of the stream,
//! up to one that ends the connection. Whoever serves a registry reads requests so.
#![tactic(auto)]

ghost use Rattle.std.specs.Prelude.{◌≡◌, ◌+◌, ◌≤◌, IfSome};
ghost use Rattle.http_wire.specs.Flow.{stream, OnStream};
ghost use Rattle.wire_speed.specs.Counting.{IsCounted};
ghost use Rattle.wire_speed.specs.InnerCounting.{HasLength, IsNextRequest};

use depot_api::memory::{MemSource, MemStage};
use depot_api::{Bytes, FILE_LIMIT, Path, Source};
use http_wire::{
    BodyReader, BodyStep, BodyTaken, Feed, Framing, Heading, ends_connection, framing, read_body,
    read_head, take_body,
};
use std::alloc::Global;
use std::env;
use std::io::Read;
use std::process::ExitCode;

// The bytes that are read at once.
const BUFFER: usize = 16_384;

/// How many requests there are, and how many bytes their bodies have.
#[derive(Clone, Copy, Debug)]
struct Totals {
    requests: u64,
    bytes: u64,
}

impl Totals {
    const NONE: Totals = Totals {
        requests: 0,
        bytes: 0,
    };

    // With one request more, whose body has so many bytes.
    fn with(self, length: u64) -> Option<Totals>
        ensures requests { IfSome result (λ more. more.requests ≡ self.requests + 1) }
        ensures bytes { IfSome result (λ more. more.bytes ≡ self.bytes + length) }
    {
        Some(Totals {
            requests: self.requests.checked_add(1)?,
            bytes: self.bytes.checked_add(length)?,
        })
    }
}

/// What becomes of a body.
#[derive(Clone, Copy, Debug)]
enum Way {
    /// It is read into a buffer.
    Read,
    /// It is put into a stage.
    Stage,
}

fn main(rt: HostRuntime) -> ExitCode {
    match counted(&rt) {
        Some(Totals { requests, bytes }) => match println!(rt;
            "{requests} requests, {bytes} bytes"
        ) {
            Ok(()) => ExitCode::SUCCESS,
            Err(_) => ExitCode::FAILURE,
        },
        None => ExitCode::FAILURE,
    }
}

// What is counted of the input, in the way that the command line names.
fn counted(rt: &HostRuntime) -> Option<Totals> {
    let way = env::args(rt).ok()?.nth(1)?;
    let mut source = input(rt)?;
    let mut buffer = vec![in rt.alloc(); 0u8; BUFFER].ok()?;
    match way.as_str() {
        "input" => Some(Totals::NONE),
        "copy" => copied(&mut source, &mut buffer),
        "read" => read_all(rt.alloc(), &mut source, Way::Read, &mut buffer),
        "stage" => read_all(rt.alloc(), &mut source, Way::Stage, &mut buffer),
        _ => None,
    }
}

fn read_all(alloc: Global, source: &mut MemSource, way: Way, buffer: &mut [u8]) -> Option<Totals> {
    let mut feed = Feed::new(alloc).ok()?;
    requests(alloc, &mut feed, source, way, buffer)
}

// Standard input, read to its end.
fn input(rt: &HostRuntime) -> Option<MemSource> {
    let mut bytes = Vec::new(rt.alloc());
    rt.stdin().read_to_end(&mut bytes).ok()?;
    let (pieces, fail) = (Vec::new(rt.alloc()), Vec::new(rt.alloc()));
    MemSource::new(rt.alloc(), Bytes::from_vec(bytes), pieces, fail).ok()
}

// How many bytes a source gives, of no requests.
fn copied<S: Source>(source: &mut S, buffer: &mut [u8]) -> Option<Totals>
    ensures later { S.faults source.old ≤ S.faults source.new }
{
    let mut bytes = 0_u64;
    for _ in 0..u64::MAX {
        match source.read(buffer) {
            Ok(0) => return Some(Totals { requests: 0, bytes }),
            Ok(count) => bytes = bytes.saturating_add(count as u64),
            Err(_) => return None,
        }
    }
    None
}

// How many requests come on a stream, and how many bytes their bodies, which may be staged.
fn requests<S: Source>(
    alloc: Global,
    feed: &mut Feed,
    source: &mut S,
    way: Way,
    buffer: &mut [u8],
) -> Option<Totals>
    ensures messages { IfSome result
        (λ totals. OnStream (stream feed.old (S.left source.old))
        (stream feed.new (S.left source.new))
        (λ old new. IsCounted way totals old)) }
{
    let mut totals = Totals::NONE;
    for _ in 0..u64::MAX {
        match read_next(alloc, feed, source, way, buffer)? {
            Next::Request { length, is_last } => {
                totals = totals.with(length)?;
                if is_last {
                    return Some(totals);
                }
            }
            Next::End => return Some(totals),
        }
    }
    None
}

/// What comes next on a stream.
#[derive(Clone, Copy, Debug)]
enum Next {
    /// A request, whose body has so many bytes. The connection ends behind the last one.
    Request { length: u64, is_last: bool },
    End,
}

fn read_next<S: Source>(
    alloc: Global,
    feed: &mut Feed,
    source: &mut S,
    way: Way,
    buffer: &mut [u8],
) -> Option<Next>
    ensures next { IfSome result (λ next. OnStream (stream feed.old (S.left source.old))
        (stream feed.new (S.left source.new))
        (IsNextRequest way next)) }
{
    match read_head(alloc, feed, source) {
        Heading::Head(head) => {
            let length = body_length(alloc, feed, source, framing(&head), way, buffer)?;
            let is_last = ends_connection(&head);
            Some(Next::Request { length, is_last })
        }
        Heading::End => Some(Next::End),
        _ => None,
    }
}

fn body_length<S: Source>(
    alloc: Global,
    feed: &mut Feed,
    source: &mut S,
    framing: Framing,
    way: Way,
    buffer: &mut [u8],
) -> Option<u64>
    ensures body { IfSome result (λ n. OnStream (stream feed.old (S.left source.old))
        (stream feed.new (S.left source.new))
        (HasLength way framing n)) }
{
    match way {
        Way::Read => body_read(feed, source, framing, buffer),
        Way::Stage => body_staged(alloc, feed, source, framing),
    }
}

// The length of a body that is read.
fn body_read<S: Source>(
    feed: &mut Feed,
    source: &mut S,
    framing: Framing,
    buffer: &mut [u8],
) -> Option<u64>
    ensures body { IfSome result (λ n. OnStream (stream feed.old (S.left source.old))
        (stream feed.new (S.left source.new))
        (HasLength Way.Read framing n)) }
{
    let mut body = BodyReader::new(framing);
    let mut bytes = 0_u64;
    for _ in 0..u64::MAX {
        match read_body(feed, source, &mut body, buffer) {
            BodyStep::Bytes(count) => bytes = bytes.checked_add(count as u64)?,
            BodyStep::End => return Some(bytes),
            _ => return None,
        }
    }
    None
}

// The length of a body that is staged.
fn body_staged<S: Source>(
    alloc: Global,
    feed: &mut Feed,
    source: &mut S,
    framing: Framing,
) -> Option<u64>
    ensures body { IfSome result (λ n. OnStream (stream feed.old (S.left source.old))
        (stream feed.new (S.left source.new))
        (HasLength Way.Stage framing n)) }
{
    let path = Path::read(alloc, "stage").ok()??;
    let mut stage = MemStage::new(alloc, path, Vec::new(alloc));
    match take_body(
        feed,
        source,
        &mut BodyReader::new(framing),
        FILE_LIMIT,
        &mut stage,
    ) {
        BodyTaken::Whole(length) => Some(length),
        _ => None,
    }
}
