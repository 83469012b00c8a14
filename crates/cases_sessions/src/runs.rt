//! Runs over files in memory, and what they write.
use crate::fault::{Fault, at_once, source};
use crate::shelf::Shelf;
use crate::texts::shown;
use depot_api::NoMemory;
use depot_api::memory::{FixedClock, ListedIds, MemSink, MemSource};
use reg_run::run_plain;
use std::alloc::Global;
use std::str;

/// What a run left.
#[derive(Drop)]
pub struct Run {
    pub status: u8,
    pub out: MemSink,
}

impl Run {
    fn shown(&self, alloc: Global) -> Result<String, NoMemory> {
        shown(alloc, self.status, self.out.written())
    }

    /// Whether two runs ended alike.
    pub fn is(&self, other: &Run) -> bool {
        self.status == other.status && self.out.written() == other.out.written()
    }
}

/// The answer to one request with this first line, but for its version, that ends the connection.
pub fn ask(alloc: Global, shelf: &Shelf, line: &[u8]) -> Result<String, NoMemory> {
    let mut input = Vec::from_slice(alloc, line)?;
    input.extend_from_slice(b" HTTP/1.1\r\nHost: r\r\nConnection: close\r\n\r\n")?;
    talk(alloc, shelf, &input)
}

/// The answer to an input, which comes at once and byte by byte.
pub fn talk(alloc: Global, shelf: &Shelf, input: &[u8]) -> Result<String, NoMemory> {
    let whole = once(alloc, shelf, input)?;
    let by_bytes = once_by_bytes(alloc, shelf, input)?;
    let answer = whole.shown(alloc)?;
    if whole.is(&by_bytes) {
        return Ok(answer);
    }
    let other = by_bytes.shown(alloc)?;
    Ok(format!(in alloc; "{answer}, but {other}")?)
}

/// `once` on an input that comes at once.
pub fn once(alloc: Global, shelf: &Shelf, input: &[u8]) -> Result<Run, NoMemory> {
    once_with(alloc, shelf, Fault::NONE, &mut at_once(alloc, input)?)
}

/// `once` on an input that comes byte by byte.
pub fn once_by_bytes(alloc: Global, shelf: &Shelf, input: &[u8]) -> Result<Run, NoMemory> {
    failing(alloc, shelf, Fault::NONE, input)
}

/// `once` on an input that comes byte by byte, where a device may fail.
pub fn failing(
    alloc: Global,
    shelf: &Shelf,
    fault: Fault<'_>,
    input: &[u8],
) -> Result<Run, NoMemory> {
    once_with(alloc, shelf, fault, &mut source(alloc, fault, input)?)
}

fn once_with(
    alloc: Global,
    shelf: &Shelf,
    fault: Fault<'_>,
    source: &mut MemSource,
) -> Result<Run, NoMemory> {
    let words = Vec::from_array(alloc, [String::from_str(alloc, "once")?])?;
    run_with(alloc, shelf, fault, &words, source)
}

/// The answer to `DEVICE CALL TEXT`.
pub fn fails(alloc: Global, shelf: &Shelf, text: &[u8]) -> Result<Option<String>, NoMemory> {
    match str::from_utf8(text).ok().and_then(fault_in) {
        Some((fault, input)) => {
            Ok(Some(failing(alloc, shelf, fault, input.as_bytes())?.shown(alloc)?))
        }
        None => Ok(None),
    }
}

fn fault_in(text: &str) -> Option<(Fault<'_>, &str)> {
    let (device, text) = text.split_once(' ')?;
    let (call, input) = text.split_once(' ')?;
    let call = call.parse().ok()?;
    Some((Fault { device, call }, input))
}

/// More than the calls of a device in any case.
const CALLS: u64 = 200;

/// The statuses and lengths of the runs in which each call of `DEVICE` fails in turn, and of the first in which none does.
pub fn each(alloc: Global, shelf: &Shelf, text: &[u8]) -> Result<Option<String>, NoMemory> {
    let Some((device, input)) = str::from_utf8(text)
        .ok()
        .and_then(|text| text.split_once(' '))
    else {
        return Ok(None);
    };
    let whole = once(alloc, shelf, input.as_bytes())?;
    let mut answer = String::new(alloc);
    for call in 0..CALLS {
        let run = failing(alloc, shelf, Fault { device, call }, input.as_bytes())?;
        write!(answer, "{} {}, ", run.status, run.out.written().len())?;
        if run.is(&whole) {
            break;
        }
    }
    Ok(Some(answer))
}

/// The answer where the arguments are the words of a text, at once and where the sink fails.
pub fn words(alloc: Global, shelf: &Shelf, text: &[u8]) -> Result<String, NoMemory> {
    let mut words = Vec::new(alloc);
    if let Ok(text) = str::from_utf8(text) {
        for word in text.split(' ') {
            words.push(String::from_str(alloc, word)?)?;
        }
    }
    let answer = run_with(alloc, shelf, Fault::NONE, &words, &mut at_once(alloc, b"")?)?.shown(
        alloc,
    )?;
    let sink = Fault {
        device: "sink",
        call: 0,
    };
    let failed = run_with(alloc, shelf, sink, &words, &mut at_once(alloc, b"")?)?.shown(alloc)?;
    Ok(format!(in alloc; "{answer}; {failed}")?)
}

fn run_with(
    alloc: Global,
    shelf: &Shelf,
    fault: Fault<'_>,
    words: &[String],
    source: &mut MemSource,
) -> Result<Run, NoMemory> {
    let depot = fault.depot(alloc, shelf)?;
    let mut out = fault.sink(alloc)?;
    let (mut clock, mut ids) = (FixedClock { at: 0 }, ListedIds::new(Vec::new(alloc)));
    let ran = run_plain(
        alloc,
        words,
        depot,
        (),
        &mut clock,
        &mut ids,
        source,
        &mut out,
    );
    Ok(Run {
        status: ran.status,
        out,
    })
}
