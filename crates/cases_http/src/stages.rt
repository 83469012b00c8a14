//! Bodies that are put into a stage, of which so many bytes may come.
use crate::sources::{Faults, source_of};
use depot_api::memory::MemStage;
use depot_api::{NoMemory, Path};
use http_wire::{BodyReader, BodyTaken, Feed, Framing, take_body};
use std::alloc::Global;
use std::str;

// The most bytes of a stage.
const MOST: u64 = 1 << 62;

/// What is staged, and the answer; a call that met a fault is made again. A case is a length or a
/// word for the framing, the most bytes, and the stream.
pub fn answer(alloc: Global, text: &[u8]) -> Result<Option<String>, NoMemory> {
    match str::from_utf8(text).ok().and_then(parts) {
        Some((framing, most, stream)) => staged(alloc, framing, most, stream),
        None => Ok(None),
    }
}

fn parts(text: &str) -> Option<(Framing, u64, &str)> {
    let (framing, rest) = text.split_once(' ')?;
    let (most, stream) = rest.split_once(' ')?;
    Some((framing_of(framing)?, most.parse().ok()?, stream))
}

fn framing_of(word: &str) -> Option<Framing> {
    match word {
        "chunked" => Some(Framing::Chunked),
        "malformed" => Some(Framing::Bad),
        length => Some(Framing::Length(length.parse().ok()?)),
    }
}

fn staged(
    alloc: Global,
    framing: Framing,
    most: u64,
    stream: &str,
) -> Result<Option<String>, NoMemory> {
    let Some(path) = Path::read(alloc, "stage")? else {
        return Ok(None);
    };
    let mut source = source_of(alloc, stream.as_bytes())?;
    let mut feed = Feed::new(alloc)?;
    let mut stage = MemStage::new(alloc, path, Vec::new(alloc));
    let mut body = BodyReader::new(framing);
    let most = most.min(MOST);
    let mut taken = take_body(&mut feed, &mut source, &mut body, most, &mut stage);
    let told = u64::from(taken == BodyTaken::SourceFault);
    if told == 1 {
        let more = most - stage.bytes().len() as u64;
        taken = take_body(&mut feed, &mut source, &mut body, more, &mut stage);
    }
    let faults = Faults {
        met: source.faults(),
        told,
    };
    let remark = faults.remark(alloc, u64::from(taken == BodyTaken::Cut))?;
    let text = String::from_utf8_lossy(alloc, stage.bytes())?;
    Ok(Some(format!(in alloc; "\"{text}\" {taken:?}{remark}")?))
}
