//! Bodies of which a stage or a source fails in the middle, and a later call goes on.
use depot_api::memory::{MemSource, MemStage};
use depot_api::{Bytes, Path};
use http_wire::{BodyReader, BodyTaken, Feed, Framing, take_body};
use std::alloc::Global;
use std::test::Fail;

const CHUNKS: &[u8] = b"2\r\nab\r\n3\r\ncde\r\n0\r\n\r\n";

#[test]
fn goes_on_after_a_fault_of_the_source(rt: HostRuntime) -> Result<(), Fail> {
    for read in 0..CHUNKS.len() as u64 {
        assert!(rt; tells_fault_of_read(rt.alloc(), read)?, "{read}");
    }
    Ok(())
}

fn tells_fault_of_read(alloc: Global, read: u64) -> Result<bool, Fail> {
    let pieces = vec![in alloc; 1; CHUNKS.len() + 1]?;
    let source = source_of(alloc, pieces, vec![in alloc; read; 1]?)?;
    Ok(answers(alloc, source, Vec::new(alloc), b"abcde")? == Some(BodyTaken::SourceFault))
}

// Which append fails, and what is staged in the end: a failed append has put all of its piece there
// but the last byte, and the piece still stands in the stream.
const FAULTS: [(u64, &[u8]); 2] = [(0, b"aabcde"), (1, b"abcdcde")];

#[test]
fn goes_on_after_a_fault_of_the_stage(rt: HostRuntime) -> Result<(), Fail> {
    for (append, staged) in FAULTS {
        assert!(rt;
            tells_fault_of_append(rt.alloc(), append, staged)?,
            "{append}"
        );
    }
    Ok(())
}

fn tells_fault_of_append(alloc: Global, append: u64, staged: &[u8]) -> Result<bool, Fail> {
    let source = source_of(alloc, Vec::new(alloc), Vec::new(alloc))?;
    let fail = vec![in alloc; append; 1]?;
    Ok(answers(alloc, source, fail, staged)? == Some(BodyTaken::StageFault))
}

fn source_of(alloc: Global, pieces: Vec<usize>, fail: Vec<u64>) -> Result<MemSource, Fail> {
    Ok(MemSource::new(alloc, Bytes::from_slice(alloc, CHUNKS)?, pieces, fail)?)
}

// The first answer on the body, where at the second one it is whole, and this is staged.
fn answers(
    alloc: Global,
    mut source: MemSource,
    fail: Vec<u64>,
    staged: &[u8],
) -> Result<Option<BodyTaken>, Fail> {
    let Some(path) = Path::read(alloc, "stage")? else {
        return Ok(None);
    };
    let mut feed = Feed::new(alloc)?;
    let mut stage = MemStage::new(alloc, path, fail);
    let mut body = BodyReader::new(Framing::Chunked);
    let first = take_body(&mut feed, &mut source, &mut body, 5, &mut stage);
    let second = take_body(&mut feed, &mut source, &mut body, 5, &mut stage);
    let is_whole = matches!(second, BodyTaken::Whole(_)) && stage.bytes() == staged;
    Ok(is_whole.then_some(first))
}
