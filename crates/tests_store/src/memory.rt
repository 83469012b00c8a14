//! The devices in memory find ample memory, and go on behind a fault in mid-stream.
use depot_api::memory::{MemDepot, MemSink, MemSource, MemStage};
use depot_api::{Blob, Bytes, Depot, Path, Refused, Sink, Source, Stage};
use std::alloc::Global;
use std::test::Fail;

#[test]
fn each_device_goes_on_behind_a_fault(rt: HostRuntime) -> Result<(), Fail> {
    assert!(rt; blob_goes_on(rt.alloc())?);
    assert!(rt; source_goes_on(rt.alloc())?);
    assert!(rt; sink_goes_on(rt.alloc())?);
    assert!(rt; stage_goes_on(rt.alloc())?);
    Ok(())
}

/// A file for a depot.
pub fn file(alloc: Global, path: &str, bytes: &str) -> Result<(Path, Bytes), Fail> {
    let path = Path::read(alloc, path)?.ok_or("no path")?;
    Ok((path, Bytes::from_slice(alloc, bytes.as_bytes())?))
}

fn blob_goes_on(alloc: Global) -> Result<bool, Fail> {
    let (at, bytes) = file(alloc, "a/b", "hello")?;
    let files = Vec::from_array(alloc, [(at.copy(alloc)?, bytes)])?;
    let depot = MemDepot::new(alloc, files, Vec::new(alloc))?;
    let mut depot = depot.failing_reads(vec![in alloc; 1]?);
    let mut blob = depot.fetch(alloc, &at)?.ok_or("absent")?;
    let mut buffer = [0; 3];
    let goes_on = blob.read(&mut buffer) == Ok(3)
        && blob.read(&mut buffer).is_err()
        && blob.read(&mut buffer) == Ok(2);
    Ok(goes_on)
}

fn source_goes_on(alloc: Global) -> Result<bool, Fail> {
    let bytes = Bytes::from_slice(alloc, b"hello")?;
    let mut source = MemSource::new(alloc, bytes, Vec::new(alloc), vec![in alloc; 1]?)?;
    let mut buffer = [0; 3];
    let goes_on = source.read(&mut buffer) == Ok(3)
        && source.read(&mut buffer).is_err()
        && source.read(&mut buffer) == Ok(2);
    Ok(goes_on)
}

fn sink_goes_on(alloc: Global) -> Result<bool, Fail> {
    let mut sink = MemSink::new(alloc, 5, vec![in alloc; 1]?)?;
    Ok(sink.write(b"hel") == Ok(3) && sink.write(b"lo").is_err() && sink.write(b"lo") == Ok(2))
}

fn stage_goes_on(alloc: Global) -> Result<bool, Fail> {
    let (path, _) = file(alloc, "a/b", "")?;
    let mut stage = MemStage::new(alloc, path, Vec::from_array(alloc, [1, 2])?);
    let mut buffer = [0; 3];
    stage.append(b"hel")?;
    let goes_on = stage.append(b"lo") == Err(Refused::Failed)
        && stage.read_at(0, &mut buffer) == Err(Refused::Failed)
        && stage.read_at(0, &mut buffer) == Ok(3);
    Ok(goes_on)
}
