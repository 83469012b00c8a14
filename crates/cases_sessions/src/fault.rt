//! Devices in memory, of which one fails.
use crate::shelf::Shelf;
use depot_api::memory::{MemDepot, MemSink, MemSource};
use depot_api::{Bytes, NoMemory};
use std::alloc::{AllocError, Global};

/// As many bytes a sink takes.
const MOST: usize = 5_000_000;

/// Up to so many bytes come one by one, longer inputs in pieces of `PIECE`.
const ONE_BY_ONE: usize = 100_000;

const PIECE: usize = 1_000;

/// What fails: the call of this number, from 0, of the `depot`, of a `blob`, of the `sink`, or of the `source`; or a sink
/// with `space` for so many bytes.
#[derive(Clone, Copy)]
pub struct Fault<'a> {
    pub device: &'a str,
    pub call: u64,
}

impl Fault<'_> {
    pub const NONE: Fault<'static> = Fault {
        device: "none",
        call: 0,
    };

    pub fn depot(self, alloc: Global, shelf: &Shelf) -> Result<MemDepot, NoMemory> {
        let depot = MemDepot::new(alloc, shelf.files(alloc)?, self.calls_of(alloc, "depot")?)?;
        Ok(depot.failing_reads(self.calls_of(alloc, "blob")?))
    }

    pub fn sink(self, alloc: Global) -> Result<MemSink, NoMemory> {
        let space = if self.device == "space" {
            self.call as usize
        } else {
            MOST
        };
        MemSink::new(alloc, space, self.calls_of(alloc, "sink")?)
    }

    fn calls_of(self, alloc: Global, device: &str) -> Result<Vec<u64>, AllocError> {
        vec![in alloc; self.call; usize::from(self.device == device)]
    }
}

/// A source that gives its bytes one by one.
pub fn source(alloc: Global, fault: Fault<'_>, input: &[u8]) -> Result<MemSource, NoMemory> {
    let pieces = if input.len() <= ONE_BY_ONE {
        vec![in alloc; 1; input.len()]?
    } else {
        vec![in alloc; PIECE; input.len() / PIECE]?
    };
    let calls = fault.calls_of(alloc, "source")?;
    MemSource::new(alloc, Bytes::from_slice(alloc, input)?, pieces, calls)
}

/// A source that gives all its bytes at once.
pub fn at_once(alloc: Global, input: &[u8]) -> Result<MemSource, NoMemory> {
    let bytes = Bytes::from_slice(alloc, input)?;
    MemSource::new(alloc, bytes, Vec::new(alloc), Vec::new(alloc))
}
