//! Sources of bytes that come one by one. The read behind the last byte fails, and those after it
//! find the end: so a case shows a read that was not needed, and a fault that was not told.
use depot_api::memory::MemSource;
use depot_api::{Bytes, NoMemory};
use std::alloc::Global;

pub fn source_of(alloc: Global, bytes: &[u8]) -> Result<MemSource, NoMemory> {
    let behind = bytes.len();
    let bytes = Bytes::from_slice(alloc, bytes)?;
    let pieces = vec![in alloc; 1; behind.saturating_add(1)]?;
    let fail = vec![in alloc; behind as u64; 1]?;
    MemSource::new(alloc, bytes, pieces, fail)
}

/// What was read behind the last byte, and told: nothing to remark where just so many faults were
/// due.
#[derive(Clone, Copy)]
pub struct Faults {
    pub met: u64,
    pub told: u64,
}

impl Faults {
    pub fn remark(self, alloc: Global, due: u64) -> Result<String, NoMemory> {
        if self.met == due && self.told == due {
            return Ok(String::new(alloc));
        }
        Ok(format!(in alloc; ", after {} faults, {} told", self.met, self.told)?)
    }
}
