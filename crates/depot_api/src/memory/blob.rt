//! A blob in memory.
ghost use Rattle.std.specs.Prelude.{◌≡◌, ◌^◌, ◌≤◌, length, min, IfOk, OnErr, IsErr};
ghost use Rattle.reg_names.specs.Cause.{HasCause};
ghost use Rattle.depot_api.specs.Blobs.{ReadsSome, ReadsNext};
ghost use Rattle.depot_api.specs.Calls.{no_calls, CountsCall};

use crate::memory::calls::Calls;
use crate::memory::content::FileBytes;
use crate::{Blob, BlobFault, NoMemory};
use std::alloc::Global;

/// A copy of a file's bytes that is read in pieces. Every read has a number, from 0.
#[derive(Drop)]
pub struct MemBlob {
    file: FileBytes,
    at: usize,
    reads: Calls,
    ghost within: { at ≤ length file },
}

impl MemBlob {
    ghost use Rattle.depot_api.specs.MemBlob.{blob_left, blob_reads};

    // A blob with a copy of a file, of which no byte was read. The reads whose numbers stand in `fail` fail.
    pub(super) fn copy_of(
        alloc: Global,
        file: &FileBytes,
        fail: &[u64],
    ) -> Result<MemBlob, NoMemory>
        ensures bytes { IfOk result (λ b. blob_left b ≡ file.now) }
        ensures reads { IfOk result (λ b. blob_reads b ≡ no_calls fail.now) }
    {
        Ok(MemBlob {
            file: file.copy(alloc)?,
            at: 0,
            reads: Calls::new(fail.to_vec(alloc)?),
        })
    }

    /// How often it has failed.
    pub fn faults(&self) -> u64
        ensures { result ≡ (blob_reads self.now).faults }
    {
        self.reads.faults()
    }
}

impl Blob for MemBlob {
    ghost use Rattle.depot_api.specs.MemBlob.{blob_rest, blob_reads, blob_faults};

    ghost rest = { blob_rest };

    ghost faults = { blob_faults };

    fn left(&self) -> u64 {
        (self.file.bytes().len() - self.at) as u64
    }

    fn read(&mut self, into: &mut [u8]) -> Result<usize, BlobFault>
        // Which reads fail, and that each is counted.
        ensures calls { CountsCall (blob_reads self.old) (blob_reads self.new) (IsErr result) }
        ensures cause { HasCause (blob_faults self.old) (blob_faults self.new) (IsErr result) }

        // How many bytes it gives, and that these are the next ones.
        ensures length { IfOk result (λ n. n ≡ min (blob_rest self.old).count (length into.old)) }
        ensures count { ReadsSome (length into.old) (blob_rest self.old) (blob_rest self.new)
            result }
        ensures bytes { ReadsNext into.old into.new (blob_rest self.old) (blob_rest self.new)
            result }
        ensures untouched { OnErr result (into.new ≡ into.old) }
    {
        if self.reads.begin() {
            return Err(BlobFault);
        }
        let left = &self.file.bytes().as_slice()[self.at..];
        let given = left.len().min(into.len());
        into[..given].copy_from_slice(&left[..given]);
        self.at += given;
        Ok(given)
    }
}
