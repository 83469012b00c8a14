//! A stage in memory.
ghost use Rattle.std.specs.Prelude.{◌≡◌, ◌+◌, ◌-◌, ◌≤◌, ◌++◌, [], false, length, min, take, vec_len, IfOk, OnErr, IsTrue};
ghost use Rattle.reg_names.specs.Cause.{HasCause, OnlyReads};
ghost use Rattle.reg_names.specs.Refusals.{HasFailed};
ghost use Rattle.depot_api.specs.Calls.{no_calls, fails, with_call, CountsCall};
ghost use Rattle.depot_api.specs.Limits.{file_limit};
ghost use Rattle.depot_api.specs.Stages.{Grew, Appended, ReadsUpTo, ReadsFrom};

use crate::memory::calls::Calls;
use crate::{NoMemory, Path, Refused, Stage};
use std::alloc::Global;

/// Bytes that are staged in memory. Every append and every read has a number, from 0.
#[derive(Drop)]
pub struct MemStage {
    path: Path,
    bytes: Vec<u8>,
    calls: Calls,
    ghost most: { vec_len bytes ≤ file_limit },
}

impl MemStage {
    ghost use Rattle.depot_api.specs.MemStage.{stage_path, stage_bytes, stage_calls};

    /// A stage without bytes, lent from a path. The calls whose numbers stand in `fail` fail.
    pub fn new(alloc: Global, path: Path, fail: Vec<u64>) -> MemStage
        ensures path { stage_path result ≡ path }
        ensures bytes { stage_bytes result ≡ [] }
        ensures calls { stage_calls result ≡ no_calls fail.items }
    {
        MemStage {
            path,
            bytes: Vec::new(alloc),
            calls: Calls::new(fail),
        }
    }

    // A stage without bytes, lent from a copy of a path. The calls whose numbers stand in `fail` fail.
    pub(super) fn of(alloc: Global, path: &Path, fail: &[u64]) -> Result<MemStage, NoMemory>
        ensures path { IfOk result (λ s. stage_path s ≡ path.now) }
        ensures bytes { IfOk result (λ s. stage_bytes s ≡ []) }
        ensures calls { IfOk result (λ s. stage_calls s ≡ no_calls fail.now) }
    {
        Ok(MemStage::new(alloc, path.copy(alloc)?, fail.to_vec(alloc)?))
    }

    // The same stage, with these bytes.
    pub(super) fn with_bytes(self, bytes: Vec<u8>) -> MemStage
        requires { vec_len bytes ≤ file_limit }
        ensures path { stage_path result ≡ stage_path self }
        ensures bytes { stage_bytes result ≡ bytes.items }
        ensures calls { stage_calls result ≡ stage_calls self }
    {
        let MemStage { path, calls, .. } = self;
        MemStage { path, bytes, calls }
    }

    // The path that it was lent from.
    pub(super) fn path(&self) -> &Path
        ensures { result.now ≡ stage_path self.now }
    {
        &self.path
    }

    // The path and the bytes, to be put back.
    pub(super) fn into_parts(self) -> (Path, Vec<u8>)
        ensures path { result.0 ≡ stage_path self }
        ensures bytes { result.1.items ≡ stage_bytes self }
        ensures most { vec_len result.1 ≤ file_limit }
    {
        let MemStage { path, bytes, .. } = self;
        (path, bytes)
    }

    /// The staged bytes.
    pub fn bytes(&self) -> &[u8]
        ensures { result.now ≡ stage_bytes self.now }
    {
        &self.bytes
    }

    // Puts a piece behind the staged bytes.
    fn put(&mut self, piece: &[u8]) -> Result<(), NoMemory>
        requires { length (stage_bytes self.old) + length piece.now ≤ file_limit }
        ensures bytes { IfOk result (λ _.
            stage_bytes self.new ≡ stage_bytes self.old ++ piece.now) }
        ensures without { OnErr result (stage_bytes self.new ≡ stage_bytes self.old) }
        ensures path { stage_path self.new ≡ stage_path self.old }
        ensures calls { stage_calls self.new ≡ stage_calls self.old }
    {
        Ok(self.bytes.extend_from_slice(piece)?)
    }

    /// How often it has failed.
    pub fn faults(&self) -> u64
        ensures { result ≡ (stage_calls self.now).faults }
    {
        self.calls.faults()
    }
}

impl Stage for MemStage {
    ghost use Rattle.depot_api.specs.MemStage.{stage_path, stage_bytes, stage_held, stage_faults, stage_calls};

    ghost held = { stage_held };

    ghost faults = { stage_faults };

    fn length(&self) -> u64 {
        self.bytes.len() as u64
    }

    // One that fails puts all of the piece there but its last byte.
    fn append(&mut self, piece: &[u8]) -> Result<(), Refused>
        requires { length (stage_bytes self.old) + length piece.now ≤ file_limit }
        // Which appends fail, and that each is counted.
        ensures failed { HasFailed result → IsTrue (fails (stage_calls self.old)) }
        ensures passed { IfOk result (λ _. fails (stage_calls self.old) ≡ false) }
        ensures calls { stage_calls self.new
            ≡ with_call (stage_calls self.old) (fails (stage_calls self.old)) }
        ensures cause { HasCause (stage_faults self.old) (stage_faults self.new)
            (HasFailed result) }

        // What it puts there.
        ensures part { HasFailed result
            → stage_bytes self.new ≡ stage_bytes self.old ++ take (length piece.now - 1) piece.now }
        ensures bytes { Appended piece.now (stage_held self.old) (stage_held self.new) result }
        ensures count { Grew piece.now (stage_held self.old) (stage_held self.new) result }
        ensures path { stage_path self.new ≡ stage_path self.old }
    {
        let failed = self.calls.begin();
        let length = piece.len().saturating_sub(u8::from(failed) as usize);
        self.put(&piece[..length])?;
        if failed {
            return Err(Refused::Failed);
        }
        Ok(())
    }

    fn read_at(&mut self, at: u64, into: &mut [u8]) -> Result<usize, Refused>
        // Which reads fail, and that each is counted.
        ensures calls { CountsCall (stage_calls self.old) (stage_calls self.new)
            (HasFailed result) }

        // How many bytes it gives, and that these are those from there on.
        ensures length { IfOk result (λ n.
            n ≡ min (length (stage_bytes self.old) - at) (length into.old)) }
        ensures count { ReadsUpTo (length into.old) at (stage_held self.old).count result }
        ensures filled { ReadsFrom at (stage_held self.old) into.old into.new result }
        ensures reads { OnlyReads stage_held stage_faults self.old self.new (HasFailed result) }
    {
        if self.calls.begin() {
            return Err(Refused::Failed);
        }
        let from = (at as usize).min(self.bytes.len());
        let staged = &self.bytes[from..];
        let given = staged.len().min(into.len());
        into[..given].copy_from_slice(&staged[..given]);
        Ok(given)
    }
}
