//! A depot in memory.
ghost use Rattle.std.specs.Prelude.{◌≡◌, ◌≤◌, ◌<◌, nat_lt, [], option_copied, vec_len, IfOk, OnErr};
ghost use Rattle.std.specs.Option.{option_map};
ghost use Rattle.reg_names.specs.Cause.{OnlyReads};
ghost use Rattle.reg_names.specs.Refusals.{HasFailed};
ghost use Rattle.depot_api.specs.Calls.{no_calls, with_fault};
ghost use Rattle.depot_api.specs.Changes.{Changes, Puts, Lends, Shelves, Places, Removes, IsStanding, IfBack, HasFailedToPlace, bytes_or, with_shelved};
ghost use Rattle.depot_api.specs.Slots.{staged_at};
ghost use Rattle.depot_api.specs.Files.{IsUpTo, IsSizeAt, IsSmallAt};
ghost use Rattle.depot_api.specs.Holdings.{IfFound};
ghost use Rattle.depot_api.specs.Limits.{file_limit};
ghost use Rattle.depot_api.specs.Pages.{IsPage, ArePathsAbove};
ghost use Rattle.depot_api.specs.Memory.{files_of, no_loans};
ghost use Rattle.depot_api.specs.MemDepot.{depot_held, depot_files, depot_lent, depot_calls, depot_reads, depot_appends};

use crate::memory::blob::MemBlob;
use crate::memory::calls::Calls;
use crate::memory::content::FileBytes;
use crate::memory::slots::Slots;
use crate::memory::stage::MemStage;
use crate::{Bytes, Depot, NoMemory, Path, Refused, Small, Stage, Unplaced};
use std::alloc::Global;

/// Files in memory. Every call has a number, from 0, but `is_lent`, `done` and `shelve`, which cannot fail. A call that
/// fails makes no change, and a `place` that fails puts the staged bytes back.
#[derive(Drop)]
pub struct MemDepot {
    slots: Slots,
    calls: Calls,
    reads: Vec<u64>,
    appends: Vec<u64>,
}

impl MemDepot {
    /// A depot of these files, of which the last one with a path counts. The calls whose numbers stand in `fail` fail.
    /// There is no memory for a file of more than 2^62 bytes.
    pub fn new(
        alloc: Global,
        files: Vec<(Path, Bytes)>,
        fail: Vec<u64>,
    ) -> Result<MemDepot, NoMemory>
        ensures files { IfOk result (λ d. depot_files d ≡ files_of files.items) }
        ensures lent { IfOk result (λ d. depot_lent d ≡ no_loans) }
        ensures calls { IfOk result (λ d. depot_calls d ≡ no_calls fail.items) }
        ensures reads { IfOk result (λ d. depot_reads d ≡ []) }
        ensures appends { IfOk result (λ d. depot_appends d ≡ []) }
    {
        let mut slots = Slots::new(alloc);
        for (path, bytes) in files {
            slots.put(alloc, &path, FileBytes::of(bytes)?)?;
        }
        Ok(MemDepot {
            slots,
            calls: Calls::new(fail),
            reads: Vec::new(alloc),
            appends: Vec::new(alloc),
        })
    }

    /// The same depot, each of whose blobs fails the reads with these numbers if it is fetched from now on. It takes
    /// no memory.
    pub fn failing_reads(self, reads: Vec<u64>) -> MemDepot
        ensures held { depot_held result ≡ depot_held self }
        ensures calls { depot_calls result ≡ depot_calls self }
        ensures reads { depot_reads result ≡ reads.items }
        ensures appends { depot_appends result ≡ depot_appends self }
    {
        MemDepot { reads, ..self }
    }

    /// The same depot, each of whose stages fails the calls with these numbers if it is lent from now on. It takes no
    /// memory.
    pub fn failing_appends(self, appends: Vec<u64>) -> MemDepot
        ensures held { depot_held result ≡ depot_held self }
        ensures calls { depot_calls result ≡ depot_calls self }
        ensures reads { depot_reads result ≡ depot_reads self }
        ensures appends { depot_appends result ≡ appends.items }
    {
        MemDepot { appends, ..self }
    }

    /// How often it has failed.
    pub fn faults(&self) -> u64
        ensures { result ≡ (depot_calls self.now).faults }
    {
        self.calls.faults()
    }
}

impl Depot for MemDepot {
    type B = MemBlob;

    type S = MemStage;

    ghost use Rattle.depot_api.specs.MemBlob.{blob_left, blob_reads, blob_faults};
    ghost use Rattle.depot_api.specs.MemStage.{stage_held, stage_calls, stage_faults};
    ghost use Rattle.depot_api.specs.MemDepot.{depot_files, depot_held, depot_faults, depot_calls, depot_reads, depot_appends, HasCalled, KeepsFailing};

    ghost held = { depot_held };

    ghost faults = { depot_faults };

    fn size(&mut self, _alloc: Global, at: &Path) -> Result<Option<u64>, Refused>
        ensures value { IfOk result (IsSizeAt at.now (depot_files self.old)) }
        ensures most { IfFound result (λ size. size ≤ file_limit) }
        ensures reads { OnlyReads depot_held depot_faults self.old self.new (HasFailed result) }
        ensures failing { KeepsFailing self.old self.new }
        ensures calls { HasCalled self.old self.new (HasFailed result) }
    {
        if self.calls.begin() {
            return Err(Refused::Failed);
        }
        match self.slots.file(at) {
            None => Ok(None),
            Some(file) => Ok(Some(file.bytes().len() as u64)),
        }
    }

    fn read_small(&mut self, alloc: Global, at: &Path, most: u64) -> Result<Small, Refused>
        ensures value { IfOk result (IsSmallAt at.now most (depot_files self.old)) }
        ensures most { IfOk result (IsUpTo most) }
        ensures reads { OnlyReads depot_held depot_faults self.old self.new (HasFailed result) }
        ensures failing { KeepsFailing self.old self.new }
        ensures calls { HasCalled self.old self.new (HasFailed result) }
    {
        if self.calls.begin() {
            return Err(Refused::Failed);
        }
        match self.slots.file(at) {
            None => Ok(Small::Absent),
            Some(file) if file.bytes().len() as u64 > most => Ok(Small::TooLong),
            Some(file) => Ok(Small::Content(file.bytes().copy(alloc)?)),
        }
    }

    fn fetch(&mut self, alloc: Global, at: &Path) -> Result<Option<MemBlob>, Refused>
        ensures value { IfOk result (λ found.
            option_map blob_left found ≡ depot_files self.old at.now) }
        ensures fresh { IfFound result (λ blob. blob_reads blob ≡ no_calls (depot_reads self.old)) }
        ensures reads { OnlyReads depot_held depot_faults self.old self.new (HasFailed result) }
        ensures failing { KeepsFailing self.old self.new }
        ensures calls { HasCalled self.old self.new (HasFailed result) }
    {
        if self.calls.begin() {
            return Err(Refused::Failed);
        }
        match self.slots.file(at) {
            None => Ok(None),
            Some(file) => Ok(Some(MemBlob::copy_of(alloc, file, &self.reads)?)),
        }
    }

    fn page(
        &mut self,
        alloc: Global,
        under: &Path,
        after: Option<&Path>,
        most: usize,
    ) -> Result<Vec<Path>, Refused>
        ensures value { IfOk result (λ page.
            IsPage (depot_files self.old) under.now (option_copied after.entry) most page.items) }
        ensures most { IfOk result (λ page. vec_len page ≤ most) }
        ensures order { IfOk result (λ page.
            ArePathsAbove under.now (option_copied after.entry) page.items) }
        ensures reads { OnlyReads depot_held depot_faults self.old self.new (HasFailed result) }
        ensures failing { KeepsFailing self.old self.new }
        ensures calls { HasCalled self.old self.new (HasFailed result) }
    {
        if self.calls.begin() {
            return Err(Refused::Failed);
        }
        Ok(self.slots.page(alloc, under, after, most)?)
    }

    fn is_lent(&self, at: &Path) -> bool {
        self.slots.is_lent(at)
    }

    fn put_small(&mut self, alloc: Global, at: &Path, bytes: &[u8]) -> Result<(), Refused>
        ensures changes { Changes depot_held depot_faults self.old self.new
            (Puts at.now bytes.now result) (HasFailed result) }
        ensures unmade { OnErr result (depot_held self.new ≡ depot_held self.old) }
        ensures failing { KeepsFailing self.old self.new }
        ensures calls { HasCalled self.old self.new (HasFailed result) }
    {
        if self.calls.begin() {
            return Err(Refused::Failed);
        }
        let file = FileBytes::of(Bytes::from_slice(alloc, bytes)?)?;
        Ok(self.slots.put(alloc, at, file)?)
    }

    fn stage(&mut self, alloc: Global, at: &Path) -> Result<Option<MemStage>, Refused>
        ensures changes { Changes depot_held depot_faults self.old self.new (Lends at.now result)
            (HasFailed result) }
        ensures stage { IfFound result (λ stage.
            stage_held stage ≡ staged_at at.now (bytes_or [] (depot_files self.old) at.now)) }
        ensures fresh { IfFound result (λ stage.
            stage_calls stage ≡ no_calls (depot_appends self.old)) }
        ensures failing { KeepsFailing self.old self.new }
        ensures calls { HasCalled self.old self.new (HasFailed result) }
    {
        if self.calls.begin() {
            return Err(Refused::Failed);
        }
        let stage = MemStage::of(alloc, at, &self.appends)?;
        let Some(bytes) = self.slots.lend(alloc, at)? else {
            return Ok(None);
        };
        Ok(Some(stage.with_bytes(bytes)))
    }

    fn shelve(&mut self, stage: MemStage)
        ensures changes { Changes depot_held depot_faults self.old self.new
            (Shelves (stage_held stage)) (0 < stage_faults stage) }
        ensures failing { KeepsFailing self.old self.new }
        ensures calls { depot_calls self.new
            ≡ with_fault (depot_calls self.old) (nat_lt 0 (stage_faults stage)) }
    {
        self.calls.count_fault(stage.faults() > 0);
        let (path, bytes) = stage.into_parts();
        self.slots.shelve(path, bytes);
    }

    fn place(
        &mut self,
        alloc: Global,
        stage: MemStage,
        to: &Path,
    ) -> Result<u64, Unplaced<MemStage>>
        ensures value { IfOk result (IsStanding (stage_held stage) to.now (depot_files self.old)) }
        ensures most { IfOk result (λ size. size ≤ file_limit) }
        ensures changes { Changes depot_held depot_faults self.old self.new
            (Places (stage_held stage) to.now result) (HasFailedToPlace result) }
        ensures unmade { HasFailedToPlace result
            → depot_held self.new ≡ with_shelved (depot_held self.old) (stage_held stage) }
        ensures back { IfBack result (λ back. back ≡ stage) }
        ensures failing { KeepsFailing self.old self.new }
        ensures calls { HasCalled self.old self.new (HasFailedToPlace result) }
    {
        if self.calls.begin() {
            let (from, bytes) = stage.into_parts();
            self.slots.shelve(from, bytes);
            return Err(Unplaced::Failed);
        }
        if let Some(file) = self.slots.file(to) {
            let size = file.bytes().len() as u64;
            self.slots.end_loan(stage.path());
            return Ok(size);
        }
        let Ok(key) = self.slots.lend_instead(alloc, stage.path(), to) else {
            return Err(Unplaced::NoMemory(stage));
        };
        let size = stage.length();
        let (_, bytes) = stage.into_parts();
        self.slots.shelve(key, bytes);
        Ok(size)
    }

    fn remove(&mut self, _alloc: Global, at: &Path) -> Result<(), Refused>
        ensures changes { Changes depot_held depot_faults self.old self.new (Removes at.now result)
            (HasFailed result) }
        ensures unmade { OnErr result (depot_held self.new ≡ depot_held self.old) }
        ensures failing { KeepsFailing self.old self.new }
        ensures calls { HasCalled self.old self.new (HasFailed result) }
    {
        if self.calls.begin() {
            return Err(Refused::Failed);
        }
        self.slots.remove(at);
        Ok(())
    }

    fn done(&mut self, blob: MemBlob)
        ensures reads { OnlyReads depot_held depot_faults self.old self.new (0 < blob_faults blob) }
        ensures failing { KeepsFailing self.old self.new }
        ensures calls { depot_calls self.new
            ≡ with_fault (depot_calls self.old) (nat_lt 0 (blob_faults blob)) }
    {
        self.calls.count_fault(blob.faults() > 0);
    }
}
