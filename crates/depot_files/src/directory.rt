//! The directory.
ghost use Rattle.std.specs.Prelude.{◌≡◌, ◌≤◌, false, length, vec_len, IfOk, OnErr, IsTrue, ⊤};
ghost use Rattle.std.specs.Option.{option_copied};
ghost use Rattle.reg_names.specs.Cause.{HasCause};
ghost use Rattle.reg_names.specs.Refusals.{HasFailed};
ghost use Rattle.depot_api.specs.Changes.{with_put, with_lent};
ghost use Rattle.depot_api.specs.Files.{IsUpTo};
ghost use Rattle.depot_api.specs.Holdings.{IfFound};
ghost use Rattle.depot_api.specs.Limits.{file_limit};
ghost use Rattle.depot_api.specs.Memory.{no_loans};
ghost use Rattle.depot_api.specs.Pages.{ArePathsAbove};
ghost use Rattle.depot_files.specs.InnerMoves.{as_told, IsMade};
ghost use Rattle.depot_files.specs.Silence.{untold};

use crate::blob::FileBlob;
use crate::error::FileError;
use crate::loans::Loans;
use crate::root::{Opened, Root};
use crate::stage::FileStage;
use crate::walk::Walk;
use depot_api::{Depot, Path, Small, Stage, Unplaced};
use reg_names::{Bytes, Refused};
use std::alloc::Global;
use std::fs::OpenFile;
use std::io::{self, Read};
use std::random::RandomSource;
use std::rt::{Clock, Files};

/// The files below a root directory, which nobody else writes.
///
/// What is answered of a file comes from the one that was looked at: a regular file, whose path has
/// no symbolic link. A folder above it is looked at once, as long as it is remembered.
///
/// The walk of a page is kept for the next one. A call that changes files drops it.
#[derive(Drop)]
pub struct FileDepot<R> {
    root: Root<R>,
    /// Behind the last page, whose walk a next page may go on with. A page that is not full has
    /// ended its walk.
    walk: Option<Walk>,
    loans: Loans,
    faults: u64,
}

/// A stage that was moved to its target, where a file stands now.
#[derive(Clone, Copy)]
struct Moved {
    size: u64,
    /// Whether the folders were synced.
    is_synced: bool,
}

impl<R: Files + AllocGlobal + Clock + RandomSource> FileDepot<R> {
    /// The depot of a directory. What is none, is not there, or cannot be opened or searched is
    /// refused. Files without a path that stopped programs left over a day ago are removed.
    pub fn open(rt: R, root: &str) -> io::Result<FileDepot<R>>
    where
        R: Drop,
        ensures faults { IfOk result (λ depot. depot.faults ≡ 0) }
        ensures lent { IfOk result (λ depot. (untold depot.loans).lent ≡ no_loans) }
    {
        let alloc = rt.alloc();
        Ok(FileDepot {
            root: Root::open(rt, root)?,
            walk: None,
            loans: Loans::new(alloc),
            faults: 0,
        })
    }

    /// How often it has failed.
    pub fn faults(&self) -> u64
        ensures { result ≡ self.now.faults }
    {
        self.faults
    }
}

impl<R: Files + AllocGlobal + Clock + Drop> Depot for FileDepot<R> {
    type B = FileBlob<R::File>;

    type S = FileStage<R::File>;

    ghost use Rattle.depot_files.specs.Silence.{untold};

    ghost held = { λ d. untold d.loans };

    ghost faults = { λ d. d.faults };

    fn size(&mut self, alloc: Global, at: &Path) -> Result<Option<u64>, Refused> {
        let found = self.size_at(alloc, at);
        self.counted(found)
    }

    fn read_small(&mut self, alloc: Global, at: &Path, most: u64) -> Result<Small, Refused> {
        let found = self.small_at(alloc, at, most);
        self.counted(found)
    }

    fn fetch(&mut self, alloc: Global, at: &Path) -> Result<Option<FileBlob<R::File>>, Refused> {
        let found = self.blob_at(alloc, at);
        self.counted(found)
    }

    fn page(
        &mut self,
        alloc: Global,
        under: &Path,
        after: Option<&Path>,
        most: usize,
    ) -> Result<Vec<Path>, Refused> {
        let found = self.page_after(alloc, under, after, most);
        self.counted(found)
    }

    fn is_lent(&self, at: &Path) -> bool {
        self.loans.has(at)
    }

    fn put_small(&mut self, alloc: Global, at: &Path, bytes: &[u8]) -> Result<(), Refused> {
        forget(&mut self.walk);
        let put = self.put_at(alloc, at, bytes);
        self.counted(put)
    }

    fn stage(&mut self, alloc: Global, at: &Path) -> Result<Option<FileStage<R::File>>, Refused> {
        forget(&mut self.walk);
        if self.loans.has(at) {
            return Ok(None);
        }
        let staged = self.stage_at(alloc, at);
        match self.counted(staged) {
            Ok(stage) => Ok(Some(stage)),
            Err(refused) => Err(refused),
        }
    }

    fn shelve(&mut self, stage: FileStage<R::File>) {
        forget(&mut self.walk);
        self.loans.end(stage.path());
        self.count_where(stage.faults() > 0);
    }

    fn place(
        &mut self,
        alloc: Global,
        stage: FileStage<R::File>,
        to: &Path,
    ) -> Result<u64, Unplaced<FileStage<R::File>>> {
        forget(&mut self.walk);
        match self.move_to(alloc, &stage, to) {
            Ok(Moved { size, is_synced }) => {
                self.loans.end(stage.path());
                self.loans.end(to);
                if !is_synced {
                    self.count_fault();
                    return Err(Unplaced::Failed);
                }
                Ok(size)
            }
            Err(FileError::NoMemory) => Err(Unplaced::NoMemory(stage)),
            Err(FileError::Fault) => {
                self.loans.end(stage.path());
                self.count_fault();
                Err(Unplaced::Failed)
            }
        }
    }

    fn remove(&mut self, alloc: Global, at: &Path) -> Result<(), Refused> {
        forget(&mut self.walk);
        let removed = self.remove_at(alloc, at);
        self.counted(removed)
    }

    fn done(&mut self, blob: FileBlob<R::File>) {
        self.count_where(blob.faults() > 0);
    }
}

impl<R: Files + AllocGlobal + Clock + Drop> FileDepot<R> {
    // What was found or done, or the refusal. A fault is counted.
    fn counted<T: Drop>(&mut self, found: Result<T, FileError>) -> Result<T, Refused>
        ensures told { result ≡ as_told found }
        ensures cause { HasCause self.old.faults self.new.faults (HasFailed result) }
        ensures loans { self.new.loans ≡ self.old.loans }
    {
        match found {
            Ok(value) => Ok(value),
            Err(FileError::NoMemory) => Err(Refused::NoMemory),
            Err(FileError::Fault) => {
                self.count_fault();
                Err(Refused::Failed)
            }
        }
    }

    fn count_where(&mut self, failed: bool)
        ensures cause { HasCause self.old.faults self.new.faults (IsTrue failed) }
        ensures loans { self.new.loans ≡ self.old.loans }
    {
        if failed {
            self.count_fault();
        }
    }

    fn count_fault(&mut self)
        ensures cause { HasCause self.old.faults self.new.faults ⊤ }
        ensures loans { self.new.loans ≡ self.old.loans }
    {
        self.faults = self.faults.saturating_add(1);
    }

    fn size_at(&mut self, alloc: Global, at: &Path) -> Result<Option<u64>, FileError>
        ensures size { IfFound result (λ size. size ≤ file_limit) }
        ensures faults { self.new.faults ≡ self.old.faults }
        ensures loans { self.new.loans ≡ self.old.loans }
    {
        if self.loans.has(at) {
            return Ok(None);
        }
        self.root.file_len(alloc, at)
    }

    fn small_at(&mut self, alloc: Global, at: &Path, most: u64) -> Result<Small, FileError>
        ensures small { IfOk result (IsUpTo most) }
        ensures faults { self.new.faults ≡ self.old.faults }
        ensures loans { self.new.loans ≡ self.old.loans }
    {
        match self.open_at(alloc, at)? {
            Some(Opened { length, .. }) if length > most => Ok(Small::TooLong),
            Some(Opened { file, length }) => Ok(Small::Content(read_whole(alloc, file, length)?)),
            None => Ok(Small::Absent),
        }
    }

    fn open_at(&mut self, alloc: Global, at: &Path) -> Result<Option<Opened<R::File>>, FileError>
        ensures length { IfFound result (λ opened. opened.length ≤ file_limit) }
        ensures faults { self.new.faults ≡ self.old.faults }
        ensures loans { self.new.loans ≡ self.old.loans }
    {
        if self.loans.has(at) {
            return Ok(None);
        }
        self.root.open_file(alloc, at)
    }

    fn blob_at(&mut self, alloc: Global, at: &Path) -> Result<Option<FileBlob<R::File>>, FileError>
        ensures fresh { IfFound result (λ blob. blob.faults ≡ 0) }
        ensures faults { self.new.faults ≡ self.old.faults }
        ensures loans { self.new.loans ≡ self.old.loans }
    {
        match self.open_at(alloc, at)? {
            Some(Opened { file, length }) => Ok(Some(FileBlob::new(file, length))),
            None => Ok(None),
        }
    }

    // The next page of the walk that gave the last one, where it is asked for, and else of a new
    // walk. A walk that has ended, or that met a fault, is let go with all that it held.
    fn page_after(
        &mut self,
        alloc: Global,
        under: &Path,
        after: Option<&Path>,
        most: usize,
    ) -> Result<Vec<Path>, FileError>
        ensures most { IfOk result (λ page. vec_len page ≤ most) }
        ensures order { IfOk result (λ page.
            ArePathsAbove under.now (option_copied after.entry) page.items) }
        ensures faults { self.new.faults ≡ self.old.faults }
        ensures loans { self.new.loans ≡ self.old.loans }
    {
        let mut walk = match self.walk.take() {
            Some(walk) if walk.stands_at(under, after) => walk,
            _ => Walk::begin(alloc, &mut self.root, under, after)?,
        };
        let page = walk.page(alloc, &mut self.root, &self.loans, under, after, most)?;
        if page.len() == most {
            self.walk = Some(walk);
        }
        Ok(page)
    }

    // Puts a file at a path: under another name first, so that it stands there whole or not at all.
    fn put_at(&mut self, alloc: Global, at: &Path, bytes: &[u8]) -> Result<(), FileError>
        ensures made { IsMade (with_put (untold self.old.loans) at.now bytes.now) result
            (untold self.old.loans) (untold self.new.loans) }
        ensures faults { self.new.faults ≡ self.old.faults }
    {
        let name = self.root.make_way(alloc, at)?;
        let unnamed = self.root.write_unnamed(alloc, bytes)?;
        if let Err(error) = self.root.rename(unnamed.as_str(), name.as_str()) {
            let _ = self.root.unlink(unnamed.as_str());
            return Err(error);
        }
        self.loans.end(at);
        self.root.sync_above(name.as_str())
    }

    // Lends a path that is not lent.
    fn stage_at(&mut self, alloc: Global, at: &Path) -> Result<FileStage<R::File>, FileError>
        requires { (untold self.old.loans).lent at.now ≡ false }
        ensures stage { IfOk result (λ stage. stage.path ≡ at.now) }
        ensures fresh { IfOk result (λ stage. stage.faults ≡ 0) }
        ensures lent { IfOk result (λ _.
            untold self.new.loans ≡ with_lent (untold self.old.loans) at.now) }
        ensures without { OnErr result (untold self.new.loans ≡ untold self.old.loans) }
        ensures faults { self.new.faults ≡ self.old.faults }
    {
        self.loans.begin(alloc, at)?;
        match open_stage(alloc, &mut self.root, at) {
            Ok(stage) => Ok(stage),
            Err(error) => {
                self.loans.end(at);
                Err(error)
            }
        }
    }

    // Moves a stage to its target. What stands there is kept, and the stage is removed. A stage
    // whose file has lost its name cannot be moved.
    fn move_to(
        &mut self,
        alloc: Global,
        stage: &FileStage<R::File>,
        to: &Path,
    ) -> Result<Moved, FileError>
        ensures most { IfOk result (λ moved. moved.size ≤ file_limit) }
        ensures faults { self.new.faults ≡ self.old.faults }
        ensures loans { self.new.loans ≡ self.old.loans }
    {
        let Some(from) = self.root.file_name(alloc, stage.path())? else {
            return Err(FileError::Fault);
        };
        if !self.loans.has(stage.path()) || !self.root.is_named(stage.file(), from.as_str())? {
            return Err(FileError::Fault);
        }
        if let Some(size) = self.size_at(alloc, to)? {
            self.root.unlink(from.as_str())?;
            let is_synced = self.root.sync_above(from.as_str()).is_ok();
            return Ok(Moved { size, is_synced });
        }
        stage.file().sync_all()?;
        let name = self.root.make_way(alloc, to)?;
        self.root.rename(from.as_str(), name.as_str())?;
        let is_synced = self.root.sync_above(from.as_str()).is_ok()
            && self.root.sync_above(name.as_str()).is_ok();
        Ok(Moved {
            size: stage.length(),
            is_synced,
        })
    }

    // Removes the file at a path. Its folders stay, also where they are empty.
    fn remove_at(&mut self, alloc: Global, at: &Path) -> Result<(), FileError>
        ensures faults { self.new.faults ≡ self.old.faults }
        ensures loans { self.new.loans ≡ self.old.loans }
    {
        if self.loans.has(at) {
            return Ok(());
        }
        let Some(name) = self.root.file_name(alloc, at)? else {
            return Ok(());
        };
        self.root.unlink(name.as_str())?;
        self.root.sync_above(name.as_str())
    }
}

// A walk is let go, since files change.
fn forget(walk: &mut Option<Walk>) {
    *walk = None;
}

// The upload's own file at a path.
fn open_stage<R: Files + AllocGlobal>(
    alloc: Global,
    root: &mut Root<R>,
    at: &Path,
) -> Result<FileStage<R::File>, FileError>
    ensures path { IfOk result (λ stage. stage.path ≡ at.now) }
    ensures fresh { IfOk result (λ stage. stage.faults ≡ 0) }
{
    let path = at.copy(alloc)?;
    let name = root.make_way(alloc, at)?;
    let Opened { file, length } = root.open_stage(name.as_str())?;
    Ok(FileStage::new(path, file, length))
}

// The first bytes of a file, as many as it had when it was opened. Where there are fewer it is a
// fault.
fn read_whole<F: Read + Drop>(alloc: Global, mut file: F, size: u64) -> Result<Bytes, FileError>
    ensures { IfOk result (λ bytes. length bytes ≡ size) }
{
    let Ok(size) = usize::try_from(size) else {
        return Err(FileError::NoMemory);
    };
    let mut bytes = vec![in alloc; 0; size]?;
    file.read_exact(&mut bytes)?;
    Ok(Bytes::from_vec(bytes))
}
