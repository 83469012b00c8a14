//! Files under paths.
ghost use Rattle.std.specs.Prelude.{◌≡◌, ℕ, ◌<◌, ◌≤◌, List, Option, vec_len, IfOk};
ghost use Rattle.std.specs.Option.{option_map, option_copied};
ghost use Rattle.reg_names.specs.Cause.{OnlyReads};
ghost use Rattle.reg_names.specs.Refusals.{HasFailed};
ghost use Rattle.depot_api.specs.Changes.{Changes, Puts, Lends, Shelves, Places, Removes, IsLentOf, IsStanding, IfBack, HasFailedToPlace};
ghost use Rattle.depot_api.specs.Files.{Files, IsUpTo, IsSizeAt, IsSmallAt};
ghost use Rattle.depot_api.specs.Holdings.{Holding, Finds, IfFound};
ghost use Rattle.depot_api.specs.Limits.{file_limit};
ghost use Rattle.depot_api.specs.Pages.{IsPage, ArePathsAbove};

use crate::{Blob, Path, Stage};
use reg_names::{Bytes, Refused};
use std::alloc::Global;

/// What a read of a small file gave.
#[derive(Debug, Drop)]
pub enum Small {
    /// There is no file at the path.
    Absent,
    /// The file has more bytes than were asked for.
    TooLong,
    /// All bytes of the file.
    Content(Bytes),
}

/// Why staged bytes were not placed.
#[derive(Debug, Drop)]
pub enum Unplaced<S> {
    /// The depot failed, and its count of faults rose in this call.
    Failed,
    /// Memory was wanting, and the stage comes back as it was.
    NoMemory(S),
}

/// A page is the only one: two pages of the same files, from the same start and of the same length, are equal.
pub fn pages_agree()
    ensures { (files : Files) (under : List (List ℕ)) (after : Option (List (List ℕ))) (most : ℕ) (one two : List (List (List ℕ))) → IsPage files under after most one → IsPage files under after most two → one ≡ two }
{}

/// A map from paths to the bytes of files, each of at most 2^62 bytes, and the paths that are lent.
///
/// A path that is lent has no file. A depot may not tell its files, as a real directory does not: clauses on content
/// speak of depots that tell. Which paths are lent is told by every depot.
///
/// `size`, `read_small`, `fetch`, `page` and `done` change nothing that it holds, also where they fail or find no
/// memory. Each other call changes the paths that it names, and no other.
pub trait Depot {
    /// A file that is read in pieces. It is given back by `done`.
    type B: Blob;

    /// A file that is lent, to be written at its end. It is given back by `shelve` or by `place`.
    type S: Stage;

    /// Whether it tells its files, the files, and which paths are lent.
    ghost held: { Self → Holding };

    /// How often it has failed. No call makes it fall.
    ghost faults: { Self → ℕ };

    /// How many bytes the file at a path has, at most 2^62, and `None` exactly where there is no file, also where the
    /// path is that of a folder. An empty file has 0.
    ///
    /// Errors, here and in the calls below: `Failed` where the depot failed and its count of faults rose, and
    /// `NoMemory`, which is tied to no cause. Both leave all files as they were.
    fn size(&mut self, alloc: Global, at: &Path) -> Result<Option<u64>, Refused>
        ensures value { Finds (held self.old) result (IsSizeAt at.now) }
        ensures most { IfFound result (λ size. size ≤ file_limit) }
        ensures reads { OnlyReads held faults self.old self.new (HasFailed result) };

    /// All bytes of the file at a path, where it has at most `most` of them: `Absent` where there is no file, `TooLong`
    /// where it has more, and never a part of it.
    fn read_small(&mut self, alloc: Global, at: &Path, most: u64) -> Result<Small, Refused>
        ensures value { Finds (held self.old) result (IsSmallAt at.now most) }
        ensures most { IfOk result (IsUpTo most) }
        ensures reads { OnlyReads held faults self.old self.new (HasFailed result) };

    /// The file at a path, to be read in pieces from its first byte, and `None` exactly where there is none. The blob
    /// has had no fault. Whoever took it gives it back by `done`.
    fn fetch(&mut self, alloc: Global, at: &Path) -> Result<Option<Self::B>, Refused>
        ensures value { Finds (held self.old) result
            (λ files found. option_map (λ blob. (Self.B.rest blob).bytes) found ≡ files at.now) }
        ensures telling { IfFound result (λ b. (Self.B.rest b).tells ≡ (held self.old).tells) }
        ensures fresh { IfFound result (λ blob. Self.B.faults blob ≡ 0) }
        ensures reads { OnlyReads held faults self.old self.new (HasFailed result) };

    /// The first `most` paths of files, in the order of paths, that begin with the parts of `under` and are above
    /// `after`, and not `after` itself. Without `after` they begin with the first one. The path `under` begins with
    /// itself. There are fewer than `most` exactly where no more follow, and none where `most` is 0.
    ///
    /// A walk through all of them asks behind the last path of each page, which need not be there any more.
    fn page(
        &mut self,
        alloc: Global,
        under: &Path,
        after: Option<&Path>,
        most: usize,
    ) -> Result<Vec<Path>, Refused>
        ensures value { Finds (held self.old) result
            (λ files page. IsPage files under.now (option_copied after.entry) most page.items) }
        ensures most { IfOk result (λ page. vec_len page ≤ most) }
        ensures order { IfOk result (λ page.
            ArePathsAbove under.now (option_copied after.entry) page.items) }
        ensures reads { OnlyReads held faults self.old self.new (HasFailed result) };

    /// Whether a path is lent. Takes no memory, and cannot fail.
    fn is_lent(&self, at: &Path) -> bool
        ensures { result ≡ (held self.now).lent at.now };

    /// Puts these bytes at a path, in the place of what stands there. Where the path was lent, that loan has ended.
    ///
    /// Errors, here and in `remove`: `Failed` where the depot failed and its count of faults rose, and the change was
    /// made as a whole or not at all; `NoMemory`, where it was not made.
    fn put_small(&mut self, alloc: Global, at: &Path, bytes: &[u8]) -> Result<(), Refused>
        ensures changes { Changes held faults self.old self.new (Puts at.now bytes.now result)
            (HasFailed result) };

    /// Lends the file at a path, or no bytes where there is none, and `None` exactly where the path is lent. From then
    /// on the path has no file, until the stage is given back. It takes the memory that giving it back needs.
    ///
    /// Errors: `Failed` where the depot failed and its count of faults rose, and `NoMemory`. Both leave files and loans
    /// as they were.
    fn stage(&mut self, alloc: Global, at: &Path) -> Result<Option<Self::S>, Refused>
        ensures changes { Changes held faults self.old self.new (Lends at.now result)
            (HasFailed result) }
        ensures stage { IfFound result
            (λ stage. IsLentOf (held self.old) at.now (Self.S.held stage)) }
        ensures fresh { IfFound result (λ stage. Self.S.faults stage ≡ 0) };

    /// Puts the staged bytes back at the path that they were lent from, where that is still lent, and else changes no
    /// file. The faults that the stage has had count as one fault of the depot. Takes no memory, and cannot fail.
    fn shelve(&mut self, stage: Self::S)
        ensures changes { Changes held faults self.old self.new (Shelves (Self.S.held stage))
            (0 < Self.S.faults stage) };

    /// Moves the staged bytes to `to`, and ends their loan, and one of `to`. What stands at `to` already is kept, and
    /// the staged bytes are gone. Answers the size of the file that stands at `to`, at most 2^62.
    ///
    /// Errors: `Failed` where the depot failed and its count of faults rose, and the bytes were moved, or were put back
    /// at the path that they were lent from; `NoMemory`, where nothing changed.
    fn place(&mut self, alloc: Global, stage: Self::S, to: &Path) -> Result<u64, Unplaced<Self::S>>
        ensures value { Finds (held self.old) result (IsStanding (Self.S.held stage) to.now) }
        ensures most { IfOk result (λ size. size ≤ file_limit) }
        ensures changes { Changes held faults self.old self.new
            (Places (Self.S.held stage) to.now result) (HasFailedToPlace result) }
        ensures back { IfBack result (λ back. back ≡ stage) };

    /// Ends with no file at a path, also where there was none. A loan of the path stays.
    fn remove(&mut self, alloc: Global, at: &Path) -> Result<(), Refused>
        ensures changes { Changes held faults self.old self.new (Removes at.now result)
            (HasFailed result) };

    /// Ends a blob, read to its end or not. The faults that it has had count as one fault of the depot. Takes no
    /// memory, and cannot fail.
    fn done(&mut self, blob: Self::B)
        ensures reads { OnlyReads held faults self.old self.new (0 < Self.B.faults blob) };
}
