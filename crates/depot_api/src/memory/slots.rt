//! What stands at each path of a depot in memory.
ghost use Rattle.std.specs.Prelude.{◌≡◌, ◌≤◌, false, [], None, option_copied, take, vec_len, IfOk, OnErr};
ghost use Rattle.std.specs.List.{take_while};
ghost use Rattle.std.specs.Map.{keys_of};
ghost use Rattle.std.specs.Range.Bound.{bound_map};
ghost use Rattle.depot_api.specs.Changes.{with_file, with_lent, with_loan, with_put, with_shelved, bytes_or, Lends};
ghost use Rattle.depot_api.specs.Holdings.{IfFound};
ghost use Rattle.depot_api.specs.InnerRanges.{StartsAt, wholes};
ghost use Rattle.depot_api.specs.Limits.{file_limit};
ghost use Rattle.depot_api.specs.Memory.{no_files, no_loans};
ghost use Rattle.depot_api.specs.Pages.{IsPage, ArePathsAbove};
ghost use Rattle.depot_api.specs.Paths.{begins_with};
ghost use Rattle.depot_api.specs.Slots.{slots_held, staged_at};

use crate::memory::content::FileBytes;
use crate::{NoMemory, Path};
use std::alloc::Global;
use std::collections::BTreeMap;
use std::collections::btree_map::Range;
use std::ops::Bound;

/// What stands at a path that is a file's, or that is lent.
#[derive(Debug, Drop)]
pub enum Slot {
    Whole(FileBytes),
    /// The path is lent. The memory that its file needs when it comes back is kept.
    Lent,
}

/// Files in memory, and the paths that are lent.
#[derive(Drop)]
pub struct Slots {
    slots: BTreeMap<Path, Slot>,
}

impl Slots {
    /// No files, and nothing lent.
    pub fn new(alloc: Global) -> Slots
        ensures files { (slots_held result).files ≡ no_files }
        ensures lent { (slots_held result).lent ≡ no_loans }
    {
        Slots {
            slots: BTreeMap::new(alloc),
        }
    }

    /// The file at a path.
    pub fn file(&self, at: &Path) -> Option<&FileBytes>
        ensures { option_copied result ≡ (slots_held self.now).files at.now }
    {
        match self.slots.get(at) {
            Some(Slot::Whole(file)) => Some(file),
            Some(Slot::Lent) | None => None,
        }
    }

    /// Whether a path is lent.
    pub fn is_lent(&self, at: &Path) -> bool
        ensures { result ≡ (slots_held self.now).lent at.now }
    {
        matches!(self.slots.get(at), Some(Slot::Lent))
    }

    /// Puts a file at a path. A loan of the path has ended.
    pub fn put(&mut self, alloc: Global, at: &Path, file: FileBytes) -> Result<(), NoMemory>
        ensures put { IfOk result (λ _.
            slots_held self.new ≡ with_put (slots_held self.old) at.now file) }
        ensures without { OnErr result (slots_held self.new ≡ slots_held self.old) }
    {
        let _ = self.slots.insert(at.copy(alloc)?, Slot::Whole(file))?;
        Ok(())
    }

    /// Lends the bytes at a path, and `None` where it is lent.
    pub fn lend(&mut self, alloc: Global, at: &Path) -> Result<Option<Vec<u8>>, NoMemory>
        ensures lends { Lends at.now result (slots_held self.old) (slots_held self.new) }
        ensures bytes { IfFound result (λ bytes.
            bytes.items ≡ bytes_or [] (slots_held self.old).files at.now) }
        ensures most { IfFound result (λ bytes. vec_len bytes ≤ file_limit) }
    {
        if self.is_lent(at) {
            return Ok(None);
        }
        match self.slots.insert(at.copy(alloc)?, Slot::Lent)? {
            Some(Slot::Whole(file)) => Ok(Some(file.into_vec())),
            Some(Slot::Lent) | None => Ok(Some(Vec::new(alloc))),
        }
    }

    /// Lends `to` in the place of `from`, and gives the path `to`.
    pub fn lend_instead(&mut self, alloc: Global, from: &Path, to: &Path) -> Result<Path, NoMemory>
        ensures path { IfOk result (λ path. path ≡ to.now) }
        ensures lent { IfOk result (λ _.
            slots_held self.new
            ≡ with_lent (with_loan (slots_held self.old) from.now false) to.now) }
        ensures without { OnErr result (slots_held self.new ≡ slots_held self.old) }
    {
        let path = to.copy(alloc)?;
        let _ = self.slots.insert(to.copy(alloc)?, Slot::Lent)?;
        if from != to {
            self.end_loan(from);
        }
        Ok(path)
    }

    /// Puts lent bytes back at their path, where it is still lent. It takes no memory.
    pub fn shelve(&mut self, at: Path, bytes: Vec<u8>)
        requires { vec_len bytes ≤ file_limit }
        ensures { slots_held self.new
            ≡ with_shelved (slots_held self.old) (staged_at at bytes.items) }
    {
        if self.is_lent(&at) {
            let Ok(_) = self.slots.insert(at, Slot::Whole(FileBytes::of_vec(bytes))) else {
                unreachable!()
            };
        }
    }

    /// Ends with no file at a path.
    pub fn remove(&mut self, at: &Path)
        ensures { slots_held self.new ≡ with_file (slots_held self.old) at.now None }
    {
        if !self.is_lent(at) {
            let _ = self.slots.remove(at);
        }
    }

    /// Ends a loan of a path, where there is one.
    pub fn end_loan(&mut self, at: &Path)
        ensures { slots_held self.new ≡ with_loan (slots_held self.old) at.now false }
    {
        if self.is_lent(at) {
            let _ = self.slots.remove(at);
        }
    }

    /// The first `most` paths of files that begin with `under` and are above `after`.
    pub fn page(
        &self,
        alloc: Global,
        under: &Path,
        after: Option<&Path>,
        most: usize,
    ) -> Result<Vec<Path>, NoMemory>
        ensures value { IfOk result (λ page.
            IsPage (slots_held self.now).files under.now (option_copied after.entry) most
            page.items) }
        ensures most { IfOk result (λ page. vec_len page ≤ most) }
        ensures order { IfOk result (λ page.
            ArePathsAbove under.now (option_copied after.entry) page.items) }
    {
        let start = first_bound(under, after);
        let range = self.slots.range((start, Bound::Unbounded));
        first_paths(alloc, range, under, most)
    }
}

// The paths of files in front that begin with `under`, as far as `most`.
fn first_paths(
    alloc: Global,
    range: Range<'_, Path, Slot>,
    under: &Path,
    most: usize,
) -> Result<Vec<Path>, NoMemory>
    ensures { IfOk result (λ paths.
        paths.items
        ≡ take most (take_while (begins_with under.now) (keys_of (wholes range.entry)))) }
{
    let mut paths = Vec::new(alloc);
    for (path, slot) in range {
        let Slot::Whole(_) = slot else {
            continue;
        };
        if paths.len() == most || !path.begins_with(under) {
            break;
        }
        paths.push(path.copy(alloc)?)?;
    }
    Ok(paths)
}

// Where a page begins in the order of paths: above `after`, but not below `under`.
fn first_bound<'a>(under: &'a Path, after: Option<&'a Path>) -> Bound<&'a Path>
    ensures { StartsAt (bound_map (λ x. x.now) result) under.now (option_copied after.entry) }
{
    let Some(after) = after else {
        return Bound::Included(under);
    };
    if after < under {
        Bound::Included(under)
    } else {
        Bound::Excluded(after)
    }
}
