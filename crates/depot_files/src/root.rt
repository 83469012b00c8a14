//! The root of a depot, and what lies below it.
ghost use Rattle.std.specs.Prelude.{◌≤◌, IfOk};
ghost use Rattle.std.specs.BTreeSet.{btree_set_len};
ghost use Rattle.depot_api.specs.Holdings.{IfFound};
ghost use Rattle.depot_api.specs.Limits.{file_limit};
ghost use Rattle.depot_files.specs.declared.root.TheConstants.{MOST_FOLDERS};

mod changes;
mod unnamed;

use crate::error::{FileError, if_there};
use depot_api::{FILE_LIMIT, Part, Path};
use std::alloc::Global;
use std::collections::BTreeSet;
use std::fs::{self, Metadata, OpenFile};
use std::io::{self, Read};
use std::os::unix::fs::MetadataExt;
use std::path::AsPath;
use std::random::RandomSource;
use std::rt::{Clock, Files};

/// The most folders that are remembered.
const MOST_FOLDERS: usize = 1024;

/// How often a file is looked at that is another one whenever it is opened.
const MOST_LOOKS: usize = 3;

/// The most reads of one folder. No disk holds names for as many.
const MOST_READS: u64 = 1 << 62;

/// How many bytes of names one read of a folder takes.
const NAMES_READ: usize = 4096;

/// A directory, and the system that has it. Paths are relative to the directory. No symbolic link
/// below it is followed: one at a path, or in the place of a folder above it, is a fault.
#[derive(Drop)]
pub struct Root<R> {
    rt: R,
    /// The directory's own path, with no symbolic link in it.
    path: String,
    /// What the names of files that have no path yet begin with.
    word: u64,
    /// The system's paths of folders that were there and are no links, at which it looks no more.
    folders: BTreeSet<String>,
    ghost few: { btree_set_len folders ≤ MOST_FOLDERS },
}

/// What lies at a path.
#[derive(Drop)]
pub enum Entry {
    File,
    /// The names in a folder that are parts of paths, in any order.
    Folder(Vec<Part>),
    /// Nothing, or what is neither a file nor a folder.
    Other,
}

/// A file that is open.
#[derive(Drop)]
pub struct Opened<F> {
    pub file: F,
    /// How many bytes it has.
    pub length: u64,
}

impl<R: Files + AllocGlobal + Clock + RandomSource> Root<R> {
    /// The root at a path of the system. What is no directory, and what cannot be opened or
    /// searched, is refused. What stopped programs left over a day ago is removed, as far as it can.
    pub fn open(rt: R, path: &str) -> io::Result<Root<R>>
    where
        R: Drop,
    {
        let alloc = rt.alloc();
        let path = fs::canonicalize(&rt, path)?;
        let path = String::from_str(alloc, path.path_text())?;
        let _ = rt.open_dir(path.as_str())?;
        let inside = format!(in alloc; "{path}/.")?;
        let _ = fs::symlink_metadata(&rt, inside.as_str())?;
        let word = unnamed::draw_word(&rt);
        let folders = BTreeSet::new(alloc);
        let root = Root {
            rt,
            path,
            word,
            folders,
        };
        let _ = root.clear_unnamed(alloc);
        Ok(root)
    }
}

impl<R: Files + AllocGlobal> Root<R> {
    /// Opens the file at a path. What is opened is what was looked at before: a file that has come
    /// in its place is looked at anew.
    pub fn open_file(
        &mut self,
        alloc: Global,
        path: &Path,
    ) -> Result<Option<Opened<R::File>>, FileError>
        ensures { IfFound result (λ opened. opened.length ≤ file_limit) }
    {
        let Some(asked) = self.reach(alloc, path)? else {
            return Ok(None);
        };
        for _ in 0..MOST_LOOKS {
            let Some(seen) = self.file_at(asked.as_str())? else {
                return Ok(None);
            };
            if let Some(opened) = self.open_seen(asked.as_str(), &seen)? {
                return Ok(Some(opened));
            }
        }
        Err(FileError::Fault)
    }

    /// The length of the file at a path, in bytes.
    pub fn file_len(&mut self, alloc: Global, path: &Path) -> Result<Option<u64>, FileError>
        ensures { IfFound result (λ length. length ≤ file_limit) }
    {
        let Some(asked) = self.reach(alloc, path)? else {
            return Ok(None);
        };
        match self.file_at(asked.as_str())? {
            Some(found) => Ok(Some(length_of(&found)?)),
            None => Ok(None),
        }
    }

    /// What lies at the path of a text, where the folders above it are there. Where a file is
    /// likely, it is looked for first.
    pub fn entry(
        &mut self,
        alloc: Global,
        path: &str,
        is_file_likely: bool,
    ) -> Result<Entry, FileError> {
        let asked = self.system_path(alloc, path)?;
        if is_file_likely && self.file_at(asked.as_str())?.is_some() {
            return Ok(Entry::File);
        }
        // The system opens no link as a folder.
        if let Some(folder) = if_there(self.rt.open_dir(asked.as_str()))? {
            self.remember(asked)?;
            return Ok(Entry::Folder(names_in(alloc, folder)?));
        }
        match self.file_at(asked.as_str())? {
            Some(_) => Ok(Entry::File),
            None => Ok(Entry::Other),
        }
    }

    /// Whether the folders above a path are there.
    pub fn has_folders(&mut self, alloc: Global, path: &Path) -> Result<bool, FileError> {
        let mut folder = String::from_str(alloc, self.path.as_str())?;
        let Some((_, above)) = path.parts().split_last() else {
            return Ok(false);
        };
        for part in above {
            folder.push_str("/")?;
            folder.push_str(part.as_str())?;
            if !self.has_folder(alloc, folder.as_str())? {
                return Ok(false);
            }
        }
        Ok(true)
    }

    // Whether a folder is there, at a path of the system in a folder that is there.
    fn has_folder(&mut self, alloc: Global, folder: &str) -> Result<bool, FileError> {
        if self.folders.contains(folder) {
            return Ok(true);
        }
        let is_there = self.look(folder)?.is_some_and(|found| found.is_dir());
        if is_there {
            self.remember(String::from_str(alloc, folder)?)?;
        }
        Ok(is_there)
    }

    // All are forgotten where one more would be too many.
    fn remember(&mut self, folder: String) -> Result<(), FileError> {
        if self.folders.len() >= MOST_FOLDERS {
            self.folders.clear();
        }
        let _ = self.folders.insert(folder)?;
        Ok(())
    }

    // The system's path of a path, where the folders above it are there.
    fn reach(&mut self, alloc: Global, path: &Path) -> Result<Option<String>, FileError> {
        let asked = self.system_path(alloc, path.text(alloc)?.as_str())?;
        match asked.rsplit_once('/') {
            Some((folder, _)) if self.folders.contains(folder) => Ok(Some(asked)),
            _ => Ok(self.has_folders(alloc, path)?.then_some(asked)),
        }
    }

    // The file at a path of the system.
    fn file_at(&self, asked: &str) -> Result<Option<Metadata>, FileError> {
        Ok(self.look(asked)?.filter(|found| found.is_file()))
    }

    // What lies at a path of the system. A symbolic link is a fault.
    fn look(&self, asked: &str) -> Result<Option<Metadata>, FileError> {
        match if_there(fs::symlink_metadata(&self.rt, asked))? {
            Some(found) if found.is_symlink() => Err(FileError::Fault),
            found => Ok(found),
        }
    }

    // Opens the file that was seen at a path of the system, unless another one lies there by now.
    fn open_seen(&self, asked: &str, seen: &Metadata) -> Result<Option<Opened<R::File>>, FileError>
        ensures { IfFound result (λ opened. opened.length ≤ file_limit) }
    {
        let Some(file) = if_there(fs::open(&self.rt, asked))? else {
            return Ok(None);
        };
        let found = file.metadata()?;
        if (found.dev(), found.ino()) != (seen.dev(), seen.ino()) {
            return Ok(None);
        }
        let length = length_of(&found)?;
        Ok(Some(Opened { file, length }))
    }

    fn system_path(&self, alloc: Global, path: &str) -> Result<String, FileError> {
        let root = self.path.as_str();
        Ok(format!(in alloc; "{root}/{path}")?)
    }
}

// The length of a file. One that is longer than any file of a depot is a fault.
fn length_of(file: &Metadata) -> Result<u64, FileError>
    ensures { IfOk result (λ length. length ≤ file_limit) }
{
    if file.len() <= FILE_LIMIT {
        Ok(file.len())
    } else {
        Err(FileError::Fault)
    }
}

// The names in an open folder that are parts of paths: those that are not UTF-8 are none.
fn names_in<D: Read + Drop>(alloc: Global, mut folder: D) -> Result<Vec<Part>, FileError> {
    let mut names = Vec::new(alloc);
    let mut read = [0; NAMES_READ];
    for _ in 0..MOST_READS {
        let n = folder.read(&mut read)?;
        if n == 0 {
            return Ok(names);
        }
        push_names(alloc, &mut names, &read[..n])?;
    }
    Err(FileError::NoMemory)
}

// Takes the names of one read, with a NUL behind each.
fn push_names(alloc: Global, names: &mut Vec<Part>, read: &[u8]) -> Result<(), FileError> {
    for name in read.split(|byte| *byte == 0) {
        let Ok(name) = str::from_utf8(name) else {
            continue;
        };
        if let Some(part) = Part::read(alloc, name)? {
            names.push(part)?;
        }
    }
    Ok(())
}
