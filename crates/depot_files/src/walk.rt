//! A walk through the files below a root.
ghost use Rattle.std.specs.Prelude.{◌≤◌, vec_len, IsTrue, IfOk};
ghost use Rattle.std.specs.Option.{option_copied};
ghost use Rattle.depot_api.specs.Pages.{IsAsked, ArePathsAbove};

use crate::error::FileError;
use crate::loans::Loans;
use crate::root::{Entry, Root};
use depot_api::{Part, Path};
use reg_names::NoMemory;
use std::alloc::{AllocError, Global};
use std::rt::Files;

/// The most files and folders that one page looks at. No disk holds as many, but no clause can say
/// so; such a page would find no memory.
const MOST_TURNS: u64 = 1 << 62;

/// The files that begin with a path and come after another, in the order of their paths. A folder
/// is listed once, when the walk comes to it, and its names are held until it has gone through
/// them. No folder stays open.
///
/// What is neither a file nor a folder is passed over, and so are names that are no part of a path.
#[derive(Drop)]
pub struct Walk {
    under: Path,
    /// The file that was given last, or the path behind which the walk began.
    after: Option<Path>,
    /// What comes next, in the innermost folder first, which stands at the end.
    ahead: Vec<Ahead>,
}

/// What is still to come of a folder.
#[derive(Drop)]
struct Ahead {
    /// The path of the folder, and nothing for the root itself.
    folder: String,
    /// The names in it, the next one at the end.
    names: Vec<Part>,
}

impl Walk {
    /// The walk through the files that begin with `under` and come after `after`.
    pub fn begin<R: Files + AllocGlobal>(
        alloc: Global,
        root: &mut Root<R>,
        under: &Path,
        after: Option<&Path>,
    ) -> Result<Walk, FileError> {
        let mut ahead = Vec::new(alloc);
        if comes_after(under, after) && root.has_folders(alloc, under)? {
            ahead.push(Ahead::of_path(alloc, under)?)?;
        }
        Ok(Walk {
            under: under.copy(alloc)?,
            after: after.map(|after| after.copy(alloc)).transpose()?,
            ahead,
        })
    }

    /// Whether the next files are those that begin with `under` and come after `after`.
    pub fn stands_at(&self, under: &Path, after: Option<&Path>) -> bool {
        self.under == *under && self.after.as_ref() == after
    }

    /// The next files, at most so many, of a walk that stands at `under` and `after`. What the
    /// system gives out of their order is passed over.
    pub fn page<R: Files + AllocGlobal>(
        &mut self,
        alloc: Global,
        root: &mut Root<R>,
        loans: &Loans,
        under: &Path,
        after: Option<&Path>,
        most: usize,
    ) -> Result<Vec<Path>, FileError>
        ensures most { IfOk result (λ page. vec_len page ≤ most) }
        ensures order { IfOk result (λ page.
            ArePathsAbove under.now (option_copied after.entry) page.items) }
    {
        let mut page = Vec::new(alloc);
        for _ in 0..MOST_TURNS {
            if page.len() == most {
                return Ok(page);
            }
            let Some(folder) = self.ahead.last_mut() else {
                return Ok(page);
            };
            let Some(next) = folder.next(alloc)? else {
                let _ = self.ahead.pop();
                continue;
            };
            let Some(file) = self.visit(alloc, root, loans, next.as_str())? else {
                continue;
            };
            if is_asked(under, page.last().or(after), &file) {
                self.has_given(alloc, &file)?;
                page.push(file)?;
            }
        }
        Err(FileError::NoMemory)
    }

    // The path of a file, where one lies there that is not lent. Of a folder the names come next.
    fn visit<R: Files + AllocGlobal>(
        &mut self,
        alloc: Global,
        root: &mut Root<R>,
        loans: &Loans,
        text: &str,
    ) -> Result<Option<Path>, FileError> {
        let Some(path) = Path::read(alloc, text)? else {
            return Ok(None);
        };
        match root.entry(alloc, text, self.is_file_likely(&path))? {
            Entry::File if !loans.has(&path) => Ok(Some(path)),
            Entry::Folder(names) => {
                let first = first_name(self.after.as_ref(), &path);
                self.ahead
                    .push(Ahead::of_folder(alloc, text, names, first)?)?;
                Ok(None)
            }
            Entry::File | Entry::Other => Ok(None),
        }
    }

    // Most files have the name of the one before them.
    fn is_file_likely(&self, path: &Path) -> bool {
        let last = self.after.as_ref().and_then(|after| after.parts().last());
        last.is_some_and(|last| path.parts().last() == Some(last))
    }

    fn has_given(&mut self, alloc: Global, file: &Path) -> Result<(), NoMemory> {
        self.after = Some(file.copy(alloc)?);
        Ok(())
    }
}

impl Ahead {
    // What lies at one path alone.
    fn of_path(alloc: Global, path: &Path) -> Result<Ahead, FileError> {
        let mut names = Vec::new(alloc);
        let mut folder = String::new(alloc);
        if let Some((last, above)) = path.parts().split_last() {
            folder.push_str(Part::join(alloc, above)?.as_str())?;
            names.push(last.copy(alloc)?)?;
        }
        Ok(Ahead { folder, names })
    }

    // The names of a folder in the order of paths, from the first on that the walk has not gone
    // through.
    fn of_folder(
        alloc: Global,
        folder: &str,
        mut names: Vec<Part>,
        first: Option<&Part>,
    ) -> Result<Ahead, AllocError> {
        names.retain(|name| first.is_none_or(|first| first <= name));
        names.sort_unstable_by(|a, b| b.cmp(a));
        Ok(Ahead {
            folder: String::from_str(alloc, folder)?,
            names,
        })
    }

    // The text of the path of what comes next.
    fn next(&mut self, alloc: Global) -> Result<Option<String>, AllocError> {
        match self.names.pop() {
            Some(name) if self.folder.is_empty() => Ok(Some(String::from_str(
                alloc,
                name.as_str(),
            )?)),
            Some(name) => Ok(Some(format!(in alloc; "{}/{}", self.folder, name.as_str())?)),
            None => Ok(None),
        }
    }
}

// The name at which a walk goes on in a folder whose front it has gone through.
fn first_name<'a>(after: Option<&'a Path>, folder: &Path) -> Option<&'a Part> {
    after?.parts().strip_prefix(folder.parts())?.first()
}

// Whether a file is one of those that begin with `under` and come after `after`.
fn is_asked(under: &Path, after: Option<&Path>, file: &Path) -> bool
    ensures { IsTrue result → IsAsked under.now (option_copied after.entry) file.now }
{
    file.begins_with(under) && after.is_none_or(|after| after < file)
}

// Whether files that begin with `under` may come after `after`.
fn comes_after(under: &Path, after: Option<&Path>) -> bool {
    match after {
        Some(after) => after < under || after.begins_with(under),
        None => true,
    }
}
