//! Changes below a root. A call that has changed what lies there ends with it synced, or tells a fault.
ghost use Rattle.std.specs.Prelude.{◌≡◌, ◌≤◌, Err, IfOk, OnErr};
ghost use Rattle.depot_api.specs.Limits.{file_limit};
ghost use Rattle.depot_files.specs.declared.error.FileError.TheVariants as errors;

use super::{Opened, Root, length_of};
use crate::error::FileError;
use depot_api::Path;
use std::alloc::Global;
use std::fs::{self, OpenFile, OpenOptions};
use std::os::unix::fs::MetadataExt;
use std::rt::Files;

impl<R: Files + AllocGlobal> Root<R> {
    /// The system's path of a path, whose folders are made where they are missing.
    pub fn make_way(&mut self, alloc: Global, path: &Path) -> Result<String, FileError> {
        let mut folder = String::from_str(alloc, self.path.as_str())?;
        let Some((last, above)) = path.parts().split_last() else {
            return Err(FileError::Fault);
        };
        for part in above {
            folder.push_str("/")?;
            folder.push_str(part.as_str())?;
            if !self.has_folder(alloc, folder.as_str())? {
                self.make_folder(folder.as_str())?;
            }
        }
        folder.push_str("/")?;
        folder.push_str(last.as_str())?;
        Ok(folder)
    }

    /// The system's path of a path, where a file lies there. A symbolic link is a fault.
    pub fn file_name(&mut self, alloc: Global, path: &Path) -> Result<Option<String>, FileError> {
        let Some(name) = self.reach(alloc, path)? else {
            return Ok(None);
        };
        Ok(self.file_at(name.as_str())?.map(|_| name))
    }

    /// Opens a file to append to it, which is made where it is missing.
    pub fn open_stage(&mut self, name: &str) -> Result<Opened<R::File>, FileError>
        ensures { IfOk result (λ opened. opened.length ≤ file_limit) }
    {
        if self.look(name)?.is_some_and(|found| !found.is_file()) {
            return Err(FileError::Fault);
        }
        let file = OpenOptions::new()
            .read(true)
            .append(true)
            .create(true)
            .open(&self.rt, name)?;
        let length = length_of(&file.metadata()?)?;
        Ok(Opened { file, length })
    }

    /// Whether an open file is the one that has a name.
    pub fn is_named<F: OpenFile>(&self, file: &F, name: &str) -> Result<bool, FileError> {
        let own = file.metadata()?;
        let named = self.file_at(name)?;
        Ok(named.is_some_and(|found| (found.dev(), found.ino()) == (own.dev(), own.ino())))
    }

    /// Gives a file another name, in the place of a file that has it. A folder or a link is a fault.
    pub fn rename(&self, from: &str, to: &str) -> Result<(), FileError> {
        if self.look(to)?.is_some_and(|found| !found.is_file()) {
            return Err(FileError::Fault);
        }
        Ok(fs::rename(&self.rt, from, to)?)
    }

    /// Takes a file's name.
    pub fn unlink(&self, name: &str) -> Result<(), FileError> {
        Ok(fs::remove_file(&self.rt, name)?)
    }

    /// Syncs the folder above a name. Whatever keeps it from that is a fault, since what was changed there has been
    /// changed.
    pub fn sync_above(&self, name: &str) -> Result<(), FileError>
        ensures { OnErr result (result ≡ Err errors.Fault) }
    {
        let Some((folder, _)) = name.rsplit_once('/') else {
            return Err(FileError::Fault);
        };
        match fs::open(&self.rt, folder) {
            Ok(folder) if folder.sync_all().is_ok() => Ok(()),
            Ok(_) | Err(_) => Err(FileError::Fault),
        }
    }

    /// Makes a folder, which is synced into the one above it.
    pub fn make_folder(&self, folder: &str) -> Result<(), FileError> {
        fs::create_dir(&self.rt, folder)?;
        self.sync_above(folder)
    }
}
