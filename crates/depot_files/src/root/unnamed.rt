//! Files that have no path yet. Each is written and synced under a name of its own, and is then renamed.
use super::{Root, names_in};
use crate::error::{FileError, if_there};
use std::alloc::Global;
use std::fs::{self, OpenFile, OpenOptions};
use std::io::{self, ErrorKind, Write};
use std::random::RandomSource;
use std::rt::{Clock, Files};
use std::time::Duration;

/// The folder of such files, below the root and beside the trees of files.
const UNNAMED: &str = ".unnamed";

/// How many names are tried for a file. A name that is taken has the same word and moment, so one try will do.
const MOST_NAMES: u64 = 64;

/// The age, in seconds, at which a file is left over: no program takes a day to give it a path.
const OLD: u64 = 86_400;

impl<R: Files + AllocGlobal + Clock> Root<R> {
    /// A new file of these bytes, synced, that has no path yet. Gives the name that it has until then: of the depot's
    /// word, which other programs do not have, of the moment, and of the try.
    pub fn write_unnamed(&mut self, alloc: Global, bytes: &[u8]) -> Result<String, FileError> {
        let folder = self.unnamed_folder(alloc)?;
        if !self.has_folder(alloc, folder.as_str())? {
            self.make_folder(folder.as_str())?;
        }
        let word = self.word;
        let moment = self.rt.since_1970().unwrap_or(Duration::ZERO);
        let (seconds, nanoseconds) = (moment.as_secs(), moment.subsec_nanos());
        for number in 0..MOST_NAMES {
            let name = format!(in alloc; "{folder}/{word}-{seconds}.{nanoseconds:09}-{number}")?;
            match OpenOptions::new()
                .write(true)
                .create_new(true)
                .open(&self.rt, name.as_str())
            {
                Ok(file) => {
                    self.fill(file, name.as_str(), bytes)?;
                    return Ok(name);
                }
                Err(error) if error.kind() == ErrorKind::AlreadyExists => {}
                Err(error) => return Err(FileError::from(error)),
            }
        }
        Err(FileError::Fault)
    }

    /// Removes the files that are left over from programs that were stopped. One that cannot be looked at, or
    /// removed, stays.
    pub fn clear_unnamed(&self, alloc: Global) -> Result<(), FileError> {
        let folder = self.unnamed_folder(alloc)?;
        let Some(found) = if_there(self.rt.open_dir(folder.as_str()))? else {
            return Ok(());
        };
        for name in &names_in(alloc, found)? {
            let name = format!(in alloc; "{folder}/{}", name.as_str())?;
            if self
                .age_of(name.as_str())
                .is_ok_and(|age| age.as_secs() >= OLD)
            {
                let _ = self.unlink(name.as_str());
            }
        }
        Ok(())
    }

    // How long ago a file was last written.
    fn age_of(&self, name: &str) -> io::Result<Duration> {
        let written = fs::symlink_metadata(&self.rt, name)?.modified()?;
        written.elapsed(&self.rt)
    }

    fn unnamed_folder(&self, alloc: Global) -> Result<String, FileError> {
        let root = self.path.as_str();
        Ok(format!(in alloc; "{root}/{UNNAMED}")?)
    }

    // Writes a new file, and syncs it. One that fails is taken away again.
    fn fill(&self, mut file: R::File, name: &str, bytes: &[u8]) -> Result<(), FileError> {
        if file.write_all(bytes).is_ok() && file.sync_all().is_ok() {
            return Ok(());
        }
        let _ = if_there(fs::remove_file(&self.rt, name));
        Err(FileError::Fault)
    }
}

/// A word of a depot, which others do not draw: 0 where the system has none.
pub fn draw_word(rt: &impl RandomSource) -> u64 {
    let mut word = [0; 8];
    match rt.fill_bytes(&mut word) {
        Ok(()) => u64::from_le_bytes(word),
        Err(_) => 0,
    }
}
