//! An upload's own file, which grows at its end.
ghost use Rattle.std.specs.Prelude.{◌≡◌, ◌≤◌, length, IfOk};
ghost use Rattle.depot_api.specs.Limits.{file_limit};

use depot_api::{Path, Stage};
use reg_names::Refused;
use std::fs::OpenFile;
use std::io::{self, Read, Seek, SeekFrom, Write};

/// A file that is open for appending, and the path that it was lent from.
#[derive(Drop)]
pub struct FileStage<F> {
    path: Path,
    file: F,
    length: u64,
    faults: u64,
    ghost short: { length ≤ file_limit },
}

impl<F> FileStage<F> {
    /// The file at a path, which has so many bytes.
    pub fn new(path: Path, file: F, length: u64) -> FileStage<F>
        requires { length ≤ file_limit }
        ensures path { result.path ≡ path }
        ensures length { result.length ≡ length }
        ensures faults { result.faults ≡ 0 }
    {
        FileStage {
            path,
            file,
            length,
            faults: 0,
        }
    }

    /// The path that it was lent from.
    pub fn path(&self) -> &Path
        ensures { result.now ≡ self.now.path }
    {
        &self.path
    }

    /// The file.
    pub fn file(&self) -> &F {
        &self.file
    }

    /// How often it has failed.
    pub fn faults(&self) -> u64
        ensures { result ≡ self.now.faults }
    {
        self.faults
    }
}

impl<F: Read + Write + Seek + OpenFile> Stage for FileStage<F> {
    ghost use Rattle.depot_files.specs.Silence.{untold_staged};

    ghost held = { λ s. untold_staged s.path s.length };

    ghost faults = { λ s. s.faults };

    fn length(&self) -> u64 {
        self.length
    }

    fn append(&mut self, piece: &[u8]) -> Result<(), Refused> {
        let whole = self.length + piece.len() as u64;
        if self.file.write_all(piece).is_ok() {
            self.length = whole;
            return Ok(());
        }
        // Of a piece that was not put whole the file tells how much came.
        if let Ok(found) = self.file.metadata() {
            self.length = found.len().max(self.length).min(whole);
        }
        self.faults = self.faults.saturating_add(1);
        Err(Refused::Failed)
    }

    fn read_at(&mut self, at: u64, into: &mut [u8]) -> Result<usize, Refused> {
        let left = usize::try_from(self.length.saturating_sub(at)).unwrap_or(usize::MAX);
        let most = into.len().min(left);
        if most == 0 {
            return Ok(0);
        }
        match read_from(&mut self.file, at, &mut into[..most]) {
            Ok(n) if n > 0 => Ok(n),
            // An end before the last byte is a fault too.
            Ok(_) | Err(_) => {
                self.faults = self.faults.saturating_add(1);
                Err(Refused::Failed)
            }
        }
    }
}

fn read_from<F: Read + Seek>(file: &mut F, at: u64, into: &mut [u8]) -> io::Result<usize>
    ensures { IfOk result (λ n. n ≤ length into.old) }
{
    let _ = file.seek(SeekFrom::Start(at))?;
    file.read(into)
}
