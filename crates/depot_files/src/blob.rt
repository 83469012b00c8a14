//! A file that is read from its front.
ghost use Rattle.std.specs.Prelude.{◌≡◌, ◌≤◌};
ghost use Rattle.depot_api.specs.Limits.{file_limit};

use depot_api::{Blob, BlobFault};
use std::io::Read;

/// The bytes of a file, as many as it had when it was opened.
#[derive(Drop)]
pub struct FileBlob<F> {
    file: F,
    left: u64,
    faults: u64,
    ghost short: { left ≤ file_limit },
}

impl<F> FileBlob<F> {
    /// The next `left` bytes of a file.
    pub fn new(file: F, left: u64) -> FileBlob<F>
        requires { left ≤ file_limit }
        ensures left { result.left ≡ left }
        ensures faults { result.faults ≡ 0 }
    {
        FileBlob {
            file,
            left,
            faults: 0,
        }
    }

    /// How often it has failed.
    pub fn faults(&self) -> u64
        ensures { result ≡ self.now.faults }
    {
        self.faults
    }
}

impl<F: Read> Blob for FileBlob<F> {
    ghost use Rattle.depot_files.specs.Silence.{untold_rest};

    ghost rest = { λ b. untold_rest b.left };

    ghost faults = { λ b. b.faults };

    fn left(&self) -> u64 {
        self.left
    }

    fn read(&mut self, into: &mut [u8]) -> Result<usize, BlobFault> {
        let most = into
            .len()
            .min(usize::try_from(self.left).unwrap_or(usize::MAX));
        if most == 0 {
            return Ok(0);
        }
        match self.file.read(&mut into[..most]) {
            Ok(n) if n > 0 => {
                self.left -= n as u64;
                Ok(n)
            }
            // An end before `left` is 0 is a fault too.
            Ok(_) | Err(_) => {
                self.faults = self.faults.saturating_add(1);
                Err(BlobFault)
            }
        }
    }
}
