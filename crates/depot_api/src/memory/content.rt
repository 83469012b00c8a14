//! The bytes of a file in memory.
ghost use Rattle.std.specs.Prelude.{◌≡◌, ◌≤◌, length, vec_len, IfOk};
ghost use Rattle.depot_api.specs.Limits.{file_limit};

use crate::{Bytes, FILE_LIMIT, NoMemory};
use std::alloc::Global;
use std::marker::Model;

/// All bytes of one file, at most 2^62. Contracts see the list of them.
#[derive(Debug, Drop)]
pub struct FileBytes {
    bytes: Bytes,
}

impl Model for FileBytes {
    ghost use Rattle.std.specs.Prelude.{List, ℕ, length, ◌≤◌};
    ghost use Rattle.depot_api.specs.Limits.{file_limit};

    ghost Value = { List ℕ };

    ghost view = { λ f. f.bytes };

    ghost invariant = { λ f. length f.bytes ≤ file_limit };
}

impl FileBytes {
    /// The file of these bytes. There is no memory for more than a file has.
    pub fn of(bytes: Bytes) -> Result<FileBytes, NoMemory>
        ensures { IfOk result (λ f. f ≡ bytes) }
    {
        if bytes.len() as u64 > FILE_LIMIT {
            return Err(NoMemory);
        }
        Ok(FileBytes { bytes })
    }

    /// The file of the bytes that a `Vec` holds. It takes no memory.
    pub fn of_vec(bytes: Vec<u8>) -> FileBytes
        requires { vec_len bytes ≤ file_limit }
        ensures { result ≡ bytes.items }
    {
        FileBytes {
            bytes: Bytes::from_vec(bytes),
        }
    }

    /// The `Vec` that holds the bytes. It takes no memory.
    pub fn into_vec(self) -> Vec<u8>
        ensures bytes { result.items ≡ self }
        ensures most { vec_len result ≤ file_limit }
    {
        let FileBytes { bytes } = self;
        bytes.into_vec()
    }

    /// Equal bytes.
    pub fn copy(&self, alloc: Global) -> Result<FileBytes, NoMemory>
        ensures { IfOk result (λ f. f ≡ self.now) }
    {
        let bytes = self.bytes.copy(alloc)?;
        Ok(FileBytes { bytes })
    }

    /// All bytes of the file.
    pub fn bytes(&self) -> &Bytes
        ensures bytes { result.now ≡ self.now }
        ensures most { length self.now ≤ file_limit }
    {
        &self.bytes
    }
}
