//! Why nothing was read.
ghost use Rattle.std.specs.Prelude.{◌≡◌, ◌↔◌, Ok, Err, Some, None, IfOk, IfErr};
ghost use Rattle.std.specs.IoError.{error_kind};
ghost use Rattle.depot_files.specs.InnerKinds.{IsAbsent, IsWantOfMemory};
ghost use Rattle.depot_files.specs.declared.error.FileError.TheVariants as errors;

use reg_names::NoMemory;
use std::alloc::{AllocError, AllocFailed};
use std::io::{self, ErrorKind};

/// Why it is not known what lies at a path.
#[derive(Clone, Copy, Debug, PartialEq, Eq)]
pub enum FileError {
    NoMemory,
    Fault,
}

/// What the system gave, and `None` where nothing lies at the path that it was asked for.
pub fn if_there<T>(given: io::Result<T>) -> Result<Option<T>, FileError>
    ensures value { IfOk given (λ value. result ≡ Ok (Some value)) }
    ensures absent { IfErr given (λ error. (result ≡ Ok None) ↔ IsAbsent (error_kind error)) }
    ensures memory { IfErr given (λ error.
        (result ≡ Err errors.NoMemory) ↔ IsWantOfMemory (error_kind error)) }
{
    match given {
        Ok(value) => Ok(Some(value)),
        Err(error) => match error.kind() {
            ErrorKind::NotFound | ErrorKind::NotADirectory => Ok(None),
            _ => Err(FileError::from(error)),
        },
    }
}

impl From<io::Error> for FileError {
    ghost use Rattle.std.specs.Prelude.{◌≡◌, ◌↔◌};
    ghost use Rattle.std.specs.IoError.{error_kind};
    ghost use Rattle.depot_files.specs.InnerKinds.{IsWantOfMemory};
    ghost use Rattle.depot_files.specs.declared.error.FileError.TheVariants as errors;

    ghost from_gives = { λ error told.
        (told ≡ errors.NoMemory) ↔ IsWantOfMemory (error_kind error) };

    fn from(error: io::Error) -> FileError {
        match error.kind() {
            ErrorKind::OutOfMemory => FileError::NoMemory,
            _ => FileError::Fault,
        }
    }
}

impl From<NoMemory> for FileError {
    ghost use Rattle.std.specs.Prelude.{◌≡◌};
    ghost use Rattle.depot_files.specs.declared.error.FileError.TheVariants as errors;

    ghost from_gives = { λ _ told. told ≡ errors.NoMemory };

    fn from(_: NoMemory) -> FileError {
        FileError::NoMemory
    }
}

impl From<AllocError> for FileError {
    ghost use Rattle.std.specs.Prelude.{◌≡◌};
    ghost use Rattle.depot_files.specs.declared.error.FileError.TheVariants as errors;

    ghost from_gives = { λ _ told. told ≡ errors.NoMemory };

    fn from(_: AllocError) -> FileError {
        FileError::NoMemory
    }
}

impl<T: Drop> From<AllocFailed<T>> for FileError {
    ghost use Rattle.std.specs.Prelude.{◌≡◌};
    ghost use Rattle.depot_files.specs.declared.error.FileError.TheVariants as errors;

    ghost from_gives = { λ _ told. told ≡ errors.NoMemory };

    fn from(_: AllocFailed<T>) -> FileError {
        FileError::NoMemory
    }
}
