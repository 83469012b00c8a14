//! The digest of a file, by sealing it and by hashing all its bytes at once.
ghost use Rattle.std.specs.Prelude.{◌≡◌, [], IfSome, IsTrue};
ghost use Rattle.reg_names.specs.Cause.{OnlyReads};
ghost use Rattle.reg_names.specs.Refusals.{HasFailed};
ghost use Rattle.reg_digest.specs.Hashing.{hashes_to};
ghost use Rattle.depot_api.specs.Changes.{bytes_or};
ghost use Rattle.depot_api.specs.Holdings.{Finds, IfFound};

use depot_api::{Depot, Path, Refused, Small};
use reg_digest::digest_of;
use reg_names::{Bytes, Digest};
use std::alloc::Global;
use upload_sessions::{Unsealed, seal};

/// The most bytes of a file that is held whole: 2 GiB.
const MOST: u64 = 1 << 31;

/// The digest of the file at a path, which is staged, sealed and given back. `None` where the path is lent.
pub fn sealed<D: Depot>(alloc: Global, depot: &mut D, at: &Path) -> Result<Option<Digest>, Refused>
    ensures { Finds (D.held depot.old) result (λ files found. IfSome found (λ digest.
        IsTrue (hashes_to digest (bytes_or [] files at.now)))) }
{
    let Some(stage) = depot.stage(alloc, at)? else {
        return Ok(None);
    };
    match seal(alloc, stage) {
        Ok(sealed) => {
            let digest = sealed.digest();
            depot.shelve(sealed.unseal());
            Ok(Some(digest))
        }
        Err(Unsealed::Failed(stage)) => {
            depot.shelve(stage);
            Err(Refused::Failed)
        }
        Err(Unsealed::NoMemory(stage)) => {
            depot.shelve(stage);
            Err(Refused::NoMemory)
        }
    }
}

/// The digest of the file at a path, all whose bytes are held. `None` where there is no file, or a larger one.
pub fn hashed<D: Depot>(alloc: Global, depot: &mut D, at: &Path) -> Result<Option<Digest>, Refused>
    ensures value { Finds (D.held depot.old) result (λ files found. IfSome found (λ digest.
        IsTrue (hashes_to digest (bytes_or [] files at.now)))) }
    ensures reads { OnlyReads D.held D.faults depot.old depot.new (HasFailed result) }
{
    match whole(alloc, depot, at)? {
        Some(bytes) => Ok(Some(digest_of(bytes.as_slice()))),
        None => Ok(None),
    }
}

/// All bytes of the file at a path. `None` where there is no file, or a larger one.
pub fn whole<D: Depot>(alloc: Global, depot: &mut D, at: &Path) -> Result<Option<Bytes>, Refused>
    ensures value { Finds (D.held depot.old) result (λ files found. IfSome found (λ bytes.
        bytes ≡ bytes_or [] files at.now)) }
    ensures reads { OnlyReads D.held D.faults depot.old depot.new (HasFailed result) }
{
    match depot.read_small(alloc, at, MOST)? {
        Small::Content(bytes) => Ok(Some(bytes)),
        Small::Absent | Small::TooLong => Ok(None),
    }
}
