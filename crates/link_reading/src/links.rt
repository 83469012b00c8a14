//! Link files.
ghost use Rattle.std.specs.Prelude.{◌≡◌, ◌≤◌, length, option_and_then};
ghost use Rattle.reg_names.specs.Cause.{OnlyReads};
ghost use Rattle.reg_names.specs.Digests.{digest_named};
ghost use Rattle.reg_names.specs.Refusals.{HasFailed};
ghost use Rattle.depot_api.specs.Holdings.{Finds, IfFound};
ghost use Rattle.link_reading.specs.Meaning.{links_to};
ghost use Rattle.link_reading.specs.InnerAnswers.{short};

use depot_api::{Depot, Path, Small};
use reg_names::{Bytes, DIGEST_TEXT_LENGTH, Digest, Refused};
use std::alloc::Global;

/// Whether a link file holds the digest's text.
pub fn is_linked<D: Depot>(
    alloc: Global,
    depot: &mut D,
    at: &Path,
    digest: &Digest,
) -> Result<bool, Refused>
    ensures value { Finds (D.held depot.old) result (λ files linked.
        linked ≡ links_to (files at.now) digest.now) }
    ensures reads { OnlyReads D.held D.faults depot.old depot.new (HasFailed result) }
{
    match named_digest(alloc, depot, at)? {
        Some(named) => Ok(*digest == named),
        None => Ok(false),
    }
}

/// The digest whose text a link file holds.
pub fn named_digest<D: Depot>(
    alloc: Global,
    depot: &mut D,
    at: &Path,
) -> Result<Option<Digest>, Refused>
    ensures value { Finds (D.held depot.old) result (λ files named.
        named ≡ option_and_then digest_named (files at.now)) }
    ensures reads { OnlyReads D.held D.faults depot.old depot.new (HasFailed result) }
{
    match short_file(alloc, depot, at, DIGEST_TEXT_LENGTH as u64)? {
        Some(bytes) => Ok(Digest::read_bytes(bytes.as_slice())),
        None => Ok(None),
    }
}

/// The bytes of a file that is there and has at most so many.
pub fn short_file<D: Depot>(
    alloc: Global,
    depot: &mut D,
    at: &Path,
    most: u64,
) -> Result<Option<Bytes>, Refused>
    ensures value { Finds (D.held depot.old) result (λ files bytes.
        bytes ≡ short most (files at.now)) }
    ensures most { IfFound result (λ bytes. length bytes ≤ most) }
    ensures reads { OnlyReads D.held D.faults depot.old depot.new (HasFailed result) }
{
    match depot.read_small(alloc, at, most)? {
        Small::Content(bytes) => Ok(Some(bytes)),
        Small::Absent | Small::TooLong => Ok(None),
    }
}
