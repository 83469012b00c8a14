//! Blobs.
ghost use Rattle.std.specs.Prelude.{◌≡◌, IfOk};
ghost use Rattle.reg_names.specs.Cause.{OnlyReads};
ghost use Rattle.reg_names.specs.Refusals.{HasFailed as HasRefused};
ghost use Rattle.depot_api.specs.Holdings.{Finds, IfFound};
ghost use Rattle.link_reading.specs.Meaning.{Means};
ghost use Rattle.reg_entries.specs.declared.ask.Ask.TheVariants as asks;
ghost use Rattle.reg_model.specs.Blobs.{IsPaired};
ghost use Rattle.files_service.specs.Answers.{IfGiven, IsFresh, HasTrouble, HasFailed};
ghost use Rattle.files_service.specs.InnerAnswers.{FindsBlob};

use crate::lacks::lacks;
use crate::trouble::trouble;
use depot_api::{Blob, Depot};
use link_paths::data_path;
use link_reading::has_layer;
use reg_entries::numbers::BLOB_UNKNOWN;
use reg_entries::{Reply, Trouble};
use reg_names::{Digest, Name, Refused};
use std::alloc::Global;

/// A blob that a repository links (OCI Distribution Specification 1.1, "Pulling blobs"): the reply with its size in
/// bytes, and the blob, of which nothing was read. Else a refusal alone. Whoever took the blob gives it back by `done`.
///
/// Errors, here and in the other calls: `Trouble::Depot` where the depot's count of faults rose, and
/// `Trouble::NoMemory`.
pub fn pull_blob<D: Depot>(
    alloc: Global,
    depot: &mut D,
    name: &Name,
    digest: &Digest,
) -> Result<(Reply, Option<D::B>), Trouble>
    ensures answer { IfGiven D.B.rest (D.held depot.old) (asks.GetBlob name.now digest.now) result }
    ensures paired { IfOk result IsPaired }
    ensures fresh { IsFresh D.B.faults result }
    ensures trouble { HasTrouble result }
    ensures reads { OnlyReads D.held D.faults depot.old depot.new (HasFailed result) }
{
    match find_blob(alloc, depot, name, digest).map_err(trouble)? {
        Some(blob) => {
            let size = blob.left();
            Ok((
                Reply::Blob {
                    digest: *digest,
                    size,
                },
                Some(blob),
            ))
        }
        None => {
            let reply = lacks(alloc, depot, name, BLOB_UNKNOWN).map_err(trouble)?;
            Ok((reply, None))
        }
    }
}

// A blob that a repository links, of which nothing was read.
fn find_blob<D: Depot>(
    alloc: Global,
    depot: &mut D,
    name: &Name,
    digest: &Digest,
) -> Result<Option<D::B>, Refused>
    ensures value { Finds (D.held depot.old) result (FindsBlob D.B.rest name.now digest.now) }
    ensures fresh { IfFound result (λ blob. D.B.faults blob ≡ 0) }
    ensures telling { IfFound result (λ b. (D.B.rest b).tells ≡ (D.held depot.old).tells) }
    ensures reads { OnlyReads D.held D.faults depot.old depot.new (HasRefused result) }
{
    if has_layer(alloc, depot, name, digest)?.is_none() {
        return Ok(None);
    }
    let data = data_path(alloc, digest)?;
    depot.fetch(alloc, &data)
}
