//! Blobs.
ghost use Rattle.std.specs.Prelude.{◌≡◌, IfOk, IfErr, option_map};
ghost use Rattle.reg_names.specs.Cause.{OnlyReads};
ghost use Rattle.depot_api.specs.Holdings.{Finds, IfFound};
ghost use Rattle.link_paths.specs.Places.{data_path as path_of_data};
ghost use Rattle.reg_entries.specs.declared.ask.Ask.TheVariants as asks;
ghost use Rattle.reg_model.specs.Blobs.{IsPaired};
ghost use Rattle.reg_model.specs.Fits.{Fits};
ghost use Rattle.reg_tables.specs.Finds.{HasKeeperFailed};
ghost use Rattle.upload_sessions.specs.Troubles.{IsOfDepot};
ghost use Rattle.tables_service.specs.Answers.{IfGiven, OfGiven, IsFresh, IsOfReads, HasDepotFailed};

use crate::lacks::lacks;
use crate::lookups::has_link;
use depot_api::{Blob, Depot};
use link_paths::data_path;
use reg_entries::numbers::BLOB_UNKNOWN;
use reg_entries::{Reply, Trouble};
use reg_names::{Digest, Name};
use reg_tables::{Keeper, noting};
use std::alloc::Global;
use upload_sessions::depot_trouble;

/// A blob that a repository links (OCI Distribution Specification 1.1, "Pulling blobs"): the reply with its size in
/// bytes, and the blob, of which nothing was read. Else a refusal alone. Whoever took the blob gives it back by `done`.
///
/// Errors: `Keeper` and `Depot` where that one's count of faults rose, and `NoMemory`.
pub fn pull_blob<D: Depot, K: Keeper>(
    alloc: Global,
    depot: &mut D,
    keeper: &mut K,
    name: &Name,
    digest: &Digest,
) -> Result<(Reply, Option<D::B>), Trouble>
    ensures answer { IfGiven D.B.rest (K.kept keeper.old) (D.held depot.old)
        (asks.GetBlob name.now digest.now) result }
    ensures fits { OfGiven D.B.rest result (Fits (asks.GetBlob name.now digest.now)) }
    ensures paired { IfOk result IsPaired }
    ensures fresh { IsFresh D.B.faults result }
    ensures trouble { IfErr result IsOfReads }
    ensures files { OnlyReads D.held D.faults depot.old depot.new (HasDepotFailed result) }
    ensures rows { OnlyReads K.kept K.faults keeper.old keeper.new (HasKeeperFailed result) }
{
    if !has_link(alloc, keeper, name, digest)? {
        let reply = lacks(alloc, keeper, name, BLOB_UNKNOWN)?;
        return Ok((reply, None));
    }
    match fetched(alloc, depot, digest)? {
        Some(blob) => {
            let size = blob.left();
            Ok((
                Reply::Blob {
                    digest: *digest,
                    size,
                },
                Some(blob),
            ))
        }
        None => {
            let reply = lacks(alloc, keeper, name, BLOB_UNKNOWN)?;
            Ok((reply, None))
        }
    }
}

// The data file of a digest, of which nothing was read.
fn fetched<D: Depot>(alloc: Global, depot: &mut D, digest: &Digest) -> Result<Option<D::B>, Trouble>
    ensures value { Finds (D.held depot.old) result (λ files found.
        option_map (λ blob. (D.B.rest blob).bytes) found ≡ files (path_of_data digest.now)) }
    ensures telling { IfFound result (λ b. (D.B.rest b).tells ≡ (D.held depot.old).tells) }
    ensures fresh { IfFound result (λ blob. D.B.faults blob ≡ 0) }
    ensures reads { OnlyReads D.held D.faults depot.old depot.new (HasDepotFailed result) }
    ensures trouble { IfErr result IsOfDepot }
{
    let data = noting(data_path(alloc, digest))?;
    match depot.fetch(alloc, &data) {
        Ok(found) => Ok(found),
        Err(refused) => Err(depot_trouble(refused)),
    }
}
