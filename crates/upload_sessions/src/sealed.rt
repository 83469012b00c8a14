//! Bytes that are sealed: they were hashed, and are no more added to.
ghost use Rattle.std.specs.Prelude.{◌≡◌, ◌<◌, length, IfOk, IfErr, IsTrue};
ghost use Rattle.reg_names.specs.Cause.{OnlyReads};
ghost use Rattle.reg_names.specs.Refusals.{HasFailed};
ghost use Rattle.reg_digest.specs.Hashing.{hashes_to};
ghost use Rattle.depot_api.specs.Changes.{Changes, HasFailedToPlace, IfBack, IsStanding, Places};
ghost use Rattle.depot_api.specs.Holdings.{Finds};
ghost use Rattle.upload_sessions.specs.Sealing.{IsUnsealed};

use depot_api::{Depot, Path, Stage, Unplaced};
use reg_digest::Hashing;
use reg_names::{Digest, Refused};
use std::alloc::Global;

/// How many bytes a read of a stage may give to the hasher.
const PIECE: usize = 65_536;

/// Staged bytes with their digest and their length. Nothing but `seal` makes one, and nothing is appended to it.
pub struct Sealed<S: Stage> {
    stage: S,
    digest: Digest,
    size: u64,
    ghost counted: { size ≡ (S.held stage).count },
    ghost hashed: { IsTrue (S.held stage).tells → IsTrue (hashes_to digest (S.held stage).bytes) },
}

/// Why bytes were not sealed. The stage comes back with the bytes that it had.
#[derive(Debug, Drop)]
pub enum Unsealed<S> {
    /// A read of the stage failed, and its count of faults rose in this call.
    Failed(S),
    /// Memory was wanting.
    NoMemory(S),
}

impl<S: Stage> Sealed<S> {
    /// The digest of the staged bytes.
    pub fn digest(&self) -> Digest
        ensures digest { result ≡ self.now.digest }
        ensures hashes { IsTrue (S.held self.now.stage).tells
            → IsTrue (hashes_to result (S.held self.now.stage).bytes) }
    {
        self.digest
    }

    /// How many bytes are staged.
    pub fn size(&self) -> u64
        ensures size { result ≡ self.now.size }
        ensures count { result ≡ (S.held self.now.stage).count }
    {
        self.size
    }

    /// The stage, to which more may be appended again. Takes no memory.
    pub fn unseal(self) -> S
        ensures { result ≡ self.stage }
    {
        let Sealed {
            stage,
            digest: _,
            size: _,
        } = self;
        stage
    }
}

/// Seals a stage: hashes its bytes, each once, in pieces of 64 KB. What is staged stays.
///
/// Errors: `Unsealed`, with the stage.
pub fn seal<S: Stage>(alloc: Global, stage: S) -> Result<Sealed<S>, Unsealed<S>>
    ensures sealed { IfOk result (λ s. OnlyReads S.held S.faults stage s.stage ⊥) }
    ensures unsealed { IfErr result (IsUnsealed S.held S.faults stage) }
{
    let mut stage = stage;
    let Ok(mut buffer) = vec![in alloc; 0; PIECE] else {
        return Err(Unsealed::NoMemory(stage));
    };
    let size = stage.length();
    match hash_all(&mut stage, &mut buffer) {
        Ok(digest) => Ok(Sealed {
            stage,
            digest,
            size,
        }),
        Err(Refused::Failed) => Err(Unsealed::Failed(stage)),
        Err(Refused::NoMemory) => Err(Unsealed::NoMemory(stage)),
    }
}

/// Places sealed bytes at a path, as `Depot::place` does, and answers the size of the file that stands there.
///
/// Errors: as those of `Depot::place`; where memory was wanting, the sealed bytes come back as they were.
pub fn place_sealed<D: Depot>(
    alloc: Global,
    depot: &mut D,
    sealed: Sealed<D::S>,
    to: &Path,
) -> Result<u64, Unplaced<Sealed<D::S>>>
    ensures value { Finds (D.held depot.old) result
        (IsStanding (D.S.held sealed.stage) to.now) }
    ensures changes { Changes D.held D.faults depot.old depot.new
        (Places (D.S.held sealed.stage) to.now result) (HasFailedToPlace result) }
    ensures back { IfBack result (λ back. back ≡ sealed) }
{
    let Sealed {
        stage,
        digest,
        size,
    } = sealed;
    match depot.place(alloc, stage, to) {
        Ok(standing) => Ok(standing),
        Err(Unplaced::Failed) => Err(Unplaced::Failed),
        Err(Unplaced::NoMemory(stage)) => Err(Unplaced::NoMemory(Sealed {
            stage,
            digest,
            size,
        })),
    }
}

// The digest of all staged bytes, which are read through a buffer.
fn hash_all<S: Stage>(stage: &mut S, buffer: &mut [u8]) -> Result<Digest, Refused>
    requires { 0 < length buffer.old }
    ensures digest { IsTrue (S.held stage.old).tells
        → IfOk result (λ digest. IsTrue (hashes_to digest (S.held stage.old).bytes)) }
    ensures reads { OnlyReads S.held S.faults stage.old stage.new (HasFailed result) }
{
    let length = stage.length();
    let mut hashing = Hashing::new();
    let mut at = 0;
    while at < length {
        let given = stage.read_at(at, buffer)?;
        hashing.feed(&buffer[..given]);
        at += given as u64;
    }
    Ok(hashing.done())
}
