//! Changes of files, and that they are made one after the other.
ghost use Rattle.std.specs.Prelude.{◌≡◌, IfOk};
ghost use Rattle.reg_names.specs.Refusals.{HasFailed};
ghost use Rattle.depot_api.specs.Changes.{Changes, Makes};
ghost use Rattle.files_service.specs.Changing.{MakesAll, puts_link, with_change};

use depot_api::{Depot, Path};
use reg_names::{Bytes, Digest, NoMemory, Refused};
use std::alloc::Global;

/// A change of a file.
#[derive(Debug, Drop)]
pub enum FileChange {
    /// A file of these bytes is put at a path, in the place of what stands there.
    Put { at: Path, bytes: Bytes },
    /// The file at a path, where there is one, is removed.
    Remove { at: Path },
}

impl FileChange {
    /// A link file at a path, which holds the text of the digest that it is to.
    pub(crate) fn link(alloc: Global, at: Path, digest: &Digest) -> Result<FileChange, NoMemory>
        ensures { IfOk result (λ change. change ≡ puts_link at digest.now) }
    {
        let text = digest.text(alloc)?;
        let bytes = Bytes::from_slice(alloc, text.as_bytes())?;
        Ok(FileChange::Put { at, bytes })
    }

    /// Makes it.
    pub(crate) fn make<D: Depot>(&self, alloc: Global, depot: &mut D) -> Result<(), Refused>
        ensures { Changes D.held D.faults depot.old depot.new
            (λ before now. Makes (with_change self.now before) result before now)
            (HasFailed result) }
    {
        match self {
            FileChange::Put { at, bytes } => depot.put_small(alloc, at, bytes.as_slice()),
            FileChange::Remove { at } => depot.remove(alloc, at),
        }
    }
}

/// Makes changes one after the other, up to the first that fails.
pub(crate) fn make_all<D: Depot>(
    alloc: Global,
    depot: &mut D,
    changes: &[FileChange],
) -> Result<(), Refused>
    ensures { Changes D.held D.faults depot.old depot.new (MakesAll changes.now result)
        (HasFailed result) }
{
    for change in changes {
        change.make(alloc, depot)?;
    }
    Ok(())
}
