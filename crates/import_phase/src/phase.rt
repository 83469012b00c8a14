//! The phases of an import.
ghost use Rattle.std.specs.Prelude.{◌≡◌, IfOk};

use depot_api::Path;
use keeper_api::Key;
use reg_names::NoMemory;
use std::alloc::Global;

/// How far a walk over paths has come.
#[derive(Debug, Drop, PartialEq, Eq)]
pub enum Cursor {
    Start,
    /// This path was the last one.
    At(Path),
    Done,
}

/// How far step two has come: it walks over the files, and then over the rows.
#[derive(Debug, Drop, PartialEq, Eq)]
pub enum Two {
    FilesStart,
    /// This path was the last one.
    Files(Path),
    RowsStart,
    /// This key was the last one.
    Rows(Key),
}

/// What serves, and how far the import has come.
#[derive(Debug, Drop, PartialEq, Eq)]
pub enum Phase {
    /// Files serve, and step one goes over them.
    Files { one: Cursor },
    /// Files serve and nothing may change, while step two brings the rest.
    Frozen { two: Two },
    /// Tables serve since the entry of this number, and step three goes over the blobs.
    Tables { since: u64, three: Cursor },
}

impl Cursor {
    /// An equal cursor.
    pub fn copy(&self, alloc: Global) -> Result<Cursor, NoMemory>
        ensures { IfOk result (λ cursor. cursor ≡ self.now) }
    {
        match self {
            Cursor::Start => Ok(Cursor::Start),
            Cursor::At(path) => Ok(Cursor::At(path.copy(alloc)?)),
            Cursor::Done => Ok(Cursor::Done),
        }
    }
}

impl Two {
    /// An equal cursor.
    pub fn copy(&self, alloc: Global) -> Result<Two, NoMemory>
        ensures { IfOk result (λ two. two ≡ self.now) }
    {
        match self {
            Two::FilesStart => Ok(Two::FilesStart),
            Two::Files(path) => Ok(Two::Files(path.copy(alloc)?)),
            Two::RowsStart => Ok(Two::RowsStart),
            Two::Rows(key) => Ok(Two::Rows(key.copy(alloc)?)),
        }
    }
}

impl Phase {
    /// An equal phase.
    pub fn copy(&self, alloc: Global) -> Result<Phase, NoMemory>
        ensures { IfOk result (λ phase. phase ≡ self.now) }
    {
        match self {
            Phase::Files { one } => Ok(Phase::Files {
                one: one.copy(alloc)?,
            }),
            Phase::Frozen { two } => Ok(Phase::Frozen {
                two: two.copy(alloc)?,
            }),
            Phase::Tables { since, three } => Ok(Phase::Tables {
                since: *since,
                three: three.copy(alloc)?,
            }),
        }
    }
}
