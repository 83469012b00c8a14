//! Walks over the files below a folder, page by page.
ghost use Rattle.std.specs.Prelude.{◌≡◌, []};
ghost use Rattle.reg_names.specs.Cause.{OnlyReads};
ghost use Rattle.reg_names.specs.Refusals.{HasFailed};
ghost use Rattle.depot_api.specs.Files.{Files};
ghost use Rattle.depot_api.specs.Holdings.{Finds};
ghost use Rattle.link_reading.specs.InnerSpots.{spot};
ghost use Rattle.link_reading.specs.InnerWalks.{IsReady, PassesOn, Quest, LiesAt, WalksTo};

use depot_api::{Depot, Path};
use reg_names::Refused;
use std::alloc::Global;
use std::vec::IntoIter;

/// The most turns of a walk. Over a depot that does not tell what it holds a walk may not come to an end before.
pub const TURNS: u64 = 1 << 62;

/// How many paths a page has.
const PAGE: usize = 64;

/// What a walk looks for.
pub trait Seek {
    type Found;

    /// Where each thing lies, and whether it is wanted by the files.
    ghost quest: { Self → Quest Self.Found };

    /// What was noted of the files so far is so.
    ghost sound: { Self → Files → Type 0 };

    /// What is wanted and lies at a path.
    fn look<D: Depot>(
        &mut self,
        alloc: Global,
        depot: &mut D,
        path: &Path,
    ) -> Result<Option<Self::Found>, Refused>
        ensures found { Finds (D.held depot.old) result (λ files found.
            sound self.old files → LiesAt (quest self.old) files path.now found) }
        ensures sound { Finds (D.held depot.old) result (λ files _.
            sound self.old files → sound self.new files) }
        ensures quest { quest self.new ≡ quest self.old }
        ensures reads { OnlyReads D.held D.faults depot.old depot.new (HasFailed result) };
}

/// The files below a folder and behind a path, of which a page is held.
#[derive(Drop)]
pub struct Walk {
    folder: Path,
    after: Option<Path>,
    left: IntoIter<Path>,
}

impl Walk {
    /// The walk through the files below a folder, from behind a path on.
    pub fn below(alloc: Global, folder: Path, after: Option<Path>) -> Walk
        ensures folder { (spot result).folder ≡ folder }
        ensures after { (spot result).after ≡ after }
        ensures left { (spot result).left ≡ [] }
    {
        Walk {
            folder,
            after,
            left: Vec::new(alloc).into_iter(),
        }
    }

    /// The first that is sought, of what the walk still has before it. The walk then stands behind it.
    pub fn first<D: Depot, S: Seek>(
        &mut self,
        alloc: Global,
        depot: &mut D,
        sought: &mut S,
    ) -> Result<Option<S::Found>, Refused>
        ensures found { Finds (D.held depot.old) result (λ files found.
            IsReady files (spot self.old) → S.sound sought.old files
            → WalksTo (S.quest sought.old) files (spot self.old) (spot self.new) found) }
        ensures sound { Finds (D.held depot.old) result (λ files _.
            S.sound sought.old files → S.sound sought.new files) }
        ensures folder { (spot self.new).folder ≡ (spot self.old).folder }
        ensures quest { S.quest sought.new ≡ S.quest sought.old }
        ensures reads { OnlyReads D.held D.faults depot.old depot.new (HasFailed result) }
    {
        for _ in 0..TURNS {
            let Some(path) = self.next(alloc, depot)? else {
                return Ok(None);
            };
            let found = sought.look(alloc, depot, &path)?;
            self.after = Some(path);
            if let Some(found) = found {
                return Ok(Some(found));
            }
        }
        Err(Refused::NoMemory)
    }

    // The path of the next file.
    fn next<D: Depot>(&mut self, alloc: Global, depot: &mut D) -> Result<Option<Path>, Refused>
        ensures next { Finds (D.held depot.old) result (λ files path.
            IsReady files (spot self.old)
            → PassesOn files (spot self.old) (spot self.new).left path) }
        ensures folder { (spot self.new).folder ≡ (spot self.old).folder }
        ensures after { (spot self.new).after ≡ (spot self.old).after }
        ensures reads { OnlyReads D.held D.faults depot.old depot.new (HasFailed result) }
    {
        if let Some(path) = self.left.next() {
            return Ok(Some(path));
        }
        let page = depot.page(alloc, &self.folder, self.after.as_ref(), PAGE)?;
        self.left = page.into_iter();
        Ok(self.left.next())
    }
}
