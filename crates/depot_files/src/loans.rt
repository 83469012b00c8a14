//! Which paths are lent.
ghost use Rattle.std.specs.Prelude.{◌≡◌, true, false, IfOk, OnErr};
ghost use Rattle.depot_api.specs.Changes.{with_loan};
ghost use Rattle.depot_api.specs.Memory.{no_loans};
ghost use Rattle.depot_files.specs.Silence.{untold};

use depot_api::{NoMemory, Path};
use std::alloc::Global;
use std::collections::BTreeSet;

/// The paths that are lent.
#[derive(Drop)]
pub struct Loans {
    paths: BTreeSet<Path>,
}

impl Loans {
    /// None.
    pub fn new(alloc: Global) -> Loans
        ensures { (untold result).lent ≡ no_loans }
    {
        Loans {
            paths: BTreeSet::new(alloc),
        }
    }

    /// Whether a path is lent.
    pub fn has(&self, at: &Path) -> bool
        ensures { result ≡ (untold self.now).lent at.now }
    {
        self.paths.contains(at)
    }

    /// Lends a path.
    pub fn begin(&mut self, alloc: Global, at: &Path) -> Result<(), NoMemory>
        ensures lent { IfOk result
            (λ _. untold self.new ≡ with_loan (untold self.old) at.now true) }
        ensures without { OnErr result (untold self.new ≡ untold self.old) }
    {
        let _ = self.paths.insert(at.copy(alloc)?)?;
        Ok(())
    }

    /// Ends a loan of a path, where there is one. It takes no memory.
    pub fn end(&mut self, at: &Path)
        ensures { untold self.new ≡ with_loan (untold self.old) at.now false }
    {
        let _ = self.paths.remove(at);
    }
}
