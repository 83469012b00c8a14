//! A keeper in memory.
ghost use Rattle.std.specs.Prelude.{◌≡◌, IfOk, OnErr};
ghost use Rattle.reg_names.specs.Cause.{OnlyReads};
ghost use Rattle.reg_names.specs.Refusals.{HasFailed};
ghost use Rattle.depot_api.specs.Calls.{no_calls};
ghost use Rattle.keeper_api.specs.Changes.{ArePutsFit, Commits, Changes};
ghost use Rattle.keeper_api.specs.Memory.{no_rows, keeper_kept, keeper_rows, keeper_faults, keeper_calls, HasCalled};
ghost use Rattle.keeper_api.specs.Rows.{IsAbove, IsNextRow, IsRowAt, IfFound};
ghost use Rattle.keeper_api.specs.Tables.{Fits};

mod room;
mod slots;

use crate::memory::slots::Slots;
use crate::{Change, Keeper, Key, Row};
use depot_api::memory::Calls;
use reg_names::Refused;
use std::alloc::Global;

/// Rows in memory. Every call has a number, from 0. A call that fails changes no row.
#[derive(Drop)]
pub struct MemKeeper {
    slots: Slots,
    calls: Calls,
}

impl MemKeeper {
    /// A keeper of no rows. The calls whose numbers stand in `fail` fail. It takes no memory.
    pub fn new(alloc: Global, fail: Vec<u64>) -> MemKeeper
        ensures rows { keeper_rows result ≡ no_rows }
        ensures calls { keeper_calls result ≡ no_calls fail.items }
    {
        MemKeeper {
            slots: Slots::new(alloc),
            calls: Calls::new(fail),
        }
    }

    /// How often it has failed.
    pub fn faults(&self) -> u64
        ensures { result ≡ keeper_faults self.now }
    {
        self.calls.faults()
    }
}

impl Keeper for MemKeeper {
    ghost use Rattle.keeper_api.specs.Memory.{keeper_kept, keeper_faults};

    ghost kept = { keeper_kept };

    ghost faults = { keeper_faults };

    fn get(&mut self, alloc: Global, key: &Key) -> Result<Option<Row>, Refused>
        ensures value { IfOk result (IsRowAt key.now (keeper_rows self.old)) }
        ensures fits { IfFound result (λ row. Fits key.now row) }
        ensures reads { OnlyReads keeper_kept keeper_faults self.old self.new (HasFailed result) }
        ensures calls { HasCalled self.old self.new (HasFailed result) }
    {
        if self.calls.begin() {
            return Err(Refused::Failed);
        }
        Ok(self.slots.get(alloc, key)?)
    }

    fn next(&mut self, alloc: Global, after: &Key) -> Result<Option<(Key, Row)>, Refused>
        ensures value { IfOk result (IsNextRow after.now (keeper_rows self.old)) }
        ensures above { IfFound result (λ found. IsAbove after.now found.0) }
        ensures fits { IfFound result (λ found. Fits found.0 found.1) }
        ensures reads { OnlyReads keeper_kept keeper_faults self.old self.new (HasFailed result) }
        ensures calls { HasCalled self.old self.new (HasFailed result) }
    {
        if self.calls.begin() {
            return Err(Refused::Failed);
        }
        Ok(self.slots.next(alloc, after)?)
    }

    fn commit(&mut self, alloc: Global, changes: &[Change]) -> Result<(), Refused>
        requires puts { ArePutsFit changes.now }
        ensures changes { Changes keeper_kept keeper_faults self.old self.new
            (Commits changes.now result) (HasFailed result) }
        ensures calls { HasCalled self.old self.new (HasFailed result) }
    {
        if self.calls.begin() {
            return Err(Refused::Failed);
        }
        Ok(self.slots.commit(alloc, changes)?)
    }
}
