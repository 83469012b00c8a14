//! Calls that are counted, some of which fail.
ghost use Rattle.std.specs.Prelude.{◌≡◌};
ghost use Rattle.depot_api.specs.Calls.{no_calls, fails, with_call, with_fault};

use std::marker::Model;

/// How many calls a device has had, which of them fail, and how many failed.
#[derive(Debug, Drop)]
pub struct Calls {
    made: u64,
    failing: Vec<u64>,
    faults: u64,
}

impl Model for Calls {
    ghost use Rattle.depot_api.specs.Calls.{Calls};

    ghost Value = { Calls };

    ghost view = { λ c. record { made = c.made; failing = c.failing.items; faults = c.faults } };
}

impl Calls {
    /// No call yet. Those whose numbers, from 0, stand in `failing` will fail.
    pub fn new(failing: Vec<u64>) -> Calls
        ensures { result ≡ no_calls failing.items }
    {
        Calls {
            made: 0,
            failing,
            faults: 0,
        }
    }

    /// How many calls were made before this one.
    pub fn made(&self) -> u64
        ensures { result ≡ self.now.made }
    {
        self.made
    }

    /// How many calls failed.
    pub fn faults(&self) -> u64
        ensures { result ≡ self.now.faults }
    {
        self.faults
    }

    /// Counts the next call, and tells whether it fails.
    pub fn begin(&mut self) -> bool
        ensures failed { result ≡ fails self.old }
        ensures calls { self.new ≡ with_call self.old result }
    {
        let failed = self.fails();
        self.count(failed);
        failed
    }

    /// Whether the next call is one that fails.
    pub fn fails(&self) -> bool
        ensures { result ≡ fails self.now }
    {
        self.failing.iter().any(|n| *n == self.made)
    }

    /// Counts a call, and its fault where it failed.
    pub fn count(&mut self, failed: bool)
        ensures { self.new ≡ with_call self.old failed }
    {
        self.made = self.made.saturating_add(1);
        self.count_fault(failed);
    }

    /// Counts a fault, where there was one, but no call.
    pub fn count_fault(&mut self, failed: bool)
        ensures { self.new ≡ with_fault self.old failed }
    {
        if failed {
            self.faults = self.faults.saturating_add(1);
        }
    }
}
