//! A clock that stands still.
ghost use Rattle.std.specs.Prelude.{◌≤◌};
ghost use Rattle.depot_api.specs.Limits.{moment_limit};

use crate::Clock;

/// A clock that tells one moment.
#[derive(Clone, Copy, Debug)]
pub struct FixedClock {
    /// The moment in seconds since 1970.
    pub at: u64,
    ghost in_range: { at ≤ moment_limit },
}

impl Clock for FixedClock {
    ghost use Rattle.std.specs.Prelude.{Some};

    ghost reading = { λ c. Some c.at };

    fn now(&self) -> u64 {
        self.at
    }
}
