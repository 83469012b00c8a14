//! Why nothing was claimed.
use reg_names::NoMemory;
use std::alloc::AllocFailed;

/// Why nothing was claimed. The claims are as before.
#[derive(Clone, Copy, Debug, PartialEq, Eq)]
pub enum NotClaimed {
    /// What was asked for is claimed already.
    Taken,
    /// The next number would pass `CLAIM_LIMIT`.
    Full,
    /// Memory was wanting.
    NoMemory,
}

impl From<NoMemory> for NotClaimed {
    ghost use Rattle.std.specs.Prelude.{◌≡◌};
    ghost use Rattle.reg_claims.specs.declared.refused.NotClaimed.TheVariants as refusals;

    ghost from_gives = { λ _ refused. refused ≡ refusals.NoMemory };

    fn from(_: NoMemory) -> NotClaimed {
        NotClaimed::NoMemory
    }
}

impl<T: Drop> From<AllocFailed<T>> for NotClaimed {
    ghost use Rattle.std.specs.Prelude.{◌≡◌};
    ghost use Rattle.reg_claims.specs.declared.refused.NotClaimed.TheVariants as refusals;

    ghost from_gives = { λ _ refused. refused ≡ refusals.NoMemory };

    fn from(_: AllocFailed<T>) -> NotClaimed {
        NotClaimed::NoMemory
    }
}
