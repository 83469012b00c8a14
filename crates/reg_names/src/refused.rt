//! Why a call did not do what it was asked.
use std::alloc::{AllocError, AllocFailed};

/// Memory was wanting. It is the one answer that needs no cause.
#[derive(Clone, Copy, Debug, PartialEq, Eq)]
pub struct NoMemory;

impl From<AllocError> for NoMemory {
    fn from(_: AllocError) -> NoMemory {
        NoMemory
    }
}

impl<T: Drop> From<AllocFailed<T>> for NoMemory {
    fn from(_: AllocFailed<T>) -> NoMemory {
        NoMemory
    }
}

/// Why a device did not do a call.
#[derive(Clone, Copy, Debug, PartialEq, Eq)]
pub enum Refused {
    /// The device failed, and its count of faults rose in this call.
    Failed,
    /// Memory was wanting, and the device is as before.
    NoMemory,
}

impl From<NoMemory> for Refused {
    ghost use Rattle.std.specs.Prelude.{◌≡◌};
    ghost use Rattle.reg_names.specs.declared.refused.Refused.TheVariants as refusals;

    ghost from_gives = { λ _ refused. refused ≡ refusals.NoMemory };

    fn from(_: NoMemory) -> Refused {
        Refused::NoMemory
    }
}
