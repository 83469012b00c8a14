//! Why bytes are no document.
ghost use Rattle.std.specs.Prelude.{◌≡◌};

use reg_names::NoMemory;
use std::alloc::{AllocError, AllocFailed};

/// The first of the four tests that bytes fail. The tests are made in the order `NotJson`, `NoKind`, `TooMany`,
/// `BadDescriptor`; `NoMemory` may come at any time.
#[derive(Clone, Copy, Debug, PartialEq, Eq)]
pub enum DocFault {
    /// The bytes are no JSON text, or the value is no object.
    NotJson,
    /// No kind is told, or the object lacks the members of its kind or has those of another.
    NoKind,
    /// The configuration, a layer or a listed manifest is no descriptor.
    BadDescriptor,
    /// There are more than 1,024 layers or listed manifests.
    TooMany,
    /// Memory was wanting.
    NoMemory,
}

impl DocFault {
    ghost use Rattle.manifest_doc.specs.Pushed.{fault_name};

    /// The name of the fault, as a refusal tells it.
    pub fn name(self) -> &'static str
        ensures { result.now ≡ fault_name self }
    {
        match self {
            DocFault::NotJson => "NotJson",
            DocFault::NoKind => "NoKind",
            DocFault::BadDescriptor => "BadDescriptor",
            DocFault::TooMany => "TooMany",
            DocFault::NoMemory => "NoMemory",
        }
    }
}

impl From<NoMemory> for DocFault {
    ghost use Rattle.std.specs.Prelude.{◌≡◌};
    ghost use Rattle.manifest_doc.specs.declared.fault.DocFault.TheVariants as faults;

    ghost from_gives = { λ _ fault. fault ≡ faults.NoMemory };

    fn from(_: NoMemory) -> DocFault {
        DocFault::NoMemory
    }
}

impl From<AllocError> for DocFault {
    ghost use Rattle.std.specs.Prelude.{◌≡◌};
    ghost use Rattle.manifest_doc.specs.declared.fault.DocFault.TheVariants as faults;

    ghost from_gives = { λ _ fault. fault ≡ faults.NoMemory };

    fn from(_: AllocError) -> DocFault {
        DocFault::NoMemory
    }
}

impl<T: Drop> From<AllocFailed<T>> for DocFault {
    ghost use Rattle.std.specs.Prelude.{◌≡◌};
    ghost use Rattle.manifest_doc.specs.declared.fault.DocFault.TheVariants as faults;

    ghost from_gives = { λ _ fault. fault ≡ faults.NoMemory };

    fn from(_: AllocFailed<T>) -> DocFault {
        DocFault::NoMemory
    }
}
