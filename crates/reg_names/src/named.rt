//! Digests that a manifest names.
use crate::Digest;

/// A digest that a manifest names. It is free where the manifest may be kept without its content (OCI Image
/// Specification 1.1, "Content Descriptors": content that lies elsewhere, at its `urls`).
#[derive(Clone, Copy, Debug)]
pub struct Named {
    pub digest: Digest,
    pub free: bool,
}

impl PartialEq for Named {
    ghost use Rattle.std.specs.Cmp.{partial_equiv_from_equiv};
    ghost use Rattle.reg_names.specs.Named.{is_same, is_same_equiv};

    ghost eq = { is_same };

    ghost laws = { partial_equiv_from_equiv is_same_equiv };

    fn eq(&self, other: &Named) -> bool {
        self.digest == other.digest && self.free == other.free
    }
}

impl Eq for Named {
    ghost use Rattle.reg_names.specs.Named.{is_same_equiv};

    ghost laws = { is_same_equiv };
}
