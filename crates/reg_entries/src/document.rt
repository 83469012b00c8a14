//! What is kept of a manifest.
ghost use Rattle.std.specs.Prelude.{◌≡◌, ◌↔◌, IfOk, IsTrue};
ghost use Rattle.reg_names.specs.Named.{digests_of};
ghost use Rattle.reg_names.specs.Reading.{ReadsExactly};
ghost use Rattle.reg_entries.specs.Documents.{IsDigestList, IsKept, kept_of};

use reg_names::{Digest, DigestList, Kind, Named, NamedList, NoMemory};
use std::alloc::Global;
use std::marker::Model;

/// The most digests of a list.
pub const LIST_LIMIT: usize = 65_535;

/// What a state keeps of a manifest. Both lists ascend strictly by digest, and have at most 65,535 entries: a list is
/// spelled with a count of two bytes where a state is written.
#[derive(Debug, PartialEq, Eq, Drop)]
pub struct Document {
    pub kind: Kind,
    /// The number of the manifest's bytes.
    pub size: u64,
    /// The digests of the configuration and the layers. One is free where each of its occurrences is a layer with URLs.
    pub named: NamedList,
    /// The digests of the listed manifests.
    pub children: DigestList,
}

impl Model for Document {
    ghost use Rattle.reg_entries.specs.Documents.{KeptManifest, IsKept, kept_of};

    ghost Value = { KeptManifest };

    ghost view = { λ d. kept_of d.kind d.size d.named d.children };

    ghost invariant = { λ d. IsKept (kept_of d.kind d.size d.named d.children) };

    ghost use Rattle.reg_entries.specs.InnerDocuments.{fields_of};

    ghost inverse = { fields_of };
}

impl Document {
    /// The document with these parts, and `None` exactly where a list does not ascend strictly, or is too long.
    pub fn new(kind: Kind, size: u64, named: NamedList, children: DigestList) -> Option<Document>
        ensures { ReadsExactly IsKept (kept_of kind size named children) result }
    {
        if !are_named(named.as_slice()) || !are_digests(children.as_slice()) {
            return None;
        }
        Some(Document {
            kind,
            size,
            named,
            children,
        })
    }

    /// An equal document.
    pub fn copy(&self, alloc: Global) -> Result<Document, NoMemory>
        ensures { IfOk result (λ d. d ≡ self.now) }
    {
        let named = self.named.copy(alloc)?;
        let children = self.children.copy(alloc)?;
        Ok(Document {
            kind: self.kind,
            size: self.size,
            named,
            children,
        })
    }
}

fn are_named(named: &[Named]) -> bool
    ensures { IsTrue result ↔ IsDigestList (digests_of named.now) }
{
    named.len() <= LIST_LIMIT && named.is_sorted_by(|one, next| one.digest < next.digest)
}

fn are_digests(digests: &[Digest]) -> bool
    ensures { IsTrue result ↔ IsDigestList digests.now }
{
    digests.len() <= LIST_LIMIT && digests.is_sorted_by(|one, next| one < next)
}
