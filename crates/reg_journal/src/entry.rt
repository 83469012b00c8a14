//! Entries of the journal.
ghost use Rattle.std.specs.Prelude.{◌≡◌, IfOk};
ghost use Rattle.reg_journal.specs.Kinds.{is_early};
ghost use Rattle.reg_journal.specs.Numbers.{number_of};

use crate::{entry_bytes, numbers, read_entry};
use reg_entries::Document;
use reg_names::{Digest, Name, NoMemory, Tag};
use std::alloc::Global;

/// A change of a registry, and when it was made.
#[derive(Debug, PartialEq, Eq, Drop)]
pub struct Entry {
    /// In seconds.
    pub moment: u64,
    pub what: What,
}

/// What was changed. The kinds up to `Unlink` are what requests change, those up to `Opened` what an import does before
/// the tables are opened, and the others what an import and reviews do behind that.
#[derive(Debug, PartialEq, Eq, Drop)]
pub enum What {
    /// The repository has the manifest.
    Put {
        name: Name,
        digest: Digest,
        doc: Document,
    },
    /// The tag points to the manifest.
    SetTag {
        name: Name,
        tag: Tag,
        digest: Digest,
    },
    DropTag {
        name: Name,
        tag: Tag,
    },
    DropManifest {
        name: Name,
        digest: Digest,
    },
    /// The blob of the digest is about to come.
    Mark {
        digest: Digest,
    },
    /// The repository links the blob of the digest, which has `size` bytes.
    Link {
        name: Name,
        digest: Digest,
        size: u64,
    },
    Unlink {
        name: Name,
        digest: Digest,
    },
    /// As `Put`, from a link file.
    Brought {
        name: Name,
        digest: Digest,
        doc: Document,
    },
    /// As `Link`, from a link file.
    BroughtLink {
        name: Name,
        digest: Digest,
        size: u64,
    },
    /// As `SetTag`, from a link file.
    BroughtTag {
        name: Name,
        tag: Tag,
        digest: Digest,
    },
    /// The link file of a manifest that was brought is gone: so is the manifest, with the tags to it.
    RemovedManifest {
        name: Name,
        digest: Digest,
    },
    /// The link file of a link that was brought is gone.
    RemovedLink {
        name: Name,
        digest: Digest,
    },
    /// The tables answer from here on.
    Opened,
    /// A blob of `size` bytes lies there, of which nothing was known.
    BroughtBlob {
        digest: Digest,
        size: u64,
    },
    /// A review takes a manifest that nothing holds.
    Collect {
        name: Name,
        digest: Digest,
    },
    /// A review takes a link of a digest that no manifest names.
    DropLink {
        name: Name,
        digest: Digest,
    },
    /// A review condemns a digest: the blob of it is being removed.
    Doom {
        digest: Digest,
    },
    /// The blob of a condemned digest is removed.
    Erase {
        digest: Digest,
    },
}

impl Entry {
    /// An equal entry.
    pub fn copy(&self, alloc: Global) -> Result<Entry, NoMemory>
        ensures { IfOk result (λ e. e ≡ self.now) }
    {
        let bytes = entry_bytes(alloc, self)?;
        match read_entry(alloc, bytes.as_slice())? {
            Some(entry) => Ok(entry),
            None => unreachable!(),
        }
    }
}

impl What {
    /// Whether it stands before the tables are opened, or opens them.
    pub fn is_early(&self) -> bool
        ensures { result ≡ is_early self.now }
    {
        matches!(
            self,
            What::Brought { .. }
                | What::BroughtLink { .. }
                | What::BroughtTag { .. }
                | What::RemovedManifest { .. }
                | What::RemovedLink { .. }
                | What::Opened
        )
    }

    /// The number of the kind.
    pub fn number(&self) -> u8
        ensures { result ≡ number_of self.now }
    {
        match self {
            What::Put { .. } => numbers::PUT,
            What::SetTag { .. } => numbers::SET_TAG,
            What::DropTag { .. } => numbers::DROP_TAG,
            What::DropManifest { .. } => numbers::DROP_MANIFEST,
            What::Mark { .. } => numbers::MARK,
            What::Link { .. } => numbers::LINK,
            What::Unlink { .. } => numbers::UNLINK,
            What::Brought { .. } => numbers::BROUGHT,
            What::BroughtLink { .. } => numbers::BROUGHT_LINK,
            What::BroughtTag { .. } => numbers::BROUGHT_TAG,
            What::RemovedManifest { .. } => numbers::REMOVED_MANIFEST,
            What::RemovedLink { .. } => numbers::REMOVED_LINK,
            What::Opened => numbers::OPENED,
            What::BroughtBlob { .. } => numbers::BROUGHT_BLOB,
            What::Collect { .. } => numbers::COLLECT,
            What::DropLink { .. } => numbers::DROP_LINK,
            What::Doom { .. } => numbers::DOOM,
            What::Erase { .. } => numbers::ERASE,
        }
    }
}
