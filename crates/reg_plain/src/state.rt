//! What the slow registry holds.
ghost use Rattle.std.specs.Prelude.{◌≡◌, [], IsSome};
ghost use Rattle.reg_journal.specs.Past.{nothing};
ghost use Rattle.reg_plain.specs.Held.{IsLeftOf, known_at, link_at, standing_at, tag_at};

use reg_entries::Document;
use reg_journal::{Condemned, KeptLink};
use reg_names::{Digest, Name, Tag};
use std::alloc::Global;
use std::collections::BTreeMap;

/// A manifest that a repository has.
#[derive(Debug, Drop)]
pub(crate) struct Standing {
    pub(crate) doc: Document,
    /// When an entry touched it last.
    pub(crate) touched: u64,
}

/// What is known of a digest, whether or not there is a blob of it.
#[derive(Clone, Copy, Debug)]
pub(crate) struct Known {
    /// When an entry touched its blob last.
    pub(crate) touched: Option<u64>,
    /// Where it is rowed, the size of its blob, if one is known.
    pub(crate) size: Option<Option<u64>>,
    pub(crate) condemned: Option<Condemned>,
}

impl Known {
    pub(crate) const NOTHING: Known = Known {
        touched: None,
        size: None,
        condemned: None,
    };

    /// What is known when a blob of `size` bytes came.
    pub(crate) fn brought(self, size: u64, now: u64) -> Known
        ensures { result ≡ record self { touched = Some now; size = Some (Some size) } }
    {
        let (touched, size) = (Some(now), Some(Some(size)));
        Known {
            touched,
            size,
            ..self
        }
    }
}

/// What a journal leaves, kept in ordered maps. `apply` takes the journal's entries one after the other.
#[derive(Drop)]
pub struct State {
    pub(crate) delay: u64,
    /// The number of the last entry, 0 where there is none.
    pub(crate) last: u64,
    pub(crate) opened: bool,
    pub(crate) manifests: BTreeMap<(Name, Digest), Standing>,
    pub(crate) links: BTreeMap<(Name, Digest), KeptLink>,
    pub(crate) tags: BTreeMap<(Name, Tag), Digest>,
    /// A digest of which nothing is known may stand here all the same, as one of which an entry is about to tell.
    pub(crate) digests: BTreeMap<Digest, Known>,
}

impl State {
    /// What no entry leaves, for reviews that wait for `delay` seconds.
    pub fn new(alloc: Global, delay: u64) -> State
        ensures delay { result.delay ≡ delay }
        ensures left { IsLeftOf nothing result }
    {
        State {
            delay,
            last: 0,
            opened: false,
            manifests: BTreeMap::new(alloc),
            links: BTreeMap::new(alloc),
            tags: BTreeMap::new(alloc),
            digests: BTreeMap::new(alloc),
        }
    }
}
