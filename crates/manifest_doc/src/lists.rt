//! What a document names and lists, in order and without repeats.
ghost use Rattle.std.specs.Prelude.{◌≡◌, ℕ, true, ◌&&◌, List, OnOk, IfOk};
ghost use Rattle.std.specs.Ordering.{nat_cmp};
ghost use Rattle.std.specs.Cmp.Lexicographic.{slice_cmp};
ghost use Rattle.std.specs.BTreeMap as tree;
ghost use Rattle.std.specs.BTreeSet as set;
ghost use Rattle.std.specs.List.{list_any};
ghost use Rattle.std.specs.Option.{unwrap_or};
ghost use Rattle.manifest_doc.specs.Documents.{AreNamed, AreChildren, is_of};
ghost use Rattle.manifest_doc.specs.InnerNoting.{AreDigests, AreFreedoms, IsNoted};

use crate::descriptors::Descriptor;
use crate::{DigestList, NamedList};
use reg_names::{Digest, Named, NoMemory};
use std::alloc::Global;
use std::collections::{BTreeMap, BTreeSet};

/// The digests that a configuration and layers name.
pub(crate) fn named_of(
    alloc: Global,
    config: Option<Descriptor>,
    layers: Vec<Descriptor>,
) -> Result<NamedList, NoMemory>
    ensures { IfOk result (AreNamed config layers.items) }
{
    let freedoms = freedoms_of(alloc, config, layers)?;
    let mut named = Vec::with_capacity(alloc, freedoms.len())?;
    for (digest, free) in freedoms {
        named.push(Named { digest, free })?;
    }
    Ok(NamedList::from_vec(named))
}

// Each digest that is named, and whether it is free.
fn freedoms_of(
    alloc: Global,
    config: Option<Descriptor>,
    layers: Vec<Descriptor>,
) -> Result<BTreeMap<Digest, bool>, NoMemory>
    ensures { IfOk result (λ m. AreFreedoms config layers.items (tree.get (slice_cmp nat_cmp) m)) }
{
    let mut freedoms = BTreeMap::new(alloc);
    if let Some(config) = config {
        note(&mut freedoms, config.digest, false)?;
    }
    for layer in layers {
        note(&mut freedoms, layer.digest, layer.has_urls)?;
    }
    Ok(freedoms)
}

// Counts an occurrence of a digest.
fn note(
    freedoms: &mut BTreeMap<Digest, bool>,
    digest: Digest,
    has_urls: bool,
) -> Result<(), NoMemory>
    ensures { let found = tree.get (slice_cmp nat_cmp) in
        OnOk result (IsNoted digest has_urls (found freedoms.old) (found freedoms.new)) }
{
    let free = stays_free(freedoms, &digest, has_urls);
    freedoms.insert(digest, free)?;
    Ok(())
}

// Whether a digest is free by the occurrences so far and by one more, which has URLs or not.
fn stays_free(freedoms: &BTreeMap<Digest, bool>, digest: &Digest, has_urls: bool) -> bool
    ensures { let found = tree.get (slice_cmp nat_cmp) freedoms.now digest.now in
        result ≡ (unwrap_or found true && has_urls) }
{
    freedoms.get(digest).copied().unwrap_or(true) && has_urls
}

/// The digests of listed manifests.
pub(crate) fn children_of(alloc: Global, manifests: Vec<Descriptor>) -> Result<DigestList, NoMemory>
    ensures { IfOk result (AreChildren manifests.items) }
{
    let digests = digests_of(alloc, manifests)?;
    let mut children = Vec::with_capacity(alloc, digests.len())?;
    for digest in digests {
        children.push(digest)?;
    }
    Ok(DigestList::from_vec(children))
}

// The digests of descriptors.
fn digests_of(alloc: Global, descriptors: Vec<Descriptor>) -> Result<BTreeSet<Digest>, NoMemory>
    ensures { IfOk result (λ s. AreDigests descriptors.items (set.contains (slice_cmp nat_cmp) s)) }
{
    let mut digests = BTreeSet::new(alloc);
    for descriptor in descriptors {
        digests.insert(descriptor.digest)?;
    }
    Ok(digests)
}
