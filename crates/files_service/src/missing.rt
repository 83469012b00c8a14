//! What a manifest names or lists, and a repository lacks.
ghost use Rattle.std.specs.Prelude.{◌≡◌, find, option_map};
ghost use Rattle.reg_names.specs.Cause.{OnlyReads};
ghost use Rattle.reg_names.specs.Refusals.{HasFailed};
ghost use Rattle.depot_api.specs.Holdings.{Finds};
ghost use Rattle.link_reading.specs.Meaning.{Means};
ghost use Rattle.reg_model.specs.Changing.{is_absent, is_missing, missing_in};

use depot_api::Depot;
use link_reading::{has_layer, manifest};
use manifest_doc::Doc;
use reg_names::{Digest, Name, Named, Refused};
use std::alloc::Global;

/// The least digest that a document names, and the repository does not link, or else the least that it lists, and the
/// repository does not have as a manifest.
pub(crate) fn missing<D: Depot>(
    alloc: Global,
    depot: &mut D,
    name: &Name,
    doc: &Doc,
) -> Result<Option<Digest>, Refused>
    ensures value { Finds (D.held depot.old) result (λ files digest.
        digest ≡ missing_in (Means files) name.now doc.now) }
    ensures reads { OnlyReads D.held D.faults depot.old depot.new (HasFailed result) }
{
    let named = missing_named(alloc, depot, name, doc.named.as_slice())?;
    if named.is_some() {
        return Ok(named);
    }
    missing_child(alloc, depot, name, doc.children.as_slice())
}

// The first of these digests that is not free, and that the repository does not link.
fn missing_named<D: Depot>(
    alloc: Global,
    depot: &mut D,
    name: &Name,
    named: &[Named],
) -> Result<Option<Digest>, Refused>
    ensures value { Finds (D.held depot.old) result (λ files digest.
        digest ≡ option_map (λ n. n.digest) (find (is_missing (Means files) name.now) named.now)) }
    ensures reads { OnlyReads D.held D.faults depot.old depot.new (HasFailed result) }
{
    for named in named {
        if is_missing(alloc, depot, name, named)? {
            return Ok(Some(named.digest));
        }
    }
    Ok(None)
}

// Whether a digest is not free, and the repository does not link it.
fn is_missing<D: Depot>(
    alloc: Global,
    depot: &mut D,
    name: &Name,
    named: &Named,
) -> Result<bool, Refused>
    ensures value { Finds (D.held depot.old) result (λ files missing.
        missing ≡ is_missing (Means files) name.now named.now) }
    ensures reads { OnlyReads D.held D.faults depot.old depot.new (HasFailed result) }
{
    Ok(!named.free && has_layer(alloc, depot, name, &named.digest)?.is_none())
}

// The first of these digests under which the repository has no manifest.
fn missing_child<D: Depot>(
    alloc: Global,
    depot: &mut D,
    name: &Name,
    children: &[Digest],
) -> Result<Option<Digest>, Refused>
    ensures value { Finds (D.held depot.old) result (λ files digest.
        digest ≡ find (is_absent (Means files) name.now) children.now) }
    ensures reads { OnlyReads D.held D.faults depot.old depot.new (HasFailed result) }
{
    for child in children {
        if is_absent(alloc, depot, name, child)? {
            return Ok(Some(*child));
        }
    }
    Ok(None)
}

// Whether the repository has no manifest under a digest.
fn is_absent<D: Depot>(
    alloc: Global,
    depot: &mut D,
    name: &Name,
    child: &Digest,
) -> Result<bool, Refused>
    ensures value { Finds (D.held depot.old) result (λ files absent.
        absent ≡ is_absent (Means files) name.now child.now) }
    ensures reads { OnlyReads D.held D.faults depot.old depot.new (HasFailed result) }
{
    Ok(manifest(alloc, depot, name, child)?.is_none())
}
