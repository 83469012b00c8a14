//! What single rows tell of the state.
ghost use Rattle.std.specs.Prelude.{◌≡◌, List, ℕ, is_some, IsSome, MatchBool, option_copied};
ghost use Rattle.reg_entries.specs.Listing.{IsNextTag};
ghost use Rattle.reg_model.specs.Answers.{IsKnownAs};
ghost use Rattle.reg_tables.specs.Finds.{LooksUp};
ghost use Rattle.tables_service.specs.Telling.{FindsIn};

use reg_entries::Trouble;
use reg_names::{Digest, Name, Tag, Text};
use reg_tables::{Keeper, find_link, find_manifest, find_tag, next_link, next_manifest, next_tag};
use std::alloc::Global;

/// The digest that a tag of a repository points to.
///
/// Errors, here and in the calls below: `Keeper` where the keeper failed and its count of faults rose, and `NoMemory`.
pub(crate) fn target_of<K: Keeper>(
    alloc: Global,
    keeper: &mut K,
    name: &Name,
    tag: &Tag,
) -> Result<Option<Digest>, Trouble>
    ensures value { FindsIn (K.kept keeper.old) result (λ state target.
        target ≡ state.tags name.now tag.now) }
    ensures reads { LooksUp K.kept K.faults keeper.old keeper.new result }
{
    let _name = name.as_str();
    let _tag = tag.as_str();
    find_tag(alloc, keeper, name, tag)
}

/// Whether a repository has a manifest under a digest.
pub(crate) fn has_manifest<K: Keeper>(
    alloc: Global,
    keeper: &mut K,
    name: &Name,
    digest: &Digest,
) -> Result<bool, Trouble>
    ensures value { FindsIn (K.kept keeper.old) result (λ state has.
        has ≡ is_some (state.manifests name.now digest.now)) }
    ensures reads { LooksUp K.kept K.faults keeper.old keeper.new result }
{
    let _name = name.as_str();
    let _digest = digest.raw();
    let found = find_manifest(alloc, keeper, name, digest)?;
    Ok(found.is_some())
}

/// Whether a repository links a blob.
pub(crate) fn has_link<K: Keeper>(
    alloc: Global,
    keeper: &mut K,
    name: &Name,
    digest: &Digest,
) -> Result<bool, Trouble>
    ensures value { FindsIn (K.kept keeper.old) result (λ state has.
        has ≡ is_some (state.links name.now digest.now)) }
    ensures reads { LooksUp K.kept K.faults keeper.old keeper.new result }
{
    let _name = name.as_str();
    let _digest = digest.raw();
    let found = find_link(alloc, keeper, name, digest)?;
    Ok(found.is_some())
}

/// The least tag of a repository above a text, or the least of all.
pub(crate) fn tag_above<K: Keeper>(
    alloc: Global,
    keeper: &mut K,
    name: &Name,
    after: Option<&Text>,
) -> Result<Option<Tag>, Trouble>
    ensures value { FindsIn (K.kept keeper.old) result (λ state.
        IsNextTag state name.now (option_copied after.entry)) }
    ensures reads { LooksUp K.kept K.faults keeper.old keeper.new result }
{
    let _name = name.as_str();
    match next_tag(alloc, keeper, name, after)? {
        Some((tag, _)) => {
            let _tag = tag.as_str();
            Ok(Some(tag))
        }
        None => Ok(None),
    }
}

/// Whether a repository is known: it has a link or a manifest.
pub(crate) fn is_known<K: Keeper>(
    alloc: Global,
    keeper: &mut K,
    name: &Name,
) -> Result<bool, Trouble>
    ensures value { FindsIn (K.kept keeper.old) result (λ state. IsKnownAs state name.now) }
    ensures reads { LooksUp K.kept K.faults keeper.old keeper.new result }
{
    if has_links(alloc, keeper, name)? {
        return Ok(true);
    }
    let has = has_manifests(alloc, keeper, name)?;
    Ok(has)
}

fn has_links<K: Keeper>(alloc: Global, keeper: &mut K, name: &Name) -> Result<bool, Trouble>
    ensures value { FindsIn (K.kept keeper.old) result (λ state has. MatchBool has
        ((digest : List ℕ) × IsSome (state.links name.now digest))
        (¬ ((digest : List ℕ) × IsSome (state.links name.now digest)))) }
    ensures reads { LooksUp K.kept K.faults keeper.old keeper.new result }
{
    let _name = name.as_str();
    match next_link(alloc, keeper, name, None)? {
        Some((digest, _)) => {
            let _digest = digest.raw();
            Ok(true)
        }
        None => Ok(false),
    }
}

fn has_manifests<K: Keeper>(alloc: Global, keeper: &mut K, name: &Name) -> Result<bool, Trouble>
    ensures value { FindsIn (K.kept keeper.old) result (λ state has. MatchBool has
        ((digest : List ℕ) × IsSome (state.manifests name.now digest))
        (¬ ((digest : List ℕ) × IsSome (state.manifests name.now digest)))) }
    ensures reads { LooksUp K.kept K.faults keeper.old keeper.new result }
{
    let _name = name.as_str();
    match next_manifest(alloc, keeper, name, None)? {
        Some((digest, _)) => {
            let _digest = digest.raw();
            Ok(true)
        }
        None => Ok(false),
    }
}
