//! Look-ups of the rows that come next.
ghost use Rattle.std.specs.Prelude.{◌≡◌, ◌++◌, ◌∷◌, [], List, ℕ, IfOk, MatchOption, option_copied};
ghost use Rattle.reg_names.specs.Digests.{IsDigest};
ghost use Rattle.reg_names.specs.Tags.{IsTag};
ghost use Rattle.reg_journal.specs.Spelling.{free_field};
ghost use Rattle.keeper_api.specs.Fields.{ended};
ghost use Rattle.keeper_api.specs.Rows.{IsAbove, IsNextRow, IfFound, Finds};
ghost use Rattle.keeper_api.specs.Tables.{Fits};
ghost use Rattle.reg_tables.specs.Finds.{LooksUp};
ghost use Rattle.reg_tables.specs.InnerNexts.{IsNextBehind, IsEndedTag, bound_of};
ghost use Rattle.reg_tables.specs.Keys.{tag_key, manifest_key, link_key, child_key, named_key};
ghost use Rattle.reg_tables.specs.Nexts.{IsNextAt};
ghost use Rattle.reg_tables.specs.Spelled.{manifest_spelled, link_spelled};

use crate::find::noting;
use crate::keys::{digest_bound, longer, name_part, spot_part, tag_bound};
use crate::rows::{digest_of, is_free};
use crate::{LinkRow, ManifestRow};
use keeper_api::{Bytes, Keeper, Key, Row};
use reg_entries::{Named, Trouble};
use reg_names::{Digest, Name, NoMemory, Refused, Tag, Text};
use std::alloc::Global;

/// The least tag of a repository above `after`, or the least of all, with the digest that it points to; and `None`
/// exactly where there is no such tag.
///
/// Errors, here and in the calls below: `Keeper` where the keeper failed and its count of faults rose, and `NoMemory`.
/// All rows stay as they are.
pub fn next_tag<K: Keeper>(
    alloc: Global,
    keeper: &mut K,
    name: &Name,
    after: Option<&Text>,
) -> Result<Option<(Tag, Digest)>, Trouble>
    ensures value { Finds (K.kept keeper.old) result
        (IsNextAt IsTag (λ tag. tag_key name.now tag) (λ x. x.0) (λ x. x.1)
        (option_copied after.entry)) }
    ensures reads { LooksUp K.kept K.faults keeper.old keeper.new result }
{
    let front = noting(name_part(alloc, name))?;
    let bound = noting(tag_bound(alloc, after))?;
    match next_behind(alloc, keeper, 4, &front, &bound)? {
        Some((part, row)) => {
            let tag = noting(tag_of(alloc, part.as_slice()))?;
            Ok(Some((tag, digest_of(row.as_slice()))))
        }
        None => Ok(None),
    }
}

/// The manifest of a repository with the least digest above `after`, or with the least of all; and `None` exactly where
/// there is no such manifest.
pub fn next_manifest<K: Keeper>(
    alloc: Global,
    keeper: &mut K,
    name: &Name,
    after: Option<&Digest>,
) -> Result<Option<(Digest, ManifestRow)>, Trouble>
    ensures value { Finds (K.kept keeper.old) result
        (IsNextAt IsDigest (λ digest. manifest_key name.now digest) (λ x. x.0)
        (λ x. manifest_spelled x.1) (option_copied after.entry)) }
    ensures reads { LooksUp K.kept K.faults keeper.old keeper.new result }
{
    let front = noting(name_part(alloc, name))?;
    let bound = noting(digest_bound(alloc, after))?;
    match next_behind(alloc, keeper, 2, &front, &bound)? {
        Some((part, row)) => Ok(Some((
            digest_of(part.as_slice()),
            ManifestRow::read(row.as_slice()),
        ))),
        None => Ok(None),
    }
}

/// The link of a repository with the least digest above `after`, or with the least of all; and `None` exactly where
/// there is no such link.
pub fn next_link<K: Keeper>(
    alloc: Global,
    keeper: &mut K,
    name: &Name,
    after: Option<&Digest>,
) -> Result<Option<(Digest, LinkRow)>, Trouble>
    ensures value { Finds (K.kept keeper.old) result
        (IsNextAt IsDigest (λ digest. link_key name.now digest) (λ x. x.0) (λ x. link_spelled x.1)
        (option_copied after.entry)) }
    ensures reads { LooksUp K.kept K.faults keeper.old keeper.new result }
{
    let front = noting(name_part(alloc, name))?;
    let bound = noting(digest_bound(alloc, after))?;
    match next_behind(alloc, keeper, 7, &front, &bound)? {
        Some((part, row)) => Ok(Some((digest_of(part.as_slice()), LinkRow::read(row.as_slice())))),
        None => Ok(None),
    }
}

/// The least digest above `after`, or the least of all, of those that a manifest lists; and `None` exactly where there
/// is no such digest.
pub fn next_child<K: Keeper>(
    alloc: Global,
    keeper: &mut K,
    name: &Name,
    parent: &Digest,
    after: Option<&Digest>,
) -> Result<Option<Digest>, Trouble>
    ensures value { Finds (K.kept keeper.old) result
        (IsNextAt IsDigest (λ child. child_key name.now parent.now child) (λ x. x) (λ _. [])
        (option_copied after.entry)) }
    ensures reads { LooksUp K.kept K.faults keeper.old keeper.new result }
{
    let front = noting(spot_part(alloc, name, parent))?;
    let bound = noting(digest_bound(alloc, after))?;
    match next_behind(alloc, keeper, 6, &front, &bound)? {
        Some((part, _)) => Ok(Some(digest_of(part.as_slice()))),
        None => Ok(None),
    }
}

/// The least digest above `after`, or the least of all, of those that a manifest names, and whether it is free; and
/// `None` exactly where there is no such digest.
pub fn next_named<K: Keeper>(
    alloc: Global,
    keeper: &mut K,
    name: &Name,
    manifest: &Digest,
    after: Option<&Digest>,
) -> Result<Option<Named>, Trouble>
    ensures value { Finds (K.kept keeper.old) result
        (IsNextAt IsDigest (λ digest. named_key name.now manifest.now digest) (λ x. x.digest)
        (λ x. free_field x.free) (option_copied after.entry)) }
    ensures reads { LooksUp K.kept K.faults keeper.old keeper.new result }
{
    let front = noting(spot_part(alloc, name, manifest))?;
    let bound = noting(digest_bound(alloc, after))?;
    match next_behind(alloc, keeper, 5, &front, &bound)? {
        Some((part, row)) => Ok(Some(Named {
            digest: digest_of(part.as_slice()),
            free: is_free(row.as_slice()),
        })),
        None => Ok(None),
    }
}

/// The least row that has more behind the front than the bound, and what it has there.
pub(crate) fn next_behind<K: Keeper>(
    alloc: Global,
    keeper: &mut K,
    table: u8,
    front: &[u8],
    bound: &[u8],
) -> Result<Option<(Bytes, Row)>, Trouble>
    ensures value { Finds (K.kept keeper.old) result (IsNextBehind (table ∷ front.now) bound.now) }
    ensures fits { IfFound result (λ found. Fits (table ∷ (front.now ++ found.0)) found.1) }
    ensures reads { LooksUp K.kept K.faults keeper.old keeper.new result }
{
    let from = noting(longer(alloc, table, front, bound))?;
    match next(alloc, keeper, &from)? {
        Some((key, row)) => match behind(table, front, &key) {
            Some(rest) => Ok(Some((noting(Bytes::from_slice(alloc, rest))?, row))),
            None => Ok(None),
        },
        None => Ok(None),
    }
}

/// The row at the least key above another.
pub(crate) fn next<K: Keeper>(
    alloc: Global,
    keeper: &mut K,
    after: &Key,
) -> Result<Option<(Key, Row)>, Trouble>
    ensures value { Finds (K.kept keeper.old) result (IsNextRow after.now) }
    ensures fits { IfFound result (λ found. Fits found.0 found.1) }
    ensures reads { LooksUp K.kept K.faults keeper.old keeper.new result }
{
    match keeper.next(alloc, after) {
        Ok(found) => Ok(found),
        Err(Refused::Failed) => Err(Trouble::Keeper),
        Err(Refused::NoMemory) => Err(Trouble::NoMemory),
    }
}

/// What a key has behind a front, where it begins with it.
pub(crate) fn behind<'k>(table: u8, front: &[u8], key: &'k Key) -> Option<&'k [u8]>
    ensures { MatchOption result ((rest : List ℕ) → ¬ (key.now ≡ table ∷ (front.now ++ rest)))
        (λ rest. key.now ≡ table ∷ (front.now ++ rest.now)) }
{
    let (at, key) = key.parts();
    if at != table {
        return None;
    }
    key.strip_prefix(front)
}

// The tag whose part of a key this is.
fn tag_of(alloc: Global, part: &[u8]) -> Result<Tag, NoMemory>
    requires { IsEndedTag part.now }
    ensures part { IfOk result (λ tag. ended tag ≡ part.now) }
    ensures tag { IfOk result (λ tag. IsTag tag) }
{
    let Some((_, text)) = part.split_last() else {
        unreachable!()
    };
    match Tag::read_bytes(alloc, text)? {
        Some(tag) => Ok(tag),
        None => unreachable!(),
    }
}
