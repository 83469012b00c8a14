//! What entries touch: manifests that stand, and digests.
ghost use Rattle.std.specs.Prelude.{◌≡◌, ◌&&◌, ℕ, List, if◌then◌else◌, IsSome, IsTrue, OnOk, OnErr};
ghost use Rattle.std.specs.BTreeMap as tree;
ghost use Rattle.std.specs.Ordering.{nat_cmp};
ghost use Rattle.std.specs.Cmp.Lexicographic.{slice_cmp};
ghost use Rattle.reg_names.specs.Named.{has_digest, digests_of};
ghost use Rattle.reg_journal.specs.Changes.{is_same, points_to};
ghost use Rattle.reg_plain.specs.Held.{spot_cmp};
ghost use Rattle.reg_plain.specs.InnerChanges.{is_spot, known_in, known_where, touched_where};

use crate::state::{Known, Standing};
use reg_names::{Digest, Name, Named, NoMemory};
use std::collections::BTreeMap;

pub(crate) type Manifests = BTreeMap<(Name, Digest), Standing>;

pub(crate) type Digests = BTreeMap<Digest, Known>;

/// Touches a manifest, where it stands.
pub(crate) fn touch(manifests: &mut Manifests, spot: &(Name, Digest), now: u64)
    ensures { (key : List ℕ × List ℕ) → tree.get spot_cmp manifests.new key
        ≡ touched_where (is_spot spot.now key) now (tree.get spot_cmp manifests.old key) }
{
    if let Some(standing) = manifests.get_mut(spot) {
        standing.touched = now;
    }
}

/// Touches the manifest of a repository that a tag pointed to, where it pointed to one that stands.
pub(crate) fn touch_target(manifests: &mut Manifests, name: Name, target: Option<Digest>, now: u64)
    ensures { (key : List ℕ × List ℕ) → tree.get spot_cmp manifests.new key
        ≡ touched_where (is_same name key.0 && points_to key.1 target) now
        (tree.get spot_cmp manifests.old key) }
{
    if let Some(digest) = target {
        touch(manifests, &(name, digest), now);
    }
}

/// Touches the manifests of a spot's repository that have these digests, where they stand.
pub(crate) fn touch_all(
    manifests: &mut Manifests,
    mut spot: (Name, Digest),
    digests: &[Digest],
    now: u64,
)
    ensures { (key : List ℕ × List ℕ) → tree.get spot_cmp manifests.new key
        ≡ touched_where (is_same spot.0 key.0 && has_digest key.1 digests.now) now
        (tree.get spot_cmp manifests.old key) }
{
    for digest in digests {
        spot.1 = *digest;
        touch(manifests, &spot, now);
    }
}

/// Something else is known of a digest. Where memory is wanting, the digest was not there, and the same is known as
/// before.
pub(crate) fn learn(digests: &mut Digests, digest: Digest, known: Known) -> Result<(), NoMemory>
    ensures learnt { OnOk result ((other : List ℕ) → known_in digests.new other
        ≡ (if is_same digest other then known else known_in digests.old other)) }
    ensures same { OnErr result ((other : List ℕ) →
        known_in digests.new other ≡ known_in digests.old other) }
    ensures absent { OnErr result (tree.get (slice_cmp nat_cmp) digests.old digest ≡ None) }
{
    digests.insert(digest, known)?;
    Ok(())
}

/// Makes room for what entries tell of a digest.
pub(crate) fn note(digests: &mut Digests, digest: Digest) -> Result<(), NoMemory>
    ensures same { (other : List ℕ) → known_in digests.new other ≡ known_in digests.old other }
    ensures noted { OnOk result (IsSome (tree.get (slice_cmp nat_cmp) digests.new digest)) }
    ensures others { (other : List ℕ) → IsSome (tree.get (slice_cmp nat_cmp) digests.old other)
        → IsSome (tree.get (slice_cmp nat_cmp) digests.new other) }
{
    if !digests.contains_key(&digest) {
        digests.insert(digest, Known::NOTHING)?;
    }
    Ok(())
}

/// Makes room for what entries tell of the digests. What is known of them stays.
pub(crate) fn note_all(digests: &mut Digests, named: &[Named]) -> Result<(), NoMemory>
    ensures same { (other : List ℕ) → known_in digests.new other ≡ known_in digests.old other }
    ensures noted { OnOk result ((other : List ℕ) →
        IsTrue (has_digest other (digests_of named.now))
        → IsSome (tree.get (slice_cmp nat_cmp) digests.new other)) }
{
    for named in named {
        note(digests, named.digest)?;
    }
    Ok(())
}

/// Touches a digest, where there is room for it.
fn touch_digest(digests: &mut Digests, digest: Digest, now: u64)
    ensures { (other : List ℕ) → tree.get (slice_cmp nat_cmp) digests.new other
        ≡ known_where (is_same digest other) now (tree.get (slice_cmp nat_cmp) digests.old other) }
{
    if let Some(known) = digests.get(&digest).copied() {
        let touched = Some(now);
        let Ok(_) = digests.insert(digest, Known { touched, ..known }) else {
            unreachable!()
        };
    }
}

/// Touches digests, where there is room for them.
pub(crate) fn touch_digests(digests: &mut Digests, named: &[Named], now: u64)
    ensures { (other : List ℕ) → tree.get (slice_cmp nat_cmp) digests.new other
        ≡ known_where (has_digest other (digests_of named.now)) now
        (tree.get (slice_cmp nat_cmp) digests.old other) }
{
    for named in named {
        touch_digest(digests, named.digest, now);
    }
}
