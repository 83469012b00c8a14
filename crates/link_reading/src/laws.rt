//! Laws of what files mean.
ghost use Rattle.std.specs.Prelude.{◌≡◌, ◌≢◌, ◌↔◌, ℕ, List, length, Option, Some, None, IsSome, IsTrue, option_map};
ghost use Rattle.reg_names.specs.Names.{IsName};
ghost use Rattle.reg_names.specs.Tags.{IsTag};
ghost use Rattle.reg_names.specs.Digests.{IsDigest, digest_text};
ghost use Rattle.depot_api.specs.Files.{Files, with_at};
ghost use Rattle.link_paths.specs.Places.{IsPlace, place_path, layer_path, revision_path, tag_path, data_path};
ghost use Rattle.link_paths.specs.declared.place.Place.{Place};
ghost use Rattle.reg_entries.specs.Documents.{KeptManifest};
ghost use Rattle.reg_entries.specs.State.{empty};
ghost use Rattle.link_reading.specs.Meaning.{Means, links_to, manifest_in, data_at, IsLink, IsBroken, IsBrokenWithTags};

/// A link file is read as the link to a digest exactly where it holds the digest's text and nothing more.
pub fn links_hold_texts()
    ensures { (file : Option (List ℕ)) (digest : List ℕ) → IsTrue (links_to file digest) ↔ (IsDigest digest × (file ≡ Some (digest_text digest))) }
{}

/// A tag points to a manifest of its repository.
pub fn tags_point_to_manifests()
    ensures { (files : Files) (name tag digest : List ℕ) → (Means files).tags name tag ≡ Some digest → IsSome ((Means files).manifests name digest) }
{}

/// The size of a manifest is that of its data file.
pub fn manifests_have_the_size_of_their_data()
    ensures { (files : Files) (name digest : List ℕ) (m : KeptManifest) → (Means files).manifests name digest ≡ Some m → option_map length (data_at files digest) ≡ Some m.size }
{}

/// Files among which no link file is mean nothing.
pub fn files_without_links_mean_nothing()
    ensures { (files : Files) → ((place : Place) → IsPlace place → IsLink place → files (place_path place) ≡ None) → Means files ≡ empty }
{}

/// A file at a path that is no place's changes nothing of what files mean.
pub fn other_files_change_nothing()
    ensures { (files : Files) (path : List (List ℕ)) (file : Option (List ℕ)) → ((place : Place) → IsPlace place → place_path place ≢ path) → Means (with_at files path file) ≡ Means files }
{}

/// A dangling link to a blob means nothing, until the blob's data file comes.
pub fn dangling_links_mean_nothing()
    ensures { (files : Files) (name digest bytes : List ℕ) → IsName name → IsDigest digest → files (layer_path name digest) ≡ Some (digest_text digest) → files (data_path digest) ≡ None
        → ((Means files).links name digest ≡ None) × ((Means (with_at files (data_path digest) (Some bytes))).links name digest ≡ Some (length bytes)) }
{}

/// A dangling link to a manifest means nothing, until its data file comes, and then what its bytes are under the digest.
pub fn dangling_manifests_mean_nothing()
    ensures { (files : Files) (name digest bytes : List ℕ) → IsName name → IsDigest digest → files (revision_path name digest) ≡ Some (digest_text digest) → files (data_path digest) ≡ None
        → ((Means files).manifests name digest ≡ None) × ((Means (with_at files (data_path digest) (Some bytes))).manifests name digest ≡ manifest_in digest bytes) }
{}

/// A link is broken exactly where it is there and means nothing. A link of a tag is so only where tags count.
pub fn broken_links_mean_nothing()
    ensures layers { (files : Files) (name digest : List ℕ) → IsName name → IsDigest digest → IsBroken files (layer_path name digest) ↔ (IsSome (files (layer_path name digest)) × ((Means files).links name digest ≡ None)) }
    ensures revisions { (files : Files) (name digest : List ℕ) → IsName name → IsDigest digest → IsBroken files (revision_path name digest) ↔ (IsSome (files (revision_path name digest)) × ((Means files).manifests name digest ≡ None)) }
    ensures tags { (files : Files) (name tag : List ℕ) → IsName name → IsTag tag → IsBrokenWithTags files (tag_path name tag) ↔ (IsSome (files (tag_path name tag)) × ((Means files).tags name tag ≡ None)) }
    ensures tags_apart { (files : Files) (name tag : List ℕ) → IsName name → IsTag tag → ¬ IsBroken files (tag_path name tag) }
    ensures with_tags { (files : Files) (path : List (List ℕ)) → IsBroken files path → IsBrokenWithTags files path }
{}

/// Files that differ at one digest's data file alone mean the same for every other digest: its links, its manifests, and
/// the tags that point to it.
pub fn data_files_speak_of_their_digest()
    ensures links { (files : Files) (digest : List ℕ) (file : Option (List ℕ)) (name other : List ℕ) → IsDigest digest → other ≢ digest
        → (Means (with_at files (data_path digest) file)).links name other ≡ (Means files).links name other }
    ensures manifests { (files : Files) (digest : List ℕ) (file : Option (List ℕ)) (name other : List ℕ) → IsDigest digest → other ≢ digest
        → (Means (with_at files (data_path digest) file)).manifests name other ≡ (Means files).manifests name other }
    ensures tags { (files : Files) (digest : List ℕ) (file : Option (List ℕ)) (name tag other : List ℕ) → IsDigest digest → other ≢ digest
        → ((Means (with_at files (data_path digest) file)).tags name tag ≡ Some other) ↔ ((Means files).tags name tag ≡ Some other) }
{}
