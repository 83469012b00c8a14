//! Laws of journals.
ghost use Rattle.std.specs.Prelude.{◌≡◌, ◌≢◌, ◌↔◌, ◌≤◌, ◌++◌, ◌∷◌, [], ℕ, List, None, Some, IsSome};
ghost use Rattle.std.specs.List.{AllByRecursion, count_by};
ghost use Rattle.reg_journal.specs.Changes.{apply, replay};
ghost use Rattle.reg_journal.specs.Entries.{IsEntry};
ghost use Rattle.reg_journal.specs.Keeping.{IsFreely, AreKeptByNames};
ghost use Rattle.reg_journal.specs.Kinds.{is_opening, repository_of, digest_of};
ghost use Rattle.reg_journal.specs.Legal.{IsUntagged, IsUnlisted, IsUnlinked, IsUnnamed, IsLegal, Legal, Collectable, made_at};
ghost use Rattle.reg_journal.specs.Past.{Past, shown};
ghost use Rattle.reg_journal.specs.Spelling.{entry_spelled};
ghost use Rattle.reg_journal.specs.Staying.{IsSameIn, IsSameAt, IsApart};
ghost use Rattle.reg_journal.specs.declared.entry.Entry.{Entry as Written};
ghost use Rattle.reg_journal.specs.declared.entry.What.{What};
ghost use Rattle.reg_journal.specs.declared.entry.What.TheVariants.{Collect, DropLink, Doom};

/// One more entry is applied to what the journal left, and is legal by that.
pub fn one_entry_more()
    ensures replay { (journal : List Written) (entry : Written) →
        replay (journal ++ entry ∷ []) ≡ apply (replay journal) entry }
    ensures legal { (delay : ℕ) (journal : List Written) (entry : Written) →
        Legal delay (journal ++ entry ∷ [])
        ↔ (Legal delay journal × IsLegal delay (replay journal) entry) }
    ensures entries { (journal : List Written) → (replay journal).entries ≡ journal }
{}

/// What a legal journal begins with is a legal journal.
pub fn beginnings_are_legal()
    ensures { (delay : ℕ) (journal more : List Written) →
        Legal delay (journal ++ more) → Legal delay journal }
{}

/// An entry leaves what it does not name: other repositories, other digests, and other tags, unless it names the
/// manifest that they point to. One that names no repository leaves what all of them have.
pub fn others_stay()
    ensures repositories { (past : Past) (entry : Written) (name : List ℕ) →
        repository_of entry.what ≢ Some name → IsSameIn name past (apply past entry) }
    ensures digests { (past : Past) (entry : Written) (digest : List ℕ) →
        digest_of entry.what ≢ Some digest → IsSameAt digest past (apply past entry) }
    ensures tags { (past : Past) (entry : Written) (name tag : List ℕ) →
        IsApart entry.what tag (past.tags name tag) →
        (apply past entry).tags name tag ≡ past.tags name tag }
    ensures state { (past : Past) (entry : Written) →
        repository_of entry.what ≡ None → shown (apply past entry) ≡ shown past }
{}

/// After a legal journal each tag points to a manifest of its repository.
pub fn tags_point_to_manifests()
    ensures { (delay : ℕ) (journal : List Written) (name tag digest : List ℕ) →
        Legal delay journal → (replay journal).tags name tag ≡ Some digest →
        IsSome ((replay journal).manifests name digest) }
{}

/// After a legal journal no repository links a digest that is condemned, and no manifest names it unless freely.
pub fn condemned_digests_are_not_held()
    ensures { (delay : ℕ) (journal : List Written) (digest : List ℕ) →
        Legal delay journal → IsSome ((replay journal).condemned digest) →
        IsUnlinked (replay journal) digest × IsFreely (replay journal) digest }
{}

/// A legal journal opens the tables at most once.
pub fn tables_are_opened_once()
    ensures { (delay : ℕ) (journal : List Written) →
        Legal delay journal → count_by (λ e. is_opening e.what) journal ≤ 1 }
{}

/// No collection of a legal journal takes a manifest that a tag points to or that a manifest lists, a link of a digest
/// that a manifest names, or a digest that is linked or named.
pub fn collections_take_what_nothing_holds()
    ensures manifests { (delay now : ℕ) (journal more : List Written) (name digest : List ℕ) →
        Legal delay (journal ++ made_at now (Collect name digest) ∷ more) →
        IsUntagged (replay journal) name digest × IsUnlisted (replay journal) name digest }
    ensures links { (delay now : ℕ) (journal more : List Written) (name digest : List ℕ) →
        Legal delay (journal ++ made_at now (DropLink name digest) ∷ more) →
        IsUnnamed (replay journal) digest }
    ensures digests { (delay now : ℕ) (journal more : List Written) (digest : List ℕ) →
        Legal delay (journal ++ made_at now (Doom digest) ∷ more) →
        IsUnlinked (replay journal) digest × IsUnnamed (replay journal) digest }
{}

/// A collection that a review may make leaves a legal journal legal.
pub fn reviews_are_legal()
    ensures { (delay now : ℕ) (journal : List Written) (what : What) → Legal delay journal →
        Collectable delay journal now what → Legal delay (journal ++ made_at now what ∷ []) }
{}

/// No two entries have one spelling.
pub fn spellings_are_apart()
    ensures { (one two : Written) → IsEntry one → IsEntry two →
        entry_spelled one ≡ entry_spelled two → one ≡ two }
{}

/// A journal of entries keeps manifests and links by names and digests alone, and tags by names and tags.
pub fn all_is_kept_by_names()
    ensures { (journal : List Written) →
        AllByRecursion IsEntry journal → AreKeptByNames (replay journal) }
{}
