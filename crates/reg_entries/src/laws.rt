//! Laws of states.
ghost use Rattle.std.specs.Prelude.{◌≡◌, ◌↔◌, ℕ, false, nat_eq, List, Option, IsSome, IsTrue};
ghost use Rattle.std.specs.List.{list_any};
ghost use Rattle.std.specs.Cmp.Lexicographic.{pointwise};
ghost use Rattle.reg_entries.specs.State.{State};
ghost use Rattle.reg_entries.specs.Listing.{IsListing, AreNextTags, is_behind, last_of};

/// There is one listing of the tags of a repository behind a text, and at most so many.
pub fn listings_agree()
    ensures { (state : State) (name : List ℕ) (most : Option ℕ) (last : Option (List ℕ)) (one two : List (List ℕ)) (more follow : Option ℕ) → IsListing state name most last one more → IsListing state name most last two follow → (one ≡ two) × (more ≡ follow) }
{}

/// Tags that follow each other from a text on are those of the repository behind it, up to the last of them.
pub fn tags_that_follow_are_all()
    ensures { (state : State) (name : List ℕ) (last : Option (List ℕ)) (tags : List (List ℕ)) (tag : List ℕ) → AreNextTags state name last tags
        → IsTrue (list_any (pointwise nat_eq tag) tags) ↔ (IsSome (state.tags name tag) × IsTrue (is_behind last tag) × (is_behind (last_of last tags) tag ≡ false)) }
{}
