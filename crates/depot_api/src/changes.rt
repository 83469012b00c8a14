//! What is true of every change.
ghost use Rattle.std.specs.Prelude.{◌≡◌, ℕ, List, None};
ghost use Rattle.depot_api.specs.Holdings.{Holding};
ghost use Rattle.depot_api.specs.Stages.{Staged};
ghost use Rattle.depot_api.specs.Changes.{with_file, with_put, with_lent, with_shelved, with_placed, StaysAt, HidesLoans};

/// A change speaks of the paths that it names and of no other, and a depot tells afterwards what it told before.
pub fn other_paths_stay()
    ensures put { (held : Holding) (p q : List (List ℕ)) (bytes : List ℕ) →
        ¬ (p ≡ q) → StaysAt q held (with_put held p bytes) }
    ensures remove { (held : Holding) (p q : List (List ℕ)) →
        ¬ (p ≡ q) → StaysAt q held (with_file held p None) }
    ensures stage { (held : Holding) (p q : List (List ℕ)) →
        ¬ (p ≡ q) → StaysAt q held (with_lent held p) }
    ensures shelve { (held : Holding) (staged : Staged) (q : List (List ℕ)) →
        ¬ (staged.path ≡ q) → StaysAt q held (with_shelved held staged) }
    ensures place { (held : Holding) (staged : Staged) (to q : List (List ℕ)) →
        ¬ (staged.path ≡ q) → ¬ (to ≡ q) → StaysAt q held (with_placed held staged to) }
{}

/// Where no path that is lent has a file, none has one after a change: a loan ends with the file that is put, shelved or
/// placed at its path.
pub fn lent_paths_stay_absent()
    ensures put { (held : Holding) (p : List (List ℕ)) (bytes : List ℕ) →
        HidesLoans held → HidesLoans (with_put held p bytes) }
    ensures remove { (held : Holding) (p : List (List ℕ)) →
        HidesLoans held → HidesLoans (with_file held p None) }
    ensures stage { (held : Holding) (p : List (List ℕ)) →
        HidesLoans held → HidesLoans (with_lent held p) }
    ensures shelve { (held : Holding) (staged : Staged) →
        HidesLoans held → HidesLoans (with_shelved held staged) }
    ensures place { (held : Holding) (staged : Staged) (to : List (List ℕ)) →
        HidesLoans held → HidesLoans (with_placed held staged to) }
{}
