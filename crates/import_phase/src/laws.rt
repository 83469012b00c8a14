//! Laws of phases and their rows.
ghost use Rattle.std.specs.Prelude.{◌≡◌, ℕ, List, Some};
ghost use Rattle.keeper_api.specs.Rows.{Rows, with_row};
ghost use Rattle.keeper_api.specs.Tables.{Fits};
ghost use Rattle.import_phase.specs.Phases.{phase_spelled, phase_key, IsPhase, IsKept, IsBounded};
ghost use Rattle.import_phase.specs.declared.phase.Phase.{Phase};
ghost use Rattle.import_phase.specs.declared.phase.Phase.TheVariants.{Frozen};
ghost use Rattle.import_phase.specs.declared.phase.Two.TheVariants.{Rows as AtRows};

/// A phase whose row is put is the one that the tables are in, they are in no two, and no two have one spelling.
pub fn phases_read_back()
    ensures put { (rows : Rows) (now : Phase) →
        IsPhase (with_row rows phase_key (Some (phase_spelled now))) now }
    ensures apart { (one two : Phase) → IsKept one → IsKept two →
        phase_spelled one ≡ phase_spelled two → one ≡ two }
    ensures alone { (rows : Rows) (one two : Phase) → IsKept one → IsKept two →
        IsPhase rows one → IsPhase rows two → one ≡ two }
{}

/// The rows that may stand at the phase row's key are those that spell a phase.
pub fn phase_rows_spell_phases()
    ensures fits { (now : Phase) → IsKept now → Fits phase_key (phase_spelled now) }
    ensures spells { (row : List ℕ) → Fits phase_key row →
        (now : Phase) × IsKept now × (row ≡ phase_spelled now) }
{}

/// `phase_bytes` may be given each phase that was read, and each whose cursor is the key of a row.
pub fn phases_are_bounded()
    ensures read { (now : Phase) → IsKept now → IsBounded now }
    ensures rows { (key row : List ℕ) → Fits key row → IsBounded (Frozen (AtRows key)) }
{}
