//! Laws of the rows that a journal derives.
ghost use Rattle.std.specs.Prelude.{◌≡◌, ◌≤◌, ℕ, List, length};
ghost use Rattle.keeper_api.specs.Rows.{Rows};
ghost use Rattle.reg_journal.specs.Changes.{replay};
ghost use Rattle.reg_journal.specs.declared.entry.Entry.{Entry as Written};
ghost use Rattle.reg_names.specs.Digests.{IsDigest};
ghost use Rattle.reg_names.specs.Names.{IsName};
ghost use Rattle.reg_names.specs.Tags.{IsTag};
ghost use Rattle.reg_tables.specs.Derived.{IsDerived, rows_of, journal_limit, last_row, manifest_row, named_row, child_row, link_row, blob_row};
ghost use Rattle.reg_tables.specs.Keys.{last_number_key, manifest_key, tag_key, named_key, child_key, link_key, blob_key};

/// Rows that were given those of a journal are the ones that it derives, whatever the other tables hold.
pub fn given_rows_are_derived()
    ensures { (journal : List Written) (others : Rows) → length journal ≤ journal_limit →
        IsDerived journal (rows_of journal others) }
{}

/// The rows that a journal derives tell what it left, each at its key.
pub fn rows_tell_the_past()
    ensures last { (journal : List Written) (rows : Rows) → IsDerived journal rows →
        rows last_number_key ≡ last_row journal }
    ensures manifests { (journal : List Written) (rows : Rows) (name digest : List ℕ) →
        IsDerived journal rows → IsName name → IsDigest digest →
        rows (manifest_key name digest) ≡ manifest_row
        ((replay journal).manifests name digest) ((replay journal).manifest_touched name digest) }
    ensures tags { (journal : List Written) (rows : Rows) (name tag : List ℕ) →
        IsDerived journal rows → IsName name → IsTag tag →
        rows (tag_key name tag) ≡ (replay journal).tags name tag }
    ensures named { (journal : List Written) (rows : Rows) (name manifest digest : List ℕ) →
        IsDerived journal rows → IsName name → IsDigest manifest → IsDigest digest →
        rows (named_key name manifest digest)
        ≡ named_row digest ((replay journal).manifests name manifest) }
    ensures children { (journal : List Written) (rows : Rows) (name parent child : List ℕ) →
        IsDerived journal rows → IsName name → IsDigest parent → IsDigest child →
        rows (child_key name parent child)
        ≡ child_row child ((replay journal).manifests name parent) }
    ensures links { (journal : List Written) (rows : Rows) (name digest : List ℕ) →
        IsDerived journal rows → IsName name → IsDigest digest →
        rows (link_key name digest) ≡ link_row ((replay journal).links name digest) }
    ensures blobs { (journal : List Written) (rows : Rows) (digest : List ℕ) →
        IsDerived journal rows → IsDigest digest →
        rows (blob_key digest) ≡ blob_row ((replay journal).condemned digest)
        ((replay journal).sizes digest) ((replay journal).blob_touched digest) }
{}
