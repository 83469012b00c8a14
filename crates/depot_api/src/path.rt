//! Paths of files.
ghost use Rattle.std.specs.Prelude.{◌≡◌, ◌↔◌, ◌++◌, ℕ, List, IfOk, IsTrue, MatchBool};
ghost use Rattle.std.specs.List.{list_all};
ghost use Rattle.reg_names.specs.Reading.{ReadsExactly};
ghost use Rattle.depot_api.specs.Paths.{is_part_byte, is_dots as are_dots, is_part, IsPart, IsPath, is_path_text, ReadsPath, parts_of, path_text, begins_with};

use crate::{PART_LIMIT, PATH_LIMIT};
use reg_names::{NoMemory, Text};
use std::alloc::Global;
use std::cmp::Ordering;
use std::marker::Model;
use std::str;

/// One name of a path: 1 to 255 bytes of UTF-8, no `/`, no NUL, and neither `.` nor `..`.
#[derive(Debug, Drop, PartialEq, Eq, PartialOrd, Ord)]
pub struct Part {
    text: Text,
}

impl Model for Part {
    ghost use Rattle.std.specs.Prelude.{List, ℕ};
    ghost use Rattle.depot_api.specs.Paths.{IsPart};

    ghost Value = { List ℕ };

    ghost view = { λ p. p.text };

    ghost invariant = { λ p. IsPart p.text };

    ghost inverse = { λ text. record { text = text } };
}

impl Part {
    /// The part that a text is, and `None` exactly where it is none.
    pub fn read(alloc: Global, text: &str) -> Result<Option<Part>, NoMemory>
        ensures { IfOk result (ReadsExactly IsPart text.now) }
    {
        if !is_part_text(text) {
            return Ok(None);
        }
        let text = Text::from_str(alloc, text)?;
        Ok(Some(Part { text }))
    }

    /// An equal part.
    pub fn copy(&self, alloc: Global) -> Result<Part, NoMemory>
        ensures { IfOk result (λ p. p ≡ self.now) }
    {
        let text = self.text.copy(alloc)?;
        Ok(Part { text })
    }

    /// The text of the part, 1 to 255 bytes.
    pub fn as_str(&self) -> &str
        ensures bytes { result.now ≡ self.now }
        ensures part { IsPart self.now }
    {
        self.text.as_str()
    }

    /// The text of parts, with slashes between them.
    pub fn join(alloc: Global, parts: &[Part]) -> Result<Text, NoMemory>
        ensures { IfOk result (λ t. t ≡ path_text parts.now) }
    {
        let Some((first, rest)) = parts.split_first() else {
            return Ok(Text::from_string(String::new(alloc)));
        };
        let mut text = String::from_str(alloc, first.as_str())?;
        for part in rest {
            text.push_str("/")?;
            text.push_str(part.as_str())?;
        }
        Ok(Text::from_string(text))
    }
}

fn is_part_text(text: &str) -> bool
    ensures { result ≡ is_part text.now }
{
    1 <= text.len() && text.len() <= PART_LIMIT && are_part_bytes(text.as_bytes()) && !is_dots(text)
}

fn are_part_bytes(bytes: &[u8]) -> bool
    ensures { result ≡ list_all is_part_byte bytes.now }
{
    bytes.iter().all(|b| *b != b'/' && *b != 0)
}

// `.` and `..` lead elsewhere.
fn is_dots(text: &str) -> bool
    ensures { result ≡ are_dots text.now }
{
    text == "." || text == ".."
}

/// Where a file is: one part or more, at most 4,096 bytes of text. Paths are ordered by their parts, and
/// parts by their bytes. Contracts see a path as the list of its parts.
#[derive(Debug, Drop)]
pub struct Path {
    parts: Vec<Part>,
}

impl Model for Path {
    ghost use Rattle.std.specs.Prelude.{List, ℕ};
    ghost use Rattle.depot_api.specs.Paths.{IsPath};

    ghost Value = { List (List ℕ) };

    ghost view = { λ p. p.parts.items };

    ghost invariant = { λ p. IsPath p.parts.items };
}

impl Path {
    /// Whether the bytes are the text of a path. Takes no memory.
    pub fn admits(bytes: &[u8]) -> bool
        ensures { result ≡ is_path_text bytes.now }
    {
        match str::from_utf8(bytes) {
            Ok(text) => is_path(text),
            Err(_) => false,
        }
    }

    /// The path that a text is, and `None` exactly where it is none.
    pub fn read(alloc: Global, text: &str) -> Result<Option<Path>, NoMemory>
        ensures { IfOk result (ReadsPath text.now) }
    {
        if text.len() > PATH_LIMIT {
            return Ok(None);
        }
        let mut parts = Vec::new(alloc);
        for part in text.split('/') {
            match Part::read(alloc, part)? {
                Some(part) => parts.push(part)?,
                None => return Ok(None),
            }
        }
        Ok(Some(Path { parts }))
    }

    /// The text of the path, its parts with slashes between them.
    pub fn text(&self, alloc: Global) -> Result<Text, NoMemory>
        ensures { IfOk result (λ t. t ≡ path_text self.now) }
    {
        Part::join(alloc, &self.parts)
    }

    /// An equal path.
    pub fn copy(&self, alloc: Global) -> Result<Path, NoMemory>
        ensures { IfOk result (λ p. p ≡ self.now) }
    {
        let mut parts = Vec::with_capacity(alloc, self.parts.len())?;
        for part in &self.parts {
            parts.push(part.copy(alloc)?)?;
        }
        Ok(Path { parts })
    }

    /// What `text` wrote reads back: the parts of a path's text are the path.
    pub fn text_reads_back()
        ensures { (p : List (List ℕ)) → IsPath p → parts_of (path_text p) ≡ p }
    {}

    /// Whether the path's first parts are those of `under`. A path begins with itself.
    pub fn begins_with(&self, under: &Path) -> bool
        ensures { result ≡ begins_with under.now self.now }
    {
        self.parts.starts_with(&under.parts)
    }

    /// A path begins with another exactly where more parts, or none, make the other that path.
    pub fn begins_with_is_a_prefix()
        ensures { (under p : List (List ℕ)) → IsTrue (begins_with under p) ↔ ((rest : List (List ℕ)) × (p ≡ under ++ rest)) }
    {}

    /// The parts, from the first to the last.
    pub fn parts(&self) -> &[Part]
        ensures parts { result.now ≡ self.now }
        ensures path { IsPath self.now }
    {
        &self.parts
    }
}

fn is_path(text: &str) -> bool
    ensures { MatchBool result (IsPath (parts_of text.now)) (¬ IsPath (parts_of text.now)) }
{
    if text.len() > PATH_LIMIT {
        return false;
    }
    for part in text.split('/') {
        if !is_part_text(part) {
            return false;
        }
    }
    true
}

impl PartialEq for Path {
    ghost use Rattle.std.specs.Prelude.{nat_eq};
    ghost use Rattle.std.specs.Cmp.{partial_equiv_from_equiv};
    ghost use Rattle.std.specs.Cmp.Lexicographic.{pointwise, lists_equiv, nat_list_eq_equiv};

    ghost eq = { pointwise (pointwise nat_eq) };

    ghost laws = { partial_equiv_from_equiv (lists_equiv nat_list_eq_equiv) };

    fn eq(&self, other: &Path) -> bool {
        self.parts == other.parts
    }
}

impl Eq for Path {
    ghost use Rattle.std.specs.Cmp.Lexicographic.{lists_equiv, nat_list_eq_equiv};

    ghost laws = { lists_equiv nat_list_eq_equiv };
}

impl Ord for Path {
    ghost use Rattle.std.proofs.Common.{rules};
    ghost use Rattle.std.specs.Ordering.{nat_cmp};
    ghost use Rattle.std.specs.Cmp.Rules.{comparing};
    ghost use Rattle.std.specs.Cmp.Lexicographic.{slice_cmp, lists_ties, lists_total, nat_list_cmp_total, texts_ties};

    ghost cmp = { slice_cmp (slice_cmp nat_cmp) };

    ghost total = { lists_total nat_list_cmp_total };

    ghost matches_partial_cmp = { Prim.search (comparing, rules) };

    ghost matches_eq = { lists_ties (slice_cmp nat_cmp) texts_ties };

    fn cmp(&self, other: &Path) -> Ordering {
        self.parts.cmp(&other.parts)
    }
}

impl PartialOrd for Path {
    ghost use Rattle.std.proofs.Common.{rules};
    ghost use Rattle.std.specs.Ordering.{nat_cmp, as_partial_cmp};
    ghost use Rattle.std.specs.Cmp.{partial_order_from_own_ties};
    ghost use Rattle.std.specs.Cmp.Rules.{comparing};
    ghost use Rattle.std.specs.Cmp.Lexicographic.{slice_cmp, lists_ties, texts_ties};

    ghost partial_cmp = { as_partial_cmp (slice_cmp (slice_cmp nat_cmp)) };

    ghost laws = { partial_order_from_own_ties (Prim.search (comparing, rules))
        (lists_ties (slice_cmp nat_cmp) texts_ties) };

    fn partial_cmp(&self, other: &Path) -> Option<Ordering> {
        Some(self.cmp(other))
    }
}
