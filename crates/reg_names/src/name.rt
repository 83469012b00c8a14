//! Repository names.
ghost use Rattle.std.specs.Prelude.{◌≡◌, ◌↔◌, List, ℕ, IfOk};
ghost use Rattle.reg_names.specs.Reading.{ReadsExactly};
ghost use Rattle.reg_names.specs.Names.{is_name, IsName, IsRepositoryName};
ghost use Rattle.reg_names.specs.InnerScans.{next_spot};

use crate::{NAME_LIMIT, NoMemory, Text};
use std::alloc::Global;
use std::marker::Model;
use std::str;

/// A repository name (OCI Distribution Specification 1.1, "Pulling manifests"): components joined by `/`,
/// at most 255 bytes in all.
#[derive(Debug, Drop, PartialEq, Eq, PartialOrd, Ord)]
pub struct Name {
    text: Text,
}

impl Model for Name {
    ghost use Rattle.std.specs.Prelude.{List, ℕ};
    ghost use Rattle.reg_names.specs.Names.{IsName};

    ghost Value = { List ℕ };

    ghost view = { λ n. n.text };

    ghost invariant = { λ n. IsName n.text };

    ghost inverse = { λ text. record { text = text } };
}

impl Name {
    /// Whether the bytes are a name's. Takes no memory.
    pub fn admits(text: &[u8]) -> bool
        ensures { result ≡ is_name text.now }
    {
        if text.len() > NAME_LIMIT {
            return false;
        }
        let mut spot = Spot::Begin;
        for byte in text {
            match spot.next(*byte) {
                Some(next) => spot = next,
                None => return false,
            }
        }
        matches!(spot, Spot::Inside)
    }

    /// The name that a text is, and `None` exactly where it is none: components of `a` to `z` and digits, with `.`, `_`,
    /// `__` or dashes inside them and `/` between them, at most 255 bytes in all.
    pub fn read(alloc: Global, text: &str) -> Result<Option<Name>, NoMemory>
        ensures { IfOk result (ReadsExactly IsName text.now) }
    {
        if !Name::admits(text.as_bytes()) {
            return Ok(None);
        }
        let text = Text::from_str(alloc, text)?;
        Ok(Some(Name { text }))
    }

    /// The same of bytes that may be no text.
    pub fn read_bytes(alloc: Global, text: &[u8]) -> Result<Option<Name>, NoMemory>
        ensures { IfOk result (ReadsExactly IsName text.now) }
    {
        match str::from_utf8(text) {
            Ok(text) => Name::read(alloc, text),
            Err(_) => Ok(None),
        }
    }

    /// The name as a text.
    pub fn text(&self, alloc: Global) -> Result<Text, NoMemory>
        ensures { IfOk result (λ t. t ≡ self.now) }
    {
        self.text.copy(alloc)
    }

    /// An equal name.
    pub fn copy(&self, alloc: Global) -> Result<Name, NoMemory>
        ensures { IfOk result (λ n. n ≡ self.now) }
    {
        let text = self.text.copy(alloc)?;
        Ok(Name { text })
    }

    /// The name's text: 1 to 255 bytes of ASCII.
    pub fn as_str(&self) -> &str
        ensures bytes { result.now ≡ self.now }
        ensures name { IsName self.now }
    {
        self.text.as_str()
    }
}

/// Where a scan of a name stands.
#[derive(Clone, Copy)]
enum Spot {
    /// A letter or digit is wanted.
    Begin,
    /// Behind a letter or digit.
    Inside,
    /// Behind one underscore.
    Underscore,
    /// Behind dashes.
    Dashes,
}

impl Spot {
    // Where the scan stands behind one more byte, unless no name goes on so.
    fn next(self, byte: u8) -> Option<Spot>
        ensures { result ≡ next_spot self byte }
    {
        if byte.is_ascii_lowercase() || byte.is_ascii_digit() {
            return Some(Spot::Inside);
        }
        match (self, byte) {
            (Spot::Inside, b'/' | b'.') | (Spot::Underscore, b'_') => Some(Spot::Begin),
            (Spot::Inside, b'_') => Some(Spot::Underscore),
            (Spot::Inside | Spot::Dashes, b'-') => Some(Spot::Dashes),
            _ => None,
        }
    }
}

/// The scan of a name is the grammar by productions.
pub fn names_are_the_grammar()
    ensures { (text : List ℕ) → IsName text ↔ IsRepositoryName text }
{}
