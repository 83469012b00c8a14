//! Tags.
ghost use Rattle.std.specs.Prelude.{◌≡◌, IfOk};
ghost use Rattle.reg_names.specs.Reading.{ReadsExactly};
ghost use Rattle.reg_names.specs.Tags.{is_word, is_tag_byte, is_tag, IsTag};

use crate::{NoMemory, TAG_LIMIT, Text};
use std::alloc::Global;
use std::marker::Model;
use std::str;

/// A tag of a repository (OCI Distribution Specification 1.1, "Pulling manifests"): 1 to 128 bytes, a
/// letter, a digit or `_` first, and then also `.` and `-`.
#[derive(Debug, Drop, PartialEq, Eq, PartialOrd, Ord)]
pub struct Tag {
    text: Text,
}

impl Model for Tag {
    ghost use Rattle.std.specs.Prelude.{List, ℕ};
    ghost use Rattle.reg_names.specs.Tags.{IsTag};

    ghost Value = { List ℕ };

    ghost view = { λ t. t.text };

    ghost invariant = { λ t. IsTag t.text };

    ghost inverse = { λ text. record { text = text } };
}

impl Tag {
    /// Whether the bytes are a tag's. Takes no memory.
    pub fn admits(text: &[u8]) -> bool
        ensures { result ≡ is_tag text.now }
    {
        match text.split_first() {
            Some((first, rest)) => {
                is_word_byte(*first)
                    && rest.len() < TAG_LIMIT
                    && rest
                        .iter()
                        .all(|b| is_word_byte(*b) || *b == b'.' || *b == b'-')
            }
            None => false,
        }
    }

    /// The tag that a text is, and `None` exactly where it is none: `[a-zA-Z0-9_][a-zA-Z0-9._-]{0,127}`.
    pub fn read(alloc: Global, text: &str) -> Result<Option<Tag>, NoMemory>
        ensures { IfOk result (ReadsExactly IsTag text.now) }
    {
        if !Tag::admits(text.as_bytes()) {
            return Ok(None);
        }
        let text = Text::from_str(alloc, text)?;
        Ok(Some(Tag { text }))
    }

    /// The same of bytes that may be no text.
    pub fn read_bytes(alloc: Global, text: &[u8]) -> Result<Option<Tag>, NoMemory>
        ensures { IfOk result (ReadsExactly IsTag text.now) }
    {
        match str::from_utf8(text) {
            Ok(text) => Tag::read(alloc, text),
            Err(_) => Ok(None),
        }
    }

    /// The tag as a text.
    pub fn text(&self, alloc: Global) -> Result<Text, NoMemory>
        ensures { IfOk result (λ t. t ≡ self.now) }
    {
        self.text.copy(alloc)
    }

    /// An equal tag.
    pub fn copy(&self, alloc: Global) -> Result<Tag, NoMemory>
        ensures { IfOk result (λ t. t ≡ self.now) }
    {
        let text = self.text.copy(alloc)?;
        Ok(Tag { text })
    }

    /// The tag's text: 1 to 128 bytes of ASCII.
    pub fn as_str(&self) -> &str
        ensures bytes { result.now ≡ self.now }
        ensures tag { IsTag self.now }
    {
        self.text.as_str()
    }
}

fn is_word_byte(byte: u8) -> bool
    ensures { result ≡ is_word byte }
{
    byte.is_ascii_alphanumeric() || byte == b'_'
}
