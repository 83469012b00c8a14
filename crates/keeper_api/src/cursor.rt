//! Bytes that are passed over field by field, without memory.
ghost use Rattle.std.specs.Prelude.{◌≡◌, ◌↔◌, [], IsTrue};
ghost use Rattle.std.specs.Int.{w16, w32, w64};
ghost use Rattle.reg_journal.specs.InnerReading.{byte_at, number_at, bytes_at, text_at, digest_at};
ghost use Rattle.keeper_api.specs.InnerFields.{Gives, Passes, ended_at, counted_at, strip, are_fields};

use crate::field::Field;
use depot_api::Path;
use reg_names::{Digest, Name, Tag};
use std::marker::Model;

/// Bytes of which each call takes a field from the front. Contracts see it as the bytes that are left; where a call
/// finds no field, what is left is not told.
#[derive(Drop)]
pub(crate) struct Cursor<'b> {
    rest: &'b [u8],
}

impl<'b> Model for Cursor<'b> {
    ghost use Rattle.std.specs.Prelude.{List, ℕ};

    ghost Value = { List ℕ };

    ghost view = { λ c. c.rest.now };
}

impl<'b> Cursor<'b> {
    pub(crate) fn new(bytes: &'b [u8]) -> Cursor<'b>
        ensures { result ≡ bytes.now }
    {
        Cursor { rest: bytes }
    }

    /// Whether no bytes are left.
    pub(crate) fn is_at_end(&self) -> bool
        ensures { IsTrue result ↔ (self.now ≡ []) }
    {
        self.rest.is_empty()
    }

    #[tactic(auto, unfolding(reg_journal::specs::InnerReading::byte_at))]
    pub(crate) fn byte(&mut self) -> Option<u8>
        ensures { Gives (λ x. (x, self.new)) result (byte_at self.old) }
    {
        let (byte, rest) = self.rest.split_first()?;
        self.rest = rest;
        Some(*byte)
    }

    /// A number of 8 bytes.
    #[tactic(auto, unfolding(reg_journal::specs::InnerReading::number_at))]
    pub(crate) fn number(&mut self) -> Option<u64>
        ensures { Gives (λ x. (x, self.new)) result (number_at w64 self.old) }
    {
        let (front, rest) = self.rest.split_first_chunk()?;
        self.rest = rest;
        Some(u64::from_be_bytes(*front))
    }

    // A number of 4 bytes.
    #[tactic(auto, unfolding(reg_journal::specs::InnerReading::number_at))]
    fn half(&mut self) -> Option<u32>
        ensures { Gives (λ x. (x, self.new)) result (number_at w32 self.old) }
    {
        let (front, rest) = self.rest.split_first_chunk()?;
        self.rest = rest;
        Some(u32::from_be_bytes(*front))
    }

    /// A number of 2 bytes.
    #[tactic(auto, unfolding(reg_journal::specs::InnerReading::number_at))]
    pub(crate) fn quarter(&mut self) -> Option<u16>
        ensures { Gives (λ x. (x, self.new)) result (number_at w16 self.old) }
    {
        let (front, rest) = self.rest.split_first_chunk()?;
        self.rest = rest;
        Some(u16::from_be_bytes(*front))
    }

    #[tactic(auto, unfolding(reg_journal::specs::InnerReading::bytes_at))]
    fn bytes(&mut self, count: usize) -> Option<&'b [u8]>
        ensures { Gives (λ x. (x.now, self.new)) result (bytes_at count self.old) }
    {
        if self.rest.len() < count {
            return None;
        }
        let (front, rest) = self.rest.split_at(count);
        self.rest = rest;
        Some(front)
    }

    /// A byte for a length, and that many bytes.
    #[tactic(auto, unfolding(reg_journal::specs::InnerReading::text_at))]
    pub(crate) fn text(&mut self) -> Option<&'b [u8]>
        ensures { Gives (λ x. (x.now, self.new)) result (text_at self.old) }
    {
        let count = self.byte()?;
        self.bytes(count as usize)
    }

    // Two bytes for a length, and that many bytes.
    #[tactic(auto, unfolding(crate::specs::InnerFields::counted_at))]
    fn counted(&mut self) -> Option<&'b [u8]>
        ensures { Gives (λ x. (x.now, self.new)) result (counted_at self.old) }
    {
        let count = self.quarter()?;
        self.bytes(count as usize)
    }

    // The bytes before a zero byte.
    fn ended(&mut self) -> Option<&'b [u8]>
        ensures { Gives (λ x. (x.now, self.new)) result (ended_at self.old) }
    {
        let Some(end) = self.rest.iter().position(|b| *b == 0) else {
            return None;
        };
        let (front, _) = self.rest.split_at(end);
        let (_, rest) = self.rest.split_at(end + 1);
        self.rest = rest;
        Some(front)
    }

    /// A digest: the byte 1 and 32 bytes.
    #[tactic(auto, unfolding(reg_journal::specs::InnerReading::digest_at, reg_journal::specs::InnerReading::bytes_at))]
    pub(crate) fn digest(&mut self) -> Option<Digest>
        ensures { Gives (λ x. (x, self.new)) result (digest_at self.old) }
    {
        let algorithm = self.byte()?;
        match self.rest.split_first_chunk() {
            Some((raw, rest)) if algorithm == 1 => {
                self.rest = rest;
                Some(Digest::from_sha256(*raw))
            }
            _ => None,
        }
    }

    /// Passes over a field, and tells whether there was one.
    #[tactic(auto, unfolding(crate::specs::InnerFields::strip))]
    pub(crate) fn skip(&mut self, field: Field) -> bool
        ensures { Passes result self.new (strip field self.old) }
    {
        match field {
            Field::Byte(byte) => matches!(self.byte(), Some(b) if b == byte),
            Field::Number => self.number().is_some(),
            Field::Positive => matches!(self.number(), Some(n) if n >= 1),
            Field::One => matches!(self.number(), Some(n) if n == 1),
            Field::Count => self.half().is_some(),
            Field::EndedName => matches!(self.ended(), Some(text) if Name::admits(text)),
            Field::EndedTag => matches!(self.ended(), Some(text) if Tag::admits(text)),
            Field::Digest => self.digest().is_some(),
            Field::Kind => matches!(self.byte(), Some(n) if 1 <= n && n <= 4),
            Field::Free => matches!(self.byte(), Some(n) if n <= 1),
            Field::Event => matches!(self.byte(), Some(n) if 1 <= n && n <= 18),
            Field::Table => self.byte().is_some(),
            Field::Path => matches!(self.counted(), Some(text) if Path::admits(text)),
            Field::Key => self.counted().is_some(),
        }
    }
}

/// Whether the bytes are those of the fields, one behind the other, and no more.
#[tactic(auto, unfolding(crate::specs::InnerFields::are_fields))]
pub(crate) fn are_fields(fields: &[Field], bytes: &[u8]) -> bool
    ensures { result ≡ are_fields fields.now bytes.now }
{
    let mut cursor = Cursor::new(bytes);
    for field in fields {
        if !cursor.skip(*field) {
            return false;
        }
    }
    cursor.is_at_end()
}
