//! The fields of entries, read from left to right.
ghost use Rattle.std.specs.Prelude.{◌≡◌, ◌↔◌, [], IsTrue};
ghost use Rattle.std.specs.Int.{w16, w64};
ghost use Rattle.reg_journal.specs.InnerReading.{Gives, byte_at, number_at, bytes_at, text_at, name_at, tag_at, digest_at, kind_at, free_at, named_at, items_at, list_at, document_at};

use crate::unread::Unread;
use reg_entries::Document;
use reg_names::{Digest, DigestList, Kind, ListOf, Name, Named, NamedList, Tag};
use std::alloc::Global;
use std::marker::Model;

/// Bytes of which each call reads a field from the front. Contracts see it as the bytes that are left; where a call
/// finds no field, what is left is not told.
#[derive(Drop)]
pub(crate) struct Reader<'b> {
    rest: &'b [u8],
}

impl<'b> Model for Reader<'b> {
    ghost use Rattle.std.specs.Prelude.{List, ℕ};

    ghost Value = { List ℕ };

    ghost view = { λ r. r.rest.now };
}

impl<'b> Reader<'b> {
    pub(crate) fn new(bytes: &'b [u8]) -> Reader<'b>
        ensures { result ≡ bytes.now }
    {
        Reader { rest: bytes }
    }

    /// Whether no bytes are left.
    pub(crate) fn is_at_end(&self) -> bool
        ensures { IsTrue result ↔ (self.now ≡ []) }
    {
        self.rest.is_empty()
    }

    #[tactic(auto, unfolding(crate::specs::InnerReading::byte_at))]
    pub(crate) fn byte(&mut self) -> Result<u8, Unread>
        ensures { Gives (λ x. (x, self.new)) result (byte_at self.old) }
    {
        match self.rest {
            [byte, rest @ ..] => {
                self.rest = rest;
                Ok(*byte)
            }
            [] => Err(Unread::Malformed),
        }
    }

    /// A moment or a size.
    #[tactic(auto, unfolding(crate::specs::InnerReading::number_at))]
    pub(crate) fn number(&mut self) -> Result<u64, Unread>
        ensures { Gives (λ x. (x, self.new)) result (number_at w64 self.old) }
    {
        match self.rest.split_first_chunk() {
            Some((front, rest)) => {
                self.rest = rest;
                Ok(u64::from_be_bytes(*front))
            }
            None => Err(Unread::Malformed),
        }
    }

    // How many items follow.
    #[tactic(auto, unfolding(crate::specs::InnerReading::number_at))]
    fn count(&mut self) -> Result<u16, Unread>
        ensures { Gives (λ x. (x, self.new)) result (number_at w16 self.old) }
    {
        match self.rest.split_first_chunk() {
            Some((front, rest)) => {
                self.rest = rest;
                Ok(u16::from_be_bytes(*front))
            }
            None => Err(Unread::Malformed),
        }
    }

    // So many bytes.
    #[tactic(auto, unfolding(crate::specs::InnerReading::bytes_at))]
    fn bytes(&mut self, count: usize) -> Result<&'b [u8], Unread>
        ensures { Gives (λ x. (x.now, self.new)) result (bytes_at count self.old) }
    {
        if self.rest.len() < count {
            return Err(Unread::Malformed);
        }
        let (front, rest) = self.rest.split_at(count);
        self.rest = rest;
        Ok(front)
    }

    // A byte for a length, and that many bytes.
    #[tactic(auto, unfolding(crate::specs::InnerReading::text_at))]
    fn text(&mut self) -> Result<&'b [u8], Unread>
        ensures { Gives (λ x. (x.now, self.new)) result (text_at self.old) }
    {
        let count = self.byte()?;
        self.bytes(count as usize)
    }

    #[tactic(auto, unfolding(crate::specs::InnerReading::name_at))]
    pub(crate) fn name(&mut self, alloc: Global) -> Result<Name, Unread>
        ensures { Gives (λ x. (x, self.new)) result (name_at self.old) }
    {
        let text = self.text()?;
        match Name::read_bytes(alloc, text)? {
            Some(name) => Ok(name),
            None => Err(Unread::Malformed),
        }
    }

    #[tactic(auto, unfolding(crate::specs::InnerReading::tag_at))]
    pub(crate) fn tag(&mut self, alloc: Global) -> Result<Tag, Unread>
        ensures { Gives (λ x. (x, self.new)) result (tag_at self.old) }
    {
        let text = self.text()?;
        match Tag::read_bytes(alloc, text)? {
            Some(tag) => Ok(tag),
            None => Err(Unread::Malformed),
        }
    }

    #[tactic(auto, unfolding(crate::specs::InnerReading::digest_at, crate::specs::InnerReading::bytes_at))]
    pub(crate) fn digest(&mut self) -> Result<Digest, Unread>
        ensures { Gives (λ x. (x, self.new)) result (digest_at self.old) }
    {
        let algorithm = self.byte()?;
        match self.rest.split_first_chunk() {
            Some((raw, rest)) if algorithm == 1 => {
                self.rest = rest;
                Ok(Digest::from_sha256(*raw))
            }
            _ => Err(Unread::Malformed),
        }
    }

    #[tactic(auto, unfolding(crate::specs::InnerReading::kind_at))]
    fn kind(&mut self) -> Result<Kind, Unread>
        ensures { Gives (λ x. (x, self.new)) result (kind_at self.old) }
    {
        match self.byte()? {
            1 => Ok(Kind::OciImage),
            2 => Ok(Kind::OciIndex),
            3 => Ok(Kind::DockerImage),
            4 => Ok(Kind::DockerList),
            _ => Err(Unread::Malformed),
        }
    }

    // Whether a digest is free.
    #[tactic(auto, unfolding(crate::specs::InnerReading::free_at))]
    fn free(&mut self) -> Result<bool, Unread>
        ensures { Gives (λ x. (x, self.new)) result (free_at self.old) }
    {
        match self.byte()? {
            0 => Ok(false),
            1 => Ok(true),
            _ => Err(Unread::Malformed),
        }
    }

    #[tactic(auto, unfolding(crate::specs::InnerReading::named_at))]
    fn named(&mut self) -> Result<Named, Unread>
        ensures { Gives (λ x. (x, self.new)) result (named_at self.old) }
    {
        let digest = self.digest()?;
        let free = self.free()?;
        Ok(Named { digest, free })
    }

    fn named_items(&mut self, alloc: Global, count: u16) -> Result<Vec<Named>, Unread>
        ensures { Gives (λ x. (x.items, self.new)) result (items_at named_at count self.old) }
    {
        let mut items = Vec::new(alloc);
        for _ in 0..count {
            let item = self.named()?;
            items.push(item)?;
        }
        Ok(items)
    }

    fn digest_items(&mut self, alloc: Global, count: u16) -> Result<Vec<Digest>, Unread>
        ensures { Gives (λ x. (x.items, self.new)) result (items_at digest_at count self.old) }
    {
        let mut items = Vec::new(alloc);
        for _ in 0..count {
            let item = self.digest()?;
            items.push(item)?;
        }
        Ok(items)
    }

    #[tactic(auto, unfolding(crate::specs::InnerReading::list_at))]
    fn named_list(&mut self, alloc: Global) -> Result<NamedList, Unread>
        ensures { Gives (λ x. (x, self.new)) result (list_at named_at self.old) }
    {
        let count = self.count()?;
        let items = self.named_items(alloc, count)?;
        Ok(ListOf::from_vec(items))
    }

    #[tactic(auto, unfolding(crate::specs::InnerReading::list_at))]
    fn digest_list(&mut self, alloc: Global) -> Result<DigestList, Unread>
        ensures { Gives (λ x. (x, self.new)) result (list_at digest_at self.old) }
    {
        let count = self.count()?;
        let items = self.digest_items(alloc, count)?;
        Ok(ListOf::from_vec(items))
    }

    /// What is kept of a manifest.
    #[tactic(auto, unfolding(crate::specs::InnerReading::document_at))]
    pub(crate) fn document(&mut self, alloc: Global) -> Result<Document, Unread>
        ensures { Gives (λ x. (x, self.new)) result (document_at self.old) }
    {
        let kind = self.kind()?;
        let size = self.number()?;
        let named = self.named_list(alloc)?;
        let children = self.digest_list(alloc)?;
        match Document::new(kind, size, named, children) {
            Some(doc) => Ok(doc),
            None => Err(Unread::Malformed),
        }
    }
}
