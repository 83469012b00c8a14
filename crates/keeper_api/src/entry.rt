//! Entries of the journal that are tested where they lie, without memory.
ghost use Rattle.std.specs.Prelude.{◌≡◌, option_copied};
ghost use Rattle.keeper_api.specs.InnerFields.{Gives, Passes};
ghost use Rattle.keeper_api.specs.InnerEntries.{is_behind, item_at, list_passed, name_passed, tag_passed, spot_passed, tag_spot_passed, document_passed, what_passed, is_entry};

use crate::cursor::Cursor;
use crate::field::Field;
use reg_names::{Digest, Name, Tag};

/// Whether the bytes spell an entry.
#[tactic(auto, unfolding(crate::specs::InnerEntries::is_entry))]
pub(crate) fn is_entry(bytes: &[u8]) -> bool
    ensures { result ≡ is_entry bytes.now }
{
    let mut cursor = Cursor::new(bytes);
    let Some(number) = cursor.byte() else {
        return false;
    };
    cursor.number().is_some() && cursor.what(number) && cursor.is_at_end()
}

impl<'b> Cursor<'b> {
    // Passes over the fields of an entry of the kind with this number.
    #[tactic(auto, unfolding(crate::specs::InnerEntries::what_passed, crate::specs::InnerEntries::kinds))]
    fn what(&mut self, number: u8) -> bool
        ensures { Passes result self.new (what_passed number self.old) }
    {
        match number {
            1 | 8 => self.spot() && self.document(),
            2 | 10 => self.tag_spot() && self.skip(Field::Digest),
            3 => self.tag_spot(),
            4 | 7 | 11 | 12 | 15 | 16 => self.spot(),
            5 | 17 | 18 => self.skip(Field::Digest),
            6 | 9 => self.spot() && self.skip(Field::Number),
            13 => true,
            14 => self.skip(Field::Digest) && self.skip(Field::Number),
            _ => false,
        }
    }

    #[tactic(auto, unfolding(crate::specs::InnerEntries::name_passed))]
    fn name(&mut self) -> bool
        ensures { Passes result self.new (name_passed self.old) }
    {
        matches!(self.text(), Some(text) if Name::admits(text))
    }

    #[tactic(auto, unfolding(crate::specs::InnerEntries::tag_passed))]
    fn tag(&mut self) -> bool
        ensures { Passes result self.new (tag_passed self.old) }
    {
        matches!(self.text(), Some(text) if Tag::admits(text))
    }

    #[tactic(auto, unfolding(crate::specs::InnerEntries::spot_passed))]
    fn spot(&mut self) -> bool
        ensures { Passes result self.new (spot_passed self.old) }
    {
        self.name() && self.skip(Field::Digest)
    }

    #[tactic(auto, unfolding(crate::specs::InnerEntries::tag_spot_passed))]
    fn tag_spot(&mut self) -> bool
        ensures { Passes result self.new (tag_spot_passed self.old) }
    {
        self.name() && self.tag()
    }

    #[tactic(auto, unfolding(crate::specs::InnerEntries::document_passed))]
    fn document(&mut self) -> bool
        ensures { Passes result self.new (document_passed self.old) }
    {
        self.skip(Field::Kind)
            && self.skip(Field::Number)
            && self.digest_list(true)
            && self.digest_list(false)
    }

    // Two bytes for a count and that many digests, each above the one before it.
    #[tactic(auto, unfolding(crate::specs::InnerEntries::list_passed, crate::specs::InnerEntries::items_passed))]
    fn digest_list(&mut self, free: bool) -> bool
        ensures { Passes result self.new (list_passed free self.old) }
    {
        let Some(count) = self.quarter() else {
            return false;
        };
        let mut last = None;
        for _ in 0..count {
            let Some(digest) = self.item(free) else {
                return false;
            };
            if !is_behind(last.as_ref(), &digest) {
                return false;
            }
            last = Some(digest);
        }
        true
    }

    // A digest, and behind it whether it is free, where the list tells that.
    #[tactic(auto, unfolding(crate::specs::InnerEntries::item_at))]
    fn item(&mut self, free: bool) -> Option<Digest>
        ensures { Gives (λ x. (x, self.new)) result (item_at free self.old) }
    {
        let digest = self.digest()?;
        if free && !self.skip(Field::Free) {
            return None;
        }
        Some(digest)
    }
}

fn is_behind(last: Option<&Digest>, digest: &Digest) -> bool
    ensures { result ≡ is_behind (option_copied last.entry) digest.now }
{
    match last {
        Some(last) => last < digest,
        None => true,
    }
}
