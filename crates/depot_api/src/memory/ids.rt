//! Words from a list.
ghost use Rattle.std.specs.Prelude.{◌≡◌, ◌-◌, ◌≤◌, vec_len};
ghost use Rattle.depot_api.specs.Memory.{listed};

use crate::Ids;

/// Draws the words of a list in order, then the last one again, and sixteen zero bytes where it has none.
#[derive(Debug, Drop)]
pub struct ListedIds {
    words: Vec<[u8; 16]>,
    at: usize,
    ghost within: { at ≤ vec_len words - 1 },
}

impl ListedIds {
    ghost use Rattle.depot_api.specs.ListedIds.{words_of};

    /// Draws these words, from the first on.
    pub fn new(words: Vec<[u8; 16]>) -> ListedIds
        ensures { words_of result ≡ listed words.items }
    {
        ListedIds { words, at: 0 }
    }
}

impl Ids for ListedIds {
    ghost use Rattle.std.specs.Prelude.{Some};
    ghost use Rattle.depot_api.specs.ListedIds.{words_of};

    ghost words = { λ ids. Some (words_of ids) };

    fn draw(&mut self) -> [u8; 16] {
        let Some(word) = self.words.get(self.at).copied() else {
            return [0; 16];
        };
        if self.at + 1 < self.words.len() {
            self.at += 1;
        }
        word
    }
}
