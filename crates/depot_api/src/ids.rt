//! Words of which ids are made.
ghost use Rattle.depot_api.specs.Ids.{Words, Draws};

/// What draws words of sixteen bytes.
pub trait Ids {
    /// The words to come, where they are told.
    ghost words: { Self → Words };

    /// The next word, of sixteen bytes. Takes no memory, and cannot fail.
    fn draw(&mut self) -> [u8; 16]
        ensures { Draws (words self.old) result (words self.new) };
}
