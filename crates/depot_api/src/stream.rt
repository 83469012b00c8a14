//! Sources and sinks of bytes.
ghost use Rattle.std.specs.Prelude.{◌≡◌, ℕ, List, Option, IsErr};
ghost use Rattle.std.specs.Io.KnownBytes.{ReadConsumes, WriteAppends};
ghost use Rattle.reg_names.specs.Cause.{HasCause};
ghost use Rattle.depot_api.specs.Streams.{GivesUpTo, TakesSome};

/// A source failed, and gave nothing.
#[derive(Clone, Copy, Debug, PartialEq, Eq)]
pub struct SourceFault;

/// A sink failed, and took nothing.
#[derive(Clone, Copy, Debug, PartialEq, Eq)]
pub struct SinkFault;

/// Where bytes come from.
pub trait Source {
    /// The bytes that are left, where the source tells them.
    ghost left: { Self → Option (List ℕ) };

    /// How many bytes it has given, as far as 2^62.
    ghost given: { Self → ℕ };

    /// How often it has failed. No call makes it fall.
    ghost faults: { Self → ℕ };

    /// Fills the front of `into` with the next bytes, and answers how many it gave, at most the length of `into`: 0
    /// only at the end of the input, or for an empty buffer. Takes no memory.
    ///
    /// Errors: `SourceFault` where the count of faults rose. Nothing was given.
    fn read(&mut self, into: &mut [u8]) -> Result<usize, SourceFault>
        ensures bytes { ReadConsumes (left self.old) (left self.new) result into.new }
        ensures count { GivesUpTo into.old (given self.old) (given self.new) result }
        ensures cause { HasCause (faults self.old) (faults self.new) (IsErr result) };
}

/// Where bytes go to.
pub trait Sink {
    /// The bytes that it has taken, where the sink tells them.
    ghost taken: { Self → Option (List ℕ) };

    /// How often it has failed. No call makes it fall.
    ghost faults: { Self → ℕ };

    /// Takes the front of `piece`, and answers how many bytes it took: at least one of a piece that is not empty, and
    /// at most all. Takes no memory.
    ///
    /// Errors: `SinkFault` where the count of faults rose. Nothing was taken.
    fn write(&mut self, piece: &[u8]) -> Result<usize, SinkFault>
        ensures bytes { WriteAppends (taken self.old) (taken self.new) result piece.now }
        ensures count { TakesSome piece.now result }
        ensures cause { HasCause (faults self.old) (faults self.new) (IsErr result) };
}
