//! Files that are read in pieces.
ghost use Rattle.std.specs.Prelude.{◌≡◌, ℕ, ◌≤◌, length, IsErr};
ghost use Rattle.reg_names.specs.Cause.{HasCause};
ghost use Rattle.depot_api.specs.Limits.{file_limit};
ghost use Rattle.depot_api.specs.Blobs.{Rest, CountsRest, ReadsSome, ReadsNext};

/// A read of a blob failed, and gave nothing.
#[derive(Clone, Copy, Debug, PartialEq, Eq)]
pub struct BlobFault;

/// A file that a depot has lent, which is read from its front to its end.
pub trait Blob {
    /// What is left to read: whether the blob tells its bytes, how many there are, and which.
    ghost rest: { Self → Rest };

    /// How often it has failed. No read makes it fall.
    ghost faults: { Self → ℕ };

    /// How many bytes are left to read, at most 2^62.
    fn left(&self) -> u64
        ensures left { result ≡ (rest self.now).count }
        ensures most { (rest self.now).count ≤ file_limit }
        ensures bytes { CountsRest (rest self.now) };

    /// Fills the front of `into` with the next bytes, leaves the rest of it, and answers how many bytes it gave:
    /// between 1 and the length of `into`, and 0 only where none is left, or for an empty buffer. Takes no memory.
    ///
    /// Errors: `BlobFault` where a read failed, or the file ended before its bytes were all given. The count of faults
    /// rose, and the same bytes are left.
    fn read(&mut self, into: &mut [u8]) -> Result<usize, BlobFault>
        ensures count { ReadsSome (length into.old) (rest self.old) (rest self.new) result }
        ensures bytes { ReadsNext into.old into.new (rest self.old) (rest self.new) result }
        ensures tells { (rest self.new).tells ≡ (rest self.old).tells }
        ensures cause { HasCause (faults self.old) (faults self.new) (IsErr result) };
}
