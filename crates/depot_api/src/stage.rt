//! Bytes that are gathered before they become a file.
ghost use Rattle.std.specs.Prelude.{◌≡◌, ℕ, ◌+◌, ◌≤◌, length};
ghost use Rattle.reg_names.specs.Cause.{HasCause, OnlyReads};
ghost use Rattle.reg_names.specs.Refusals.{HasFailed};
ghost use Rattle.depot_api.specs.Limits.{file_limit};
ghost use Rattle.depot_api.specs.Stages.{Staged, CountsStaged, Grew, Appended, ReadsUpTo, ReadsFrom};

use reg_names::Refused;

/// The bytes of an upload so far, which grow at their end and are read from any place.
pub trait Stage {
    /// The path that it was lent from, whether it tells its bytes, how many are staged, and which.
    ghost held: { Self → Staged };

    /// How often it has failed. No call makes it fall.
    ghost faults: { Self → ℕ };

    /// How many bytes are staged, at most 2^62. Takes no memory.
    fn length(&self) -> u64
        ensures length { result ≡ (held self.now).count }
        ensures most { (held self.now).count ≤ file_limit }
        ensures bytes { CountsStaged (held self.now) };

    /// Puts all bytes of a piece behind the staged ones. They must be at most 2^62 afterwards.
    ///
    /// Errors: `Failed` where the count of faults rose, and a front of the piece was put there, or all or none of it;
    /// `NoMemory`, where nothing was.
    fn append(&mut self, piece: &[u8]) -> Result<(), Refused>
        requires { (held self.old).count + length piece.now ≤ file_limit }
        ensures count { Grew piece.now (held self.old) (held self.new) result }
        ensures bytes { Appended piece.now (held self.old) (held self.new) result }
        ensures path { (held self.new).path ≡ (held self.old).path }
        ensures tells { (held self.new).tells ≡ (held self.old).tells }
        ensures cause { HasCause (faults self.old) (faults self.new) (HasFailed result) };

    /// Fills the front of `into` with the bytes from number `at` on, counted from 0, leaves the rest of it, and answers
    /// how many it gave: between 1 and the length of `into`, and 0 only where none are staged there, or for an empty
    /// buffer. What is staged stays.
    ///
    /// Errors: `Failed` where the count of faults rose, and `NoMemory`. What `into` holds is then unknown.
    fn read_at(&mut self, at: u64, into: &mut [u8]) -> Result<usize, Refused>
        ensures count { ReadsUpTo (length into.old) at (held self.old).count result }
        ensures filled { ReadsFrom at (held self.old) into.old into.new result }
        ensures reads { OnlyReads held faults self.old self.new (HasFailed result) };
}
