//! Clocks.
ghost use Rattle.std.specs.Prelude.{◌≡◌, ℕ, ◌≤◌, Option, IfSome};
ghost use Rattle.depot_api.specs.Limits.{moment_limit};

/// What tells the moment.
pub trait Clock {
    /// The one moment that it reads, where the clock tells that.
    ghost reading: { Self → Option ℕ };

    /// The moment in seconds since 1970, at most 2^62. Takes no memory, and cannot fail.
    fn now(&self) -> u64
        ensures moment { result ≤ moment_limit }
        ensures told { IfSome (reading self.now) (λ at. result ≡ at) };
}
