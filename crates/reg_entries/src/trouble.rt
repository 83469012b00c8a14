//! What may go wrong in a registry.

/// Why a call gave no answer.
#[derive(Clone, Copy, Debug, PartialEq, Eq)]
pub enum Trouble {
    /// The depot failed: its count of faults rose.
    Depot,
    /// The keeper of the tables failed: its count of faults rose.
    Keeper,
    /// A number of the journal or of a claim would pass its limit.
    Full,
    NoMemory,
}
