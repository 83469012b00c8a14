//! What keeps the rows of the tables: a map from keys to rows, read key by key and changed by commits.
//! Contracts see a key as its table's number and then its bytes, and rows as a function from keys. A commit makes all
//! of its changes or none, and a fault is told only where the keeper's count of faults rose. `fits` tells whether a row
//! is one of the tables', field by field; `MemKeeper` keeps rows in memory. For all that read and write tables.
//! The tables are this registry's own; what they speak of is that of the OCI Distribution Specification 1.1.
#![tactic(auto)]

mod change;
mod cursor;
mod entry;
mod field;
mod keeper;
pub mod memory;
mod row;
mod tables;

pub use change::Change;
pub use keeper::Keeper;
pub use reg_names::{Bytes, NoMemory, Refused};
pub use row::{Key, Row};
pub use tables::fits;
