//! The devices of a registry: files under paths, sources and sinks of bytes, a clock, and ids that are drawn.
//! Each is a trait whose clauses say what a call does to what the device holds, and that a fault is told only where
//! the device's count of faults rose. `memory` has each device in memory, with calls that fail where they are told to.
//! Whoever reaches the outside world goes through these traits, and is proved over every device that meets them.
//! The trees of files are those of the Distribution registry's storage layout.
#![tactic(auto)]

mod blob;
mod changes;
mod clock;
mod depot;
mod ids;
mod limits;
pub mod memory;
mod path;
mod stage;
mod stream;

pub use blob::{Blob, BlobFault};
pub use changes::{lent_paths_stay_absent, other_paths_stay};
pub use clock::Clock;
pub use depot::{Depot, Small, Unplaced, pages_agree};
pub use ids::Ids;
pub use limits::{FILE_LIMIT, GIVEN_LIMIT, MOMENT_LIMIT, PART_LIMIT, PATH_LIMIT};
pub use path::{Part, Path};
pub use reg_names::{Bytes, NoMemory, Refused, Text};
pub use stage::Stage;
pub use stream::{Sink, SinkFault, Source, SourceFault};
