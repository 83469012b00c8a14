//! Each device in memory. Calls of a device are counted from 0, and those whose numbers it was given fail.

mod blob;
mod calls;
mod clock;
mod content;
mod depot;
mod ids;
mod sink;
mod slots;
mod source;
mod stage;

pub use blob::MemBlob;
pub use calls::Calls;
pub use clock::FixedClock;
pub use depot::MemDepot;
pub use ids::ListedIds;
pub use sink::MemSink;
pub use source::MemSource;
pub use stage::MemStage;
