//! A real directory as a depot of files.
//! `FileDepot` meets the trait `Depot` without telling its files: no clause can say what a disk holds.
//! What is proved is which paths are lent, that a fault is answered only where the count of faults
//! rose, and that answers keep to the limits asked for. Paths lie below a root, and no symbolic link
//! below it is followed: to meet one is a fault.
#![tactic(auto)]

mod blob;
mod directory;
mod error;
mod loans;
mod root;
mod stage;
mod walk;

pub use blob::FileBlob;
pub use directory::FileDepot;
pub use stage::FileStage;
