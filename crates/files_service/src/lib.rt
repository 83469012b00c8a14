//! Answers from link files, and changes of them: what a registry is asked while they serve.
//! Each call promises the session and the world above it that its answer is the one-thread registry's in what the files
//! mean, and over a depot that tells nothing that it fits the ask: a manifest has the digest that it is answered with.
//! A pull changes no file, and a push or delete just the files of its outcome, in their order, or some of the first
//! where it fails; it fails only where the depot did, or found no memory.
//! Asks and replies are those of the OCI Distribution Specification 1.1, "Endpoints".
#![tactic(auto)]

mod blobs;
mod change;
mod dropping;
mod finishing;
mod lacks;
mod manifests;
mod missing;
mod pushing;
mod refusal;
mod starting;
mod tags;
mod trouble;

pub use blobs::pull_blob;
pub use change::FileChange;
pub use dropping::{drop_blob, drop_reference};
pub use finishing::finish;
pub use manifests::pull_manifest;
pub use pushing::put_manifest;
pub use starting::start_upload;
pub use tags::list_tags;
