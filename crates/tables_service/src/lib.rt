//! Answers from the tables: what a registry is asked once they serve.
//! Each call promises the session and the world above it that its answer is the one-thread registry's in what the journal
//! left that the rows tell, and over a keeper that tells nothing that it fits the ask. A pull changes no row and no file,
//! and fails only where the keeper or the depot did, or found no memory. `specs/Telling.antt` has what tables tell.
//! Asks and replies are those of the OCI Distribution Specification 1.1, "Endpoints".
#![tactic(auto)]

mod blobs;
mod lacks;
mod lookups;
mod manifests;
mod tags;

pub use blobs::pull_blob;
pub use manifests::pull_manifest;
pub use tags::list_tags;
