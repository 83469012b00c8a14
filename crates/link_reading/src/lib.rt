//! What link files mean: the manifests, links and tags that the repositories of a depot have.
//! Each call answers exactly by the definitions of `specs/Meaning.antt`, which speak of plain files alone. Over a depot
//! that does not tell its content, a manifest that is answered is verified all the same: its bytes hash to its digest, and
//! its document is theirs. Each call fails with `Refused::Failed` only where the depot's count of faults rose, and else
//! with `Refused::NoMemory`; it changes no file, and may be made again.
//! Whoever serves a registry from a directory, or moves its metadata elsewhere, asks here.
//! The layout is that of the Distribution registry; manifests are those of the OCI Image Specification 1.1.
#![tactic(auto)]

mod blobs;
mod laws;
mod links;
mod links_below;
mod listing;
mod manifests;
mod parents;
mod pointing;
mod repositories;
mod walk;

pub use blobs::has_layer;
pub use laws::{
    broken_links_mean_nothing, dangling_links_mean_nothing, dangling_manifests_mean_nothing,
    data_files_speak_of_their_digest, files_without_links_mean_nothing, links_hold_texts,
    manifests_have_the_size_of_their_data, other_files_change_nothing, tags_point_to_manifests,
};
pub use listing::tags;
pub use manifest_doc::MANIFEST_LIMIT;
pub use manifests::{StoredManifest, manifest, manifest_by_tag, resolve};
pub use parents::listed_by;
pub use pointing::tags_to;
pub use repositories::known;
