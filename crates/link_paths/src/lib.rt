//! Places: where a registry's files lie below the root of its storage, each with the path that is its
//! alone. Whoever reads or writes the files of a registry takes their paths from here.
//! A path is read back to its place, and one that is no place's is told as such.
//! The layout is that of the Distribution registry's storage, `docker/registry/v2`; names, tags and
//! digests are those of the OCI Distribution Specification 1.1.
#![tactic(auto)]

mod below;
mod laws;
mod paths;
mod place;
mod reading;

pub use below::{layer_below, revision_below, tag_below};
pub use laws::{
    folders_are_apart, places_are_apart, places_are_in_order, places_are_paths,
    places_begin_with_folders, places_by_parts, places_read_back,
};
pub use paths::{
    data_path, layer_path, layers_folder, path_of, revision_path, revisions_folder, tag_index_path,
    tag_path, tags_folder, upload_data_path, upload_started_path,
};
pub use place::Place;
pub use reading::read_path;
