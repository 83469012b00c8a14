//! Manifest documents: which bytes are one, of which kind, and which are the manifest that is stored under a digest.
//! A document is judged by its JSON value, member by member, and the first test that fails names the fault.
//! Everything that stores, checks or walks a manifest stands on this crate.
//! The rules are those of the OCI Image Specification 1.1, "Image Manifest Specification" and "Image Index
//! Specification", and of Docker's manifest schema 2; JSON is RFC 8259.
#![tactic(auto)]

mod content_type;
mod descriptors;
mod document;
mod fault;
mod kinds;
mod laws;
mod lists;
mod pushed;
mod stored;

pub use document::{Doc, read_doc};
pub use fault::DocFault;
pub use laws::{
    bytes_are_one_document, bytes_that_pass_are_a_document, children_are_listed,
    documents_are_computed, documents_pass_the_tests, stored_manifests_are_computed,
    what_is_free_has_urls, what_is_named_is_held,
};
pub use pushed::{Judged, Pushed};
pub use reg_names::{DigestList, Kind, Named, NamedList};
pub use stored::{MANIFEST_LIMIT, read_stored};
