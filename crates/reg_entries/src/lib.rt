//! What a registry remembers: the manifests, links and tags of its repositories. And what is asked of it and answered.
//! A state is told by functions from names, tags and digests, in `specs/State.antt`; `Document` is what it keeps of a
//! manifest. Two ways to keep a registry are compared by their states. `Ask` and `Reply` are what a request asks and is
//! answered, `numbers` has the refusals, and `Route` the methods of each route.
//! Manifests, tags, blobs and endpoints are those of the OCI Distribution Specification 1.1.
#![tactic(auto)]

mod ask;
mod document;
mod laws;
pub mod numbers;
mod reply;
mod route;
mod trouble;

pub use ask::Ask;
pub use document::{Document, LIST_LIMIT};
pub use laws::{listings_agree, tags_that_follow_are_all};
pub use reg_names::{DigestList, Kind, Named, NamedList, Tags};
pub use reply::{Detail, No, Reply};
pub use route::{Method, Route};
pub use trouble::Trouble;
