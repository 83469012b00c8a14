//! The slow registry: what a journal leaves, in ordered maps, with walks where a condition speaks of all that is there.
//! `apply` takes one entry after the other, and refuses one exactly where it may not follow; `answer` answers pulls. Their
//! contracts are the journal's own definitions and those of the registry that one thread runs, so it is what other ways of
//! keeping a registry are compared with. No request is served from it.
//! Manifests, links and tags are those of the OCI Distribution Specification 1.1.
#![tactic(auto)]

mod answer;
mod apply;
mod changes;
mod docs;
mod facts;
mod laws;
mod legal;
mod state;
mod touches;

pub use answer::Plain;
pub use apply::Unapplied;
pub use laws::answers_tell_replies;
pub use state::State;
