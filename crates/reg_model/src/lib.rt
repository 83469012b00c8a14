//! The registry as one thread runs it: definitions, which all that serves asks is compared with.
//! `specs/Facts.antt` is what an answer depends on, `specs/Answers.antt` the answer to each ask, by cases, and
//! `specs/Uploads.antt` what a request meets of an upload.
//! The laws here promise to whoever rests on them that an ask has one answer, and that what is answered of manifests,
//! tags and links follows from the state alone.
//! Asks and replies are those of the OCI Distribution Specification 1.1, "Endpoints".
#![tactic(auto)]

mod laws;

pub use laws::{answers_are_one, outcomes_are_one, replies_follow_the_state};
