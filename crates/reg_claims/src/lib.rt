//! Claims: who has a session of an upload for as long as it works on it.
//! A list of claims promises that no session has two of them, that numbers are drawn rising from 1 and never twice,
//! and that a claim which was refused changed nothing. Whoever made a claim ends it: no such value may be let go.
//! Whatever works on uploads stands on this crate, and on the words of `specs/Claims.antt` for the claims that stand.
//! Uploads are those of the OCI Distribution Specification 1.1, "Pushing blobs".
#![tactic(auto)]

mod claim;
mod claims;
mod laws;
mod refused;

pub use claim::Held;
pub use claims::{CLAIM_LIMIT, Claims};
pub use laws::{
    a_claim_that_ended_frees_its_session, ending_ends_one_claim, making_adds_one_claim,
    no_session_has_two_claims, what_is_made_and_ended_leaves_a_number,
};
pub use refused::NotClaimed;
