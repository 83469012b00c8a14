//! Sessions of uploads: where one ends, who has it, and the bytes that are sealed once they were hashed.
//! A request that takes a session promises the world above that nobody else has it, and that its stage has the bytes
//! that were there; what was taken and is shelved changes nothing but the number of the next claim. Sealed bytes have
//! their digest and their length. Both services, that of link files and that of tables, answer by these calls.
//! Uploads are those of the OCI Distribution Specification 1.1, "Pushing blobs".
#![tactic(auto)]

mod closing;
mod finish;
mod laws;
mod meeting;
mod sealed;
mod state;
mod taking;
mod trouble;

pub use closing::{cancel_upload, close_session, release};
pub use finish::Finish;
pub use laws::{
    a_take_and_a_shelve_change_nothing, what_is_appended_is_sealed,
    what_is_lent_ends_where_the_upload_ends, what_is_met_is_what_is_there,
};
pub use sealed::{Sealed, Unsealed, place_sealed, seal};
pub use state::upload_state;
pub use taking::{Taken, shelve, take_upload};
pub use trouble::{depot_trouble, refusal};
