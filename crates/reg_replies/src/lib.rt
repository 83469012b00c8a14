//! The one spelling of each reply (RFC 9112; OCI Distribution Specification 1.1, "Endpoints").
//! `wire` gives the bytes of a reply: its status line, its fields in one order, and its body, which
//! a reply to HEAD leaves out. A JSON body is the compact text of a JSON value. `write_no_memory`
//! writes the reply for want of memory, and takes none. Sessions reply so; each byte is a clause's:
//! `specs/Replies.antt` has the whole text field by field, `specs/Refusals.antt` the refusals.
#![tactic(auto)]

mod bodies;
mod fields;
mod refusals;
mod status;
mod wiring;
mod writing;

pub use reg_entries::{Detail, No, Reply, Route};
pub use status::Status;
pub use wiring::wire;
pub use writing::{no_memory, write_all, write_no_memory};
