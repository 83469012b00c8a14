//! One run of the registry: arguments and devices in, replies and a status out.
//! `run_plain` promises, over every depot, source and sink, which arguments are taken, that `once` is a session of the
//! world that these devices make (`specs/Runs.antt`), which status tells how it ended, and that the devices come back.
//! The program `registry` hands over real ones.
//! Requests and replies are HTTP/1.1 (RFC 9112), as in the OCI Distribution Specification 1.1.
#![tactic(auto)]

mod arguments;
mod run;
mod status;

pub use arguments::{USAGE, root};
pub use run::{Ran, run_plain};
pub use status::Status;
