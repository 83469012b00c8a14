//! One connection: HTTP bytes in, HTTP bytes out.
//! `serve_alone` answers each request of a connection from a world, and promises whoever runs a registry that what was
//! written is the replies to the messages of what was given, each the one-thread registry's at the world of its hold, and
//! why the session ended (`specs/Sessions.antt`). `serve` is the same of a world that is entered for each hold.
//! Requests are those of RFC 9110 and RFC 9112, asks and replies those of the OCI Distribution Specification 1.1.
#![tactic(auto)]

mod bodies;
mod completing;
mod deciding;
mod ended;
mod exchange;
mod gathering;
mod holder;
mod holds;
mod laws;
mod manifests;
mod refusing;
mod replies;
mod sending;
mod session;
mod upload_holds;
mod uploads;

pub use ended::Ended;
pub use holder::{Holder, Lent, Nothing};
pub use laws::{an_input_has_one_text, served_are_messages};
pub use sending::{Sent, send_body};
pub use session::{serve, serve_alone};

/// What a request that waits for it is told before its body is read (RFC 9110, section 15.2.1).
pub(crate) const CONTINUE: &str = "HTTP/1.1 100 Continue\r\n\r\n";
