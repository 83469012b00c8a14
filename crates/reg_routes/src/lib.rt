//! Which ask of a registry a request is (OCI Distribution Specification 1.1, "Endpoints").
//! `route` reads the target of a request's head, its path by the table of routes, and its query. It
//! gives the ask, or the refusal that comes first: no route, no method of the route, no name, no
//! digest. The methods are those of `reg_entries`, by which replies say what is allowed. In specs,
//! `Targets.antt` cuts a target into its parts, and `Routing.antt` says what is asked for.
#![tactic(auto)]

mod asking;
mod colons;
mod count;
mod laws;
mod method;
mod query;
mod routing;
mod target;

pub use count::COUNT_DIGITS;
pub use http_wire::Head;
pub use laws::paths_lead_to_routes;
pub use reg_entries::{Ask, Reply};
pub use routing::{Unrouted, route};
