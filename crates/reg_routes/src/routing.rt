//! Routes of requests.
ghost use Rattle.std.specs.Prelude.{◌≡◌, Err, IfOk, option_copied};
ghost use Rattle.form_urlencoded.specs.Form.{raw_pairs};
ghost use Rattle.http_wire.specs.Fields.{fields_of};
ghost use Rattle.reg_routes.specs.Routing as spec;
ghost use Rattle.reg_routes.specs.Targets.{shown};

use crate::asking::named_ask;
use crate::colons::decoded;
use crate::method::method_in;
use crate::target::{Spot, parts_of, path_in, spot_of};
use http_wire::{Head, content_type, range_start};
use reg_entries::numbers::ROUTE_UNKNOWN;
use reg_entries::{Ask, Detail, No, Reply, Route};
use reg_names::NoMemory;
use std::alloc::Global;

/// Why a request has no ask.
#[derive(Debug, Drop)]
pub enum Unrouted {
    Refused(Reply),
    NoMemory,
}

/// The ask of a request (OCI Distribution Specification 1.1, "Endpoints"), by its method and its
/// target; of a pushed manifest with its Content-Type, of an upload with the start of its range.
///
/// Errors: the first of these refusals that applies: no route, no method of the route, no name, no
/// digest. Or memory was wanting.
pub fn route(alloc: Global, head: &Head) -> Result<Ask, Unrouted>
    ensures { spec.IsRouted
        (spec.ask_of head.now.method head.now.target (fields_of head.now)) result }
{
    let typed = content_type(head);
    match asked(
        alloc,
        head.method.as_str(),
        head.target.as_bytes(),
        typed,
        range_start(head),
    ) {
        Ok(Ok(ask)) => Ok(ask),
        Ok(Err(reply)) => Err(Unrouted::Refused(reply)),
        Err(NoMemory) => Err(Unrouted::NoMemory),
    }
}

fn asked(
    alloc: Global,
    method: &str,
    target: &[u8],
    typed: Option<&str>,
    start: Option<u64>,
) -> Result<Result<Ask, Reply>, NoMemory>
    ensures { IfOk result
        (λ a. a ≡ spec.asked method.now target.now (option_copied typed.entry) start) }
{
    let (path, query) = parts_of(target);
    let path = decoded(alloc, path_in(path))?;
    match spot_of(&path) {
        Some(spot) => allowed_ask(alloc, spot, method, query, typed, start),
        None => Ok(Err(refusal(ROUTE_UNKNOWN))),
    }
}

// The ask of a route that has that method.
fn allowed_ask(
    alloc: Global,
    spot: Spot<'_>,
    method: &str,
    query: &[u8],
    typed: Option<&str>,
    start: Option<u64>,
) -> Result<Result<Ask, Reply>, NoMemory>
    ensures { IfOk result (λ a.
        a ≡ spec.placed_ask method.now (shown spot.entry) (raw_pairs query.now)
        (option_copied typed.entry) start) }
{
    let Some(method) = method_in(spot.route.methods(), method) else {
        return Ok(Err(Reply::NotAllowed { route: spot.route }));
    };
    match spot.route {
        Route::Base => Ok(Ok(Ask::Base)),
        _ => named_ask(alloc, spot, method, query, typed, start),
    }
}

/// A refusal that tells nothing more.
pub(crate) fn refusal(number: u8) -> Reply
    ensures { spec.refuse number ≡ Err result }
{
    Reply::Refused(No {
        number,
        detail: Detail::Nothing,
    })
}
