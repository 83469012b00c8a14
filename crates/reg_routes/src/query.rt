//! Queries of targets.
ghost use Rattle.std.specs.Prelude.{◌≡◌, IfOk};
ghost use Rattle.form_urlencoded.specs.Form.{raw_pairs};
ghost use Rattle.reg_routes.specs.Queries.{value_in};

use reg_names::{NoMemory, Text};
use std::alloc::Global;

/// The value of the first pair with that key (URL Standard, "application/x-www-form-urlencoded
/// parsing").
pub(crate) fn value_of(alloc: Global, query: &[u8], key: &str) -> Result<Option<Text>, NoMemory>
    ensures { IfOk result (λ found. found ≡ value_in key.now (raw_pairs query.now)) }
{
    for pair in form_urlencoded::parse(alloc, query) {
        let (name, value) = pair?;
        if name.as_str() == key {
            return Ok(Some(Text::from_str(alloc, value.as_str())?));
        }
    }
    Ok(None)
}
