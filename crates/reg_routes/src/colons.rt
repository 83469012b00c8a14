//! Colons that a path writes as escapes.
ghost use Rattle.std.specs.Prelude.{◌≡◌, IfOk, length, ◌≤◌, drop, IsTrue, ◌↔◌};
ghost use Rattle.reg_routes.specs.Colons.{with_colons, begins_colon};

use reg_names::NoMemory;
use std::alloc::Global;

/// The path with a colon for each `%3A` and `%3a` (RFC 3986, section 2.1). Nothing else is decoded.
pub(crate) fn decoded(alloc: Global, path: &[u8]) -> Result<Vec<u8>, NoMemory>
    ensures { IfOk result (λ bytes. bytes.items ≡ with_colons path.now) }
{
    let mut bytes = Vec::with_capacity(alloc, path.len())?;
    let mut at = 0;
    while at < path.len() {
        let rest = &path[at..];
        if is_colon(rest) {
            bytes.push(b':')?;
            at += 3;
        } else {
            bytes.push(path[at])?;
            at += 1;
        }
    }
    Ok(bytes)
}

fn is_colon(bytes: &[u8]) -> bool
    ensures { result ≡ begins_colon bytes.now }
{
    match bytes {
        [b'%', b'3', b'A' | b'a', ..] => true,
        _ => false,
    }
}
