//! Where the body of a request ends.
ghost use Rattle.std.specs.Prelude.{◌≡◌, ℕ, ◌<◌, ◌^◌, MatchOption, IsFalse, IsTrue};
ghost use Rattle.std.specs.Str.Parse.{digits_value};
ghost use Rattle.http_wire.specs.Fields.{fields_of};
ghost use Rattle.http_wire.specs.Framing as spec;

use crate::fields::{is_same, only};
use crate::{Framing, Head};

/// Where the body of a request ends, by its Content-Length (RFC 9110, section 8.6) and
/// Transfer-Encoding fields (RFC 9112, sections 6.1 to 6.3): one field of 1 to 18 decimal digits,
/// or in HTTP/1.1 one of `chunked`; with neither, a body of no bytes. It takes no memory.
pub fn framing(head: &Head) -> Framing
    ensures { result ≡ spec.framing_by head.now.minor (fields_of head.now) }
{
    let length = only(&head.fields, b"content-length");
    let coding = only(&head.fields, b"transfer-encoding");
    match (length, coding) {
        (Ok(None), Ok(None)) => Framing::Length(0),
        (Ok(Some(text)), Ok(None)) => length_framing(text),
        (Ok(None), Ok(Some(text))) => coding_framing(head.minor, text),
        _ => Framing::Bad,
    }
}

fn length_framing(text: &[u8]) -> Framing
    ensures { result ≡ spec.length_framing text.now }
{
    match number(text) {
        Some(length) => Framing::Length(length),
        None => Framing::Bad,
    }
}

fn coding_framing(minor: u8, text: &[u8]) -> Framing
    ensures { result ≡ spec.coding_framing minor text.now }
{
    if minor == 1 && is_same(text, b"chunked") {
        Framing::Chunked
    } else {
        Framing::Bad
    }
}

/// The number that 1 to 18 decimal digits write.
pub(crate) fn number(text: &[u8]) -> Option<u64>
    ensures { MatchOption result (IsFalse (spec.is_number text.now))
        (λ n. IsTrue (spec.is_number text.now) × (n ≡ digits_value 10 text.now)) }
{
    if text.is_empty() || text.len() > 18 {
        return None;
    }
    let mut value = 0;
    for digit in text {
        if !digit.is_ascii_digit() {
            return None;
        }
        value = value * 10 + (*digit - b'0') as u64;
    }
    Some(value)
}
