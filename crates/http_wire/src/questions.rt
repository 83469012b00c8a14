//! What a head asks for, beside its target.
ghost use Rattle.std.specs.Prelude.{◌≡◌, ◌∷◌, ◌<◌, ℕ, List, [], not, ◌==◌, ◌&&◌, codes, length, map, MatchOption, IfSome};
ghost use Rattle.std.specs.List.{list_all, list_any, position};
ghost use Rattle.httparse.specs.Grammar as grammar;
ghost use Rattle.http_wire.specs.Fields.{field_parts, fields_of};
ghost use Rattle.http_wire.specs.Framing.{values_of};
ghost use Rattle.http_wire.specs.Framing as framings;
ghost use Rattle.http_wire.specs.InnerFields as inner;
ghost use Rattle.http_wire.specs.Questions as spec;

use crate::fields::{first, is_same};
use crate::framed::{framing, number};
use crate::{Field, Framing, Head};

/// Whether the connection ends after this request: in HTTP/1.0, or by an element `close` of a
/// Connection field (RFC 9110, section 7.6.1; RFC 9112, section 9.6).
pub fn ends_connection(head: &Head) -> bool
    ensures { result ≡ spec.ends_connection head.now.minor (fields_of head.now) }
{
    head.minor == 0 || asks_to_close(&head.fields)
}

fn asks_to_close(fields: &[Field]) -> bool
    ensures { result ≡ list_any (λ f. inner.closes f.name f.value) fields.now }
{
    fields.iter().any(|field| closes(field))
}

fn closes(field: &Field) -> bool
    ensures { result ≡ inner.closes field.now.name field.now.value }
{
    is_same(field.name.as_bytes(), b"connection") && has_element(field.value.as_slice(), b"close")
}

// Whether an element between commas is `name`.
fn has_element(value: &[u8], name: &[u8]) -> bool
    ensures { result ≡ spec.has_element name.now value.now }
{
    let mut rest = value;
    while let Some(comma) = find_byte(rest, b',') {
        if is_element(&rest[..comma], name) {
            return true;
        }
        rest = &rest[comma + 1..];
    }
    is_element(rest, name)
}

fn find_byte(bytes: &[u8], byte: u8) -> Option<usize>
    ensures place { result ≡ position (λ b. b == byte) bytes.now }
    ensures within { IfSome result (λ at. at < length bytes.now) }
{
    bytes.iter().position(|b| *b == byte)
}

fn is_element(element: &[u8], name: &[u8]) -> bool
    ensures { result ≡ spec.is_name_then_ows name.now (grammar.skip_ows element.now) }
{
    is_name_then_ows(skip_ows(element), name)
}

// Whether the text is `name`, without regard to ASCII case, and then white space alone.
fn is_name_then_ows(text: &[u8], name: &[u8]) -> bool
    ensures { result ≡ spec.is_name_then_ows name.now text.now }
{
    name.len() <= text.len()
        && is_same(&text[..name.len()], name)
        && is_all_ows(&text[name.len()..])
}

fn is_all_ows(bytes: &[u8]) -> bool
    ensures { result ≡ list_all grammar.is_ows bytes.now }
{
    bytes.iter().all(|b| *b == b' ' || *b == b'\t')
}

fn skip_ows(bytes: &[u8]) -> &[u8]
    ensures { result.now ≡ grammar.skip_ows bytes.now }
{
    match first_text(bytes) {
        Some(at) => &bytes[at..],
        None => &bytes[bytes.len()..],
    }
}

fn first_text(bytes: &[u8]) -> Option<usize>
    ensures place { result ≡ position (λ b. not (grammar.is_ows b)) bytes.now }
    ensures within { IfSome result (λ at. at < length bytes.now) }
{
    bytes.iter().position(|b| !(*b == b' ' || *b == b'\t'))
}

/// Whether the request waits for `100 Continue` before it sends its body: in HTTP/1.1, where its
/// first Expect field is `100-continue` and its body is not of length 0 (RFC 9110, section 10.1.1).
pub fn expects_continue(head: &Head) -> bool
    ensures { result ≡ spec.expects_continue head.now.minor (fields_of head.now) }
{
    head.minor == 1 && is_first(&head.fields, b"expect", b"100-continue") && has_body(framing(head))
}

fn is_first(fields: &[Field], name: &[u8], text: &[u8]) -> bool
    ensures { result ≡ spec.is_first text.now (values_of name.now (map field_parts fields.now)) }
{
    match first(fields, name) {
        Some(value) => is_same(value, text),
        None => false,
    }
}

fn has_body(framing: Framing) -> bool
    ensures { result ≡ spec.has_body framing }
{
    match framing {
        Framing::Length(length) => length != 0,
        Framing::Chunked => true,
        Framing::Bad => true,
    }
}

/// The first Content-Type (RFC 9110, section 8.3), where there is one. One that is no UTF-8 counts
/// as empty text.
pub fn content_type(head: &Head) -> Option<&str>
    ensures { MatchOption result (values_of (codes "content-type") (fields_of head.now) ≡ [])
        (λ t. (v : List ℕ) × (rest : List (List ℕ))
        × (values_of (codes "content-type") (fields_of head.now) ≡ v ∷ rest)
        × spec.IsTextOf v t.now) }
{
    match first(&head.fields, b"content-type") {
        Some(value) => Some(text_of(value)),
        None => None,
    }
}

fn text_of(value: &[u8]) -> &str
    ensures { spec.IsTextOf value.now result.now }
{
    match str::from_utf8(value) {
        Ok(text) => text,
        Err(_) => "",
    }
}

/// The start of the first Content-Range, where that has the form `<start>-<end>`, each 1 to 18
/// decimal digits. The end is not compared (OCI Distribution Specification 1.1, "Pushing a blob in
/// chunks").
pub fn range_start(head: &Head) -> Option<u64>
    ensures { result ≡ spec.start_of (values_of (codes "content-range") (fields_of head.now)) }
{
    match first(&head.fields, b"content-range") {
        Some(value) => start_of(value),
        None => None,
    }
}

fn start_of(value: &[u8]) -> Option<u64>
    ensures { result ≡ spec.start_at value.now (position (λ b. b == 45) value.now) }
{
    match find_byte(value, b'-') {
        Some(dash) => match (number(&value[..dash]), number(&value[dash + 1..])) {
            (Some(start), Some(_)) => Some(start),
            _ => None,
        },
        None => None,
    }
}
