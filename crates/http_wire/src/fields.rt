//! Fields by their names.
ghost use Rattle.std.specs.Prelude.{◌≡◌, ◌∷◌, ◌<◌, ◌≤◌, ℕ, List, length, map, slice_index_or, IfSome, MatchOption, MatchResult, []};
ghost use Rattle.std.specs.List.{position};
ghost use Rattle.http_wire.specs.Fields.{field_parts};
ghost use Rattle.http_wire.specs.Framing as framing;
ghost use Rattle.http_wire.specs.InnerFields.{HasMany};

use crate::Field;
use crate::stop::Stop;

/// Whether two texts are the same without regard to ASCII case.
pub(crate) fn is_same(one: &[u8], other: &[u8]) -> bool
    ensures { result ≡ framing.is_same one.now other.now }
{
    one.eq_ignore_ascii_case(other)
}

/// The value of the only field of that name, where one stands; two are malformed.
pub(crate) fn only<'h>(fields: &'h [Field], name: &[u8]) -> Result<Option<&'h [u8]>, Stop>
    ensures { MatchResult result
        (λ found. MatchOption found (framing.values_of name.now (map field_parts fields.now) ≡ [])
        (λ v. framing.values_of name.now (map field_parts fields.now) ≡ v.now ∷ []))
        (λ _. HasMany (framing.values_of name.now (map field_parts fields.now))) }
{
    match place_of(fields, name) {
        None => Ok(None),
        Some(at) => match place_of(&fields[at + 1..], name) {
            None => Ok(Some(fields[at].value.as_slice())),
            Some(_) => Err(Stop::Malformed),
        },
    }
}

/// The value of the first field of that name.
pub(crate) fn first<'h>(fields: &'h [Field], name: &[u8]) -> Option<&'h [u8]>
    ensures { MatchOption result (framing.values_of name.now (map field_parts fields.now) ≡ [])
        (λ v. (rest : List (List ℕ))
        × (framing.values_of name.now (map field_parts fields.now) ≡ v.now ∷ rest)) }
{
    match place_of(fields, name) {
        Some(at) => Some(fields[at].value.as_slice()),
        None => None,
    }
}

fn place_of(fields: &[Field], name: &[u8]) -> Option<usize>
    ensures place { result ≡ position (λ f. framing.is_same f.name name.now) fields.now }
    ensures within { IfSome result (λ at. at < length fields.now) }
{
    fields
        .iter()
        .position(|field| is_same(field.name.as_bytes(), name))
}
