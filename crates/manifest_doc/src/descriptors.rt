//! Descriptors.
ghost use Rattle.std.specs.Prelude.{◌≡◌, true, map, IfOk, IfErr};
ghost use Rattle.std.specs.List.{list_all};
ghost use Rattle.serde_json.specs.View.{view};
ghost use Rattle.manifest_doc.specs.Faults.{IsDue};
ghost use Rattle.manifest_doc.specs.InnerReading.{bad_unless};
ghost use Rattle.manifest_doc.specs.Descriptors.{elements, elements_of, are_strings, has_fields, digest_in, described, is_descriptor, descriptors};

use crate::DocFault;
use reg_names::Digest;
use serde_json::Value;
use std::alloc::Global;

/// What a document's tests and lists need of a descriptor.
#[derive(Clone, Copy)]
pub(crate) struct Descriptor {
    pub(crate) digest: Digest,
    pub(crate) has_urls: bool,
}

impl Descriptor {
    /// The descriptor that a value is.
    pub(crate) fn read(value: &Value) -> Option<Descriptor>
        ensures { result ≡ described (view value.now) }
    {
        if !has_fields(value) {
            return None;
        }
        let digest = digest_in(value)?;
        let has_urls = !elements(value, "urls").is_empty();
        Some(Descriptor { digest, has_urls })
    }
}

/// The descriptors that all of some values are.
pub(crate) fn read_all(alloc: Global, values: &[Value]) -> Result<Vec<Descriptor>, DocFault>
    ensures all { IfOk result (λ _. list_all is_descriptor (map view values.now) ≡ true) }
    ensures value { IfOk result (λ ds. ds.items ≡ descriptors (map view values.now)) }
    ensures err { IfErr result (IsDue (bad_unless (list_all is_descriptor (map view values.now)))) }
{
    let mut found = Vec::with_capacity(alloc, values.len())?;
    for value in values {
        let Some(descriptor) = Descriptor::read(value) else {
            return Err(DocFault::BadDescriptor);
        };
        found.push(descriptor)?;
    }
    Ok(found)
}

// Whether the members beside the digest are as they should be.
fn has_fields(value: &Value) -> bool
    ensures { result ≡ has_fields (view value.now) }
{
    value.get("mediaType").is_some_and(Value::is_string)
        && value
            .get("size")
            .is_some_and(|size| size.as_u64().is_some())
        && value.get("urls").is_none_or(are_strings)
}

fn are_strings(value: &Value) -> bool
    ensures { result ≡ are_strings (view value.now) }
{
    value.is_array() && elements_of(value).iter().all(Value::is_string)
}

fn digest_in(value: &Value) -> Option<Digest>
    ensures { result ≡ digest_in (view value.now) }
{
    let text = value.get("digest").and_then(Value::as_str)?;
    Digest::read(text)
}

/// The elements of a member that is an array, and none where there is no such member.
pub(crate) fn elements<'a>(object: &'a Value, name: &str) -> &'a [Value]
    ensures { map view result.now ≡ elements name.now (view object.now) }
{
    match object.get(name) {
        Some(member) => elements_of(member),
        None => &[],
    }
}

#[tactic(auto, using(crate::proofs::Elements::listed_is))]
fn elements_of(value: &Value) -> &[Value]
    ensures { map view result.now ≡ elements_of (view value.now) }
{
    match value.as_array() {
        Some(items) => items,
        None => &[],
    }
}
