//! Documents.
ghost use Rattle.std.specs.Prelude.{◌≡◌, ◌≤◌, ◌+◌, codes, length, IfOk, IfErr};
ghost use Rattle.serde_json.specs.Find.{get};
ghost use Rattle.serde_json.specs.View.{view};
ghost use Rattle.manifest_doc.specs.Faults.{IsDue};
ghost use Rattle.manifest_doc.specs.Documents.{element_limit, IsDocument, IsObjectDocument, judged, verdict, is_small};
ghost use Rattle.manifest_doc.specs.InnerReading.{config_read};

use crate::descriptors::{Descriptor, elements, read_all};
use crate::kinds::{kind_of_object, read_object};
use crate::lists::{children_of, named_of};
use crate::{DigestList, DocFault, Kind, NamedList};
use serde_json::Value;
use std::alloc::Global;

/// The most elements of `layers` or `manifests`.
const ELEMENT_LIMIT: usize = 1_024;

/// What a registry needs to know of a manifest. Both lists ascend strictly by digest.
#[derive(Debug, PartialEq, Eq, Drop)]
pub struct Doc {
    pub kind: Kind,
    /// The digests of the configuration and the layers. One is free where each of its occurrences is a layer with URLs.
    pub named: NamedList,
    /// The digests of the listed manifests.
    pub children: DigestList,
}

/// The document that bytes are, or the first test that they fail (OCI Image Specification 1.1, "Image Manifest
/// Specification" and "Image Index Specification").
pub fn read_doc(alloc: Global, bytes: &[u8]) -> Result<Doc, DocFault>
    ensures ok { IfOk result (IsDocument bytes.now) }
    ensures named { IfOk result (λ doc. length doc.named ≤ element_limit + 1) }
    ensures children { IfOk result (λ doc. length doc.children ≤ element_limit) }
    ensures err { IfErr result (IsDue (verdict bytes.now)) }
{
    let object = read_object(alloc, bytes)?;
    read_members(alloc, &object)
}

// The document that an object is.
fn read_members(alloc: Global, object: &Value) -> Result<Doc, DocFault>
    ensures ok { IfOk result (IsObjectDocument (view object.now)) }
    ensures err { IfErr result (IsDue (judged (view object.now))) }
{
    let kind = kind_of_object(object).ok_or(DocFault::NoKind)?;
    if !is_small(object) {
        return Err(DocFault::TooMany);
    }
    let config = read_config(object)?;
    let layers = read_all(alloc, elements(object, "layers"))?;
    let manifests = read_all(alloc, elements(object, "manifests"))?;
    Ok(Doc {
        kind,
        named: named_of(alloc, config, layers)?,
        children: children_of(alloc, manifests)?,
    })
}

// Whether neither list has more elements than it may have.
fn is_small(object: &Value) -> bool
    ensures { result ≡ is_small (view object.now) }
{
    elements(object, "layers").len() <= ELEMENT_LIMIT
        && elements(object, "manifests").len() <= ELEMENT_LIMIT
}

// The configuration's descriptor, where there is a configuration.
fn read_config(object: &Value) -> Result<Option<Descriptor>, DocFault>
    ensures { result ≡ config_read (get (codes "config") (view object.now)) }
{
    match object.get("config") {
        Some(config) => Ok(Some(Descriptor::read(config).ok_or(DocFault::BadDescriptor)?)),
        None => Ok(None),
    }
}
