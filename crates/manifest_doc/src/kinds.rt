//! The kind of a document.
ghost use Rattle.std.specs.Prelude.{◌≡◌, IfOk, IfErr, ok_or};
ghost use Rattle.serde_json.specs.View.{view};
ghost use Rattle.manifest_doc.specs.Faults.{IsDue};
ghost use Rattle.manifest_doc.specs.Kinds.{object_in, has_version_two, kind_told, is_image, is_index, has_shape, kind_of_object};

use crate::DocFault;
use reg_names::Kind;
use serde_json::Value;
use std::alloc::Global;

/// The object that bytes are as JSON.
pub(crate) fn read_object(alloc: Global, bytes: &[u8]) -> Result<Value, DocFault>
    ensures ok { IfOk result (λ v. object_in bytes.now ≡ Some (view v)) }
    ensures err { IfErr result (IsDue (ok_or (object_in bytes.now) DocFault.NotJson)) }
{
    match Value::from_slice(alloc, bytes) {
        Ok(value) if value.is_object() => Ok(value),
        Err(error) if error.is_memory() => Err(DocFault::NoMemory),
        _ => Err(DocFault::NotJson),
    }
}

/// The kind of an object.
pub(crate) fn kind_of_object(object: &Value) -> Option<Kind>
    ensures { result ≡ kind_of_object (view object.now) }
{
    if !is_version_two(object) {
        return None;
    }
    told(object).filter(|kind| fits(*kind, object))
}

fn is_version_two(object: &Value) -> bool
    ensures { result ≡ has_version_two (view object.now) }
{
    object.get("schemaVersion").and_then(Value::as_u64) == Some(2)
}

fn told(object: &Value) -> Option<Kind>
    ensures { result ≡ kind_told (view object.now) }
{
    if let Some(media_type) = object.get("mediaType") {
        return Kind::from_media_type(media_type.as_str()?);
    }
    let image = object.get("config").is_some() && object.get("layers").is_some();
    let index = object.get("manifests").is_some();
    match (image, index) {
        (true, false) => Some(Kind::OciImage),
        (false, true) => Some(Kind::OciIndex),
        _ => None,
    }
}

fn fits(kind: Kind, object: &Value) -> bool
    ensures { result ≡ has_shape kind (view object.now) }
{
    match kind {
        Kind::OciImage | Kind::DockerImage => {
            object.get("config").is_some_and(Value::is_object)
                && object.get("layers").is_some_and(Value::is_array)
                && object.get("manifests").is_none()
        }
        Kind::OciIndex | Kind::DockerList => {
            object.get("manifests").is_some_and(Value::is_array)
                && object.get("config").is_none()
                && object.get("layers").is_none()
        }
    }
}
