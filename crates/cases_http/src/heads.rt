//! Single heads.
use crate::sources::source_of;
use depot_api::NoMemory;
use http_wire::{
    Feed, Field, Framing, Head, Heading, content_type, ends_connection, expects_continue, framing,
    range_start, read_head,
};
use std::alloc::Global;

// The head that the bytes begin with. No read behind the last of them is needed for one.
fn head_of(alloc: Global, bytes: &[u8]) -> Result<Option<Head>, NoMemory> {
    let mut source = source_of(alloc, bytes)?;
    let mut feed = Feed::new(alloc)?;
    match read_head(alloc, &mut feed, &mut source) {
        Heading::Head(head) if source.faults() == 0 => Ok(Some(head)),
        _ => Ok(None),
    }
}

/// The method, the target, the minor version, and the name and the value of each field.
pub fn parts_answer(alloc: Global, bytes: &[u8]) -> Result<Option<String>, NoMemory> {
    match head_of(alloc, bytes)? {
        Some(head) => Ok(Some(parts(alloc, &head)?)),
        None => Ok(None),
    }
}

fn parts(alloc: Global, head: &Head) -> Result<String, NoMemory> {
    let (method, target) = (head.method.as_str(), head.target.as_str());
    let mut text = format!(in alloc; "{method} {target} HTTP/1.{}", head.minor)?;
    for field in head.fields.as_slice() {
        put_field(alloc, &mut text, field)?;
    }
    Ok(text)
}

fn put_field(alloc: Global, text: &mut String, field: &Field) -> Result<(), NoMemory> {
    let (name, value) = (field.name.as_str(), field.value.as_slice().escape_ascii());
    text.push_str(format!(in alloc; ", {name} is \"{value}\"")?.as_str())?;
    Ok(())
}

/// How the body is delimited, whether the connection ends and 100 Continue is awaited, the media
/// type, and the start of a range.
pub fn answer(alloc: Global, bytes: &[u8]) -> Result<Option<String>, NoMemory> {
    match head_of(alloc, bytes)? {
        Some(head) => Ok(Some(asked(alloc, &head)?)),
        None => Ok(None),
    }
}

fn asked(alloc: Global, head: &Head) -> Result<String, NoMemory> {
    let mut text = framed(alloc, framing(head))?;
    if ends_connection(head) {
        text.push_str(", closes")?;
    }
    if expects_continue(head) {
        text.push_str(", awaits 100")?;
    }
    if let Some(kind) = content_type(head) {
        text.push_str(", type ")?;
        text.push_str(kind)?;
    }
    match range_start(head) {
        Some(start) => Ok(format!(in alloc; "{text}, from {start}")?),
        None => Ok(text),
    }
}

fn framed(alloc: Global, framing: Framing) -> Result<String, NoMemory> {
    match framing {
        Framing::Length(length) => Ok(format!(in alloc; "length {length}")?),
        Framing::Chunked => Ok(String::from_str(alloc, "chunked")?),
        Framing::Bad => Ok(String::from_str(alloc, "malformed")?),
    }
}
