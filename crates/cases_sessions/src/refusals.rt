//! Replies that refuse, without a request.
use crate::texts::spelled;
use depot_api::NoMemory;
use reg_entries::{Detail, No, Reply};
use reg_names::{Name, Text, UploadId};
use reg_replies::{no_memory, wire};
use std::alloc::Global;
use std::str;

/// The reply of `NUMBER` or `NUMBER DETAIL`. A detail of digits is a number.
pub fn answer(alloc: Global, text: &[u8]) -> Result<Option<String>, NoMemory> {
    let Ok(text) = str::from_utf8(text) else {
        return Ok(None);
    };
    let (number, detail) = text.split_once(' ').unwrap_or((text, ""));
    let Ok(number) = number.parse() else {
        return Ok(None);
    };
    let detail = detail_of(alloc, detail)?;
    told(alloc, &Reply::Refused(No { number, detail }))
}

fn detail_of(alloc: Global, text: &str) -> Result<Detail, NoMemory> {
    if text.is_empty() {
        return Ok(Detail::Nothing);
    }
    match text.parse() {
        Ok(number) => Ok(Detail::Number(number)),
        Err(_) => Ok(Detail::Word(Text::from_str(alloc, text)?)),
    }
}

/// The reply where an upload, of `NAME ID OFFSET`, goes on elsewhere.
pub fn wrong_start(alloc: Global, text: &[u8]) -> Result<Option<String>, NoMemory> {
    match str::from_utf8(text).ok().and_then(parts) {
        Some((name, id, offset)) => upload_reply(alloc, name, id, offset),
        None => Ok(None),
    }
}

fn parts(text: &str) -> Option<(&str, &str, u64)> {
    let (name, text) = text.split_once(' ')?;
    let (id, offset) = text.split_once(' ')?;
    Some((name, id, offset.parse().ok()?))
}

fn upload_reply(
    alloc: Global,
    name: &str,
    id: &str,
    offset: u64,
) -> Result<Option<String>, NoMemory> {
    match (Name::read(alloc, name)?, UploadId::read(id)?) {
        (Some(name), Some(id)) => told(alloc, &Reply::WrongStart { name, id, offset }),
        _ => Ok(None),
    }
}

fn told(alloc: Global, reply: &Reply) -> Result<Option<String>, NoMemory> {
    let bytes = wire(alloc, reply, false, false)?;
    Ok(Some(spelled(alloc, bytes.as_slice())?))
}

/// The reply to a method where memory is wanting.
pub fn memory(alloc: Global, method: &[u8]) -> Result<String, NoMemory> {
    spelled(alloc, no_memory(method == b"HEAD".as_slice()).as_bytes())
}
