//! Reads cases, one a line as `cases_lines` has them, and writes each with its answer: what the
//! public calls of the libraries make of a text. `name a/b` asks whether `a/b` is a repository
//! name; `answer` lists the other kinds. What is no case is written as it is.
//! The answers in `stdout` are those of the public standards, written by hand.
#![tactic(auto)]

mod documents;
mod places;

use cases_lines::{Cases, answer_lines};
use reg_digest::digest_of;
use reg_names::{Digest, Kind, Name, NoMemory, Reference, Tag, UploadId};
use std::alloc::Global;
use std::{io, str};

fn main(rt: HostRuntime) -> io::Result<()> {
    answer_lines(&rt, &mut Texts)
}

#[derive(Drop)]
struct Texts;

impl Cases for Texts {
    fn answer(
        &mut self,
        alloc: Global,
        kind: &str,
        text: &[u8],
    ) -> Result<Option<String>, NoMemory> {
        Ok(Some(match kind {
            "name" => yes_or_no(alloc, is_name(alloc, text)?)?,
            "tag" => yes_or_no(alloc, Tag::read_bytes(alloc, text)?.is_some())?,
            "digest" => yes_or_no(alloc, Digest::read_bytes(text).is_some())?,
            "upload" => yes_or_no(alloc, UploadId::read_bytes(text)?.is_some())?,
            "reference" => told(alloc, referred_to(alloc, text)?)?,
            "version4" => version4(alloc, text)?,
            "kind" => media_kind(alloc, text)?,
            "sha256" => told(alloc, digest_of(text).text(alloc)?.as_str())?,
            "document" => documents::answer(alloc, text)?,
            "descriptor" => told(alloc, documents::descriptor_answer(alloc, text)?)?,
            "stored" => documents::stored_answer(alloc, text)?,
            "pushed" => documents::pushed_answer(alloc, text)?,
            "path" => places::path_answer(alloc, text)?,
            "place" => places::answer(alloc, text)?,
            _ => return Ok(None),
        }))
    }
}

fn yes_or_no(alloc: Global, is: bool) -> Result<String, NoMemory> {
    told(alloc, if is { "yes" } else { "no" })
}

fn told(alloc: Global, answer: &str) -> Result<String, NoMemory> {
    Ok(String::from_str(alloc, answer)?)
}

fn is_name(alloc: Global, text: &[u8]) -> Result<bool, NoMemory> {
    match Name::read_bytes(alloc, text)? {
        Some(name) => Ok(name.text(alloc)?.as_bytes() == text),
        None => Ok(false),
    }
}

fn referred_to(alloc: Global, text: &[u8]) -> Result<&'static str, NoMemory> {
    let reference = match str::from_utf8(text) {
        Ok(text) => Reference::read(alloc, text)?,
        Err(_) => Reference::read_bytes(alloc, text)?,
    };
    match reference {
        Some(reference) => copied(alloc, &reference, text),
        None => Ok("none"),
    }
}

// What a copy of a reference refers to, where it gives back the text.
fn copied(alloc: Global, reference: &Reference, text: &[u8]) -> Result<&'static str, NoMemory> {
    let copy = reference.copy(alloc)?;
    if copy.text(alloc)?.as_bytes() != text {
        return Ok("another text");
    }
    Ok(match copy {
        Reference::Tag(_) => "tag",
        Reference::Digest(_) => "digest",
    })
}

// The text of the upload id that is made of sixteen bytes.
fn version4(alloc: Global, text: &[u8]) -> Result<String, NoMemory> {
    match <[u8; 16]>::try_from(text) {
        Ok(bytes) => told(alloc, UploadId::of_bytes(bytes).text(alloc)?.as_str()),
        Err(_) => told(alloc, "not sixteen bytes"),
    }
}

// The kind of manifest whose media type a text is.
fn media_kind(alloc: Global, text: &[u8]) -> Result<String, NoMemory> {
    match str::from_utf8(text).ok().and_then(Kind::from_media_type) {
        Some(kind) => Ok(format!(in alloc; "{kind:?}")?),
        None => told(alloc, "none"),
    }
}
