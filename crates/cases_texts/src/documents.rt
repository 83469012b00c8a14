//! What bytes are as a manifest.
use crate::told;
use manifest_doc::{Doc, DocFault, Judged, MANIFEST_LIMIT, Pushed, read_doc, read_stored};
use reg_names::{Bytes, DIGEST_TEXT_LENGTH, Digest, NoMemory, Text};
use std::alloc::Global;
use std::str;

/// `document TEXT`: the kind of the document that the text is, the digests that it names, each by
/// its first twelve digits and with a star where it is free, and behind a bar those of the
/// manifests that it lists. Or the first test that it fails.
pub fn answer(alloc: Global, text: &[u8]) -> Result<String, NoMemory> {
    match read_doc(alloc, text) {
        Ok(doc) => described(alloc, &doc),
        Err(DocFault::NoMemory) => Err(NoMemory),
        Err(fault) => Ok(format!(in alloc; "{fault:?}")?),
    }
}

fn described(alloc: Global, doc: &Doc) -> Result<String, NoMemory> {
    let mut answer = format!(in alloc; "{:?}", doc.kind)?;
    let named = doc.named.copy(alloc)?;
    for named in named.as_slice() {
        put_digest(alloc, &mut answer, &named.digest)?;
        answer.push_str(if named.free { "*" } else { "" })?;
    }
    answer.push_str(" |")?;
    for digest in doc.children.as_slice() {
        put_digest(alloc, &mut answer, digest)?;
    }
    Ok(answer)
}

// A space, and the first twelve digits.
fn put_digest(alloc: Global, answer: &mut String, digest: &Digest) -> Result<(), NoMemory> {
    let text = digest.text(alloc)?;
    answer.push(' ')?;
    answer.push_str(text.as_str().get(7..19).unwrap_or("?"))?;
    Ok(())
}

const CONFIG: (&str, &str) = (r#"{"schemaVersion":2,"layers":[],"config":"#, "}");

// The first layer of an image whose configuration is `{}`.
const LAYER: (&str, &str) = (
    "{\"schemaVersion\":2,\"config\":{\"mediaType\":\"a\",\"size\":2,\
    \"digest\":\"sha256:44136fa355b3678a1146ad16f7e8649e94fb4fc21fe77e8310c060f61caaff8a\"},\
    \"layers\":[",
    "]}",
);

const LISTED: (&str, &str) = (r#"{"schemaVersion":2,"manifests":["#, "]}");

/// `descriptor TEXT`: whether a JSON value may stand as a configuration, as a layer and as a listed
/// manifest, where that is the same in all three.
pub fn descriptor_answer(alloc: Global, text: &[u8]) -> Result<&'static str, NoMemory> {
    let value = str::from_utf8(text).unwrap_or("");
    let config = stands_in(alloc, CONFIG, value)?;
    let layer = stands_in(alloc, LAYER, value)?;
    let listed = stands_in(alloc, LISTED, value)?;
    Ok(if config == layer && layer == listed {
        config
    } else {
        "not the same"
    })
}

// Whether a value may stand in a document, of which the rest is given.
fn stands_in(alloc: Global, rest: (&str, &str), value: &str) -> Result<&'static str, NoMemory> {
    let (front, end) = rest;
    let text = format!(in alloc; "{front}{value}{end}")?;
    match read_doc(alloc, text.as_bytes()) {
        Ok(_) => Ok("yes"),
        Err(DocFault::BadDescriptor) => Ok("no"),
        Err(DocFault::NoMemory) => Err(NoMemory),
        Err(_) => Ok("another fault"),
    }
}

/// `stored DIGEST TEXT`: the kind of the manifest that the text is under the digest.
pub fn stored_answer(alloc: Global, text: &[u8]) -> Result<String, NoMemory> {
    let Some((digest, bytes)) = digest_and_bytes(text) else {
        return told(alloc, "no digest");
    };
    match read_stored(alloc, &digest, bytes)? {
        Some(doc) => Ok(format!(in alloc; "{:?}", doc.kind)?),
        None => told(alloc, "none"),
    }
}

fn digest_and_bytes(text: &[u8]) -> Option<(Digest, &[u8])> {
    let (digest, rest) = text.split_at_checked(DIGEST_TEXT_LENGTH)?;
    Some((Digest::read_bytes(digest)?, rest.strip_prefix(b" ")?))
}

/// `pushed TYPE\nTEXT`: the kind of the document that the text is, pushed with this Content-Type, or why it is refused.
/// Without a line feed there is no Content-Type. One that is no UTF-8 is the empty one.
pub fn pushed_answer(alloc: Global, text: &[u8]) -> Result<String, NoMemory> {
    let Some(end) = text.iter().position(|b| *b == b'\n') else {
        return judged_answer(alloc, text, None);
    };
    let typed = str::from_utf8(&text[..end]).unwrap_or("");
    let typed = Text::from_str(alloc, typed)?;
    judged_answer(alloc, &text[end + 1..], Some(&typed))
}

fn judged_answer(alloc: Global, bytes: &[u8], typed: Option<&Text>) -> Result<String, NoMemory> {
    if bytes.len() as u64 > MANIFEST_LIMIT {
        return told(alloc, "too long");
    }
    let pushed = Pushed::of(alloc, Bytes::from_slice(alloc, bytes)?, typed)?;
    match &pushed.judged {
        Judged::Good(doc) => Ok(format!(in alloc; "{:?}", doc.kind)?),
        Judged::Bad(word) => told(alloc, word.as_str()),
    }
}
