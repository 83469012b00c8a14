//! What bytes are as a path of a file.
use crate::told;
use depot_api::Path;
use link_paths::{Place, path_of, read_path};
use reg_names::{NoMemory, Text};
use std::alloc::Global;
use std::str;

/// `path TEXT`: the parts of the path that the text is, each in brackets.
pub fn path_answer(alloc: Global, text: &[u8]) -> Result<String, NoMemory> {
    let Some(path) = read(alloc, text)? else {
        return told(alloc, "none");
    };
    let mut answer = String::new(alloc);
    for part in path.parts() {
        answer.push_str("[")?;
        answer.push_str(part.as_str())?;
        answer.push_str("]")?;
    }
    Ok(answer)
}

fn read(alloc: Global, text: &[u8]) -> Result<Option<Path>, NoMemory> {
    match str::from_utf8(text) {
        Ok(text) => Path::read(alloc, text),
        Err(_) => Ok(None),
    }
}

/// `place PATH`: what lies at the path, which its own path gives back.
pub fn answer(alloc: Global, text: &[u8]) -> Result<String, NoMemory> {
    let Some(path) = read(alloc, text)? else {
        return told(alloc, "none");
    };
    match read_path(alloc, &path)? {
        Some(place) => at_path(alloc, &place, text),
        None => told(alloc, "none"),
    }
}

fn at_path(alloc: Global, place: &Place, text: &[u8]) -> Result<String, NoMemory> {
    if path_of(alloc, place)?.text(alloc)?.as_bytes() != text {
        return told(alloc, "another path");
    }
    in_words(alloc, place)
}

fn in_words(alloc: Global, place: &Place) -> Result<String, NoMemory> {
    match place {
        Place::BlobData(digest) => joined(alloc, &["blob"], digest.text(alloc)?),
        Place::Revision(name, digest) => {
            joined(alloc, &["revision", name.as_str()], digest.text(alloc)?)
        }
        Place::TagCurrent(name, tag) => joined(alloc, &["tag", name.as_str()], tag.text(alloc)?),
        Place::TagIndex(name, tag, digest) => {
            let words = ["index", name.as_str(), tag.as_str()];
            joined(alloc, &words, digest.text(alloc)?)
        }
        Place::Layer(name, digest) => joined(alloc, &["layer", name.as_str()], digest.text(alloc)?),
        Place::UploadData(name, id) => joined(alloc, &["upload", name.as_str()], id.text(alloc)?),
        Place::UploadStarted(name, id) => joined(alloc, &["start", name.as_str()], id.text(alloc)?),
    }
}

// Words and a last one, with spaces between them.
fn joined(alloc: Global, words: &[&str], last: Text) -> Result<String, NoMemory> {
    let mut answer = String::new(alloc);
    for word in words {
        answer.push_str(word)?;
        answer.push_str(" ")?;
    }
    answer.push_str(last.as_str())?;
    Ok(answer)
}
