//! Files in memory.
use depot_api::{Bytes, NoMemory, Path};
use std::alloc::Global;
use std::collections::BTreeMap;
use std::str;

/// Files by the texts of their paths.
#[derive(Drop)]
pub struct Shelf {
    files: BTreeMap<String, Vec<u8>>,
}

impl Shelf {
    /// No file is there.
    pub fn new(alloc: Global) -> Shelf {
        Shelf {
            files: BTreeMap::new(alloc),
        }
    }

    /// Puts a file there. A text that is no `PATH=TEXT` is remarked.
    pub fn put(&mut self, alloc: Global, text: &[u8]) -> Result<Option<String>, NoMemory> {
        let Some(at) = text.iter().position(|byte| *byte == b'=') else {
            return remark(alloc, "no file");
        };
        let Ok(path) = str::from_utf8(&text[..at]) else {
            return remark(alloc, "no path");
        };
        let content = Vec::from_slice(alloc, &text[at + 1..])?;
        self.files.insert(String::from_str(alloc, path)?, content)?;
        Ok(None)
    }

    /// Takes the file at a path away. That there was none is remarked.
    pub fn remove(&mut self, alloc: Global, path: &[u8]) -> Result<Option<String>, NoMemory> {
        let Ok(path) = str::from_utf8(path) else {
            return remark(alloc, "no path");
        };
        match self.files.remove(path) {
            Some(_) => Ok(None),
            None => remark(alloc, "no file"),
        }
    }

    /// All files.
    pub fn files(&self, alloc: Global) -> Result<Vec<(Path, Bytes)>, NoMemory> {
        let mut files = Vec::new(alloc);
        for (path, content) in &self.files {
            if let Some(path) = Path::read(alloc, path.as_str())? {
                files.push((path, Bytes::from_slice(alloc, content)?))?;
            }
        }
        Ok(files)
    }
}

fn remark(alloc: Global, text: &str) -> Result<Option<String>, NoMemory> {
    Ok(Some(String::from_str(alloc, text)?))
}
