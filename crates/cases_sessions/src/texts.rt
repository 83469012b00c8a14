//! Bytes, as an answer shows them.
use depot_api::NoMemory;
use std::alloc::Global;

/// As many bytes are shown.
const SHOWN: usize = 4_000;

/// A status, how many bytes there are, and the first of them.
pub fn shown(alloc: Global, status: u8, bytes: &[u8]) -> Result<String, NoMemory> {
    let (length, text) = (bytes.len(), spelled(alloc, bytes)?);
    Ok(format!(in alloc; "{status} {length} {text}")?)
}

/// The first bytes, with `\r` and `\n` spelled.
pub fn spelled(alloc: Global, bytes: &[u8]) -> Result<String, NoMemory> {
    let mut text = String::new(alloc);
    for byte in bytes.iter().take(SHOWN) {
        match byte {
            b'\r' => text.push_str("\\r")?,
            b'\n' => text.push_str("\\n")?,
            _ => text.push(*byte as char)?,
        }
    }
    Ok(text)
}
