//! Reads cases, one a line as `cases_lines` has them, and writes each with its answer. `entry TEXT` asks which entry of
//! the journal the bytes of the text spell: the number of its kind and its moment, and `none` where they spell none.
//! What is no case is written as it is. The answers in `stdout` are written by hand, from the table of entries in
//! docs/DEFINITIONS.md.
#![tactic(auto)]

use cases_lines::{Cases, answer_lines};
use reg_journal::{Entry, entry_bytes, read_entry};
use reg_names::NoMemory;
use std::alloc::Global;
use std::io;

fn main(rt: HostRuntime) -> io::Result<()> {
    answer_lines(&rt, &mut Entries)
}

#[derive(Drop)]
struct Entries;

impl Cases for Entries {
    fn answer(
        &mut self,
        alloc: Global,
        kind: &str,
        text: &[u8],
    ) -> Result<Option<String>, NoMemory> {
        if kind != "entry" {
            return Ok(None);
        }
        match read_entry(alloc, text)? {
            Some(entry) => Ok(Some(described(alloc, &entry, text)?)),
            None => Ok(Some(String::from_str(alloc, "none")?)),
        }
    }
}

// The kind and the moment of an entry, where it is written as it was read.
fn described(alloc: Global, entry: &Entry, text: &[u8]) -> Result<String, NoMemory> {
    if !is_written_so(alloc, entry, text)? {
        return Ok(String::from_str(alloc, "written in another way")?);
    }
    let (number, moment) = (entry.what.number(), entry.moment);
    Ok(format!(in alloc; "kind {number} at {moment}")?)
}

fn is_written_so(alloc: Global, entry: &Entry, text: &[u8]) -> Result<bool, NoMemory> {
    let copy = entry.copy(alloc)?;
    let bytes = entry_bytes(alloc, &copy)?;
    Ok(bytes.as_slice() == text)
}
