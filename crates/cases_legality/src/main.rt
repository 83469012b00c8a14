//! Reads cases, one a line as `cases_lines` has them, and writes each with its answer. `entries TEXT` asks whether the
//! entries may follow one another that the text spells, with `;` between them: `legal`, or the number of the first that
//! may not follow those before it. What is no case is written as it is. The answers in `stdout` are written by hand,
//! from the table of entries in docs/DEFINITIONS.md. The delay is 100 seconds.
#![tactic(auto)]

use cases_lines::{Cases, answer_lines};
use reg_journal::{Entry, read_entry};
use reg_names::NoMemory;
use reg_plain::{State, Unapplied};
use std::alloc::Global;
use std::io;

const DELAY: u64 = 100;

fn main(rt: HostRuntime) -> io::Result<()> {
    answer_lines(&rt, &mut Journals)
}

#[derive(Drop)]
struct Journals;

impl Cases for Journals {
    fn answer(
        &mut self,
        alloc: Global,
        kind: &str,
        text: &[u8],
    ) -> Result<Option<String>, NoMemory> {
        if kind != "entries" {
            return Ok(None);
        }
        match first_illegal(alloc, text)? {
            Some(number) => Ok(Some(format!(in alloc; "illegal at {number}")?)),
            None => Ok(Some(String::from_str(alloc, "legal")?)),
        }
    }
}

// The number of the first entry that may not follow, or that the bytes do not spell.
fn first_illegal(alloc: Global, text: &[u8]) -> Result<Option<u64>, NoMemory> {
    let mut state = State::new(alloc, DELAY);
    let mut number = 0_u64;
    for bytes in text.split(|byte| *byte == b';') {
        number = number.saturating_add(1);
        if !follows(alloc, &mut state, bytes)? {
            return Ok(Some(number));
        }
    }
    Ok(None)
}

// Whether the bytes spell an entry that is applied.
fn follows(alloc: Global, state: &mut State, bytes: &[u8]) -> Result<bool, NoMemory> {
    match read_entry(alloc, bytes)? {
        Some(entry) => is_applied(alloc, state, &entry),
        None => Ok(false),
    }
}

fn is_applied(alloc: Global, state: &mut State, entry: &Entry) -> Result<bool, NoMemory> {
    match state.apply(alloc, entry) {
        Ok(()) => Ok(true),
        Err(Unapplied::NoMemory) => Err(NoMemory),
        Err(Unapplied::Illegal | Unapplied::Full) => Ok(false),
    }
}
