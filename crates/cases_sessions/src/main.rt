//! Reads cases, one a line as `cases_lines` has them, and writes each with its answer: the exit status of a run of `once`
//! over files in memory, how many bytes it writes, and the first of them, with `\r` and `\n` spelled.
//! `file PATH=TEXT` and `gone PATH` change the files. `ask METHOD TARGET` is one request, `talk` a connection; `closes` ends
//! one behind each byte, `fails` and `each` let a device fail, `words` has other arguments, `random` makes connections up.
//! The answers in `stdout` are written by hand, from RFC 9110, RFC 9112 and the OCI Distribution Specification 1.1.
#![tactic(auto)]

mod cut;
mod fault;
mod random;
mod refusals;
mod runs;
mod shelf;
mod texts;

use cases_lines::{Cases, answer_lines};
use depot_api::NoMemory;
use shelf::Shelf;
use std::alloc::Global;
use std::io;

fn main(rt: HostRuntime) -> io::Result<()> {
    let mut sessions = Sessions {
        shelf: Shelf::new(rt.alloc()),
    };
    answer_lines(&rt, &mut sessions)
}

#[derive(Drop)]
struct Sessions {
    shelf: Shelf,
}

impl Cases for Sessions {
    fn answer(
        &mut self,
        alloc: Global,
        kind: &str,
        text: &[u8],
    ) -> Result<Option<String>, NoMemory> {
        match kind {
            "file" => self.shelf.put(alloc, text),
            "gone" => self.shelf.remove(alloc, text),
            "ask" => Ok(Some(runs::ask(alloc, &self.shelf, text)?)),
            "talk" => Ok(Some(runs::talk(alloc, &self.shelf, text)?)),
            "closes" => Ok(Some(cut::closes(alloc, &self.shelf, text)?)),
            "fails" => runs::fails(alloc, &self.shelf, text),
            "each" => runs::each(alloc, &self.shelf, text),
            "words" => Ok(Some(runs::words(alloc, &self.shelf, text)?)),
            "random" => random::answer(alloc, &self.shelf, text),
            "refusal" => refusals::answer(alloc, text),
            "start" => refusals::wrong_start(alloc, text),
            "memory" => Ok(Some(refusals::memory(alloc, text)?)),
            _ => Ok(None),
        }
    }
}
