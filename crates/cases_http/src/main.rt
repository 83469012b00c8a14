//! Reads cases, one a line as `cases_lines` has them, and writes each with its answer, which is
//! that of RFC 9110 and 9112. `stream` reads requests, `head` gives the parts of a head, `asks`
//! tells what it asks for, and `stage` stages a body. What is no case is written as it is.
//! The answers in `stdout` are written by hand; whoever changes `http_wire` adds a line here.
#![tactic(auto)]

mod heads;
mod sources;
mod stages;
mod streams;

use cases_lines::{Cases, answer_lines};
use depot_api::NoMemory;
use std::alloc::Global;
use std::io;

fn main(rt: HostRuntime) -> io::Result<()> {
    answer_lines(&rt, &mut Http)
}

#[derive(Drop)]
struct Http;

impl Cases for Http {
    fn answer(
        &mut self,
        alloc: Global,
        kind: &str,
        text: &[u8],
    ) -> Result<Option<String>, NoMemory> {
        match kind {
            "stream" => Ok(Some(streams::answer(alloc, text)?)),
            "head" => heads::parts_answer(alloc, text),
            "asks" => heads::answer(alloc, text),
            "stage" => stages::answer(alloc, text),
            _ => Ok(None),
        }
    }
}
