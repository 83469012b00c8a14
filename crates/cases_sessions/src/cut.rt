//! Connections that end early.
use crate::runs::once;
use crate::shelf::Shelf;
use depot_api::NoMemory;
use std::alloc::Global;

const DONE: u8 = 0;

const UNSERVED: u8 = 10;

/// Behind which bytes a connection may end with status 0: there each reply was written. Elsewhere the status is 10, and
/// what was written is a front of the whole.
pub fn closes(alloc: Global, shelf: &Shelf, input: &[u8]) -> Result<String, NoMemory> {
    let whole = once(alloc, shelf, input)?;
    let mut answer = String::new(alloc);
    for length in 0..input.len() {
        let run = once(alloc, shelf, &input[..length])?;
        let is_front = whole.out.written().starts_with(run.out.written());
        match run.status {
            DONE if is_front => write!(answer, "{length} ")?,
            UNSERVED if is_front => {}
            status => write!(answer, "{length}: status {status}, front {is_front} ")?,
        }
    }
    Ok(answer)
}
