//! Sealing a file of a directory, which a benchmark times beside its parts. The command line is `seal`, `hash` or `read`,
//! a directory and a path below it: the file is staged, sealed and given back, or hashed at once from memory, and its
//! digest is printed; or it is only read, and its length is printed. Other arguments have status 2 and the usage; a
//! fault, and a file that is not there, have status 1.
//! The digests are those of the file's bytes, in any depot that tells them.
#![tactic(auto)]

mod seals;

use crate::seals::{hashed, sealed, whole};
use depot_api::Path;
use depot_files::FileDepot;
use std::env;
use std::process::ExitCode;

const USAGE: &str = "usage: seal_speed seal|hash|read DIR PATH";

// The status where the arguments are refused.
const REFUSED: u8 = 2;

/// What is done with the file.
#[derive(Clone, Copy, Debug)]
enum Work {
    Seal,
    Hash,
    Read,
}

/// What the arguments ask for.
#[derive(Drop)]
struct Asked {
    work: Work,
    root: String,
    at: Path,
}

fn main(rt: HostRuntime) -> ExitCode {
    let Some(asked) = read_args(&rt) else {
        return match println!(rt; "{USAGE}") {
            Ok(()) => ExitCode::from(REFUSED),
            Err(_) => ExitCode::FAILURE,
        };
    };
    match answer(&rt, &asked) {
        Some(line) => match println!(rt; "{line}") {
            Ok(()) => ExitCode::SUCCESS,
            Err(_) => ExitCode::FAILURE,
        },
        None => ExitCode::FAILURE,
    }
}

fn read_args(rt: &HostRuntime) -> Option<Asked> {
    let mut args = env::args(rt).ok()?.skip(1);
    let (work, root, at) = (args.next()?, args.next()?, args.next()?);
    if args.next().is_some() {
        return None;
    }
    let work = work_of(work.as_str())?;
    let at = Path::read(rt.alloc(), at.as_str()).ok()??;
    Some(Asked { work, root, at })
}

fn work_of(word: &str) -> Option<Work> {
    match word {
        "seal" => Some(Work::Seal),
        "hash" => Some(Work::Hash),
        "read" => Some(Work::Read),
        _ => None,
    }
}

// What is printed: the digest of the file, or how many bytes it has.
fn answer(rt: &HostRuntime, asked: &Asked) -> Option<String> {
    let alloc = rt.alloc();
    let mut depot = FileDepot::open(rt, asked.root.as_str()).ok()?;
    let digest = match asked.work {
        Work::Seal => sealed(alloc, &mut depot, &asked.at).ok()??,
        Work::Hash => hashed(alloc, &mut depot, &asked.at).ok()??,
        Work::Read => {
            let length = whole(alloc, &mut depot, &asked.at).ok()??.len();
            return format!(in alloc; "{length}").ok();
        }
    };
    let text = digest.text(alloc).ok()?;
    format!(in alloc; "{}", text.as_str()).ok()
}
