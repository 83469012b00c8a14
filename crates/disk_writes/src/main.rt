//! Changes of a directory's files, which benchmarks time, trace and stop. The command line has a form of `USAGE`: `put`
//! and `upload` change the files of COUNT numbers from FIRST on, and `append`, `place` and `remove` those of one. Behind
//! each call it prints the number, or `failed` and the number, and goes on. Other arguments have status 2 and the usage, a
//! directory that is none status 1. `writes` does this over any depot: what stands after a call is an equation on what the
//! depot holds, no other path changes, and a fault is told only where the depot had one.
#![tactic(auto)]

mod writes;

use depot_api::Depot;
use depot_files::FileDepot;
use std::alloc::Global;
use std::process::ExitCode;
use std::{env, io};

const USAGE: &str =
    "usage: disk_writes put|upload DIR FIRST COUNT | append DIR NUMBER PIECES | place|remove DIR NUMBER";

// The status where the arguments are refused.
const REFUSED: u8 = 2;

// How many lines a small file has, and a piece of an upload.
const LINES: usize = 200;

// How many pieces an upload has.
const PIECES: u64 = 8;

// How many bytes a piece of a large upload has.
const LARGE: usize = 65_536;

/// Which files are changed, and how.
#[derive(Clone, Copy, Debug)]
enum Work {
    Put { first: u64, count: u64 },
    Upload { first: u64, count: u64 },
    Append { number: u64, pieces: u64 },
    Place { number: u64 },
    Remove { number: u64 },
}

fn main(rt: HostRuntime) -> ExitCode {
    let Some((root, work)) = read_args(&rt) else {
        return match println!(rt; "{USAGE}") {
            Ok(()) => ExitCode::from(REFUSED),
            Err(_) => ExitCode::FAILURE,
        };
    };
    match change(&rt, root.as_str(), work) {
        Ok(()) => ExitCode::SUCCESS,
        Err(_) => ExitCode::FAILURE,
    }
}

fn read_args(rt: &HostRuntime) -> Option<(String, Work)> {
    let mut args = env::args(rt).ok()?.skip(1);
    let (command, root) = (args.next()?, args.next()?);
    let mut numbers = Vec::new(rt.alloc());
    for number in args {
        numbers.push(number.parse::<u64>().ok()?).ok()?;
    }
    Some((root, work_of(command.as_str(), &numbers)?))
}

fn work_of(command: &str, numbers: &[u64]) -> Option<Work> {
    match (command, numbers) {
        ("put", &[first, count]) => Some(Work::Put { first, count }),
        ("upload", &[first, count]) => Some(Work::Upload { first, count }),
        ("append", &[number, pieces]) => Some(Work::Append { number, pieces }),
        ("place", &[number]) => Some(Work::Place { number }),
        ("remove", &[number]) => Some(Work::Remove { number }),
        _ => None,
    }
}

// Changes the files of a directory, and prints the number of each change.
fn change(rt: &HostRuntime, root: &str, work: Work) -> io::Result<()> {
    let alloc = rt.alloc();
    let mut depot = FileDepot::open(rt, root)?;
    match work {
        Work::Put { first, count } => {
            for number in first..first.saturating_add(count) {
                let put = writes::put(alloc, &mut depot, number, LINES);
                tell(rt, number, put.is_ok())?;
            }
        }
        Work::Upload { first, count } => {
            for number in first..first.saturating_add(count) {
                tell(rt, number, is_uploaded(alloc, &mut depot, number))?;
            }
        }
        Work::Append { number, pieces } => {
            tell(rt, number, is_appended(alloc, &mut depot, number, pieces))?;
        }
        Work::Place { number } => {
            let placed = writes::upload(alloc, &mut depot, number, &[], 0);
            tell(rt, number, matches!(placed, Ok(Some(_))))?;
        }
        Work::Remove { number } => {
            let removed = writes::remove(alloc, &mut depot, number);
            tell(rt, number, removed.is_ok())?;
        }
    }
    Ok(())
}

fn tell(rt: &HostRuntime, number: u64, is_done: bool) -> io::Result<()> {
    if is_done {
        println!(rt; "{number}")
    } else {
        println!(rt; "failed {number}")
    }
}

fn is_uploaded<D: Depot>(alloc: Global, depot: &mut D, number: u64) -> bool {
    let Ok(piece) = writes::lines(alloc, number, LINES) else {
        return false;
    };
    matches!(
        writes::upload(alloc, depot, number, piece.as_slice(), PIECES),
        Ok(Some(_))
    )
}

fn is_appended<D: Depot>(alloc: Global, depot: &mut D, number: u64, pieces: u64) -> bool {
    let Ok(piece) = vec![in alloc; b'x'; LARGE] else {
        return false;
    };
    matches!(
        writes::append(alloc, depot, number, &piece, pieces),
        Ok(Some(()))
    )
}
