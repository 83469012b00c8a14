//! A walk through the files of a directory by pages, which a benchmark measures. Its command-line
//! arguments are a directory, a path below it and how many files a page has; it prints how many
//! files there are. Other arguments have status 2 and the usage, a fault has status 1.
//! `files_under` counts, in any depot that tells its files, all of them whose paths begin with a
//! path. It changes none, and answers a fault only where the depot had one.
#![tactic(auto)]

ghost use Rattle.std.specs.Prelude.{◌≡◌, ◌<◌, decimal, IfSome};
ghost use Rattle.reg_names.specs.Cause.{OnlyReads};
ghost use Rattle.reg_names.specs.Refusals.{HasFailed};
ghost use Rattle.depot_api.specs.Holdings.{Finds};
ghost use Rattle.page_walk.specs.Counts.{CountsUnder};

use depot_api::{Depot, Path, Refused};
use depot_files::FileDepot;
use std::alloc::Global;
use std::env;
use std::process::ExitCode;

const USAGE: &str = "usage: page_walk DIR PATH FILES";

// The status where the arguments are refused.
const REFUSED: u8 = 2;

/// What the arguments ask for.
#[derive(Drop)]
struct Asked {
    root: String,
    under: Path,
    /// How many files a page has.
    most: usize,
    ghost some: { 0 < most },
}

fn main(rt: HostRuntime) -> ExitCode {
    let Some(asked) = read_args(&rt) else {
        return match println!(rt; "{USAGE}") {
            Ok(()) => ExitCode::from(REFUSED),
            Err(_) => ExitCode::FAILURE,
        };
    };
    match counted(&rt, &asked) {
        Some(files) => match println!(rt; "{files}") {
            Ok(()) => ExitCode::SUCCESS,
            Err(_) => ExitCode::FAILURE,
        },
        None => ExitCode::FAILURE,
    }
}

// What the arguments ask for: a directory, a path and how many files a page has, and no more.
fn read_args(rt: &HostRuntime) -> Option<Asked> {
    let mut args = env::args(rt).ok()?.skip(1);
    let (root, under, most) = (args.next()?, args.next()?, args.next()?);
    if args.next().is_some() {
        return None;
    }
    let under = Path::read(rt.alloc(), under.as_str()).ok()??;
    let most = page_length(rt.alloc(), most.as_str())?;
    Some(Asked { root, under, most })
}

// The number, not 0, whose decimal digits a text is: it has neither a sign nor leading zeros.
fn page_length(alloc: Global, text: &str) -> Option<usize>
    ensures digits { IfSome result (λ most. text.now ≡ decimal most) }
    ensures some { IfSome result (λ most. 0 < most) }
{
    let most = text.parse::<usize>().ok()?;
    if most == 0 {
        return None;
    }
    let digits = format!(in alloc; "{most}").ok()?;
    (digits.as_str() == text).then_some(most)
}

// How many files the directory has under the path.
fn counted(rt: &HostRuntime, asked: &Asked) -> Option<u64> {
    let mut depot = FileDepot::open(rt, asked.root.as_str()).ok()?;
    files_under(rt.alloc(), &mut depot, &asked.under, asked.most).ok()
}

// How many files a depot has under a path, counted by pages of `most` files.
fn files_under<D: Depot>(
    alloc: Global,
    depot: &mut D,
    under: &Path,
    most: usize,
) -> Result<u64, Refused>
    requires { 0 < most }
    ensures value { Finds (D.held depot.old) result (CountsUnder under.now) }
    ensures reads { OnlyReads D.held D.faults depot.old depot.new (HasFailed result) }
{
    let mut files = 0_u64;
    let mut last = None;
    for _ in 0..u64::MAX {
        let mut page = depot.page(alloc, under, last.as_ref(), most)?;
        files = files.saturating_add(page.len() as u64);
        let Some(path) = page.pop() else {
            return Ok(files);
        };
        last = Some(path);
    }
    Err(Refused::NoMemory)
}
