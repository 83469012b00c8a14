//! A directory of real files, which each test makes for itself below the folder where it runs.
use depot_api::{Path, Refused};
use std::alloc::Global;
use std::fs;
use std::os::unix::fs::symlink;
use std::test::Fail;

mod changes;
mod contents;
mod pages;
mod swaps;

/// Files, and the bytes of each.
const FILES: [(&str, &str); 9] = [
    ("a/b/c", "in c"),
    ("a/b/d", "in d"),
    ("a/b.c", "hello"),
    ("a/c", ""),
    ("b", "x"),
    ("to_file/x", "x"),
    ("out/x", "x"),
    ("torn/x", "x"),
    ("../outside/secret", "secret"),
];

/// Symbolic links, and what each holds: to a file and a folder inside the root, to ones outside, to
/// nothing, and to itself.
const LINKS: [(&str, &str); 6] = [
    ("to_file/link", "../a/b.c"),
    ("to_folder", "a"),
    ("out/link", "../../outside/secret"),
    ("to_outside", "../outside"),
    ("torn/link", "../nowhere"),
    ("loop", "loop"),
];

fn path(alloc: Global, text: &str) -> Result<Path, Fail> {
    Ok(Path::read(alloc, text)?.ok_or("no path")?)
}

// Makes the root `test/root`, and beside it what lies outside. What an earlier run left there goes.
fn make(rt: &HostRuntime, test: &str) -> Result<(), Fail> {
    let _ = fs::remove_dir_all(rt, test);
    for (file, bytes) in FILES {
        let file = format!(in rt.alloc(); "{test}/root/{file}")?;
        write(rt, file.as_str(), bytes)?;
    }
    for (link, held) in LINKS {
        let link = format!(in rt.alloc(); "{test}/root/{link}")?;
        symlink(rt, held, link.as_str())?;
    }
    Ok(())
}

// Writes a file, and makes the folders above it.
fn write(rt: &HostRuntime, file: &str, bytes: &str) -> Result<(), Fail> {
    if let Some((folder, _)) = file.rsplit_once('/') {
        fs::create_dir_all(rt, folder)?;
    }
    Ok(fs::write(rt, file, bytes)?)
}
