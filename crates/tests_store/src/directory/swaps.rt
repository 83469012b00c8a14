//! A file in whose place another one comes between the look at it and its opening.
use super::*;
use depot_api::Depot;
use depot_files::FileDepot;
use std::alloc::Allocator;
use std::fs::{File, Metadata, OpenOptions};
use std::io;
use std::path::PathBuf;
use std::random::RandomSource;
use std::rt::{Clock, Files};
use std::time::Duration;

const SWAPS: [&str; 3] = ["../../outside/secret", "../a/b.c", "nowhere"];

#[test]
fn a_link_in_the_place_of_a_file_is_a_fault(rt: HostRuntime) -> Result<(), Fail> {
    for held in SWAPS {
        make(&rt, "swaps")?;
        assert!(rt; fails_over(&rt, held)?, "{held}");
    }
    Ok(fs::remove_dir_all(&rt, "swaps")?)
}

// Whether a small file is a fault that a link is put over just before it is opened.
fn fails_over(rt: &HostRuntime, held: &str) -> Result<bool, Fail> {
    let at = path(rt.alloc(), "out/x")?;
    let swapping = (Swapping { rt, held }, rt.alloc());
    let mut depot = FileDepot::open(swapping, "swaps/root")?;
    Ok(matches!(depot.read_small(rt.alloc(), &at, 9), Err(Refused::Failed)))
}

/// A system that puts a link over each file that is opened.
#[derive(Drop)]
struct Swapping<'a> {
    rt: &'a HostRuntime,
    /// What the link holds.
    held: &'a str,
}

impl Files for Swapping<'_> {
    type File = File;

    type Dir = <HostRuntime as Files>::Dir;

    fn open_file(&self, how: &OpenOptions, path: &str) -> io::Result<File> {
        symlink(self.rt, self.held, "swaps/link")?;
        self.rt.rename("swaps/link", path)?;
        self.rt.open_file(how, path)
    }

    fn open_dir(&self, path: &str) -> io::Result<Self::Dir> {
        self.rt.open_dir(path)
    }

    fn metadata(&self, path: &str) -> io::Result<Metadata> {
        self.rt.metadata(path)
    }

    fn symlink_metadata(&self, path: &str) -> io::Result<Metadata> {
        self.rt.symlink_metadata(path)
    }

    fn copy(&self, from: &str, to: &str) -> io::Result<u64> {
        self.rt.copy(from, to)
    }

    fn rename(&self, from: &str, to: &str) -> io::Result<()> {
        self.rt.rename(from, to)
    }

    fn remove_file(&self, path: &str) -> io::Result<()> {
        self.rt.remove_file(path)
    }

    fn create_dir(&self, path: &str) -> io::Result<()> {
        self.rt.create_dir(path)
    }

    fn remove_dir(&self, path: &str) -> io::Result<()> {
        self.rt.remove_dir(path)
    }

    fn remove_dir_all<B: Allocator>(&self, alloc: B, path: &str) -> io::Result<()> {
        self.rt.remove_dir_all(alloc, path)
    }

    fn canonicalize<B: Allocator>(&self, alloc: B, path: &str) -> io::Result<PathBuf<B>> {
        self.rt.canonicalize(alloc, path)
    }
}

impl Clock for Swapping<'_> {
    fn monotonic(&self) -> io::Result<Duration> {
        self.rt.monotonic()
    }

    fn since_1970(&self) -> io::Result<Duration> {
        self.rt.since_1970()
    }
}

impl RandomSource for Swapping<'_> {
    fn fill_bytes(&self, buf: &mut [u8]) -> io::Result<()> {
        self.rt.fill_bytes(buf)
    }
}
