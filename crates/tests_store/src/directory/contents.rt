//! Each kind of file at each kind of place, and each kind of root.
use super::pages::{FAILS, is_page};
use super::*;
use depot_api::{Blob, Depot, Small};
use depot_files::{FileBlob, FileDepot};
use std::fs::File;
use std::io::ErrorKind;

/// What lies at a path: a file with these bytes, no file, or what is a fault.
type Told<'a> = Result<Option<&'a str>, Refused>;

const FAULT: Told<'static> = Err(Refused::Failed);

/// What lies at a path, and the page of the files that begin with it.
const TOLD: [(&str, Told<'static>, &str); 25] = [
    ("b", Ok(Some("x")), "b"),
    ("a/b.c", Ok(Some("hello")), "a/b.c"),
    ("a/b/c", Ok(Some("in c")), "a/b/c"),
    ("a/c", Ok(Some("")), "a/c"),
    ("a", Ok(None), "a/b/c a/b/d a/b.c a/c"),
    ("a/b", Ok(None), "a/b/c a/b/d"),
    ("a/d", Ok(None), ""),
    ("c/d", Ok(None), ""),
    ("a/c/d", Ok(None), ""),
    ("to_file", Ok(None), FAILS),
    ("to_file/x", Ok(Some("x")), "to_file/x"),
    ("to_file/link", FAULT, FAILS),
    ("to_file/link/x", FAULT, FAILS),
    ("to_folder", FAULT, FAILS),
    ("to_folder/c", FAULT, FAILS),
    ("to_folder/b/c", FAULT, FAILS),
    ("out", Ok(None), FAILS),
    ("out/link", FAULT, FAILS),
    ("to_outside", FAULT, FAILS),
    ("to_outside/secret", FAULT, FAILS),
    ("torn", Ok(None), FAILS),
    ("torn/link", FAULT, FAILS),
    ("torn/link/x", FAULT, FAILS),
    ("loop", FAULT, FAILS),
    ("loop/x", FAULT, FAILS),
];

#[test]
fn each_kind_of_file_is_told_at_each_kind_of_place(rt: HostRuntime) -> Result<(), Fail> {
    make(&rt, "kinds")?;
    for (at, told, page) in TOLD {
        assert!(rt; is_kind(&rt, at, told, page)?, "{at}");
    }
    Ok(fs::remove_dir_all(&rt, "kinds")?)
}

#[test]
fn a_root_is_a_folder(rt: HostRuntime) -> Result<(), Fail> {
    make(&rt, "roots")?;
    for (root, refused) in [
        ("roots/root/to_folder", None),
        ("roots/root/b", Some(ErrorKind::NotADirectory)),
        ("roots/root/none", Some(ErrorKind::NotFound)),
    ] {
        let error = FileDepot::open(&rt, root).err();
        assert_eq!(rt; error.map(|error| error.kind()), refused, "{root}");
    }
    Ok(fs::remove_dir_all(&rt, "roots")?)
}

fn is_kind(rt: &HostRuntime, at: &str, told: Told<'_>, page: &str) -> Result<bool, Fail> {
    let mut depot = FileDepot::open(rt, "kinds/root")?;
    is_told(rt.alloc(), &mut depot, at, told, page)
}

/// Whether each call that reads tells this of a path, and this is the page of the files that begin with it.
pub fn is_told(
    alloc: Global,
    depot: &mut FileDepot<&HostRuntime>,
    at: &str,
    told: Told<'_>,
    page: &str,
) -> Result<bool, Fail> {
    let path = path(alloc, at)?;
    let size = told.map(|found| found.map(|bytes| bytes.len() as u64));
    let is_told = depot.size(alloc, &path) == size
        && is_small(alloc, depot, &path, told)
        && is_blob(alloc, depot, &path, told);
    Ok(is_told && is_page(alloc, depot, at, "", 9, page)?)
}

/// The length of `a/b/c`, one below that of `a/b.c`.
const MOST: u64 = 4;

fn is_small(alloc: Global, depot: &mut FileDepot<&HostRuntime>, at: &Path, told: Told<'_>) -> bool {
    match (depot.read_small(alloc, at, MOST), told) {
        (Ok(Small::Content(found)), Ok(Some(bytes))) => found.as_slice() == bytes.as_bytes(),
        (Ok(Small::TooLong), Ok(Some(bytes))) => bytes.len() as u64 > MOST,
        (Ok(Small::Absent), Ok(None)) | (Err(Refused::Failed), Err(_)) => true,
        _ => false,
    }
}

fn is_blob(alloc: Global, depot: &mut FileDepot<&HostRuntime>, at: &Path, told: Told<'_>) -> bool {
    match (depot.fetch(alloc, at), told) {
        (Ok(Some(blob)), Ok(Some(bytes))) => gives(blob, bytes.as_bytes()),
        (Ok(None), Ok(None)) | (Err(Refused::Failed), Err(_)) => true,
        _ => false,
    }
}

// Whether a blob gives these bytes in pieces of three, and then none.
fn gives(mut blob: FileBlob<File>, bytes: &[u8]) -> bool {
    let mut buffer = [0; 3];
    for piece in bytes.chunks(3) {
        if blob.read(&mut buffer) != Ok(piece.len()) || !buffer.starts_with(piece) {
            return false;
        }
    }
    blob.read(&mut buffer) == Ok(0)
}
