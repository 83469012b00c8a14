//! What stands after each change, also of a path that is lent, and of what cannot be changed.
use super::contents::is_told;
use super::pages::is_page;
use super::*;
use depot_api::{Depot, PART_LIMIT, Stage, Unplaced};
use depot_files::FileDepot;
use std::fs::OpenOptions;
use std::time::{Duration, SystemTime};

/// A folder and a path that lead through a file, and a folder: no file is put there.
const TAKEN: [&str; 3] = ["b/x", "b/x/y", "a/b"];

/// Files and paths without one, what is appended to each, and what stands there then.
const GROWN: [(&str, &str, &str); 3] = [
    ("a/c", "lo", "lo"),
    ("a/b.c", "lo", "hellolo"),
    ("new/data", "", ""),
];

/// Targets, with and without a file, and what stands there once `a/b.c` was placed.
const PLACED: [(&str, &str); 3] = [("new/folder/data", "hello"), ("a/d", "hello"), ("b", "x")];

/// Ages in seconds of files without a path, and whether they outlast the opening of a depot.
const AGES: [(u64, bool); 3] = [(0, true), (86_000, true), (86_400, false)];

#[test]
fn what_is_put_stands_there(rt: HostRuntime) -> Result<(), Fail> {
    make(&rt, "puts")?;
    for at in ["b", "a/b/c", "new/folder/data"] {
        assert!(rt; is_put(&rt, at)?, "{at}");
    }
    assert!(rt; is_put_under_a_long_name(&rt)?);
    for at in TAKEN {
        assert!(rt; is_put_elsewhere(&rt, at)?, "{at}");
    }
    Ok(fs::remove_dir_all(&rt, "puts")?)
}

#[test]
fn a_lent_path_is_absent_until_it_is_shelved(rt: HostRuntime) -> Result<(), Fail> {
    make(&rt, "loans")?;
    for (at, piece, bytes) in GROWN {
        assert!(rt; is_lent(&rt, at, piece)?, "{at}");
        assert!(rt; is_staged_again(&rt, at, bytes)?, "{at}");
    }
    Ok(fs::remove_dir_all(&rt, "loans")?)
}

#[test]
fn a_stage_is_placed_where_no_file_stands(rt: HostRuntime) -> Result<(), Fail> {
    for (to, bytes) in PLACED {
        make(&rt, "places")?;
        assert!(rt; is_placed(&rt, to, bytes)?, "{to}");
    }
    assert!(rt; is_no_stage_placed(&rt)?);
    Ok(fs::remove_dir_all(&rt, "places")?)
}

#[test]
fn what_is_removed_is_gone(rt: HostRuntime) -> Result<(), Fail> {
    make(&rt, "removes")?;
    for at in ["a/b.c", "a/b.c", "none", "no/folder"] {
        assert!(rt; is_removed(&rt, at)?, "{at}");
    }
    Ok(fs::remove_dir_all(&rt, "removes")?)
}

#[test]
fn what_is_left_over_for_a_day_goes(rt: HostRuntime) -> Result<(), Fail> {
    for (age, stays) in AGES {
        assert_eq!(rt; outlasts(&rt, age)?, stays, "{age}");
    }
    Ok(fs::remove_dir_all(&rt, "ages")?)
}

fn is_put(rt: &HostRuntime, at: &str) -> Result<bool, Fail> {
    let mut depot = FileDepot::open(rt, "puts/root")?;
    let put = depot.put_small(rt.alloc(), &path(rt.alloc(), at)?, b"put");
    Ok(put == Ok(()) && is_told(rt.alloc(), &mut depot, at, Ok(Some("put")), at)?)
}

fn is_put_under_a_long_name(rt: &HostRuntime) -> Result<bool, Fail> {
    is_put(rt, "n".repeat(rt.alloc(), PART_LIMIT)?.as_str())
}

// Whether a file is not put at a path, and the next one is, with nothing left over.
fn is_put_elsewhere(rt: &HostRuntime, at: &str) -> Result<bool, Fail> {
    let mut depot = FileDepot::open(rt, "puts/root")?;
    let put = depot.put_small(rt.alloc(), &path(rt.alloc(), at)?, b"put");
    let next = depot.put_small(rt.alloc(), &path(rt.alloc(), "next")?, b"put");
    Ok(
        put == Err(Refused::Failed)
            && next == Ok(())
            && depot.faults() == 1
            && is_page(rt.alloc(), &mut depot, ".unnamed", "", 9, "")?,
    )
}

// Whether a path is lent once, and is absent until its stage, with a piece more, is shelved.
fn is_lent(rt: &HostRuntime, at: &str, piece: &str) -> Result<bool, Fail> {
    let mut depot = FileDepot::open(rt, "loans/root")?;
    let path = path(rt.alloc(), at)?;
    let mut stage = depot.stage(rt.alloc(), &path)?.ok_or("lent")?;
    let has_grown = grows(&mut stage, piece.as_bytes());
    let is_absent = depot.stage(rt.alloc(), &path)?.is_none()
        && depot.remove(rt.alloc(), &path) == Ok(())
        && is_told(rt.alloc(), &mut depot, at, Ok(None), "")?;
    depot.shelve(stage);
    Ok(has_grown && is_absent && depot.faults() == 0)
}

// Whether a small stage takes a piece of at most two bytes, and gives it back.
fn grows<S: Stage>(stage: &mut S, piece: &[u8]) -> bool {
    let before = stage.length();
    if before > 9 || piece.len() > 2 {
        return false;
    }
    let mut last = [0; 2];
    stage.append(piece) == Ok(())
        && stage.read_at(before, &mut last) == Ok(piece.len())
        && last.starts_with(piece)
}

// Whether a file has these bytes, and is staged with them.
fn is_staged_again(rt: &HostRuntime, at: &str, bytes: &str) -> Result<bool, Fail> {
    let mut depot = FileDepot::open(rt, "loans/root")?;
    let is_file = is_told(rt.alloc(), &mut depot, at, Ok(Some(bytes)), at)?;
    let stage = depot.stage(rt.alloc(), &path(rt.alloc(), at)?)?;
    Ok(is_file && stage.is_some_and(|stage| stage.length() == bytes.len() as u64))
}

// Whether, once `a/b.c` was placed, these bytes stand at the target, and no file where it was.
fn is_placed(rt: &HostRuntime, to: &str, bytes: &str) -> Result<bool, Fail> {
    let mut depot = FileDepot::open(rt, "places/root")?;
    let stage = depot
        .stage(rt.alloc(), &path(rt.alloc(), "a/b.c")?)?
        .ok_or("lent")?;
    let placed = depot.place(rt.alloc(), stage, &path(rt.alloc(), to)?);
    Ok(
        matches!(placed, Ok(size) if size == bytes.len() as u64)
            && is_told(rt.alloc(), &mut depot, "a/b.c", Ok(None), "")?
            && is_told(rt.alloc(), &mut depot, to, Ok(Some(bytes)), to)?,
    )
}

// Whether a stage is a fault when it is placed whose name a small file has taken, which stays.
fn is_no_stage_placed(rt: &HostRuntime) -> Result<bool, Fail> {
    let mut depot = FileDepot::open(rt, "places/root")?;
    let at = path(rt.alloc(), "a/b.c")?;
    let stage = depot.stage(rt.alloc(), &at)?.ok_or("lent")?;
    depot.put_small(rt.alloc(), &at, b"put")?;
    let placed = depot.place(rt.alloc(), stage, &path(rt.alloc(), "never")?);
    Ok(
        matches!(placed, Err(Unplaced::Failed))
            && is_told(rt.alloc(), &mut depot, "a/b.c", Ok(Some("put")), "a/b.c")?
            && is_told(rt.alloc(), &mut depot, "never", Ok(None), "")?,
    )
}

fn is_removed(rt: &HostRuntime, at: &str) -> Result<bool, Fail> {
    let mut depot = FileDepot::open(rt, "removes/root")?;
    let removed = depot.remove(rt.alloc(), &path(rt.alloc(), at)?);
    Ok(removed == Ok(()) && is_told(rt.alloc(), &mut depot, at, Ok(None), "")?)
}

// Whether a file without a path, last written so long ago, is there behind the opening of a depot.
fn outlasts(rt: &HostRuntime, age: u64) -> Result<bool, Fail> {
    let file = "ages/root/.unnamed/1-2.000000003-0";
    write(rt, file, "left over")?;
    let written = SystemTime::now(rt)?.checked_sub(Duration::from_secs(age));
    let opened = OpenOptions::new().write(true).open(rt, file)?;
    opened.set_modified(written.ok_or("before 1970")?)?;
    let _ = FileDepot::open(rt, "ages/root")?;
    Ok(fs::exists(rt, file)?)
}
