//! Pages of paths, from each start and one behind the other.
use super::*;
use depot_api::Depot;
use depot_files::FileDepot;

/// What stands for a page that is a fault.
pub const FAILS: &str = "(fault)";

/// Walks below `a`: behind which path one begins, if any, the most paths of a page, and the pages.
const WALKS: [(&str, usize, &str); 7] = [
    ("", 1, "a/b/c|a/b/d|a/b.c|a/c|"),
    ("", 3, "a/b/c a/b/d a/b.c|a/c"),
    ("Z", 9, "a/b/c a/b/d a/b.c a/c"),
    ("a/b", 9, "a/b/c a/b/d a/b.c a/c"),
    ("a/b/c", 9, "a/b/d a/b.c a/c"),
    ("a/b/cc", 9, "a/b/d a/b.c a/c"),
    ("a/b/d/e", 9, "a/b.c a/c"),
];

#[test]
fn pages_are_the_next_files_in_order(rt: HostRuntime) -> Result<(), Fail> {
    make(&rt, "walks")?;
    for (after, most, pages) in WALKS {
        assert!(rt; are_pages(&rt, after, most, pages)?, "{most} {after}");
    }
    Ok(fs::remove_dir_all(&rt, "walks")?)
}

// Whether such pages follow each other, each behind the last path of the one before it, and twice,
// so that a walk goes on and another begins at the same place.
fn are_pages(rt: &HostRuntime, after: &str, most: usize, pages: &str) -> Result<bool, Fail> {
    let mut depot = FileDepot::open(rt, "walks/root")?;
    let mut last = None;
    for page in pages.split('|') {
        let after = last.unwrap_or(after);
        if !is_page(rt.alloc(), &mut depot, "a", after, most, page)?
            || !is_page(rt.alloc(), &mut depot, "a", after, most, page)?
        {
            return Ok(false);
        }
        last = page.rsplit(' ').next();
    }
    Ok(true)
}

/// Whether this is the page of the files that begin with `under`, behind a path where one is given.
pub fn is_page(
    alloc: Global,
    depot: &mut FileDepot<&HostRuntime>,
    under: &str,
    after: &str,
    most: usize,
    page: &str,
) -> Result<bool, Fail> {
    let under = path(alloc, under)?;
    let after = Path::read(alloc, after)?;
    match depot.page(alloc, &under, after.as_ref(), most) {
        Ok(found) => Ok(texts_of(alloc, &found)?.trim_end() == page),
        Err(error) => Ok(error == Refused::Failed && page == FAILS),
    }
}

// The texts of paths, with a space behind each.
fn texts_of(alloc: Global, paths: &[Path]) -> Result<String, Fail> {
    let mut texts = String::new(alloc);
    for path in paths {
        texts.push_str(path.text(alloc)?.as_str())?;
        texts.push_str(" ")?;
    }
    Ok(texts)
}
