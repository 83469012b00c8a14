//! Entries that are written in one commit, over a keeper of which one call may fail.
use keeper_api::memory::MemKeeper;
use reg_entries::Trouble;
use reg_journal::{Entry, What};
use reg_names::{Digest, Name, NoMemory, Tag};
use reg_tables::{BlobRow, Trail, find_blob, find_link, find_tag, first_row, write};
use std::alloc::Global;
use std::test::Fail;

/// More than the calls of the keeper in any case.
const CALLS: u64 = 40;

/// When each entry is made.
const NOW: u64 = 1000;

#[test]
fn entries_are_numbered_from_one(rt: HostRuntime) -> Result<(), Fail> {
    let alloc = rt.alloc();
    let mut tables = Tables::failing(alloc, None)?;
    assert_eq!(rt; tables.write(alloc, opened(alloc)?), Ok(1));
    assert_eq!(rt; tables.write(alloc, moves(alloc)?), Ok(6));
    assert_eq!(rt; tables.write(alloc, Vec::new(alloc)), Ok(6));
    assert_eq!(rt; tables.trail.entries().len(), 6);
    Ok(())
}

#[test]
fn a_later_entry_of_a_commit_counts(rt: HostRuntime) -> Result<(), Fail> {
    let alloc = rt.alloc();
    let mut tables = Tables::failing(alloc, None)?;
    assert_eq!(rt; tables.write(alloc, moves(alloc)?), Ok(5));
    assert!(rt; tables.have_moved(alloc)?);
    Ok(())
}

#[test]
fn a_write_that_failed_left_nothing_and_is_made_again(rt: HostRuntime) -> Result<(), Fail> {
    for call in 0..CALLS {
        assert!(rt; is_made_again(rt.alloc(), call)?, "call {call}");
    }
    Ok(())
}

/// Rows, and what was written to them.
#[derive(Drop)]
struct Tables {
    keeper: MemKeeper,
    trail: Trail,
}

impl Tables {
    // Empty tables, of which the call of a number fails.
    fn failing(alloc: Global, call: Option<u64>) -> Result<Tables, NoMemory> {
        let mut fail = Vec::new(alloc);
        if let Some(call) = call {
            fail.push(call)?;
        }
        Ok(Tables {
            keeper: MemKeeper::new(alloc, fail),
            trail: Trail::new(alloc),
        })
    }

    fn write(&mut self, alloc: Global, entries: Vec<Entry>) -> Result<u64, Trouble> {
        let changes = Vec::new(alloc);
        write(alloc, &mut self.keeper, &mut self.trail, changes, entries)
    }

    // Whether the tag points to the second digest, and the first one's blob is here without a link.
    fn have_moved(&mut self, alloc: Global) -> Result<bool, Fail> {
        let name = name(alloc)?;
        let tag = tag(alloc)?;
        let target = find_tag(alloc, &mut self.keeper, &name, &tag);
        let link = find_link(alloc, &mut self.keeper, &name, &first());
        let blob = find_blob(alloc, &mut self.keeper, &first());
        let here = BlobRow::Here {
            size: 5,
            touched: NOW + 1,
        };
        Ok(target == Ok(Some(second())) && link == Ok(None) && blob == Ok(Some(here)))
    }

    fn are_empty(&mut self, alloc: Global) -> bool {
        self.trail.entries().is_empty() && first_row(alloc, &mut self.keeper) == Ok(None)
    }
}

/// Where a call fails, the write is refused and no row stands; the same write then has its number.
fn is_made_again(alloc: Global, call: u64) -> Result<bool, Fail> {
    let mut tables = Tables::failing(alloc, Some(call))?;
    match tables.write(alloc, moves(alloc)?) {
        Ok(number) => Ok(number == 5),
        Err(trouble) => {
            let left = tables.are_empty(alloc);
            let again = tables.write(alloc, moves(alloc)?);
            Ok(trouble == Trouble::Keeper && left && again == Ok(5) && tables.have_moved(alloc)?)
        }
    }
}

fn opened(alloc: Global) -> Result<Vec<Entry>, Fail> {
    Ok(Vec::from_array(alloc, [entry(NOW, What::Opened)])?)
}

// A tag that is set twice, and a link that comes and goes.
fn moves(alloc: Global) -> Result<Vec<Entry>, Fail> {
    let entries = [
        entry(NOW, What::Mark { digest: first() }),
        entry(
            NOW,
            What::Link {
                name: name(alloc)?,
                digest: first(),
                size: 5,
            },
        ),
        entry(
            NOW,
            What::SetTag {
                name: name(alloc)?,
                tag: tag(alloc)?,
                digest: first(),
            },
        ),
        entry(
            NOW,
            What::SetTag {
                name: name(alloc)?,
                tag: tag(alloc)?,
                digest: second(),
            },
        ),
        entry(
            NOW + 1,
            What::Unlink {
                name: name(alloc)?,
                digest: first(),
            },
        ),
    ];
    Ok(Vec::from_array(alloc, entries)?)
}

fn entry(moment: u64, what: What) -> Entry {
    Entry { moment, what }
}

fn name(alloc: Global) -> Result<Name, Fail> {
    Ok(Name::read(alloc, "a")?.ok_or("no name")?)
}

fn tag(alloc: Global) -> Result<Tag, Fail> {
    Ok(Tag::read(alloc, "v1")?.ok_or("no tag")?)
}

fn first() -> Digest {
    Digest::from_sha256([1; 32])
}

fn second() -> Digest {
    Digest::from_sha256([2; 32])
}
