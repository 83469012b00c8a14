//! Tags.
ghost use Rattle.std.specs.Prelude.{◌≡◌, ◌↔◌, ◌∷◌, ◌++◌, [], Err, IfOk, OnErr, IsTrue, Some, length, option_copied};
ghost use Rattle.reg_entries.specs.Listing.{IsListing, IsNextTag, last_of};
ghost use Rattle.reg_entries.specs.declared.ask.Ask.TheVariants as asks;
ghost use Rattle.reg_entries.specs.declared.trouble.Trouble.TheVariants as troubles;
ghost use Rattle.reg_tables.specs.Finds.{LooksUp};
ghost use Rattle.tables_service.specs.Answers.{IfReplied, IfFitting};
ghost use Rattle.tables_service.specs.Telling.{FindsIn};

use crate::lookups::{is_known, tag_above};
use reg_entries::numbers::NAME_UNKNOWN;
use reg_entries::{Reply, Tags, Trouble};
use reg_names::{Name, Tag, Text};
use reg_tables::{Keeper, noting};
use std::alloc::Global;
use upload_sessions::refusal;

// More turns than a list may have tags.
const TURNS: u64 = 1 << 62;

/// The tags of a repository in byte order that are greater than `last`, and at most `n` of them, or a refusal where it
/// is unknown (OCI Distribution Specification 1.1, "Listing Tags"). It reads a row for each tag, one behind the last,
/// and at most two that tell whether the repository is known.
pub fn list_tags<K: Keeper>(
    alloc: Global,
    keeper: &mut K,
    name: &Name,
    n: Option<u64>,
    last: Option<&Text>,
) -> Result<Reply, Trouble>
    ensures answer { IfReplied (K.kept keeper.old)
        (asks.Tags name.now n (option_copied last.entry)) result }
    ensures fits { IfFitting (asks.Tags name.now n (option_copied last.entry)) result }
    ensures reads { LooksUp K.kept K.faults keeper.old keeper.new result }
{
    if !is_known(alloc, keeper, name)? {
        return Ok(refusal(NAME_UNKNOWN));
    }
    let (tags, more) = listing(alloc, keeper, name, n, last)?;
    let name = noting(name.copy(alloc))?;
    Ok(Reply::Tags { name, tags, more })
}

// The tags of a repository behind `last`, at most `n`, and `n` where there are more.
fn listing<K: Keeper>(
    alloc: Global,
    keeper: &mut K,
    name: &Name,
    n: Option<u64>,
    last: Option<&Text>,
) -> Result<(Tags, Option<u64>), Trouble>
    ensures value { FindsIn (K.kept keeper.old) result (λ state listing.
        IsListing state name.now n (option_copied last.entry) listing.0 listing.1) }
    ensures reads { LooksUp K.kept K.faults keeper.old keeper.new result }
{
    let mut found = Vec::new(alloc);
    if n == Some(0) {
        return Ok((Tags::from_vec(found), None));
    }
    for _ in 0..TURNS {
        let Some(tag) = tag_behind(alloc, keeper, name, &found, last)? else {
            return Ok((Tags::from_vec(found), None));
        };
        if is_full(&found, n) {
            return Ok((Tags::from_vec(found), n));
        }
        add(&mut found, tag)?;
    }
    Err(Trouble::NoMemory)
}

// The least tag of a repository behind those that were found, which are behind `last`.
fn tag_behind<K: Keeper>(
    alloc: Global,
    keeper: &mut K,
    name: &Name,
    found: &[Tag],
    last: Option<&Text>,
) -> Result<Option<Tag>, Trouble>
    ensures value { FindsIn (K.kept keeper.old) result (λ state.
        IsNextTag state name.now (last_of (option_copied last.entry) found.now)) }
    ensures reads { LooksUp K.kept K.faults keeper.old keeper.new result }
{
    match found.last() {
        Some(tag) => {
            let text = noting(tag.text(alloc))?;
            tag_above(alloc, keeper, name, Some(&text))
        }
        None => tag_above(alloc, keeper, name, last),
    }
}

// Whether as many tags were found as are asked for.
fn is_full(found: &[Tag], n: Option<u64>) -> bool
    ensures { IsTrue result ↔ (n ≡ Some (length found.now)) }
{
    n == Some(found.len() as u64)
}

fn add(found: &mut Vec<Tag>, tag: Tag) -> Result<(), Trouble>
    ensures added { IfOk result (λ _. found.new.items ≡ found.old.items ++ tag ∷ []) }
    ensures memory { OnErr result (result ≡ Err troubles.NoMemory) }
{
    match found.push(tag) {
        Ok(()) => Ok(()),
        Err(_) => Err(Trouble::NoMemory),
    }
}
