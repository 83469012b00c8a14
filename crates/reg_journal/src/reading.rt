//! Entries from their bytes.
ghost use Rattle.std.specs.Prelude.{◌≡◌, IfOk};
ghost use Rattle.reg_names.specs.Reading.{ReadsBack};
ghost use Rattle.reg_journal.specs.Entries.{IsEntry};
ghost use Rattle.reg_journal.specs.Spelling.{entry_spelled};
ghost use Rattle.reg_journal.specs.InnerReading.{Gives, spot_at, tag_spot_at, target_at, manifest_at, link_at, blob_at, what_at, entry_at};

use crate::reader::Reader;
use crate::unread::Unread;
use crate::{Entry, What, numbers};
use reg_entries::Document;
use reg_names::{Digest, Name, NoMemory, Tag};
use std::alloc::Global;

/// The entry that the bytes spell, all of them. `None` comes exactly where they spell none: a kind, a name, a tag, a
/// digest or a list is none, or there is a byte less or more.
pub fn read_entry(alloc: Global, bytes: &[u8]) -> Result<Option<Entry>, NoMemory>
    ensures { IfOk result (ReadsBack IsEntry entry_spelled bytes.now) }
{
    match read_all(alloc, bytes) {
        Ok(entry) => Ok(Some(entry)),
        Err(Unread::Malformed) => Ok(None),
        Err(Unread::NoMemory) => Err(NoMemory),
    }
}

#[tactic(auto, unfolding(crate::specs::InnerReading::entry_at))]
fn read_all(alloc: Global, bytes: &[u8]) -> Result<Entry, Unread>
    ensures { Gives (λ x. x) result (entry_at bytes.now) }
{
    let mut reader = Reader::new(bytes);
    let number = reader.byte()?;
    let moment = reader.number()?;
    let what = read_what(alloc, number, &mut reader)?;
    if !reader.is_at_end() {
        return Err(Unread::Malformed);
    }
    Ok(Entry { moment, what })
}

// The fields of an entry of the kind with this number.
#[tactic(auto, unfolding(crate::specs::InnerReading::what_at, crate::specs::InnerReading::kinds))]
fn read_what(alloc: Global, number: u8, reader: &mut Reader<'_>) -> Result<What, Unread>
    ensures { Gives (λ x. (x, reader.new)) result (what_at number reader.old) }
{
    match number {
        numbers::PUT => {
            let ((name, digest), doc) = read_manifest(alloc, reader)?;
            Ok(What::Put { name, digest, doc })
        }
        numbers::SET_TAG => {
            let ((name, tag), digest) = read_target(alloc, reader)?;
            Ok(What::SetTag { name, tag, digest })
        }
        numbers::DROP_TAG => {
            let (name, tag) = read_tag_spot(alloc, reader)?;
            Ok(What::DropTag { name, tag })
        }
        numbers::DROP_MANIFEST => {
            let (name, digest) = read_spot(alloc, reader)?;
            Ok(What::DropManifest { name, digest })
        }
        numbers::MARK => {
            let digest = reader.digest()?;
            Ok(What::Mark { digest })
        }
        numbers::LINK => {
            let ((name, digest), size) = read_link(alloc, reader)?;
            Ok(What::Link { name, digest, size })
        }
        numbers::UNLINK => {
            let (name, digest) = read_spot(alloc, reader)?;
            Ok(What::Unlink { name, digest })
        }
        numbers::BROUGHT => {
            let ((name, digest), doc) = read_manifest(alloc, reader)?;
            Ok(What::Brought { name, digest, doc })
        }
        numbers::BROUGHT_LINK => {
            let ((name, digest), size) = read_link(alloc, reader)?;
            Ok(What::BroughtLink { name, digest, size })
        }
        numbers::BROUGHT_TAG => {
            let ((name, tag), digest) = read_target(alloc, reader)?;
            Ok(What::BroughtTag { name, tag, digest })
        }
        numbers::REMOVED_MANIFEST => {
            let (name, digest) = read_spot(alloc, reader)?;
            Ok(What::RemovedManifest { name, digest })
        }
        numbers::REMOVED_LINK => {
            let (name, digest) = read_spot(alloc, reader)?;
            Ok(What::RemovedLink { name, digest })
        }
        numbers::OPENED => Ok(What::Opened),
        numbers::BROUGHT_BLOB => {
            let (digest, size) = read_blob(reader)?;
            Ok(What::BroughtBlob { digest, size })
        }
        numbers::COLLECT => {
            let (name, digest) = read_spot(alloc, reader)?;
            Ok(What::Collect { name, digest })
        }
        numbers::DROP_LINK => {
            let (name, digest) = read_spot(alloc, reader)?;
            Ok(What::DropLink { name, digest })
        }
        numbers::DOOM => {
            let digest = reader.digest()?;
            Ok(What::Doom { digest })
        }
        numbers::ERASE => {
            let digest = reader.digest()?;
            Ok(What::Erase { digest })
        }
        _ => Err(Unread::Malformed),
    }
}

#[tactic(auto, unfolding(crate::specs::InnerReading::spot_at))]
fn read_spot(alloc: Global, reader: &mut Reader<'_>) -> Result<(Name, Digest), Unread>
    ensures { Gives (λ x. (x, reader.new)) result (spot_at reader.old) }
{
    let name = reader.name(alloc)?;
    let digest = reader.digest()?;
    Ok((name, digest))
}

#[tactic(auto, unfolding(crate::specs::InnerReading::tag_spot_at))]
fn read_tag_spot(alloc: Global, reader: &mut Reader<'_>) -> Result<(Name, Tag), Unread>
    ensures { Gives (λ x. (x, reader.new)) result (tag_spot_at reader.old) }
{
    let name = reader.name(alloc)?;
    let tag = reader.tag(alloc)?;
    Ok((name, tag))
}

#[tactic(auto, unfolding(crate::specs::InnerReading::target_at))]
fn read_target(alloc: Global, reader: &mut Reader<'_>) -> Result<((Name, Tag), Digest), Unread>
    ensures { Gives (λ x. (x, reader.new)) result (target_at reader.old) }
{
    let spot = read_tag_spot(alloc, reader)?;
    let digest = reader.digest()?;
    Ok((spot, digest))
}

#[tactic(auto, unfolding(crate::specs::InnerReading::manifest_at))]
fn read_manifest(
    alloc: Global,
    reader: &mut Reader<'_>,
) -> Result<((Name, Digest), Document), Unread>
    ensures { Gives (λ x. (x, reader.new)) result (manifest_at reader.old) }
{
    let spot = read_spot(alloc, reader)?;
    let doc = reader.document(alloc)?;
    Ok((spot, doc))
}

#[tactic(auto, unfolding(crate::specs::InnerReading::link_at))]
fn read_link(alloc: Global, reader: &mut Reader<'_>) -> Result<((Name, Digest), u64), Unread>
    ensures { Gives (λ x. (x, reader.new)) result (link_at reader.old) }
{
    let spot = read_spot(alloc, reader)?;
    let size = reader.number()?;
    Ok((spot, size))
}

#[tactic(auto, unfolding(crate::specs::InnerReading::blob_at))]
fn read_blob(reader: &mut Reader<'_>) -> Result<(Digest, u64), Unread>
    ensures { Gives (λ x. (x, reader.new)) result (blob_at reader.old) }
{
    let digest = reader.digest()?;
    let size = reader.number()?;
    Ok((digest, size))
}
