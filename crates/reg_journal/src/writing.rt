//! Entries as bytes.
ghost use Rattle.std.specs.Prelude.{◌≡◌, ◌≤◌, ◌++◌, length, IfOk, OnOk};
ghost use Rattle.std.specs.List.{flat_map, AllByRecursion};
ghost use Rattle.reg_names.specs.Digests.{IsDigest};
ghost use Rattle.reg_names.specs.Limits.{name_limit};
ghost use Rattle.reg_names.specs.Named.{digests_of};
ghost use Rattle.reg_names.specs.Names.{IsName};
ghost use Rattle.reg_names.specs.Tags.{IsTag};
ghost use Rattle.reg_entries.specs.Documents.{list_limit};
ghost use Rattle.reg_journal.specs.Entries.{IsNumber, IsDocument, IsWhat, IsEntry};
ghost use Rattle.reg_journal.specs.Spelling.{number_field, count_field, text_field, digest_field, kind_field, kind_number, named_field, list_field, document_field, fields_of, entry_spelled};

use crate::{Entry, What};
use reg_entries::Document;
use reg_names::{Bytes, Digest, Kind, Name, Named, NoMemory, Tag};
use std::alloc::Global;

/// The one spelling of an entry.
pub fn entry_bytes(alloc: Global, entry: &Entry) -> Result<Bytes, NoMemory>
    ensures spelled { IfOk result (λ bytes. bytes ≡ entry_spelled entry.now) }
    ensures entry { OnOk result (IsEntry entry.now) }
{
    let mut out = Vec::new(alloc);
    out.push(entry.what.number())?;
    put_number(&mut out, entry.moment)?;
    put_fields(&mut out, &entry.what)?;
    Ok(Bytes::from_vec(out))
}

fn put_fields(out: &mut Vec<u8>, what: &What) -> Result<(), NoMemory>
    ensures out { OnOk result (out.new.items ≡ out.old.items ++ fields_of what.now) }
    ensures what { OnOk result (IsWhat what.now) }
{
    match what {
        What::Put { name, digest, doc } | What::Brought { name, digest, doc } => {
            put_spot(out, name, digest)?;
            put_document(out, doc)?;
        }
        What::SetTag { name, tag, digest } | What::BroughtTag { name, tag, digest } => {
            put_tag_spot(out, name, tag)?;
            put_digest(out, digest)?;
        }
        What::DropTag { name, tag } => put_tag_spot(out, name, tag)?,
        What::Link { name, digest, size } | What::BroughtLink { name, digest, size } => {
            put_spot(out, name, digest)?;
            put_number(out, *size)?;
        }
        What::DropManifest { name, digest }
        | What::Unlink { name, digest }
        | What::RemovedManifest { name, digest }
        | What::RemovedLink { name, digest }
        | What::Collect { name, digest }
        | What::DropLink { name, digest } => put_spot(out, name, digest)?,
        What::Mark { digest } | What::Doom { digest } | What::Erase { digest } => {
            put_digest(out, digest)?;
        }
        What::Opened => {}
        What::BroughtBlob { digest, size } => {
            put_digest(out, digest)?;
            put_number(out, *size)?;
        }
    }
    Ok(())
}

fn put_spot(out: &mut Vec<u8>, name: &Name, digest: &Digest) -> Result<(), NoMemory>
    ensures out { OnOk result (out.new.items
        ≡ out.old.items ++ (text_field name.now ++ digest_field digest.now)) }
    ensures name { OnOk result (IsName name.now) }
    ensures digest { OnOk result (IsDigest digest.now) }
{
    put_text(out, name.as_str())?;
    put_digest(out, digest)?;
    Ok(())
}

fn put_tag_spot(out: &mut Vec<u8>, name: &Name, tag: &Tag) -> Result<(), NoMemory>
    ensures out { OnOk result (out.new.items
        ≡ out.old.items ++ (text_field name.now ++ text_field tag.now)) }
    ensures name { OnOk result (IsName name.now) }
    ensures tag { OnOk result (IsTag tag.now) }
{
    put_text(out, name.as_str())?;
    put_text(out, tag.as_str())?;
    Ok(())
}

fn put_text(out: &mut Vec<u8>, text: &str) -> Result<(), NoMemory>
    requires { length text.now ≤ name_limit }
    ensures { OnOk result (out.new.items ≡ out.old.items ++ text_field text.now) }
{
    out.push(text.len() as u8)?;
    out.extend_from_slice(text.as_bytes())?;
    Ok(())
}

fn put_digest(out: &mut Vec<u8>, digest: &Digest) -> Result<(), NoMemory>
    ensures out { OnOk result (out.new.items ≡ out.old.items ++ digest_field digest.now) }
    ensures digest { OnOk result (IsDigest digest.now) }
{
    out.push(1)?;
    out.extend_from_slice(digest.raw())?;
    Ok(())
}

fn put_number(out: &mut Vec<u8>, number: u64) -> Result<(), NoMemory>
    ensures out { OnOk result (out.new.items ≡ out.old.items ++ number_field number) }
    ensures number { IsNumber number }
{
    out.extend_from_slice(&number.to_be_bytes())?;
    Ok(())
}

fn put_count(out: &mut Vec<u8>, count: usize) -> Result<(), NoMemory>
    requires { count ≤ list_limit }
    ensures { OnOk result (out.new.items ≡ out.old.items ++ count_field count) }
{
    out.extend_from_slice(&(count as u16).to_be_bytes())?;
    Ok(())
}

fn put_document(out: &mut Vec<u8>, doc: &Document) -> Result<(), NoMemory>
    ensures out { OnOk result (out.new.items ≡ out.old.items ++ document_field doc.now) }
    ensures doc { OnOk result (IsDocument doc.now) }
{
    out.push(number_of_kind(doc.kind))?;
    put_number(out, doc.size)?;
    put_named_list(out, doc.named.as_slice())?;
    put_digest_list(out, doc.children.as_slice())?;
    Ok(())
}

fn number_of_kind(kind: Kind) -> u8
    ensures { result ≡ kind_number kind }
{
    match kind {
        Kind::OciImage => 1,
        Kind::OciIndex => 2,
        Kind::DockerImage => 3,
        Kind::DockerList => 4,
    }
}

fn put_named_list(out: &mut Vec<u8>, named: &[Named]) -> Result<(), NoMemory>
    requires { length named.now ≤ list_limit }
    ensures out { OnOk result (out.new.items ≡ out.old.items ++ list_field named_field named.now) }
    ensures digests { OnOk result (AllByRecursion IsDigest (digests_of named.now)) }
{
    put_count(out, named.len())?;
    for item in named {
        put_digest(out, &item.digest)?;
        out.push(item.free as u8)?;
    }
    Ok(())
}

fn put_digest_list(out: &mut Vec<u8>, digests: &[Digest]) -> Result<(), NoMemory>
    requires { length digests.now ≤ list_limit }
    ensures out { OnOk result (out.new.items
        ≡ out.old.items ++ list_field digest_field digests.now) }
    ensures digests { OnOk result (AllByRecursion IsDigest digests.now) }
{
    put_count(out, digests.len())?;
    for digest in digests {
        put_digest(out, digest)?;
    }
    Ok(())
}
