//! What the link files of a small repository mean, behind more of them than a page has.
use crate::memory::file;
use depot_api::Refused;
use depot_api::memory::MemDepot;
use link_reading::{has_layer, known, listed_by, manifest, manifest_by_tag, resolve, tags};
use reg_names::{Digest, Name, Tag, Text};
use std::alloc::Global;
use std::test::Fail;

const HELLO: &str = "sha256:2cf24dba5fb0a30e26e83b2ac5b9e29e1b161e5c1fa7425e73043362938b9824";

const IMAGE: &str = "sha256:45e6cab447a43874c15eb3247f47eb9f18a923a632b4e6695e113ecd959555db";

const INDEX: &str = "sha256:9eb7a16258e7f551b520be936e283e83b8da59d436affc81367b75c48c166a6f";

// An image manifest.
const IMAGE_BYTES: &str = r#"{"schemaVersion":2,"layers":[],"config":
{"mediaType":"application/vnd.oci.empty.v1+json","size":5,"digest":
"sha256:2cf24dba5fb0a30e26e83b2ac5b9e29e1b161e5c1fa7425e73043362938b9824"}}"#;

// An index that lists it.
const INDEX_BYTES: &str = r#"{"schemaVersion":2,"manifests":[
{"mediaType":"application/vnd.oci.image.manifest.v1+json","size":184,"digest":
"sha256:45e6cab447a43874c15eb3247f47eb9f18a923a632b4e6695e113ecd959555db"}]}"#;

/// Each file: its path before and behind the digits of a digest, or a tag, and what it holds.
const FILES: [(&str, &str, &str, &str); 8] = [
    ("blobs/sha256/2c/", HELLO, "/data", "hello"),
    ("blobs/sha256/45/", IMAGE, "/data", IMAGE_BYTES),
    ("blobs/sha256/9e/", INDEX, "/data", INDEX_BYTES),
    (LAYERS, HELLO, "/link", HELLO),
    (REVISIONS, IMAGE, "/link", IMAGE),
    (REVISIONS, INDEX, "/link", INDEX),
    (TAGS, "latest", "/current/link", INDEX),
    (TAGS, "v1", "/current/link", IMAGE),
];

const LAYERS: &str = "repositories/a/_layers/sha256/";

const REVISIONS: &str = "repositories/a/_manifests/revisions/sha256/";

const TAGS: &str = "repositories/a/_manifests/tags/";

#[test]
fn each_call_finds_what_is_there(rt: HostRuntime) -> Result<(), Fail> {
    assert_eq!(rt; under_digest(rt.alloc(), HELLO)?, (Some(5), None, false));
    assert_eq!(rt; under_digest(rt.alloc(), IMAGE)?, (None, Some(184), true));
    assert_eq!(rt; under_tag(rt.alloc(), "latest")?, (true, Some(188)));
    assert_eq!(rt; under_tag(rt.alloc(), "v2")?, (false, None));
    assert_eq!(rt; count_tags(rt.alloc(), Some(1), "")?, (1, Some(1)));
    assert_eq!(rt; count_tags(rt.alloc(), None, "v1")?, (0, None));
    assert!(rt; is_known(rt.alloc(), "a")?);
    assert!(rt; !is_known(rt.alloc(), "a/b")?);
    Ok(())
}

#[test]
fn a_call_that_failed_is_made_again(rt: HostRuntime) -> Result<(), Fail> {
    // A page, a link, the next page, and a data file.
    for failing in [0, 1, 65, 68] {
        assert!(rt; fails_once(rt.alloc(), failing)?, "{failing}");
    }
    Ok(())
}

// The size of a layer, the length of a manifest, and whether another one lists it.
fn under_digest(alloc: Global, of: &str) -> Result<(Option<u64>, Option<usize>, bool), Fail> {
    let mut depot = depot(alloc, NEVER)?;
    let name = name(alloc, "a")?;
    let of = Digest::read(of).ok_or("no digest")?;
    let size = has_layer(alloc, &mut depot, &name, &of)?;
    let length = manifest(alloc, &mut depot, &name, &of)?.map(|(_, bytes)| bytes.len());
    let is_listed = listed_by(alloc, &mut depot, &name, &of)?.is_some();
    Ok((size, length, is_listed))
}

// Whether a tag points to a manifest, and the length of that.
fn under_tag(alloc: Global, tag: &str) -> Result<(bool, Option<usize>), Fail> {
    let mut depot = depot(alloc, NEVER)?;
    let name = name(alloc, "a")?;
    let tag = Tag::read(alloc, tag)?.ok_or("no tag")?;
    let points = resolve(alloc, &mut depot, &name, &tag)?.is_some();
    let found = manifest_by_tag(alloc, &mut depot, &name, &tag)?;
    Ok((points, found.map(|found| found.bytes.len())))
}

// How many tags are listed, and what stands beside them.
fn count_tags(alloc: Global, n: Option<u64>, last: &str) -> Result<(usize, Option<u64>), Fail> {
    let mut depot = depot(alloc, NEVER)?;
    let name = name(alloc, "a")?;
    let last = Text::from_str(alloc, last)?;
    let (found, more) = tags(alloc, &mut depot, &name, n, Some(&last))?;
    Ok((found.len(), more))
}

fn is_known(alloc: Global, text: &str) -> Result<bool, Fail> {
    let mut depot = depot(alloc, NEVER)?;
    Ok(known(alloc, &mut depot, &name(alloc, text)?)?)
}

// Whether a call tells a fault of the depot, and is right when it is made again.
fn fails_once(alloc: Global, failing: u64) -> Result<bool, Fail> {
    let mut depot = depot(alloc, failing)?;
    let name = name(alloc, "a")?;
    let image = Digest::read(IMAGE).ok_or("no digest")?;
    let failed = listed_by(alloc, &mut depot, &name, &image);
    let again = listed_by(alloc, &mut depot, &name, &image);
    Ok(failed == Err(Refused::Failed) && again == Ok(Digest::read(INDEX)))
}

fn name(alloc: Global, text: &str) -> Result<Name, Fail> {
    Ok(Name::read(alloc, text)?.ok_or("no name")?)
}

/// The number of a call that is not made.
const NEVER: u64 = u64::MAX;

// The files, and 65 links to nothing, which come first. A page has 64.
fn depot(alloc: Global, failing: u64) -> Result<MemDepot, Fail> {
    let mut files = Vec::new(alloc);
    for (before, of, behind, bytes) in FILES {
        let digits = of.strip_prefix("sha256:").unwrap_or(of);
        let path = format!(in alloc; "docker/registry/v2/{before}{digits}{behind}")?;
        files.push(file(alloc, path.as_str(), bytes)?)?;
    }
    for number in 0..65 {
        let path = format!(in alloc; "docker/registry/v2/{REVISIONS}{number:064}/link")?;
        files.push(file(alloc, path.as_str(), "")?)?;
    }
    Ok(MemDepot::new(alloc, files, vec![in alloc; failing]?)?)
}
