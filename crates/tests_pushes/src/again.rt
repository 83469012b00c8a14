//! Pushes and deletes of which one call of the depot fails, and which are made again over what stands then.
use depot_api::memory::{FixedClock, ListedIds, MemDepot, MemSink, MemSource};
use depot_api::{Bytes, NoMemory};
use reg_run::run_plain;
use std::alloc::Global;
use std::test::Fail;

/// More than the calls of the depot in any case.
const CALLS: u64 = 400;

/// As many bytes a sink takes.
const MOST: usize = 100_000;

const HELLO: &str = "sha256:2cf24dba5fb0a30e26e83b2ac5b9e29e1b161e5c1fa7425e73043362938b9824";

const BRACES: &str = "sha256:44136fa355b3678a1146ad16f7e8649e94fb4fc21fe77e8310c060f61caaff8a";

/// The manifest that names both.
const MANIFEST: &str =
    "{\"schemaVersion\":2,\"mediaType\":\"application/vnd.oci.image.manifest.v1+json\",\"config\":{\"mediaType\":\"application/vnd.oci.empty.v1+json\",\"digest\":\"sha256:44136fa355b3678a1146ad16f7e8649e94fb4fc21fe77e8310c060f61caaff8a\",\"size\":2},\"layers\":[{\"mediaType\":\"application/octet-stream\",\"digest\":\"sha256:2cf24dba5fb0a30e26e83b2ac5b9e29e1b161e5c1fa7425e73043362938b9824\",\"size\":5}]}";

const DIGEST: &str = "sha256:98e12f26c1511cdf1aa0ed2ae2ead722b2a3f5d57c57f99e65a44faf9504395c";

/// Ids that are drawn by the bytes 0 and 1, sixteen times.
const IDS: [&str; 2] = [
    "00000000-0000-4000-8000-000000000000",
    "01010101-0101-4101-8101-010101010101",
];

#[test]
fn a_push_is_made_again(rt: HostRuntime) -> Result<(), Fail> {
    for call in 0..CALLS {
        assert!(rt; is_pushed_again(rt.alloc(), call)?, "call {call}");
    }
    Ok(())
}

#[test]
fn a_push_of_a_manifest_is_made_again(rt: HostRuntime) -> Result<(), Fail> {
    for call in 0..CALLS {
        assert!(rt; is_put_again(rt.alloc(), call)?, "call {call}");
    }
    Ok(())
}

#[test]
fn a_removal_is_made_again(rt: HostRuntime) -> Result<(), Fail> {
    for call in 0..CALLS {
        assert!(rt; is_removed_again(rt.alloc(), call)?, "call {call}");
    }
    Ok(())
}

/// Where a call fails, the first other reply is the storage fault, and the whole push, with another id, has its replies.
fn is_pushed_again(alloc: Global, call: u64) -> Result<bool, NoMemory> {
    is_made_again(alloc, call, &push(alloc, IDS[0])?, &push(alloc, IDS[1])?)
}

/// The same of a push with a removal behind it.
fn is_removed_again(alloc: Global, call: u64) -> Result<bool, NoMemory> {
    let mut first = push(alloc, IDS[0])?;
    let mut second = push(alloc, IDS[1])?;
    let removal = removal(alloc)?;
    first.push_str(&removal)?;
    second.push_str(&removal)?;
    is_made_again(alloc, call, &first, &second)
}

fn is_made_again(alloc: Global, call: u64, first: &str, second: &str) -> Result<bool, NoMemory> {
    let (_, wanted) = replies(alloc, empty(alloc, None)?, 0, first)?;
    let (depot, failed) = replies(alloc, empty(alloc, Some(call))?, 0, first)?;
    if failed.written() == wanted.written() {
        return Ok(true);
    }
    let (_, again) = replies(alloc, depot, 1, second)?;
    let (_, whole) = replies(alloc, empty(alloc, None)?, 1, second)?;
    Ok(is_fault_first(failed.written(), wanted.written()) && again.written() == whole.written())
}

/// Where a call of the manifest's own push fails, that request alone has its reply when it comes again.
fn is_put_again(alloc: Global, call: u64) -> Result<bool, NoMemory> {
    let (_, before) = replies(alloc, empty(alloc, None)?, 0, &blobs(alloc, IDS[0])?)?;
    let (_, wanted) = replies(alloc, empty(alloc, None)?, 0, &push(alloc, IDS[0])?)?;
    let (depot, failed) = replies(alloc, empty(alloc, Some(call))?, 0, &push(alloc, IDS[0])?)?;
    if !failed.written().starts_with(before.written()) || failed.written() == wanted.written() {
        return Ok(true);
    }
    let (_, again) = replies(alloc, depot, 1, &manifest(alloc)?)?;
    Ok(wanted.written().ends_with(again.written()))
}

// The replies of `once` over a depot, and the depot behind them. Each id is drawn by this byte.
fn replies(
    alloc: Global,
    depot: MemDepot,
    byte: u8,
    input: &str,
) -> Result<(MemDepot, MemSink), NoMemory> {
    let words = Vec::from_array(alloc, [String::from_str(alloc, "once")?])?;
    let bytes = Bytes::from_slice(alloc, input.as_bytes())?;
    let mut source = MemSource::new(alloc, bytes, Vec::new(alloc), Vec::new(alloc))?;
    let mut out = MemSink::new(alloc, MOST, Vec::new(alloc))?;
    let mut clock = FixedClock { at: 0 };
    let mut ids = ListedIds::new(Vec::from_array(alloc, [[byte; 16]])?);
    let ran = run_plain(
        alloc,
        &words,
        depot,
        (),
        &mut clock,
        &mut ids,
        &mut source,
        &mut out,
    );
    Ok((ran.depot, out))
}

// An empty depot, of which a call fails.
fn empty(alloc: Global, call: Option<u64>) -> Result<MemDepot, NoMemory> {
    let mut fail = Vec::new(alloc);
    if let Some(call) = call {
        fail.push(call)?;
    }
    MemDepot::new(alloc, Vec::new(alloc), fail)
}

// Whether replies differ first in a status, which is that of the storage fault.
fn is_fault_first(failed: &[u8], wanted: &[u8]) -> bool {
    let mut rest = failed;
    for byte in wanted {
        match rest {
            [first, behind @ ..] if first == byte => rest = behind,
            _ => return rest.starts_with(b"500 "),
        }
    }
    false
}

// The requests of a push: its blobs, the manifest, and a pull of that.
fn push(alloc: Global, id: &str) -> Result<String, NoMemory> {
    let mut text = blobs(alloc, id)?;
    text.push_str(&manifest(alloc)?)?;
    Ok(text)
}

// An upload in a piece, and one whose bytes come with its end.
fn blobs(alloc: Global, id: &str) -> Result<String, NoMemory> {
    let at = "/v2/a/blobs/uploads/";
    Ok(format!(in alloc;
        "POST {at} HTTP/1.1\r\n\r\n\
         PATCH {at}{id} HTTP/1.1\r\nContent-Length: 5\r\n\r\nhello\
         PUT {at}{id}?digest={HELLO} HTTP/1.1\r\n\r\n\
         POST {at} HTTP/1.1\r\n\r\n\
         PUT {at}{id}?digest={BRACES} HTTP/1.1\r\nContent-Length: 2\r\n\r\n{{}}"
    )?)
}

fn manifest(alloc: Global) -> Result<String, NoMemory> {
    let at = "/v2/a/manifests/v1";
    Ok(format!(in alloc;
        "PUT {at} HTTP/1.1\r\nContent-Length: 371\r\n\r\n{MANIFEST}GET {at} HTTP/1.1\r\n\r\n"
    )?)
}

// A removal of the manifest with its tag, and a list of the tags that are left.
fn removal(alloc: Global) -> Result<String, NoMemory> {
    Ok(format!(in alloc;
        "DELETE /v2/a/manifests/{DIGEST} HTTP/1.1\r\n\r\nGET /v2/a/tags/list HTTP/1.1\r\n\r\n"
    )?)
}
