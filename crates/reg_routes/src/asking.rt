//! The asks of the routes of a repository.
ghost use Rattle.std.specs.Prelude.{◌≡◌, ◌==◌, IfOk, option_copied};
ghost use Rattle.std.specs.List.{list_any};
ghost use Rattle.form_urlencoded.specs.Form.{raw_pairs};
ghost use Rattle.reg_names.specs.Digests.{digest_named};
ghost use Rattle.reg_names.specs.UploadIds.{upload_id_named};
ghost use Rattle.reg_routes.specs.InnerAnswers.{Answers};
ghost use Rattle.reg_routes.specs.Routing as spec;
ghost use Rattle.reg_routes.specs.Targets.{shown};

use crate::count::count_in;
use crate::query::value_of;
use crate::routing::refusal;
use crate::target::Spot;
use reg_entries::numbers::{DIGEST_INVALID, NAME_INVALID};
use reg_entries::{Ask, Method, Reply, Route};
use reg_names::{Digest, Name, NoMemory, Reference, Text, UploadId};
use std::alloc::Global;

/// The ask of a route of a repository.
pub(crate) fn named_ask(
    alloc: Global,
    spot: Spot<'_>,
    method: Method,
    query: &[u8],
    typed: Option<&str>,
    start: Option<u64>,
) -> Result<Result<Ask, Reply>, NoMemory>
    ensures { IfOk result (λ a.
        a ≡ spec.named_ask (shown spot.entry) method (raw_pairs query.now)
        (option_copied typed.entry) start) }
{
    let Some(name) = Name::read_bytes(alloc, spot.name)? else {
        return Ok(Err(refusal(NAME_INVALID)));
    };
    match spot.route {
        Route::Base => Ok(Ok(Ask::Base)),
        Route::Tags => tags_ask(alloc, name, query),
        Route::Manifest => manifest_ask(alloc, name, spot.key, method, typed),
        Route::Uploads => start_ask(alloc, name, query),
        Route::Upload => upload_ask(alloc, name, spot.key, method, query, start),
        Route::Blob => Ok(blob_ask(name, spot.key, method)),
    }
}

fn tags_ask(alloc: Global, name: Name, query: &[u8]) -> Result<Result<Ask, Reply>, NoMemory>
    ensures { Answers result (spec.tags_ask name (raw_pairs query.now)) }
{
    let n = counted(alloc, query)?;
    let last = value_of(alloc, query, "last")?;
    Ok(Ok(Ask::Tags { name, n, last }))
}

fn counted(alloc: Global, query: &[u8]) -> Result<Option<u64>, NoMemory>
    ensures { Answers result (spec.count_in (raw_pairs query.now)) }
{
    match value_of(alloc, query, "n")? {
        Some(text) => Ok(count_in(text.as_bytes())),
        None => Ok(None),
    }
}

fn manifest_ask(
    alloc: Global,
    name: Name,
    key: &[u8],
    method: Method,
    typed: Option<&str>,
) -> Result<Result<Ask, Reply>, NoMemory>
    ensures { IfOk result
        (λ a. a ≡ spec.manifest_ask name key.now (option_copied typed.entry) method) }
{
    let at = Reference::read_bytes(alloc, key)?;
    if at.is_none() && has_colon(key) {
        return Ok(Err(refusal(DIGEST_INVALID)));
    }
    match method {
        Method::Delete => Ok(Ok(Ask::DropReference { name, at })),
        Method::Put => {
            let typed = copied(alloc, typed)?;
            Ok(Ok(Ask::PutManifest { name, at, typed }))
        }
        _ => Ok(Ok(Ask::GetManifest { name, at })),
    }
}

fn has_colon(text: &[u8]) -> bool
    ensures { result ≡ list_any (λ b. b == 58) text.now }
{
    text.iter().any(|b| *b == b':')
}

fn copied(alloc: Global, text: Option<&str>) -> Result<Option<Text>, NoMemory>
    ensures { Answers result (option_copied text.entry) }
{
    match text {
        Some(text) => Ok(Some(Text::from_str(alloc, text)?)),
        None => Ok(None),
    }
}

fn start_ask(alloc: Global, name: Name, query: &[u8]) -> Result<Result<Ask, Reply>, NoMemory>
    ensures { Answers result (spec.start_ask name (raw_pairs query.now)) }
{
    let mount = mounted(alloc, query)?;
    Ok(Ok(Ask::Start { name, mount }))
}

fn mounted(alloc: Global, query: &[u8]) -> Result<Option<(Digest, Name)>, NoMemory>
    ensures { Answers result (spec.mount_in (raw_pairs query.now)) }
{
    let Some(digest) = digest_in(alloc, query, "mount")? else {
        return Ok(None);
    };
    let Some(from) = value_of(alloc, query, "from")? else {
        return Ok(None);
    };
    match Name::read(alloc, from.as_str())? {
        Some(from) => Ok(Some((digest, from))),
        None => Ok(None),
    }
}

fn digest_in(alloc: Global, query: &[u8], key: &str) -> Result<Option<Digest>, NoMemory>
    ensures { Answers result (spec.digest_in key.now (raw_pairs query.now)) }
{
    match value_of(alloc, query, key)? {
        Some(text) => Ok(Digest::read(text.as_str())),
        None => Ok(None),
    }
}

fn upload_ask(
    alloc: Global,
    name: Name,
    key: &[u8],
    method: Method,
    query: &[u8],
    start: Option<u64>,
) -> Result<Result<Ask, Reply>, NoMemory>
    ensures { Answers result
        (spec.upload_ask name (upload_id_named key.now) start (raw_pairs query.now) method) }
{
    let id = UploadId::read_bytes(key)?;
    match method {
        Method::Put => {
            let Some(digest) = digest_in(alloc, query, "digest")? else {
                return Ok(Err(refusal(DIGEST_INVALID)));
            };
            Ok(Ok(Ask::Finish {
                name,
                id,
                digest,
                start,
            }))
        }
        Method::Patch => Ok(Ok(Ask::Patch { name, id, start })),
        Method::Delete => Ok(Ok(Ask::Cancel { name, id })),
        _ => Ok(Ok(Ask::State { name, id })),
    }
}

fn blob_ask(name: Name, key: &[u8], method: Method) -> Result<Ask, Reply>
    ensures { result ≡ spec.blob_at name (digest_named key.now) method }
{
    let Some(digest) = Digest::read_bytes(key) else {
        return Err(refusal(DIGEST_INVALID));
    };
    match method {
        Method::Delete => Ok(Ask::DropBlob { name, digest }),
        _ => Ok(Ask::GetBlob { name, digest }),
    }
}
