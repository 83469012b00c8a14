//! The fields of a reply, each in a function of its own.
ghost use Rattle.std.specs.Prelude.{◌≡◌, ◌++◌, codes, length as length_of_list, Some, option_copied};
ghost use Rattle.std.specs.List.{join_by};
ghost use Rattle.reg_entries.specs.Routes.{method_text};
ghost use Rattle.reg_entries.specs.declared.reply.Reply.TheVariants.{Tags as ListedTags};
ghost use Rattle.reg_replies.specs.InnerPushing.{Puts};
ghost use Rattle.reg_replies.specs.Replies.{opening, field, type_field, length_field, digest_field, location_field};
ghost use Rattle.reg_replies.specs.Replies.{range_field, link_field, allow_field, closing_field, crlf, head_of};
ghost use Rattle.reg_replies.specs.Replies.{body_of, type_of, digest_of, upload_path, content_path, allow_text};

use crate::status::status_of;
use reg_entries::numbers::READ_ONLY;
use reg_entries::{Method, Reply, Route, Tags};
use reg_names::{Digest, Name, NoMemory, UploadId};
use std::alloc::Global;

/// Puts the head of a reply behind a text: its status line, its fields and the empty line. `length`
/// is that of its body.
pub(crate) fn push_head(
    alloc: Global,
    out: &mut String,
    reply: &Reply,
    length: usize,
    close: bool,
) -> Result<(), NoMemory>
    requires { length ≡ length_of_list (body_of reply.now) }
    ensures { Puts result out.old out.new (head_of reply.now close) }
{
    push_opening(out, reply)?;
    push_type(out, reply)?;
    push_length(out, reply, length)?;
    push_digest(alloc, out, reply)?;
    push_location(alloc, out, reply)?;
    push_range(out, reply)?;
    push_link(out, reply)?;
    push_allow(out, reply)?;
    push_end(out, close)
}

// The status line, and the field that each reply has.
fn push_opening(out: &mut String, reply: &Reply) -> Result<(), NoMemory>
    ensures { Puts result out.old out.new (opening reply.now) }
{
    let line = status_of(reply).line();
    Ok(write!(
        out,
        "HTTP/1.1 {line}\r\nDocker-Distribution-Api-Version: registry/2.0\r\n"
    )?)
}

fn push_type(out: &mut String, reply: &Reply) -> Result<(), NoMemory>
    ensures { Puts result out.old out.new (type_field reply.now) }
{
    match media_type(reply) {
        Some(media_type) => push_field(out, "Content-Type", media_type),
        None => Ok(()),
    }
}

fn media_type(reply: &Reply) -> Option<&'static str>
    ensures { option_copied result ≡ type_of reply.now }
{
    match reply {
        Reply::Manifest { kind, .. } => Some(kind.media_type()),
        Reply::Blob { .. } => Some("application/octet-stream"),
        Reply::Base
        | Reply::Tags { .. }
        | Reply::WrongStart { .. }
        | Reply::NotAllowed { .. }
        | Reply::Refused(_) => Some("application/json"),
        _ => None,
    }
}

fn push_length(out: &mut String, reply: &Reply, length: usize) -> Result<(), NoMemory>
    requires { length ≡ length_of_list (body_of reply.now) }
    ensures { Puts result out.old out.new (length_field reply.now) }
{
    match reply {
        Reply::Blob { size, .. } => Ok(write!(out, "Content-Length: {size}\r\n")?),
        Reply::Offset { .. } | Reply::Cancelled => Ok(()),
        _ => Ok(write!(out, "Content-Length: {length}\r\n")?),
    }
}

fn push_digest(alloc: Global, out: &mut String, reply: &Reply) -> Result<(), NoMemory>
    ensures { Puts result out.old out.new (digest_field reply.now) }
{
    match digest_in(reply) {
        Some(digest) => {
            let digest = digest.text(alloc)?;
            push_field(out, "Docker-Content-Digest", digest.as_str())
        }
        None => Ok(()),
    }
}

fn digest_in(reply: &Reply) -> Option<&Digest>
    ensures { option_copied result ≡ digest_of reply.now }
{
    match reply {
        Reply::Manifest { digest, .. }
        | Reply::Blob { digest, .. }
        | Reply::Mounted { digest, .. }
        | Reply::Finished { digest, .. }
        | Reply::Stored { digest, .. } => Some(digest),
        _ => None,
    }
}

fn push_location(alloc: Global, out: &mut String, reply: &Reply) -> Result<(), NoMemory>
    ensures { Puts result out.old out.new (location_field reply.now) }
{
    match reply {
        Reply::Started { name, id }
        | Reply::Patched { name, id, .. }
        | Reply::Offset { name, id, .. }
        | Reply::WrongStart { name, id, .. } => push_upload(alloc, out, name, id),
        Reply::Mounted { name, digest } | Reply::Finished { name, digest } => {
            push_content(alloc, out, name, "blobs", digest)
        }
        Reply::Stored { name, digest } => push_content(alloc, out, name, "manifests", digest),
        _ => Ok(()),
    }
}

fn push_upload(alloc: Global, out: &mut String, name: &Name, id: &UploadId) -> Result<(), NoMemory>
    ensures { Puts result out.old out.new (field (codes "Location") (upload_path name.now id.now)) }
{
    let id = id.text(alloc)?;
    let (name, id) = (name.as_str(), id.as_str());
    Ok(write!(out, "Location: /v2/{name}/blobs/uploads/{id}\r\n")?)
}

fn push_content(
    alloc: Global,
    out: &mut String,
    name: &Name,
    folder: &str,
    digest: &Digest,
) -> Result<(), NoMemory>
    ensures { Puts result out.old out.new
        (field (codes "Location") (content_path name.now folder.now digest.now)) }
{
    let digest = digest.text(alloc)?;
    let (name, digest) = (name.as_str(), digest.as_str());
    Ok(write!(out, "Location: /v2/{name}/{folder}/{digest}\r\n")?)
}

fn push_range(out: &mut String, reply: &Reply) -> Result<(), NoMemory>
    ensures { Puts result out.old out.new (range_field reply.now) }
{
    let offset = match reply {
        Reply::Started { .. } => 0,
        Reply::Patched { offset, .. }
        | Reply::Offset { offset, .. }
        | Reply::WrongStart { offset, .. } => *offset,
        _ => return Ok(()),
    };
    let last = offset.saturating_sub(1);
    Ok(write!(out, "Range: 0-{last}\r\n")?)
}

fn push_link(out: &mut String, reply: &Reply) -> Result<(), NoMemory>
    ensures { Puts result out.old out.new (link_field reply.now) }
{
    match reply {
        Reply::Tags {
            name,
            tags,
            more: Some(n),
        } => push_next(out, name, *n, tags),
        _ => Ok(()),
    }
}

fn push_next(out: &mut String, name: &Name, n: u64, tags: &Tags) -> Result<(), NoMemory>
    ensures { Puts result out.old out.new (link_field (ListedTags name.now tags.now (Some n))) }
{
    let Some(last) = tags.as_slice().last() else {
        return Ok(());
    };
    let (name, last) = (name.as_str(), last.as_str());
    Ok(write!(
        out,
        "Link: </v2/{name}/tags/list?n={n}&last={last}>; rel=\"next\"\r\n"
    )?)
}

fn push_allow(out: &mut String, reply: &Reply) -> Result<(), NoMemory>
    ensures { Puts result out.old out.new (allow_field reply.now) }
{
    match reply {
        Reply::NotAllowed { route } => push_methods(out, *route),
        Reply::Refused(no) if no.number == READ_ONLY => push_methods(out, Route::Base),
        _ => Ok(()),
    }
}

fn push_methods(out: &mut String, route: Route) -> Result<(), NoMemory>
    ensures { Puts result out.old out.new (field (codes "Allow") (allow_text route)) }
{
    out.push_str("Allow: ")?;
    push_listed(out, route.methods())?;
    Ok(out.push_str("\r\n")?)
}

// Puts the names of methods behind a text, with commas between them.
fn push_listed(out: &mut String, methods: &[Method]) -> Result<(), NoMemory>
    ensures { Puts result out.old out.new (join_by method_text (codes ", ") methods.now) }
{
    let mut comma = "";
    for method in methods {
        out.push_str(comma)?;
        out.push_str(method.text())?;
        comma = ", ";
    }
    Ok(())
}

// The field of a reply that ends the connection, and the empty line.
fn push_end(out: &mut String, close: bool) -> Result<(), NoMemory>
    ensures { Puts result out.old out.new (closing_field close ++ crlf) }
{
    Ok(out.push_str(if close {
        "Connection: close\r\n\r\n"
    } else {
        "\r\n"
    })?)
}

// Puts one field behind a text.
fn push_field(out: &mut String, name: &str, value: &str) -> Result<(), NoMemory>
    ensures { Puts result out.old out.new (field name.now value.now) }
{
    Ok(write!(out, "{name}: {value}\r\n")?)
}
