//! The bytes of a reply.
ghost use Rattle.std.specs.Prelude.{◌≡◌, IfOk};
ghost use Rattle.reg_replies.specs.Replies.{wire as wire_of, body_of};

use crate::bodies::written_body;
use crate::fields::push_head;
use reg_entries::Reply;
use reg_names::{Bytes, NoMemory};
use std::alloc::Global;

/// Memory for a head, in bytes, so that it is seldom moved.
const HEAD_ROOM: usize = 512;

/// The bytes of a reply (RFC 9112, section 4): its status line, its fields, an empty line, and its
/// body, unless `head_only`, as HEAD asks. Where `close` is set, it says that the connection ends.
/// Of a blob it is the head alone: the bytes of the blob follow.
pub fn wire(alloc: Global, reply: &Reply, head_only: bool, close: bool) -> Result<Bytes, NoMemory>
    ensures { IfOk result (λ bytes. bytes ≡ wire_of reply.now head_only close) }
{
    match reply {
        Reply::Manifest { bytes, .. } => {
            joined(alloc, reply, bytes.as_slice(), head_only, close)
        }
        _ => {
            let body = written_body(alloc, reply)?;
            joined(alloc, reply, body.as_bytes(), head_only, close)
        }
    }
}

// The bytes of a reply with that body.
fn joined(
    alloc: Global,
    reply: &Reply,
    body: &[u8],
    head_only: bool,
    close: bool,
) -> Result<Bytes, NoMemory>
    requires { body.now ≡ body_of reply.now }
    ensures { IfOk result (λ bytes. bytes ≡ wire_of reply.now head_only close) }
{
    let mut head = String::with_capacity(alloc, HEAD_ROOM)?;
    push_head(alloc, &mut head, reply, body.len(), close)?;
    let mut bytes = head.into_bytes();
    if !head_only {
        bytes.extend_from_slice(body)?;
    }
    Ok(Bytes::from_vec(bytes))
}
