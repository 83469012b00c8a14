//! Manifests that are pushed.
ghost use Rattle.std.specs.Prelude.{◌≡◌, ◌≤◌, length, IfOk, IsTrue, option_copied};
ghost use Rattle.std.proofs.Props.{props};
ghost use Rattle.reg_digest.specs.Hashing.{hashes_to};
ghost use Rattle.manifest_doc.specs.Stored.{manifest_limit};
ghost use Rattle.manifest_doc.specs.Pushed.{IsJudged, IsTold};

use crate::content_type::may_type;
use crate::{Doc, DocFault, read_doc};
use reg_digest::digest_of;
use reg_names::{Bytes, Digest, NoMemory, Text};
use std::alloc::Global;

/// What bytes are that were pushed as a manifest.
#[derive(Debug, Drop)]
pub enum Judged {
    /// The document that they are, whose kind their Content-Type tells, where they came with one.
    Good(Doc),
    /// Why they are refused: the name of the first test that they fail, or `Kind` where they are a document and their
    /// Content-Type is not that of its kind.
    Bad(Text),
}

/// A manifest that was pushed: at most `MANIFEST_LIMIT` bytes, their digest, and what they are.
#[derive(Debug, Drop)]
pub struct Pushed {
    pub bytes: Bytes,
    pub digest: Digest,
    pub judged: Judged,
    pub ghost short: { length bytes ≤ manifest_limit },
    pub ghost hashes: { IsTrue (hashes_to digest bytes) },
    pub ghost told: { IsTold bytes judged } by { Prim.hlevel props },
}

impl Pushed {
    /// The manifest of these bytes, at most `MANIFEST_LIMIT`, that came with this Content-Type, or without one. It
    /// fails only for want of memory (OCI Distribution Specification 1.1, "Pushing Manifests").
    pub fn of(alloc: Global, bytes: Bytes, typed: Option<&Text>) -> Result<Pushed, NoMemory>
        requires { length bytes ≤ manifest_limit }
        ensures bytes { IfOk result (λ pushed. pushed.bytes ≡ bytes) }
        ensures judged { IfOk result (λ pushed.
            IsJudged (option_copied typed.entry) bytes pushed.judged) }
    {
        let judged = judge(alloc, bytes.as_slice(), typed)?;
        let digest = digest_of(bytes.as_slice());
        Ok(Pushed {
            bytes,
            digest,
            judged,
        })
    }
}

// What bytes are that came with a Content-Type.
fn judge(alloc: Global, bytes: &[u8], typed: Option<&Text>) -> Result<Judged, NoMemory>
    ensures { IfOk result (IsJudged (option_copied typed.entry) bytes.now) }
{
    match read_doc(alloc, bytes) {
        Ok(doc) => {
            if may_type(typed, doc.kind) {
                return Ok(Judged::Good(doc));
            }
            bad(alloc, "Kind")
        }
        Err(DocFault::NoMemory) => Err(NoMemory),
        Err(fault) => bad(alloc, fault.name()),
    }
}

fn bad(alloc: Global, word: &str) -> Result<Judged, NoMemory>
    ensures { IfOk result (λ judged. judged ≡ Judged.Bad word.now) }
{
    Ok(Judged::Bad(Text::from_str(alloc, word)?))
}
