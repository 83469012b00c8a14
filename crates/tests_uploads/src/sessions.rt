//! A session that is taken, asked about, sealed and given back, cancelled or closed.
use depot_api::memory::{MemDepot, MemStage};
use depot_api::{Bytes, Depot, Path, Stage};
use reg_claims::Claims;
use reg_entries::numbers::{UPLOAD_IN_USE, UPLOAD_UNKNOWN};
use reg_entries::{Reply, Trouble};
use reg_names::{Digest, Name, UploadId};
use std::alloc::Global;
use std::test::Fail;
use upload_sessions::{
    Taken, cancel_upload, close_session, seal, shelve, take_upload, upload_state,
};

const ID: &str = "0f8fad5b-d9cb-469f-a165-70867728950e";

const FOLDER: &str =
    "docker/registry/v2/repositories/a/_uploads/0f8fad5b-d9cb-469f-a165-70867728950e";

const HELLO: &str = "sha256:2cf24dba5fb0a30e26e83b2ac5b9e29e1b161e5c1fa7425e73043362938b9824";

#[test]
fn a_session_is_in_use_until_it_is_shelved(rt: HostRuntime) -> Result<(), Fail> {
    for (bytes, end) in [("", 0), ("hello", 5)] {
        let told = told_around_a_take(rt.alloc(), bytes)?;
        assert_eq!(rt; told, (Some(end), UPLOAD_IN_USE, Some(end)), "{bytes}");
    }
    Ok(())
}

#[test]
fn each_call_answers_where_nothing_fails(rt: HostRuntime) -> Result<(), Fail> {
    assert_eq!(rt; end_at_wrong_start(rt.alloc(), "hello", 6)?, Some(5));
    assert!(rt; has_digest(rt.alloc(), "hello", HELLO)?);
    assert!(rt; is_gone_once_cancelled(rt.alloc())?);
    assert!(rt; is_gone_once_closed(rt.alloc())?);
    Ok(())
}

/// A depot with one upload, and the claims of its sessions.
#[derive(Drop)]
struct Uploads {
    depot: MemDepot,
    claims: Claims,
    name: Name,
    id: Option<UploadId>,
}

impl Uploads {
    fn of(alloc: Global, bytes: &str) -> Result<Uploads, Fail> {
        let id = UploadId::read(ID)?;
        let depot = depot(alloc, bytes)?;
        let name = Name::read(alloc, "a")?.ok_or("no name")?;
        let claims = Claims::new(alloc);
        Ok(Uploads {
            depot,
            claims,
            name,
            id,
        })
    }

    fn state(&mut self, alloc: Global) -> Result<Reply, Trouble> {
        upload_state(alloc, &mut self.depot, &self.claims, &self.name, &self.id)
    }

    fn take(&mut self, alloc: Global, start: Option<u64>) -> Result<Taken<MemStage>, Trouble> {
        let claims = &mut self.claims;
        take_upload(
            alloc,
            &mut self.depot,
            claims,
            0,
            &self.name,
            &self.id,
            start,
        )
    }

    // What is told of the upload while it is taken, or why it is not taken.
    fn state_while_taken(&mut self, alloc: Global, start: Option<u64>) -> Result<Reply, Trouble> {
        match self.take(alloc, start)? {
            Taken::Out {
                held,
                stage,
                offset: _,
            } => {
                let told = self.state(alloc);
                shelve(&mut self.depot, &mut self.claims, held, stage);
                told
            }
            Taken::Refused(reply) => Ok(reply),
        }
    }

    fn cancel(&mut self, alloc: Global) -> Result<Reply, Trouble> {
        cancel_upload(alloc, &mut self.depot, &self.claims, &self.name, &self.id)
    }

    // Closes a session whose bytes stay where they are.
    fn close(&mut self, alloc: Global) -> Result<(), Trouble> {
        match self.take(alloc, None)? {
            Taken::Out {
                held,
                stage,
                offset: _,
            } => {
                self.depot.shelve(stage);
                close_session(alloc, &mut self.depot, &mut self.claims, held)
            }
            Taken::Refused(_) => Ok(()),
        }
    }
}

// Where an upload of these bytes is told to end, the number of the refusal while it is taken, and where it ends then.
fn told_around_a_take(alloc: Global, bytes: &str) -> Result<(Option<u64>, u8, Option<u64>), Fail> {
    let mut uploads = Uploads::of(alloc, bytes)?;
    let before = end_in(uploads.state(alloc));
    let during = number_in(uploads.state_while_taken(alloc, before));
    let after = end_in(uploads.state(alloc));
    Ok((before, during, after))
}

// Where an upload ends that is taken from another start.
fn end_at_wrong_start(alloc: Global, bytes: &str, start: u64) -> Result<Option<u64>, Fail> {
    let mut uploads = Uploads::of(alloc, bytes)?;
    Ok(end_in(uploads.state_while_taken(alloc, Some(start))))
}

fn is_gone_once_cancelled(alloc: Global) -> Result<bool, Fail> {
    let mut uploads = Uploads::of(alloc, "hello")?;
    let cancelled = uploads.cancel(alloc) == Ok(Reply::Cancelled);
    let number = number_in(uploads.state(alloc));
    Ok(cancelled && number == UPLOAD_UNKNOWN)
}

fn is_gone_once_closed(alloc: Global) -> Result<bool, Fail> {
    let mut uploads = Uploads::of(alloc, "hello")?;
    let closed = uploads.close(alloc) == Ok(());
    let number = number_in(uploads.state(alloc));
    Ok(closed && number == UPLOAD_UNKNOWN)
}

// Whether a few bytes have the digest once they are sealed, and their length.
fn has_digest(alloc: Global, bytes: &str, digest: &str) -> Result<bool, Fail> {
    let path = Path::read(alloc, "a")?.ok_or("no path")?;
    let mut stage = MemStage::new(alloc, path, Vec::new(alloc));
    let staged = grows(&mut stage, bytes.as_bytes());
    Ok(sealed_as(alloc, stage) == Digest::read(digest) && staged)
}

// Whether a small stage takes a few bytes.
fn grows<S: Stage>(stage: &mut S, piece: &[u8]) -> bool {
    if stage.length() > 9 || piece.len() > 9 {
        return false;
    }
    stage.append(piece) == Ok(())
}

// The digest of what is staged, where its length is the stage's.
fn sealed_as(alloc: Global, stage: MemStage) -> Option<Digest> {
    match seal(alloc, stage) {
        Ok(sealed) => {
            let (digest, size) = (sealed.digest(), sealed.size());
            let stage = sealed.unseal();
            (size == stage.length()).then_some(digest)
        }
        Err(_) => None,
    }
}

// A depot with an upload of these bytes: one of none has no data file.
fn depot(alloc: Global, bytes: &str) -> Result<MemDepot, Fail> {
    let mut files = Vec::new(alloc);
    files.push(file(alloc, "startedat", "7")?)?;
    if !bytes.is_empty() {
        files.push(file(alloc, "data", bytes)?)?;
    }
    Ok(MemDepot::new(alloc, files, Vec::new(alloc))?)
}

fn file(alloc: Global, name: &str, bytes: &str) -> Result<(Path, Bytes), Fail> {
    let path = format!(in alloc; "{FOLDER}/{name}")?;
    let path = Path::read(alloc, path.as_str())?.ok_or("no path")?;
    Ok((path, Bytes::from_slice(alloc, bytes.as_bytes())?))
}

// Where a reply says that an upload ends.
fn end_in(reply: Result<Reply, Trouble>) -> Option<u64> {
    match reply {
        Ok(Reply::Offset { offset, .. } | Reply::WrongStart { offset, .. }) => Some(offset),
        _ => None,
    }
}

// The number of a refusal, and 0 of another reply.
fn number_in(reply: Result<Reply, Trouble>) -> u8 {
    match reply {
        Ok(Reply::Refused(no)) => no.number,
        _ => 0,
    }
}
