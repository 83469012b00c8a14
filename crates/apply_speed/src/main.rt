//! Applies entries to the slow registry, which a benchmark measures. It is given a way and a count of rounds, and
//! prints how many entries were applied. `look` makes in each round, in one of 1,000 repositories, a link, a manifest
//! that names its blob, and a tag to that, and drops the tag of the round before in that repository: the conditions of
//! these are looked up. `walk` does the same, and then drops all tags, manifests and links, and condemns each blob:
//! that takes walks over all that stands. What is counted was applied: each entry once, behind those before it. The time
//! is what `bench/entries.sh` tells.
#![tactic(auto)]

ghost use Rattle.std.specs.Prelude.{◌≡◌, ◌+◌, IfSome};
ghost use Rattle.reg_journal.specs.Changes.{apply};
ghost use Rattle.reg_journal.specs.Past.{Past};
ghost use Rattle.reg_plain.specs.Held.{IsLeftOf};

use reg_entries::Document;
use reg_journal::{Entry, What};
use reg_names::{Digest, DigestList, Kind, Name, Named, NamedList, Tag};
use reg_plain::State;
use std::alloc::Global;
use std::env;
use std::process::ExitCode;

const REPOSITORIES: u64 = 1_000;

fn main(rt: HostRuntime) -> ExitCode {
    match applied(&rt) {
        Some(count) => match println!(rt; "{count} entries") {
            Ok(()) => ExitCode::SUCCESS,
            Err(_) => ExitCode::FAILURE,
        },
        None => ExitCode::FAILURE,
    }
}

// How many entries were applied, in the way and as many rounds as the command line names.
fn applied(rt: &HostRuntime) -> Option<u64> {
    let mut args = env::args(rt).ok()?.skip(1);
    let (way, rounds) = (args.next()?, args.next()?);
    let rounds = rounds.as_str().parse::<u64>().ok()?;
    let mut run = Run::new(rt.alloc());
    run.apply(What::Opened)?;
    match way.as_str() {
        "look" => run.push_all(rounds)?,
        "walk" => {
            run.push_all(rounds)?;
            run.drop_all(rounds)?;
        }
        _ => return None,
    }
    Some(run.count)
}

/// A registry, and how many entries were applied to it.
#[derive(Drop)]
struct Run {
    alloc: Global,
    state: State,
    count: u64,
}

impl Run {
    fn new(alloc: Global) -> Run {
        Run {
            alloc,
            state: State::new(alloc, 0),
            count: 0,
        }
    }

    fn apply(&mut self, what: What) -> Option<()> {
        let moment = self.count;
        let entry = Entry { moment, what };
        self.apply_entry(&entry)
    }

    // Applies an entry, and counts it.
    fn apply_entry(&mut self, entry: &Entry) -> Option<()>
        ensures applied { (past : Past) → IsLeftOf past self.old.state →
            IfSome result (λ _. IsLeftOf (apply past entry.now) self.new.state) }
        ensures counted { IfSome result (λ _. self.new.count ≡ self.old.count + 1) }
    {
        self.state.apply(self.alloc, entry).ok()?;
        self.count = self.count.checked_add(1)?;
        Some(())
    }

    fn push_all(&mut self, rounds: u64) -> Option<()> {
        for round in 0..rounds {
            self.apply(link(self.alloc, round)?)?;
            self.apply(put(self.alloc, round)?)?;
            self.apply(set_tag(self.alloc, round)?)?;
            if let Some(before) = round.checked_sub(REPOSITORIES) {
                self.apply(drop_tag(self.alloc, before)?)?;
            }
        }
        Some(())
    }

    fn drop_all(&mut self, rounds: u64) -> Option<()> {
        for round in rounds.saturating_sub(REPOSITORIES)..rounds {
            self.apply(drop_tag(self.alloc, round)?)?;
        }
        for round in 0..rounds {
            self.apply(drop_manifest(self.alloc, round)?)?;
            self.apply(unlink(self.alloc, round)?)?;
            let digest = blob_of(round);
            self.apply(What::Doom { digest })?;
        }
        Some(())
    }
}

fn link(alloc: Global, round: u64) -> Option<What> {
    Some(What::Link {
        name: repository(alloc, round)?,
        digest: blob_of(round),
        size: round,
    })
}

fn put(alloc: Global, round: u64) -> Option<What> {
    let doc = manifest(alloc, round)?;
    Some(What::Put {
        name: repository(alloc, round)?,
        digest: manifest_of(round),
        doc,
    })
}

fn set_tag(alloc: Global, round: u64) -> Option<What> {
    Some(What::SetTag {
        name: repository(alloc, round)?,
        tag: tag(alloc, round)?,
        digest: manifest_of(round),
    })
}

fn drop_tag(alloc: Global, round: u64) -> Option<What> {
    Some(What::DropTag {
        name: repository(alloc, round)?,
        tag: tag(alloc, round)?,
    })
}

fn drop_manifest(alloc: Global, round: u64) -> Option<What> {
    Some(What::DropManifest {
        name: repository(alloc, round)?,
        digest: manifest_of(round),
    })
}

fn unlink(alloc: Global, round: u64) -> Option<What> {
    Some(What::Unlink {
        name: repository(alloc, round)?,
        digest: blob_of(round),
    })
}

// The repository of a round.
fn repository(alloc: Global, round: u64) -> Option<Name> {
    let number = round % REPOSITORIES;
    let text = format!(in alloc; "library/repository-{number}").ok()?;
    Name::read(alloc, text.as_str()).ok()?
}

fn tag(alloc: Global, round: u64) -> Option<Tag> {
    let text = format!(in alloc; "v{round}").ok()?;
    Tag::read(alloc, text.as_str()).ok()?
}

// A manifest that names the blob of the round.
fn manifest(alloc: Global, round: u64) -> Option<Document> {
    let named = Named {
        digest: blob_of(round),
        free: false,
    };
    let named = NamedList::from_vec(Vec::from_slice(alloc, &[named]).ok()?);
    Document::new(
        Kind::OciImage,
        round,
        named,
        DigestList::from_vec(Vec::new(alloc)),
    )
}

fn blob_of(round: u64) -> Digest {
    digest(1, round)
}

fn manifest_of(round: u64) -> Digest {
    digest(2, round)
}

// A digest for each kind and round. Rounds that follow each other are far apart.
fn digest(kind: u8, round: u64) -> Digest {
    let mut raw = [kind; 32];
    let spread = round.wrapping_mul(0x9e37_79b9_7f4a_7c15);
    raw[..8].copy_from_slice(&spread.to_be_bytes());
    Digest::from_sha256(raw)
}
