//! The claims that stand.
ghost use Rattle.std.specs.Prelude.{◌≡◌, not, filter, OnOk};
ghost use Rattle.reg_claims.specs.Claims.{AreSound, no_claims, claim_of, is_same, has, is_held, without};
ghost use Rattle.reg_claims.specs.Holding.{Holds};

use crate::NotClaimed;
use crate::claim::{Claim, Held, Standing};
use reg_names::{Name, UploadId};
use std::alloc::Global;
use std::marker::Model;

/// The number that the next claim number never passes.
pub const CLAIM_LIMIT: u64 = 9_000_000_000_000_000_000;

/// All claims that stand, each with who made it, and the number of the next one. They live in memory alone.
#[derive(Debug, Drop)]
pub struct Claims {
    standing: Vec<Standing>,
    next: u64,
}

impl Model for Claims {
    ghost use Rattle.reg_claims.specs.Claims.{ClaimList, AreSound};

    ghost Value = { ClaimList };

    ghost view = { λ c. record { standing = c.standing.items; next = c.next } };

    ghost invariant = { λ c. AreSound (record { standing = c.standing.items; next = c.next }) };
}

impl Claims {
    /// No claims. It takes no memory, as all here but `hold`.
    pub fn new(alloc: Global) -> Claims
        ensures { result ≡ no_claims }
    {
        Claims {
            standing: Vec::new(alloc),
            next: 1,
        }
    }

    /// The number of the next claim, from 1 to `CLAIM_LIMIT`.
    pub fn next(&self) -> u64
        ensures next { result ≡ self.now.next }
        ensures sound { AreSound self.now }
    {
        self.next
    }

    /// Whether a session is claimed.
    pub fn session_held(&self, name: &Name, id: &UploadId) -> bool
        ensures { result ≡ is_held name.now id.now self.now }
    {
        self.standing
            .iter()
            .any(|standing| standing.claim.is_of_session(name, id))
    }

    /// Whether this claim stands, with each of its parts.
    pub fn has_hold(&self, held: &Held) -> bool
        ensures { result ≡ has (claim_of held.now) self.now }
    {
        self.standing
            .iter()
            .any(|standing| standing.claim.is_held_as(held))
    }

    /// Claims a session for the pass or holder of that number. `Taken` comes exactly where the session is claimed, and
    /// else `Full` exactly where the next number would pass `CLAIM_LIMIT`; want of memory may come in any case.
    pub fn hold(
        &mut self,
        alloc: Global,
        who: u32,
        name: &Name,
        id: &UploadId,
    ) -> Result<Held, NotClaimed>
        ensures holds { Holds who name.now id.now self.old result self.new }
        ensures sound { OnOk result (AreSound self.old) }
    {
        if self.session_held(name, id) {
            return Err(NotClaimed::Taken);
        }
        if self.next >= CLAIM_LIMIT {
            return Err(NotClaimed::Full);
        }
        let number = self.next;
        let kept = name.copy(alloc)?;
        let name = name.copy(alloc)?;
        let claim = Claim::Session {
            number,
            name: kept,
            id: *id,
        };
        self.standing.push(Standing { who, claim })?;
        self.next += 1;
        Ok(Held {
            number,
            name,
            id: *id,
        })
    }

    /// Ends a claim, where it stands.
    pub fn end_hold(&mut self, held: Held)
        ensures { self.new ≡ without (claim_of held) self.old }
    {
        take_out(&mut self.standing, &held);
        let Held {
            number: _,
            name: _,
            id: _,
        } = held;
    }
}

// Takes a claim out of a list.
fn take_out(standing: &mut Vec<Standing>, held: &Held)
    ensures { standing.new.items
        ≡ filter (λ s. not (is_same (claim_of held.now) s.claim)) standing.old.items }
{
    let mut at = 0;
    while at < standing.len() {
        if standing[at].claim.is_held_as(held) {
            let _ = standing.remove(at);
        } else {
            at += 1;
        }
    }
}
