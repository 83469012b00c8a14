//! One claim.
ghost use Rattle.std.specs.Prelude.{◌≡◌};
ghost use Rattle.reg_claims.specs.Claims.{claim_of, is_same, is_of_session};

use reg_names::{Name, UploadId};

/// A session that is claimed: the upload of a repository with an id, which no other request works on until the claim is
/// ended. `Claims::hold` makes it, and `Claims::end_hold` ends it.
#[derive(Debug)]
pub struct Held {
    pub(crate) number: u64,
    pub(crate) name: Name,
    pub(crate) id: UploadId,
}

impl Held {
    /// The number of the claim, from 1 on.
    pub fn number(&self) -> u64
        ensures { result ≡ self.now.number }
    {
        self.number
    }

    /// The repository of the session.
    pub fn name(&self) -> &Name
        ensures { result.now ≡ self.now.name }
    {
        &self.name
    }

    /// The id of the session.
    pub fn id(&self) -> &UploadId
        ensures { result.now ≡ self.now.id }
    {
        &self.id
    }
}

/// What is claimed.
#[derive(Debug, Drop)]
pub(crate) enum Claim {
    Session {
        number: u64,
        name: Name,
        id: UploadId,
    },
}

/// A claim that stands, and the number of the pass or holder that made it.
#[derive(Debug, Drop)]
pub(crate) struct Standing {
    pub(crate) who: u32,
    pub(crate) claim: Claim,
}

impl Claim {
    /// Whether it is this claim, in each of its parts.
    pub(crate) fn is_held_as(&self, held: &Held) -> bool
        ensures { result ≡ is_same (claim_of held.now) self.now }
    {
        match self {
            Claim::Session { number, name, id } => {
                held.number == *number && held.name == *name && held.id == *id
            }
        }
    }

    /// Whether it is a claim of that session.
    pub(crate) fn is_of_session(&self, of: &Name, key: &UploadId) -> bool
        ensures { result ≡ is_of_session of.now key.now self.now }
    {
        match self {
            Claim::Session {
                number: _,
                name,
                id,
            } => of == name && key == id,
        }
    }
}
