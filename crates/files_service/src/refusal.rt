//! Refusals.
ghost use Rattle.std.specs.Prelude.{◌≡◌, IfOk};
ghost use Rattle.reg_names.specs.Digests.{digest_text};
ghost use Rattle.reg_model.specs.Answers.{refusal as refusal_of};
ghost use Rattle.reg_model.specs.Changing.{refusal_with};

use reg_entries::{Detail, No, Reply};
use reg_names::{Digest, NoMemory, Text};
use std::alloc::Global;

/// The refusal with this number, which tells nothing beside it.
pub(crate) fn refusal(number: u8) -> Reply
    ensures { result ≡ refusal_of number }
{
    Reply::Refused(No {
        number,
        detail: Detail::Nothing,
    })
}

/// The refusal with this number that tells a word.
pub(crate) fn refusal_with(number: u8, word: Text) -> Reply
    ensures { result ≡ refusal_with number word }
{
    Reply::Refused(No {
        number,
        detail: Detail::Word(word),
    })
}

/// The refusal with this number that tells a digest.
pub(crate) fn refusal_telling(alloc: Global, number: u8, digest: &Digest) -> Result<Reply, NoMemory>
    ensures { IfOk result (λ reply. reply ≡ refusal_with number (digest_text digest.now)) }
{
    Ok(refusal_with(number, digest.text(alloc)?))
}
