//! Refusals, and troubles of the depot.
ghost use Rattle.std.specs.Prelude.{◌≡◌, ◌↔◌};
ghost use Rattle.reg_names.specs.declared.refused.Refused.TheVariants as refusals;
ghost use Rattle.reg_entries.specs.declared.trouble.Trouble.TheVariants as troubles;
ghost use Rattle.reg_model.specs.Answers.{refusal as refusal_with};
ghost use Rattle.upload_sessions.specs.Troubles.{IsOfDepot};

use reg_entries::{Detail, No, Reply, Trouble};
use reg_names::{NoMemory, Refused};

/// The trouble of a call that the depot refused.
pub fn depot_trouble(refused: Refused) -> Trouble
    ensures of_depot { IsOfDepot result }
    ensures failed { (result ≡ troubles.Depot) ↔ (refused ≡ refusals.Failed) }
{
    match refused {
        Refused::Failed => Trouble::Depot,
        Refused::NoMemory => Trouble::NoMemory,
    }
}

/// The trouble of a call that found no memory.
pub(crate) fn no_memory(_: NoMemory) -> Trouble
    ensures { result ≡ troubles.NoMemory }
{
    Trouble::NoMemory
}

/// The refusal with this number, which tells nothing beside it.
pub fn refusal(number: u8) -> Reply
    ensures { result ≡ refusal_with number }
{
    Reply::Refused(No {
        number,
        detail: Detail::Nothing,
    })
}
