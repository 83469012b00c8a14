//! Troubles of a service.
ghost use Rattle.std.specs.Prelude.{◌≡◌, ◌↔◌};
ghost use Rattle.files_service.specs.Answers.{IsOfFiles};
ghost use Rattle.reg_names.specs.declared.refused.Refused.TheVariants as refusals;
ghost use Rattle.reg_entries.specs.declared.trouble.Trouble.TheVariants as troubles;

use reg_entries::Trouble;
use reg_names::Refused;

/// The trouble of a call that the depot refused.
pub fn trouble(refused: Refused) -> Trouble
    ensures of_files { IsOfFiles result }
    ensures failed { (result ≡ troubles.Depot) ↔ (refused ≡ refusals.Failed) }
{
    match refused {
        Refused::Failed => Trouble::Depot,
        Refused::NoMemory => Trouble::NoMemory,
    }
}
