//! What a repository lacks.
ghost use Rattle.std.specs.Prelude.{IfOk};
ghost use Rattle.reg_model.specs.Answers.{LacksIn};
ghost use Rattle.reg_model.specs.Fits.{IsLacking};
ghost use Rattle.reg_tables.specs.Finds.{LooksUp};
ghost use Rattle.tables_service.specs.Telling.{FindsIn};

use crate::lookups::is_known;
use reg_entries::numbers::NAME_UNKNOWN;
use reg_entries::{Reply, Trouble};
use reg_names::Name;
use reg_tables::Keeper;
use std::alloc::Global;
use upload_sessions::refusal;

/// The refusal for what a repository lacks: by this number, or by that of an unknown repository.
pub(crate) fn lacks<K: Keeper>(
    alloc: Global,
    keeper: &mut K,
    name: &Name,
    number: u8,
) -> Result<Reply, Trouble>
    ensures value { FindsIn (K.kept keeper.old) result (λ state. LacksIn state name.now number) }
    ensures fits { IfOk result (IsLacking number) }
    ensures reads { LooksUp K.kept K.faults keeper.old keeper.new result }
{
    if is_known(alloc, keeper, name)? {
        Ok(refusal(number))
    } else {
        Ok(refusal(NAME_UNKNOWN))
    }
}
