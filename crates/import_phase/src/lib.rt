//! How far the import of a depot into tables has come, and the row that keeps it.
//! `read_phase` answers the phase that the phase row spells, and the start where there is none; it leaves the keeper as
//! it is. `phase_bytes` spells a phase, and what it gives may stand in the tables. `specs/Phases.antt` has the spelling.
//! For all that serve, import or review. What is imported are files of the Distribution registry's storage layout.
#![tactic(auto)]

mod laws;
mod phase;
mod reading;
mod writing;

pub use depot_api::Path;
pub use keeper_api::{Bytes, Keeper, Key};
pub use laws::{phase_rows_spell_phases, phases_are_bounded, phases_read_back};
pub use phase::{Cursor, Phase, Two};
pub use reading::read_phase;
pub use reg_entries::Trouble;
pub use reg_names::NoMemory;
pub use writing::{phase_bytes, phase_key};
