//! The tables over a keeper: typed rows by typed keys, read one by one, and written with the journal.
//! Each look-up answers the row of its key as a value, whose spelling is the row, and leaves the keeper as it is; `write`
//! adds entries and the rows that they derive in one commit. The spellings of keys and of rows are in `specs/Keys.antt`
//! and `specs/Spelled.antt`, and what a journal derives in `specs/Derived.antt`. For all that serve from tables.
//! The tables are this registry's own; what they speak of is that of the OCI Distribution Specification 1.1.
#![tactic(auto)]

mod entries;
mod find;
mod first;
mod gather;
mod keys;
mod laws;
mod manifests;
mod meta;
mod next;
mod payload;
mod pending;
mod rows;
mod steps;
mod strokes;
mod trail;
mod writing;

pub use find::{find_blob, find_link, find_manifest, find_payload, find_row, find_tag, noting};
pub use first::first_row;
pub use keeper_api::{Bytes, Keeper, Key};
pub use laws::{given_rows_are_derived, rows_tell_the_past};
pub use meta::{delay_bytes, delay_key, find_delay, has_version, version_bytes, version_key};
pub use next::{next_child, next_link, next_manifest, next_named, next_tag};
pub use payload::payload_change;
pub use reg_entries::{Kind, Named, Trouble};
pub use rows::{BlobRow, LinkRow, ManifestRow, number_of};
pub use trail::Trail;
pub use writing::{JOURNAL_LIMIT, write};
