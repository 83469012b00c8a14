//! The journal's language: entries, their one spelling, what each changes and touches, and which may follow which.
//! `entry_bytes` and `read_entry` write and read an entry exactly. What a journal leaves is one record of plain data in
//! `specs/Past.antt`, from which all rows of the tables can be told; `specs/Changes.antt` tells it by the kinds of
//! entries, and `specs/Legal.antt` which entries may follow. The laws are for all that keep or audit a journal.
//! The journal is this registry's own; what it speaks of is that of the OCI Distribution Specification 1.1.
#![tactic(auto)]

mod entry;
mod laws;
mod numbers;
mod past;
mod reader;
mod reading;
mod unread;
mod writing;

pub use entry::{Entry, What};
pub use laws::{
    all_is_kept_by_names, beginnings_are_legal, collections_take_what_nothing_holds,
    condemned_digests_are_not_held, one_entry_more, others_stay, reviews_are_legal,
    spellings_are_apart, tables_are_opened_once, tags_point_to_manifests,
};
pub use past::{Condemned, KeptLink};
pub use reading::read_entry;
pub use writing::entry_bytes;
