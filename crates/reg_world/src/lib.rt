//! A world: the devices of a registry, joined, and what is asked of it, one call a hold.
//! Each call promises whoever holds the world that it is a move of the one-thread registry, told over the world's plain
//! data (`specs/Worlds.antt`, `specs/Moves.antt`): the answer is the registry's in what the devices hold, and a trouble
//! has its cause. It may be made again after any trouble.
//! Asks and replies are those of the OCI Distribution Specification 1.1, "Endpoints".
#![tactic(auto)]

mod laws;
mod world;

pub use laws::{finished_uploads_are_blobs, refusals_change_nothing};
pub use world::{World, begin};
