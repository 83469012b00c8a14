//! Tests of what a store is made of, over its public names: what no clause says of them.
#![tactic(auto)]

#[cfg(test)]
mod directory;
#[cfg(test)]
mod links;
#[cfg(test)]
mod memory;
