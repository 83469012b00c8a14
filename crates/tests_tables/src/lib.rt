//! Tests of tables over a keeper in memory: what a write leaves where nothing fails, and that it leaves nothing where a
//! call of the keeper fails.
#![tactic(auto)]

#[cfg(test)]
mod writes;
