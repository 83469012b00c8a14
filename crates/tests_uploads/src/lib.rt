//! Tests of uploads, over the public names of their crates: that each call answers where nothing fails.
#![tactic(auto)]

#[cfg(test)]
mod sessions;
