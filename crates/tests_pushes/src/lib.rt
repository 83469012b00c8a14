//! Tests of pushes over a depot that fails once: what was answered, and that the same push can be made again.
#![tactic(auto)]

#[cfg(test)]
mod again;
