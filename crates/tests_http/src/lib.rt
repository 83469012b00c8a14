//! Tests of reading HTTP, over the public names of `http_wire`: a source and a stage that fail in
//! mid-body, and a later call that goes on. The devices are those in memory, which fail at the
//! calls that they are told.
//! Streams of requests, single heads and bodies are cases of `cases_http`, one a line.
//! A test owns nothing, and asks a helper for a `bool`.
#![tactic(auto)]

#[cfg(test)]
mod faults;
