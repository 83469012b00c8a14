//! A source in memory.
ghost use Rattle.std.specs.Prelude.{◌≡◌, ◌≤◌, ◌++◌, length, take, drop, IfOk, OnErr, IsErr};
ghost use Rattle.std.specs.Io.KnownBytes.{ReadConsumes};
ghost use Rattle.reg_names.specs.Cause.{HasCause};
ghost use Rattle.depot_api.specs.Calls.{no_calls, CountsCall};
ghost use Rattle.depot_api.specs.Streams.{GivesUpTo};

use crate::memory::calls::Calls;
use crate::{Bytes, NoMemory, Source, SourceFault};
use std::alloc::Global;

/// Bytes in memory that are read in pieces. Every read has a number, from 0.
#[derive(Drop)]
pub struct MemSource {
    bytes: Bytes,
    at: usize,
    pieces: Vec<usize>,
    calls: Calls,
    ghost within: { at ≤ length bytes },
}

impl MemSource {
    ghost use Rattle.depot_api.specs.MemSource.{source_left, source_given, source_pieces, source_calls, source_faults, source_told, next_length};

    /// A source of these bytes. Read number k gives at most the larger of 1 and `pieces[k]` bytes, where
    /// there is that piece. The reads whose numbers stand in `fail` fail.
    pub fn new(
        _alloc: Global,
        bytes: Bytes,
        pieces: Vec<usize>,
        fail: Vec<u64>,
    ) -> Result<MemSource, NoMemory>
        ensures left { IfOk result (λ s. source_left s ≡ bytes) }
        ensures given { IfOk result (λ s. source_given s ≡ 0) }
        ensures pieces { IfOk result (λ s. source_pieces s ≡ pieces.items) }
        ensures calls { IfOk result (λ s. source_calls s ≡ no_calls fail.items) }
    {
        Ok(MemSource {
            bytes,
            at: 0,
            pieces,
            calls: Calls::new(fail),
        })
    }

    // How many bytes the next read gives into a buffer of that size.
    fn next_length(&self, size: usize) -> usize
        ensures { result ≡ next_length self.now size }
    {
        let left = self.bytes.len() - self.at;
        let most = match self.pieces.get(self.calls.made() as usize) {
            Some(piece) => (*piece).max(1),
            None => left,
        };
        left.min(size).min(most)
    }

    /// How often it has failed.
    pub fn faults(&self) -> u64
        ensures { result ≡ (source_calls self.now).faults }
    {
        self.calls.faults()
    }
}

impl Source for MemSource {
    ghost use Rattle.depot_api.specs.MemSource.{source_left, source_given, source_pieces, source_calls, source_faults, source_told, next_length};

    ghost left = { source_told };

    ghost given = { source_given };

    ghost faults = { source_faults };

    fn read(&mut self, into: &mut [u8]) -> Result<usize, SourceFault>
        // Which reads fail, and that each is counted.
        ensures calls { CountsCall (source_calls self.old) (source_calls self.new) (IsErr result) }
        ensures cause { HasCause (source_faults self.old) (source_faults self.new) (IsErr result) }

        // How many bytes it gives, and that these are the next ones.
        ensures length { IfOk result (λ n. n ≡ next_length self.old (length into.old)) }
        ensures bytes { ReadConsumes (source_told self.old) (source_told self.new) result into.new }
        ensures count { GivesUpTo into.old (source_given self.old) (source_given self.new) result }

        // What stays.
        ensures buffer { IfOk result (λ n.
            into.new ≡ take n (source_left self.old) ++ drop n into.old) }
        ensures untouched { OnErr result (into.new ≡ into.old) }
        ensures pieces { source_pieces self.new ≡ source_pieces self.old }
    {
        let given = self.next_length(into.len());
        if self.calls.begin() {
            return Err(SourceFault);
        }
        into[..given].copy_from_slice(&self.bytes.as_slice()[self.at..self.at + given]);
        self.at += given;
        Ok(given)
    }
}
