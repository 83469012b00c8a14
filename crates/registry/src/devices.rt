//! Streams, the clock and the words of ids of the system.
ghost use Rattle.std.specs.Prelude.{◌≡◌, ◌≤◌};
ghost use Rattle.depot_api.specs.Limits.{given_limit};

use depot_api::{Clock, GIVEN_LIMIT, Ids, MOMENT_LIMIT, Sink, SinkFault, Source, SourceFault};
use std::io::{Read, Write};
use std::random::RandomSource;
use std::time::SystemTime;

/// A reader as a source.
#[derive(Drop)]
pub struct ReaderSource<R> {
    reader: R,
    given: u64,
    faults: u64,
    ghost counted: { given ≤ given_limit },
}

impl<R: Read> ReaderSource<R> {
    /// Nothing was given yet.
    pub fn new(reader: R) -> ReaderSource<R>
        ensures reader { result.reader ≡ reader }
        ensures given { result.given ≡ 0 }
        ensures faults { result.faults ≡ 0 }
    {
        ReaderSource {
            reader,
            given: 0,
            faults: 0,
        }
    }
}

impl<R: Read> Source for ReaderSource<R> {
    ghost left = { λ s. R.remaining s.reader };

    ghost given = { λ s. s.given };

    ghost faults = { λ s. s.faults };

    fn read(&mut self, into: &mut [u8]) -> Result<usize, SourceFault> {
        match self.reader.read(into) {
            Ok(n) => {
                self.given = self.given.saturating_add(n as u64).min(GIVEN_LIMIT);
                Ok(n)
            }
            Err(_) => {
                self.faults = self.faults.saturating_add(1);
                Err(SourceFault)
            }
        }
    }
}

/// A writer as a sink.
#[derive(Drop)]
pub struct WriterSink<W> {
    writer: W,
    faults: u64,
}

impl<W: Write> WriterSink<W> {
    /// Nothing was taken yet.
    pub fn new(writer: W) -> WriterSink<W>
        ensures writer { result.writer ≡ writer }
        ensures faults { result.faults ≡ 0 }
    {
        WriterSink { writer, faults: 0 }
    }
}

impl<W: Write> Sink for WriterSink<W> {
    ghost taken = { λ s. W.contents s.writer };

    ghost faults = { λ s. s.faults };

    fn write(&mut self, piece: &[u8]) -> Result<usize, SinkFault> {
        match self.writer.write(piece) {
            Ok(n) if n > 0 || piece.is_empty() => Ok(n),
            Ok(_) | Err(_) => {
                self.faults = self.faults.saturating_add(1);
                Err(SinkFault)
            }
        }
    }
}

/// The system's clock. Before 1970, and where it cannot be read, the moment is 0.
#[derive(Drop)]
pub struct SystemClock<'a, R> {
    pub rt: &'a R,
}

impl<R: std::rt::Clock> Clock for SystemClock<'_, R> {
    ghost use Rattle.std.specs.Prelude.{None};

    ghost reading = { λ _. None };

    fn now(&self) -> u64 {
        match SystemTime::now(self.rt) {
            Ok(time) => match time.duration_since(SystemTime::UNIX_EPOCH) {
                Ok(since) => since.as_secs().min(MOMENT_LIMIT),
                Err(_) => 0,
            },
            Err(_) => 0,
        }
    }
}

/// The system's random words. Where it has none, sixteen zero bytes.
#[derive(Drop)]
pub struct SystemIds<'a, R> {
    pub rt: &'a R,
}

impl<R: RandomSource> Ids for SystemIds<'_, R> {
    ghost use Rattle.std.specs.Prelude.{None};

    ghost words = { λ _. None };

    fn draw(&mut self) -> [u8; 16] {
        let mut word = [0; 16];
        match self.rt.fill_bytes(&mut word) {
            Ok(()) => word,
            Err(_) => [0; 16],
        }
    }
}
