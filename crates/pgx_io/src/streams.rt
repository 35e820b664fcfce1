//! Standard input and output. They tell of bytes exactly what the reader or the writer under them tells: the system's own tell
//! nothing of what they hold.
ghost use Rattle.std.specs.Prelude.{◌≡◌};

use crate::{Failed, Sink, Source};
use std::io::{Read, Write};
use std::marker::Model;

/// A reader, such as standard input, seen as the bytes that it tells and how often it has failed.
#[derive(Drop)]
pub struct StdinSource<R: Read> {
    inner: R,
    failures: u64,
}

impl<R: Read> Model for StdinSource<R> {
    ghost use Rattle.std.specs.Prelude.{ℕ, List, Option};

    ghost Value = { Option (List ℕ) × ℕ };

    ghost view = { λ s. (R.remaining s.inner, s.failures) };
}

impl<R: Read> StdinSource<R> {
    pub fn new(inner: R) -> StdinSource<R>
        ensures { result ≡ (R.remaining inner, 0) }
    {
        StdinSource { inner, failures: 0 }
    }
}

impl<R: Read> Source for StdinSource<R> {
    ghost seen = { λ s. record { rest = s.0; faults = s.1 } };

    fn read(&mut self, buf: &mut [u8]) -> Result<usize, Failed> {
        match self.inner.read(buf) {
            Ok(count) => Ok(count),
            Err(_) => {
                self.failures = self.failures.saturating_add(1);
                Err(Failed)
            }
        }
    }
}

/// A writer, such as standard output, seen as the bytes that it tells and how often it has failed.
#[derive(Drop)]
pub struct StdoutSink<W: Write> {
    inner: W,
    failures: u64,
}

impl<W: Write> Model for StdoutSink<W> {
    ghost use Rattle.std.specs.Prelude.{ℕ, List, Option};

    ghost Value = { Option (List ℕ) × ℕ };

    ghost view = { λ s. (W.contents s.inner, s.failures) };
}

impl<W: Write> StdoutSink<W> {
    pub fn new(inner: W) -> StdoutSink<W>
        ensures { result ≡ (W.contents inner, 0) }
    {
        StdoutSink { inner, failures: 0 }
    }
}

impl<W: Write> Sink for StdoutSink<W> {
    ghost seen = { λ s. record { taken = s.0; faults = s.1 } };

    fn write(&mut self, bytes: &[u8]) -> Result<usize, Failed> {
        match self.inner.write(bytes) {
            Ok(count) if count > 0 || bytes.is_empty() => Ok(count),
            _ => {
                self.failures = self.failures.saturating_add(1);
                Err(Failed)
            }
        }
    }
}
