// Readers and writers of std as a source and a sink. Which bytes come from outside is not told.
ghost use Rattle.std.specs.Prelude.{◌≡◌, None};

use crate::{Failed, Sink, Source};
use std::io::{Read, Write};
use std::marker::Model;

/// A reader of std as a source that doesn't tell its bytes. Contracts see it as its count of
/// faults: each `Err` of the reader is one, an interrupted read too.
#[derive(Debug, Drop)]
pub struct StdSource<T> {
    reader: T,
    faults: u64,
}

impl<T> Model for StdSource<T> {
    ghost use Rattle.std.specs.Prelude.{ℕ};

    ghost Value = { ℕ };

    ghost view = { λ s. s.faults };
}

impl<T> StdSource<T> {
    /// A source over this reader, with no fault so far.
    pub fn new(reader: T) -> StdSource<T>
        ensures { result ≡ 0 }
    {
        StdSource { reader, faults: 0 }
    }

    /// How often the reader has failed.
    pub fn faults(&self) -> u64
        ensures { result ≡ self.now }
    {
        self.faults
    }
}

impl<T: Read> Source for StdSource<T> {
    ghost rest = { λ _. None };

    ghost faults = { λ count. count };

    fn read(&mut self, buf: &mut [u8]) -> Result<usize, Failed> {
        match self.reader.read(buf) {
            Ok(n) => Ok(n),
            Err(_) => {
                self.faults = self.faults.saturating_add(1);
                Err(Failed)
            }
        }
    }
}

/// A writer of std as a sink that doesn't tell its bytes. Contracts see it as its count of faults:
/// each `Err` of the writer is one, and so is a write that takes nothing of a piece that isn't
/// empty.
///
/// A writer that holds bytes back, as a `BufWriter`, may fail after `write` has returned `Ok`.
#[derive(Debug, Drop)]
pub struct StdSink<T> {
    writer: T,
    faults: u64,
}

impl<T> Model for StdSink<T> {
    ghost use Rattle.std.specs.Prelude.{ℕ};

    ghost Value = { ℕ };

    ghost view = { λ s. s.faults };
}

impl<T> StdSink<T> {
    /// A sink over this writer, with no fault so far.
    pub fn new(writer: T) -> StdSink<T>
        ensures { result ≡ 0 }
    {
        StdSink { writer, faults: 0 }
    }

    /// How often the writer has failed.
    pub fn faults(&self) -> u64
        ensures { result ≡ self.now }
    {
        self.faults
    }
}

impl<T: Write> Sink for StdSink<T> {
    ghost held = { λ _. None };

    ghost faults = { λ count. count };

    fn write(&mut self, buf: &[u8]) -> Result<usize, Failed> {
        match self.writer.write(buf) {
            Ok(n) if n > 0 || buf.is_empty() => Ok(n),
            _ => {
                self.faults = self.faults.saturating_add(1);
                Err(Failed)
            }
        }
    }
}
