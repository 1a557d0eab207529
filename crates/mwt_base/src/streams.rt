// The edge to the real streams. One call is one read or one write of a stream of std; a failed one is counted.
ghost use Rattle.std.specs.Prelude.{◌≡◌, ℕ, None};

use crate::{Failed, Sink, Source};
use std::io::{Read, Write};

/// Any reader of std as a source. What it has left is told where the reader tells it; standard input
/// tells nothing.
#[derive(Drop)]
pub struct StdSource<R: Read> {
    reader: R,
    faults: u64,
}

impl<R: Read> StdSource<R> {
    /// Takes no memory.
    pub fn new(reader: R) -> Self
        ensures left { ⟦<StdSource<R> as Source>⟧.left result ≡ R.remaining reader }
        ensures no_fault { ⟦<StdSource<R> as Source>⟧.faults result ≡ 0 }
    {
        StdSource { reader, faults: 0 }
    }
}

impl<R: Read> Source for StdSource<R> {
    ghost left = { λ s. R.remaining s.reader };

    ghost faults = { λ s. s.faults };

    ghost reads = { λ s. 0 };

    fn read(&mut self, buf: &mut [u8]) -> Result<usize, Failed> {
        match self.reader.read(buf) {
            Ok(count) => Ok(count),
            Err(_) => {
                self.faults = self.faults.saturating_add(1);
                Err(Failed)
            }
        }
    }
}

/// Any writer of std as a sink. Nothing is told of what it holds. A write that takes nothing of a
/// piece is a fault.
#[derive(Drop)]
pub struct StdSink<W: Write> {
    writer: W,
    faults: u64,
}

impl<W: Write> StdSink<W> {
    /// Takes no memory.
    pub fn new(writer: W) -> Self
        ensures untold { ⟦<StdSink<W> as Sink>⟧.written result ≡ None }
        ensures no_fault { ⟦<StdSink<W> as Sink>⟧.faults result ≡ 0 }
    {
        StdSink { writer, faults: 0 }
    }
}

impl<W: Write> Sink for StdSink<W> {
    ghost written = { λ s. None };

    ghost faults = { λ s. s.faults };

    fn write(&mut self, buf: &[u8]) -> Result<usize, Failed> {
        match self.writer.write(buf) {
            Ok(count) if count > 0 || buf.is_empty() => Ok(count),
            _ => {
                self.faults = self.faults.saturating_add(1);
                Err(Failed)
            }
        }
    }
}
