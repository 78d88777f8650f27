//! Sources and sinks over std's readers and writers. That the real ones keep std's contracts is trusted.
ghost use Rattle.std.specs.Prelude.{◌≡◌, ℕ, false};

use crate::sink::Sink;
use crate::source::Source;
use crate::step::{ReadStep, WriteStep};
use std::io::{Read, Write};

/// A source over a reader.
#[derive(Drop)]
pub struct StdSource<R: Read> {
    inner: R,
    faults: u64,
    ended: bool,
}

impl<R: Read> StdSource<R> {
    pub fn new(inner: R) -> StdSource<R>
        ensures { result ≡ record { inner = inner; faults = 0; ended = false } }
    {
        StdSource {
            inner,
            faults: 0,
            ended: false,
        }
    }
}

impl<R: Read> Source for StdSource<R> {
    ghost left = { λ s. R.remaining s.inner };

    ghost faults = { λ s. s.faults };

    ghost ended = { λ s. s.ended };

    fn read(&mut self, room: &mut [u8]) -> ReadStep {
        self.ended = false;
        match self.inner.read(room) {
            Ok(0) => {
                self.ended = true;
                ReadStep::End
            }
            Ok(count) => ReadStep::Got(count),
            Err(_) => {
                self.faults = self.faults.saturating_add(1);
                ReadStep::Failed
            }
        }
    }
}

/// A sink over a writer. A writer that takes nothing has failed.
#[derive(Drop)]
pub struct StdSink<W: Write> {
    inner: W,
    faults: u64,
}

impl<W: Write> StdSink<W> {
    pub fn new(inner: W) -> StdSink<W>
        ensures { result ≡ record { inner = inner; faults = 0 } }
    {
        StdSink { inner, faults: 0 }
    }
}

impl<W: Write> Sink for StdSink<W> {
    ghost held = { λ s. W.contents s.inner };

    ghost faults = { λ s. s.faults };

    fn write(&mut self, piece: &[u8]) -> WriteStep {
        match self.inner.write(piece) {
            Ok(count) if count > 0 => WriteStep::Took(count),
            _ => {
                self.faults = self.faults.saturating_add(1);
                WriteStep::Failed
            }
        }
    }
}
