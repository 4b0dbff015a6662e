//! The standard streams as a source and sinks. They tell no bytes.

use gj_base::{Failed, Sink, Source};
use std::io::{Read, Write};

/// A stream that is read. What it gives is not told. It takes no memory, and a read waits where the stream does.
#[derive(Drop)]
pub struct StreamSource<R: Read> {
    inner: R,
    reads: u64,
    faults: u64,
}

impl<R: Read> StreamSource<R> {
    ghost use Rattle.std.specs.Prelude.{◌≡◌};

    /// The stream, of which no call was made and none has failed yet.
    pub fn new(inner: R) -> Self
        ensures reads { result.reads ≡ 0 }
        ensures faults { result.faults ≡ 0 }
    {
        StreamSource {
            inner,
            reads: 0,
            faults: 0,
        }
    }
}

impl<R: Read> Source for StreamSource<R> {
    ghost use Rattle.std.specs.Prelude.{false, []};

    ghost tells = { λ _. false };

    ghost stream = { λ _. record { taken = []; left = [] } };

    ghost reads = { λ s. s.reads };

    ghost faults = { λ s. s.faults };

    ghost steady = { λ _. ⊥ };

    fn read(&mut self, into: &mut [u8]) -> Result<usize, Failed> {
        self.reads = self.reads.saturating_add(1);
        match self.inner.read(into) {
            Ok(n) => Ok(n),
            Err(_) => {
                self.faults = self.faults.saturating_add(1);
                Err(Failed)
            }
        }
    }
}

/// A stream that is written. What it took is not told. A write that takes nothing is a fault. It takes no memory, and a
/// write waits where the stream does.
#[derive(Drop)]
pub struct StreamSink<W: Write> {
    inner: W,
    faults: u64,
}

impl<W: Write> StreamSink<W> {
    ghost use Rattle.std.specs.Prelude.{◌≡◌};

    /// The stream, of which no call has failed yet.
    pub fn new(inner: W) -> Self
        ensures { result.faults ≡ 0 }
    {
        StreamSink { inner, faults: 0 }
    }
}

impl<W: Write> Sink for StreamSink<W> {
    ghost use Rattle.std.specs.Prelude.{false, []};

    ghost tells = { λ _. false };

    ghost written = { λ _. [] };

    ghost faults = { λ s. s.faults };

    ghost sure = { λ _. 0 };

    fn write(&mut self, piece: &[u8]) -> Result<usize, Failed> {
        match self.inner.write(piece) {
            Ok(n) => {
                if n > 0 {
                    return Ok(n);
                }
                self.faults = self.faults.saturating_add(1);
                Err(Failed)
            }
            Err(_) => {
                self.faults = self.faults.saturating_add(1);
                Err(Failed)
            }
        }
    }
}
