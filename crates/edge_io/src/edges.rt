//! The edge itself: std's readers as sources, and its writers as sinks.
ghost use Rattle.std.specs.Prelude.{◌≡◌, false};

use crate::traits::count_fault;
use crate::{Failed, Sink, Source};
use std::io::{Read, Write};
use std::marker::Model;

/// A reader as a source. It tells what the reader tells. Contracts see it as `ReaderFacts`.
#[derive(Drop)]
pub struct ReadEdge<R: Read> {
    inner: R,
    faults: u64,
    ended: bool,
    hasty: bool,
}

impl<R: Read> Model for ReadEdge<R> {
    ghost use Rattle.edge_io.specs.Reader.{ReaderFacts};

    ghost Value = { ReaderFacts };

    ghost view = { λ edge. record {
      left = R.remaining edge.inner;
      faults = edge.faults;
      ended = edge.ended;
      hasty = edge.hasty;
    } };
}

impl<R: Read> ReadEdge<R> {
    /// The reader as a source that wasn't read.
    pub fn new(inner: R) -> ReadEdge<R>
        ensures left { result.left ≡ R.remaining inner }
        ensures faults { result.faults ≡ 0 }
        ensures ended { result.ended ≡ false }
        ensures hasty { result.hasty ≡ false }
    {
        ReadEdge {
            inner,
            faults: 0,
            ended: false,
            hasty: false,
        }
    }
}

impl<R: Read, K: Sink> Source<K> for ReadEdge<R> {
    ghost left = { λ edge. edge.left };

    ghost faults = { λ edge. edge.faults };

    ghost ended = { λ edge. edge.ended };

    ghost hasty = { λ edge. edge.hasty };

    fn read(&mut self, sink: &K, buf: &mut [u8]) -> Result<usize, Failed> {
        self.hasty |= sink.is_waiting();
        let Ok(n) = self.inner.read(buf) else {
            count_fault(&mut self.faults);
            return Err(Failed);
        };
        if n == 0 && !buf.is_empty() {
            self.ended = true;
        }
        Ok(n)
    }
}

/// A writer as a sink. It tells what the writer tells: what waits in a buffered one is held too.
#[derive(Drop)]
pub struct WriteEdge<W> {
    inner: W,
    faults: u64,
    waits: bool,
}

impl<W: Write> WriteEdge<W> {
    /// The writer as a sink that hasn't failed.
    pub fn new(inner: W) -> WriteEdge<W>
        ensures held { ⟦<WriteEdge<W> as Sink>⟧.held result ≡ W.contents inner }
        ensures faults { ⟦<WriteEdge<W> as Sink>⟧.faults result ≡ 0 }
        ensures waits { ⟦<WriteEdge<W> as Sink>⟧.waits result ≡ false }
    {
        WriteEdge {
            inner,
            faults: 0,
            waits: false,
        }
    }
}

impl<W: Write> Sink for WriteEdge<W> {
    ghost held = { λ edge. W.contents edge.inner };

    ghost faults = { λ edge. edge.faults };

    ghost waits = { λ edge. edge.waits };

    fn is_waiting(&self) -> bool {
        self.waits
    }

    fn write(&mut self, piece: &[u8]) -> Result<usize, Failed> {
        let Ok(n) = self.inner.write(piece) else {
            count_fault(&mut self.faults);
            return Err(Failed);
        };
        if n == 0 && !piece.is_empty() {
            count_fault(&mut self.faults);
        }
        self.waits |= n > 0;
        Ok(n)
    }

    fn flush(&mut self) -> Result<(), Failed> {
        if self.inner.flush().is_err() {
            count_fault(&mut self.faults);
            return Err(Failed);
        }
        self.waits = false;
        Ok(())
    }
}
