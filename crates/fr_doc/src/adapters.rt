//! Devices over the readers and writers of std. As devices they tell no content, since few readers
//! and writers do.
ghost use Rattle.std.specs.Prelude.{◌≡◌, ◌≤◌, None, IfOk, length, take};
ghost use Rattle.std.specs.Io.KnownBytes.{ReadConsumes, Appends};
ghost use Rattle.fr_doc.specs.Causes.{HasCause, MovesAtMost, TakesSome, CountsFault};

use super::device::{Failed, Sink, Source, count_fault};
use std::io::{Read, Write};
use std::marker::Model;

/// A source over a reader. A call is one `read`, and an `Err` is a fault.
#[derive(Drop)]
pub struct ReaderSource<R> {
    reader: R,
    faults: u64,
}

impl<R> Model for ReaderSource<R> {
    ghost use Rattle.fr_doc.specs.Adapter.{Adapter};

    ghost Value = { Adapter R };

    ghost view = { λ device. record { inner = device.reader; faults = device.faults } };
}

impl<R: Read> ReaderSource<R> {
    /// A source that gives what the reader gives.
    pub fn new(reader: R) -> ReaderSource<R>
        ensures unread { result ≡ record { inner = reader; faults = 0 } }
    {
        ReaderSource { reader, faults: 0 }
    }
}

impl<R: Read> Source for ReaderSource<R> {
    ghost left = { λ _. None };

    ghost faults = { λ source. source.faults };

    fn read(&mut self, into: &mut [u8]) -> Result<usize, Failed>
        // As at each source.
        ensures at_most { MovesAtMost (length into.new) result }
        ensures never_falls { self.old.faults ≤ self.new.faults }
        ensures cause { HasCause self.old.faults self.new.faults result }

        // At this one. Its reader gave the bytes, where the reader tells that.
        ensures counts { CountsFault self.old.faults self.new.faults result }
        ensures reads { ReadConsumes (R.remaining self.old.inner) (R.remaining self.new.inner)
            result into.new }
    {
        match self.reader.read(into) {
            Ok(n) => Ok(n),
            Err(_) => Err(count_fault(&mut self.faults)),
        }
    }
}

/// A sink over a writer. A call is one `write` and then, where that is no fault, one `flush`. An
/// `Err` is a fault, and so is a `write` that takes nothing of a piece that isn't empty. Where the
/// `flush` fails, the writer has taken bytes all the same.
#[derive(Drop)]
pub struct WriterSink<W> {
    writer: W,
    faults: u64,
}

impl<W> Model for WriterSink<W> {
    ghost use Rattle.fr_doc.specs.Adapter.{Adapter};

    ghost Value = { Adapter W };

    ghost view = { λ device. record { inner = device.writer; faults = device.faults } };
}

impl<W: Write> WriterSink<W> {
    /// A sink that hands the writer what it takes.
    pub fn new(writer: W) -> WriterSink<W>
        ensures unwritten { result ≡ record { inner = writer; faults = 0 } }
    {
        WriterSink { writer, faults: 0 }
    }
}

impl<W: Write> Sink for WriterSink<W> {
    ghost taken = { λ _. None };

    ghost faults = { λ sink. sink.faults };

    fn write(&mut self, piece: &[u8]) -> Result<usize, Failed>
        // As at each sink.
        ensures at_most { MovesAtMost (length piece.now) result }
        ensures some { TakesSome result piece.now }
        ensures never_falls { self.old.faults ≤ self.new.faults }
        ensures cause { HasCause self.old.faults self.new.faults result }

        // At this one. Its writer took the bytes, where the writer tells that.
        ensures counts { CountsFault self.old.faults self.new.faults result }
        ensures writes { IfOk result (λ n. Appends (W.contents self.old.inner)
            (W.contents self.new.inner) (take n piece.now)) }
    {
        let Ok(n) = self.writer.write(piece) else {
            return Err(count_fault(&mut self.faults));
        };
        if n == 0 && !piece.is_empty() {
            return Err(count_fault(&mut self.faults));
        }
        match self.writer.flush() {
            Ok(()) => Ok(n),
            Err(_) => Err(count_fault(&mut self.faults)),
        }
    }
}
