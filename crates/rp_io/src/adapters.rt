ghost use Rattle.std.specs.Prelude.{◌≡◌, ◌<◌, length, is_err, if◌then◌else◌, IfOk};
ghost use Rattle.std.specs.Io.{ReadsAtMost, WritesAtMost};
ghost use Rattle.std.specs.Io.KnownBytes.{ReadConsumes, WriteAppends};
ghost use Rattle.rp_io.specs.Causes.{HasCause, next_count};
ghost use Rattle.rp_io.specs.Contents.{EndsWhereEmpty};

use crate::faults::Failed;
use crate::sinks::Sink;
use crate::sources::Source;
use std::io::{ErrorKind, Read, Write};
use std::marker::Model;

/// A source over a reader of std. A read that the system interrupted is tried again, and is no
/// fault. Each other error counts one and is answered.
///
/// Contracts see what std says of the reader's bytes, which of standard input and of a file is
/// nothing, and the count of faults, which stays at 2^64 - 1 once it is there.
#[derive(Drop)]
pub struct ReaderSource<R: Read + Drop> {
    reader: R,
    faults: u64,
}

/// Standard input as a source, over the runtime's reader (`rt.reader()`).
pub type StdinSource<R> = ReaderSource<R>;

impl<R: Read + Drop> Model for ReaderSource<R> {
    ghost use Rattle.rp_io.specs.Adapters.{AdapterState};

    ghost Value = { AdapterState };

    ghost view = { λ source. record { content = R.remaining source.reader; faults = source.faults } };
}

impl<R: Read + Drop> ReaderSource<R> {
    /// A source over this reader, without a fault so far.
    pub fn new(reader: R) -> ReaderSource<R>
        ensures { result ≡ record { content = R.remaining reader; faults = 0 } }
    {
        ReaderSource::after(reader, 0)
    }

    /// A source over this reader that counts on from so many faults.
    pub fn after(reader: R, faults: u64) -> ReaderSource<R>
        ensures { result ≡ record { content = R.remaining reader; faults = faults } }
    {
        ReaderSource { reader, faults }
    }

    /// How many faults were counted.
    pub fn faults(&self) -> u64
        ensures { result ≡ self.now.faults }
    {
        self.faults
    }
}

impl<R: Read + Drop> Source for ReaderSource<R> {
    ghost left = { λ source. source.content };

    ghost faults = { λ source. source.faults };

    fn read(&mut self, into: &mut [u8]) -> Result<usize, Failed>
        requires { 0 < length into.old }
        ensures after { self.new.faults ≡ (if is_err result then next_count self.old.faults else self.old.faults) }

        ensures bound { ReadsAtMost result into.new }
        ensures bytes { ReadConsumes self.old.content self.new.content result into.new }
        ensures end { IfOk result (EndsWhereEmpty self.old.content) }
        ensures cause { HasCause self.old.faults self.new.faults result }
    {
        for _ in 0..u64::MAX {
            match self.reader.read(into) {
                Ok(count) => return Ok(count),
                Err(error) if error.kind() == ErrorKind::Interrupted => {}
                Err(_) => break,
            }
        }
        self.faults = self.faults.saturating_add(1);
        Err(Failed)
    }
}

/// A sink over a writer of std. A write that the system interrupted is tried again, and is no
/// fault. Each other error counts one and is answered, and so does a write that took nothing.
///
/// Contracts see what std says of the writer's bytes, which of standard output is nothing, and
/// the count of faults, which stays at 2^64 - 1 once it is there.
#[derive(Drop)]
pub struct WriterSink<W: Write + Drop> {
    writer: W,
    faults: u64,
}

/// Standard output as a sink, over the runtime's writer (`io::writer(&rt)`).
pub type StdoutSink<W> = WriterSink<W>;

impl<W: Write + Drop> Model for WriterSink<W> {
    ghost use Rattle.rp_io.specs.Adapters.{AdapterState};

    ghost Value = { AdapterState };

    ghost view = { λ sink. record { content = W.contents sink.writer; faults = sink.faults } };
}

impl<W: Write + Drop> WriterSink<W> {
    /// A sink over this writer, without a fault so far.
    pub fn new(writer: W) -> WriterSink<W>
        ensures { result ≡ record { content = W.contents writer; faults = 0 } }
    {
        WriterSink { writer, faults: 0 }
    }

    /// How many faults were counted.
    pub fn faults(&self) -> u64
        ensures { result ≡ self.now.faults }
    {
        self.faults
    }
}

impl<W: Write + Drop> Sink for WriterSink<W> {
    ghost written = { λ sink. sink.content };

    ghost faults = { λ sink. sink.faults };

    fn write(&mut self, bytes: &[u8]) -> Result<usize, Failed>
        requires { 0 < length bytes.now }
        ensures after { self.new.faults ≡ (if is_err result then next_count self.old.faults else self.old.faults) }

        ensures bound { WritesAtMost result bytes.now }
        ensures some { IfOk result (λ count. 0 < count) }
        ensures bytes { WriteAppends self.old.content self.new.content result bytes.now }
        ensures cause { HasCause self.old.faults self.new.faults result }
    {
        for _ in 0..u64::MAX {
            match self.writer.write(bytes) {
                Ok(count) if count > 0 => return Ok(count),
                Err(error) if error.kind() == ErrorKind::Interrupted => {}
                _ => break,
            }
        }
        self.faults = self.faults.saturating_add(1);
        Err(Failed)
    }
}
