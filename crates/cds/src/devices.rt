ghost use Rattle.std.specs.Prelude.{◌≡◌, ◌-◌, ◌^◌, ◌≤◌, None, IfOk, length};

use cds_base::{Failed, Sink, Source};
use std::io::{ErrorKind, Read, Write};

/// A source over a reader of the system. It tells nothing of its content; it gives at most 2^64 - 1 bytes, and
/// answers the end of input behind them.
#[derive(Drop)]
pub struct ReaderSource<R> {
    reader: R,
    bound: u64,
    faults: u64,
}

impl<R: Read + Drop> ReaderSource<R> {
    /// A source over this reader, which has not failed yet.
    pub fn new(reader: R) -> ReaderSource<R>
        ensures bound { result.bound ≡ 2 ^ 64 - 1 }
        ensures faults { result.faults ≡ 0 }
    {
        ReaderSource {
            reader,
            bound: u64::MAX,
            faults: 0,
        }
    }

    /// The reader, for what comes behind the serving.
    pub fn into_reader(self) -> R
        ensures { result ≡ self.reader }
    {
        self.reader
    }
}

impl<R: Read + Drop> Source for ReaderSource<R> {
    ghost told = { λ s. record { given = None; left = None; bound = s.bound; faults = s.faults } };

    fn read(&mut self, buf: &mut [u8]) -> Result<usize, Failed> {
        let room = buf.len().min(self.bound as usize);
        match read_some(&mut self.reader, &mut buf[..room]) {
            Ok(count) => {
                self.bound -= count as u64;
                Ok(count)
            }
            Err(error) => {
                self.faults = self.faults.saturating_add(1);
                Err(error)
            }
        }
    }
}

/// Reads again as long as a read is interrupted.
fn read_some<R: Read>(reader: &mut R, buf: &mut [u8]) -> Result<usize, Failed>
    ensures { IfOk result (λ n. n ≤ length buf.old) }
{
    for _ in 0..u64::MAX {
        match reader.read(buf) {
            Ok(count) => return Ok(count),
            Err(error) if error.kind() == ErrorKind::Interrupted => {}
            Err(_) => return Err(Failed),
        }
    }
    Err(Failed)
}

/// A sink over a writer of the system. It tells nothing of its content.
#[derive(Drop)]
pub struct WriterSink<W> {
    pub(crate) writer: W,
    faults: u64,
}

impl<W: Write + Drop> WriterSink<W> {
    /// A sink over this writer, which has not failed yet.
    pub fn new(writer: W) -> WriterSink<W>
        ensures { result.faults ≡ 0 }
    {
        WriterSink { writer, faults: 0 }
    }
}

impl<W: Write + Drop> Sink for WriterSink<W> {
    ghost told = { λ s. record { written = None; faults = s.faults } };

    fn write(&mut self, piece: &[u8]) -> Result<usize, Failed> {
        match write_some(&mut self.writer, piece) {
            Ok(count) if 0 < count || piece.is_empty() => Ok(count),
            _ => {
                self.faults = self.faults.saturating_add(1);
                Err(Failed)
            }
        }
    }
}

/// Writes again as long as a write is interrupted.
fn write_some<W: Write>(writer: &mut W, piece: &[u8]) -> Result<usize, Failed>
    ensures { IfOk result (λ n. n ≤ length piece.now) }
{
    for _ in 0..u64::MAX {
        match writer.write(piece) {
            Ok(count) => return Ok(count),
            Err(error) if error.kind() == ErrorKind::Interrupted => {}
            Err(_) => return Err(Failed),
        }
    }
    Err(Failed)
}
