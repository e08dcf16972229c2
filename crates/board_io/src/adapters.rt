ghost use Rattle.std.specs.Prelude.{◌≡◌, ◌≤◌, [], length};
ghost use Rattle.byte_log.specs.Calls.{bytes_in};
ghost use Rattle.board_io.specs.Ends.{input_of, output_of};
ghost use Rattle.board_io.specs.Faults.{most_given};

use crate::sink::Sink;
use crate::source::{Failed, MOST_GIVEN, Source};
use byte_log::ByteLog;
use std::io::{Read, Write};

/// A source over a reader of std's. What it has given is known for each reader, and what is left where the reader's
/// bytes are known.
#[derive(Drop)]
pub struct ReadSource<T: Read + Drop> {
    reader: T,
    log: ByteLog,
    given: usize,
    ghost few: { given ≤ most_given },
    ghost count: { given ≡ length (bytes_in log.calls) },
}

impl<T: Read + Drop> ReadSource<T> {
    /// A source of the bytes that the reader gives.
    pub fn new(reader: T) -> ReadSource<T>
        ensures { ⟦<ReadSource<T> as Source>⟧.input result ≡ input_of (T.remaining reader) [] }
    {
        ReadSource {
            reader,
            log: ByteLog::new(),
            given: 0,
        }
    }
}

impl<T: Read + Drop> Source for ReadSource<T> {
    ghost input = { λ s. input_of (T.remaining s.reader) s.log.calls };

    fn take(&mut self, into: &mut [u8]) -> Result<usize, Failed> {
        if self.given < MOST_GIVEN {
            let room = into.len().min(MOST_GIVEN - self.given);
            if let Ok(n) = self.reader.read(&mut into[..room]) {
                self.log.add(into, n);
                self.given += n;
                return Ok(n);
            }
        }
        self.log.fail();
        Err(Failed)
    }
}

/// A sink over a writer of std's. What it has accepted is known for each writer, and all that it holds where the
/// writer's bytes are known.
#[derive(Drop)]
pub struct WriteSink<T: Write + Drop> {
    writer: T,
    log: ByteLog,
}

impl<T: Write + Drop> WriteSink<T> {
    /// A sink whose bytes go to the writer.
    pub fn new(writer: T) -> WriteSink<T>
        ensures { ⟦<WriteSink<T> as Sink>⟧.output result ≡ output_of (T.contents writer) [] }
    {
        WriteSink {
            writer,
            log: ByteLog::new(),
        }
    }
}

impl<T: Write + Drop> Sink for WriteSink<T> {
    ghost output = { λ s. output_of (T.contents s.writer) s.log.calls };

    fn put(&mut self, piece: &[u8]) -> Result<usize, Failed> {
        match self.writer.write(piece) {
            Ok(n) if n > 0 => {
                self.log.add(piece, n);
                Ok(n)
            }
            _ => {
                self.log.fail();
                Err(Failed)
            }
        }
    }
}
