//! What ends over std's readers and writers, and ends in memory, give and take call by call, and that they go on after a
//! fault.
ghost use Rattle.std.specs.Prelude.{◌≡◌, IfOk};

use crate::checks::same;
use board_io::{Failed, MemSink, MemSource, ReadSource, Sink, Source, WriteSink};
use std::io;
use std::io::{Error, ErrorKind, Read, Write};
use std::process::Abort;
use std::test::Fail;

/// A device that fails at its first call, and reads ones and takes all from then on.
#[derive(Drop)]
struct Flaky {
    is_well: bool,
}

impl Flaky {
    fn call(&mut self, length: usize) -> io::Result<usize>
        ensures { IfOk result (λ n. n ≡ length) }
    {
        if self.is_well {
            return Ok(length);
        }
        self.is_well = true;
        Err(Error::from(ErrorKind::BrokenPipe))
    }
}

impl Read for Flaky {
    fn read(&mut self, buf: &mut [u8]) -> io::Result<usize> {
        buf.fill(1);
        self.call(buf.len())
    }
}

impl Write for Flaky {
    fn write(&mut self, buf: &[u8]) -> io::Result<usize> {
        self.call(buf.len())
    }

    fn flush(&mut self) -> io::Result<()> {
        Ok(())
    }
}

/// Takes into the same four places, and compares each call's answer and what is then in them.
fn expect_taken(
    rt: &impl Abort,
    source: &mut impl Source,
    calls: &[(Result<usize, Failed>, [u8; 4])],
) {
    let mut piece = [b'.'; 4];
    for call in calls {
        same(rt, call.1, (source.take(&mut piece), piece), *call);
    }
}

#[test]
fn a_reader_is_a_source(rt: HostRuntime) {
    let text: &[u8] = b"abcde";
    let mut source = ReadSource::new(text);
    let calls = [(Ok(4), *b"abcd"), (Ok(1), *b"ebcd"), (Ok(0), *b"ebcd")];
    expect_taken(&rt, &mut source, &calls);
}

#[test]
fn a_page_is_read_at_once(rt: HostRuntime) {
    let mut text = [2; 5000];
    text[4095] = 3;
    let mut source = ReadSource::new(text.as_slice());
    let mut piece = [0; 4096];
    for given in [4096, 904, 0] {
        same(&rt, given, source.take(&mut piece), Ok(given));
        same(&rt, given, (piece[0], piece[4095]), (2, 3));
    }
}

#[test]
fn a_writer_is_a_sink(rt: HostRuntime) {
    let mut text = Vec::new(rt.alloc());
    let mut sink = WriteSink::new(&mut text);
    same(&rt, "abc", sink.put(b"abc"), Ok(3));
    same(&rt, "de", sink.put(b"de"), Ok(2));
    same(&rt, "the text", text.as_slice(), b"abcde".as_slice());
}

#[test]
fn goes_on_after_a_fault(rt: HostRuntime) {
    let mut piece = [0; 4096];
    let mut source = ReadSource::new(Flaky { is_well: false });
    same(&rt, "first take", source.take(&mut piece), Err(Failed));
    same(&rt, "second take", source.take(&mut piece), Ok(4096));
    same(&rt, "its last byte", piece[4095], 1);
    let mut sink = WriteSink::new(Flaky { is_well: false });
    same(&rt, "first put", sink.put(&piece), Err(Failed));
    same(&rt, "second put", sink.put(&piece), Ok(4096));
}

#[test]
fn gives_its_bytes_in_pieces_and_fails_when_told(rt: HostRuntime) -> Result<(), Fail> {
    let bytes = b"abcde".to_vec(rt.alloc())?;
    let mut source = MemSource::new(bytes, vec![in rt.alloc(); 2]?, 3);
    let calls = [
        (Ok(3), *b"abc."),
        (Err(Failed), *b"abc."),
        (Ok(2), *b"dec."),
        (Ok(0), *b"dec."),
    ];
    expect_taken(&rt, &mut source, &calls);
    Ok(())
}

#[test]
fn holds_what_it_took(rt: HostRuntime) -> Result<(), Fail> {
    let mut sink = MemSink::new(rt.alloc(), vec![in rt.alloc(); 2]?, 2);
    same(&rt, "abc", sink.put(b"abc"), Ok(2));
    same(&rt, "c", sink.put(b"c"), Err(Failed));
    same(&rt, "c again", sink.put(b"c"), Ok(1));
    same(&rt, "the text", sink.bytes(), b"abc".as_slice());
    Ok(())
}
