//! A source that fails at each call: the blocks of the whole lines before it are printed, and its word.
use super::{Ends, FIRST_RISE, MOVED, WELL, Wanted, expect};
use std::alloc::{AllocError, Global};
use std::process::Abort;
use std::sync::Wait;
use std::test::Fail;
use std::thread::Threads;
use trace_runner::Status;

/// The lines of `FIRST_RISE`, each with what it prints.
const FIRST_RISE_LINES: [(&[u8], &[u8]); 9] = [
    (b"clockboard 1\n", b""),
    (b"begin\n", b""),
    (b"0 0 out 43 34\n", b"3 1\n"),
    (b"0 0 out 40 04\n", b"4 2\n"),
    (b"0 0 out 40 00\n", b"5 3\n"),
    (b"0 5000 step\n", b"edge 4191 0 up\n6 4\n"),
    (b"0 5000 in 40\n", b"7 5 04\n"),
    (b"0 5000 in 40\n", b"8 6 00\n"),
    (b"end\n", b"final 5000 6 0 0\n"),
];

/// The lines of `MOVED`, each with what it prints.
const MOVED_LINES: [(&[u8], &[u8]); 12] = [
    (b"clockboard 1\n", b""),
    (b"guest 2000000\n", b""),
    (b"begin\n", b""),
    (b"0 0 out 43 34\n", b"4 1\n"),
    (b"0 0 out 40 00\n", b"5 2\n"),
    (b"0 0 out 40 00\n", b"6 3\n"),
    (b"0 0 wrmsr 4b564d01 1\n", b"7 4\n"),
    (b"0 1000 clock 0\n", b"8 clock 1000 1000\n"),
    (
        b"0 2000 move 3000000 500 1000000000\n",
        b"edge 54926240 0 up\n9 5 moved 1000002000\n",
    ),
    (b"0 3500 clock 0\n", b"10 clock 1000003000 1000003000\n"),
    (b"0 3500 counts pit\n", b"11 6 18 1 17 0\n"),
    (b"end\n", b"final 1000003000 6 1000003000 0\n"),
];

/// What a source is to have printed that fails after so many bytes of these lines: the blocks of the whole lines
/// among them, and the word of the fault.
fn cut_off(alloc: Global, lines: &[(&[u8], &[u8])], bytes: usize) -> Result<Vec<u8>, AllocError> {
    let mut given = Vec::new(alloc);
    let mut text = Vec::new(alloc);
    for (line, block) in lines {
        given.extend_from_slice(line)?;
        if given.len() <= bytes {
            text.extend_from_slice(block)?;
        }
    }
    text.extend_from_slice(b"fault source\n")?;
    Ok(text)
}

/// Replays a trace of these lines over a source that gives a byte a call, and fails at each of the calls in turn.
fn expect_source_faults<R: Threads + Wait + Sync + Abort + Alloc<A = Global>>(
    rt: &R,
    trace: &[u8],
    lines: &[(&[u8], &[u8])],
) -> Result<(), AllocError> {
    for bytes in 0..trace.len() {
        let text = cut_off(rt.alloc(), lines, bytes)?;
        let ends = Ends {
            source_fails: &[bytes as u64 + 1],
            source_piece: 1,
            ..WELL
        };
        let wanted = Wanted {
            status: Status::SourceFault,
            text: &text,
        };
        expect(rt, bytes, &["replay"], trace, &ends, wanted)?;
    }
    Ok(())
}

#[test]
fn a_source_that_fails_at_each_call(rt: HostRuntime) -> Result<(), Fail> {
    expect_source_faults(&rt, FIRST_RISE, &FIRST_RISE_LINES)?;
    expect_source_faults(&rt, MOVED, &MOVED_LINES)?;
    Ok(())
}
