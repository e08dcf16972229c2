//! Inputs that are cut short, and ends that fail: whole blocks, a word that says why, and nothing after it.
use super::texts::{HELP, USAGE, VERSION};
use super::{Ends, FIRST_RISE, WELL, Wanted, bad, expect, expect_cuts};
use std::alloc::{AllocError, Global};
use std::process::Abort;
use std::sync::Wait;
use std::test::Fail;
use std::thread::Threads;
use trace_runner::Status;
use trace_text::Reason;

/// The lines of a guest's boot, each with what it prints (worked out in examples/boot.trace).
const BOOT_LINES: [(&[u8], &[u8]); 40] = [
    (b"clockboard 1\n", b""),
    (b"host 2000000 1000000\n", b""),
    (b"guest 2000000\n", b""),
    (b"cpus 2\n", b""),
    (b"wall 1700000000 0\n", b""),
    (b"rtc 30 15 12 04 15 11 23\n", b""),
    (b"begin\n", b""),
    (b"0 1000000 in 61\n", b"8 1 20\n"),
    (b"0 1000000 out 61 21\n", b"9 2\n"),
    (b"0 1000000 out 43 b0\n", b"10 3\n"),
    (b"0 1000000 out 42 ff\n", b"11 4\n"),
    (b"0 1000000 out 42 ff\n", b"12 5\n"),
    (b"0 1010000 in 42\n", b"13 6 fb\n"),
    (b"0 1010000 in 42\n", b"14 7 ff\n"),
    (b"0 1200000 in 42\n", b"15 8 89\n"),
    (b"0 1200000 in 42\n", b"16 9 ff\n"),
    (b"0 1200000 out 70 0a\n", b"17 10\n"),
    (b"0 1200000 in 71\n", b"18 11 26\n"),
    (b"0 1200000 out 70 00\n", b"19 12\n"),
    (b"0 1200000 in 71\n", b"20 13 30\n"),
    (b"0 1200000 hr 0 4\n", b"21 14 8086a201\n"),
    (b"0 1200000 hr 4 4\n", b"22 15 00989680\n"),
    (b"0 1200000 hw 10 4 2\n", b"23 16\n"),
    (b"0 1200000 hw f0 4 0\n", b"24 17\n"),
    (b"0 1200000 hw f4 4 0\n", b"25 18\n"),
    (b"0 1200000 hr 100 4\n", b"26 19 00002830\n"),
    (b"0 1200000 hw 100 4 297c\n", b"27 20\n"),
    (b"0 1200000 hw 108 4 61a80\n", b"28 21\n"),
    (b"0 1202000 hw 108 4 61a80\n", b"29 22\n"),
    (b"0 1202000 hw 10 4 3\n", b"30 23\n"),
    (b"0 1202000 wrmsr 4b564d00 1000\n", b"31 24\n"),
    (b"0 1202000 wall\n", b"32 25 2 1700000000 0\n"),
    (b"0 1202000 wrmsr 4b564d01 2001\n", b"33 26\n"),
    (b"1 1204000 wrmsr 4b564d01 2041\n", b"34 27\n"),
    (b"0 1212000 clock 0\n", b"35 clock 106000 106000\n"),
    (b"1 1214000 clock 1\n", b"36 clock 107000 107000\n"),
    (b"1 1214000 clock 0\n", b"37 clock 107000 107000\n"),
    (b"0 9202000 step\n", b"edge 4101000 0 up\n38 28\n"),
    (b"0 9202000 ack 0\n", b"edge 4101000 0 down\n39 29\n"),
    (b"end\n", b"final 4101000 29 107000 -\n"),
];

/// Replays and races a trace that ends before this line, whose blocks are these.
fn expect_no_end<R: Threads + Wait + Sync + Abort + Alloc<A = Global>>(
    rt: &R,
    line: u64,
    trace: &[u8],
    blocks: &[u8],
) -> Result<(), AllocError> {
    let alloc = rt.alloc();
    let refusal = format!(in alloc; "refused {line} noend\n")?;
    let mut text = Vec::from_slice(alloc, blocks)?;
    text.extend_from_slice(refusal.as_bytes())?;
    let replayed = bad(line, Reason::NoEnd, &text);
    expect(rt, ("replay", line), &["replay"], trace, &WELL, replayed)?;
    let raced = bad(line, Reason::NoEnd, refusal.as_bytes());
    expect(rt, ("race", line), &["race"], trace, &WELL, raced)
}

#[test]
fn a_boot_cut_after_each_line(rt: HostRuntime) -> Result<(), Fail> {
    let mut trace = Vec::new(rt.alloc());
    let mut blocks = Vec::new(rt.alloc());
    for at in 0..BOOT_LINES.len() - 1 {
        let (line, block) = BOOT_LINES[at];
        trace.extend_from_slice(line)?;
        blocks.extend_from_slice(block)?;
        expect_no_end(&rt, at as u64 + 2, &trace, &blocks)?;
    }
    Ok(())
}

/// Words, their input, and what they print.
const PRINTING: [(&[&str], &[u8], &[u8]); 5] = [
    (&["race"], b"clockboard 1\nbegin\n", b"refused 3 noend\n"),
    (&["soak", "1", "1", "1"], b"", b"soak 1 0 34774 0\n"),
    (&["Replay"], FIRST_RISE, USAGE),
    (&["--version"], b"", VERSION),
    (&["--help"], b"", HELP),
];

#[test]
fn a_sink_that_fails_at_each_call_of_each_command(rt: HostRuntime) -> Result<(), Fail> {
    for (words, trace, text) in PRINTING {
        expect_cuts(&rt, words, trace, text)?;
    }
    Ok(())
}

#[test]
fn a_sink_that_fails_after_a_source(rt: HostRuntime) -> Result<(), Fail> {
    // The source fails after the first record, which has its block.
    let text = b"3 1\nfault source\n";
    for bytes in 0..text.len() {
        let ends = Ends {
            source_fails: &[34],
            source_piece: 1,
            sink_fails: &[bytes as u64 + 1],
            sink_piece: 1,
        };
        let wanted = Wanted {
            status: Status::SinkFault,
            text: &text[..bytes],
        };
        expect(&rt, bytes, &["replay"], FIRST_RISE, &ends, wanted)?;
    }
    Ok(())
}
