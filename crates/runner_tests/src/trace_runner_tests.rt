//! Traces from their bytes to what is printed. The numbers are worked out from the data sheets and the clocks of
//! 1,193,182 Hz, 32,768 Hz and 100 MHz.
ghost use Rattle.std.specs.Prelude.{◌<◌};

mod devices;
mod failures;
mod gates;
mod processors;
mod races;
mod sources;
mod texts;

use crate::checks::same;
use crate::known::run_known;
use board_io::{MemSink, MemSource, OpenGate};
use clk_units::RANGE_NS;
use std::alloc::{AllocError, Global};
use std::fmt::Debug;
use std::process::Abort;
use std::sync::Wait;
use std::test::Fail;
use std::thread::Threads;
use texts::{GEN_HELP, HELP, USAGE, VERSION};
use trace_runner::Status;
use trace_text::Reason;

/// Counter 0 in mode 2 with count 4, and what is printed.
const FIRST_RISE: &[u8] =
    b"clockboard 1\nbegin\n0 0 out 43 34\n0 0 out 40 04\n0 0 out 40 00\n0 5000 step\n0 5000 in 40\n0 5000 in 40\nend\n";

const FIRST_RISE_TEXT: &[u8] =
    b"3 1\n4 2\n5 3\nedge 4191 0 up\n6 4\n7 5 04\n8 6 00\nfinal 5000 6 0 0\n";

/// Which calls of the source and the sink fail, counted from 1, and how many bytes each call moves at most.
#[derive(Clone, Copy)]
struct Ends<'a> {
    source_fails: &'a [u64],
    source_piece: usize,
    sink_fails: &'a [u64],
    sink_piece: usize,
}

/// Ends that don't fail.
const WELL: Ends<'static> = Ends {
    source_fails: &[],
    source_piece: 4096,
    sink_fails: &[],
    sink_piece: 4096,
};

/// How a run is to end, and what it is to print.
#[derive(Clone, Copy)]
struct Wanted<'a> {
    status: Status,
    text: &'a [u8],
}

/// A job that is done, with what it is to print.
fn done(text: &[u8]) -> Wanted<'_> {
    Wanted {
        status: Status::Ok,
        text,
    }
}

/// A line outside the grammar, with what is to be printed up to its refusal.
fn bad(line: u64, reason: Reason, text: &[u8]) -> Wanted<'_> {
    Wanted {
        status: Status::BadRecord { line, reason },
        text,
    }
}

/// A vector of the strings.
fn strings(alloc: Global, words: &[&str]) -> Result<Vec<String>, AllocError> {
    let mut strings = Vec::new(alloc);
    for word in words {
        strings.push(String::from_str(alloc, word)?)?;
    }
    Ok(strings)
}

/// Runs the program: how it ends, and what it prints.
fn told<R: Threads + Wait + Sync + Alloc<A = Global>>(
    rt: &R,
    words: &[&str],
    trace: &[u8],
    ends: &Ends,
) -> Result<(Status, Vec<u8>), AllocError>
    requires source_piece { 0 < ends.now.source_piece }
    requires sink_piece { 0 < ends.now.sink_piece }
{
    let alloc = rt.alloc();
    let words = strings(alloc, words)?;
    let bytes = Vec::from_slice(alloc, trace)?;
    let source_fails = Vec::from_slice(alloc, ends.source_fails)?;
    let sink_fails = Vec::from_slice(alloc, ends.sink_fails)?;
    let mut source = MemSource::new(bytes, source_fails, ends.source_piece);
    let mut sink = MemSink::new(alloc, sink_fails, ends.sink_piece);
    let status = run_known(rt, alloc, &words, &mut source, &mut sink, &OpenGate);
    let text = Vec::from_slice(alloc, sink.bytes())?;
    Ok((status, text))
}

/// Runs the program, and compares how it ends and what it prints. `row` names the run.
fn expect<C: Debug + Copy, R: Threads + Wait + Sync + Abort + Alloc<A = Global>>(
    rt: &R,
    row: C,
    words: &[&str],
    trace: &[u8],
    ends: &Ends,
    wanted: Wanted,
) -> Result<(), AllocError>
    requires source_piece { 0 < ends.now.source_piece }
    requires sink_piece { 0 < ends.now.sink_piece }
{
    let (status, text) = told(rt, words, trace, ends)?;
    same(rt, (row, "status"), status, wanted.status);
    same(rt, (row, "text"), text.as_slice(), wanted.text);
    Ok(())
}

/// Runs the program over ends that don't fail, until it is done: what it prints.
fn text_of<R: Threads + Wait + Sync + Abort + Alloc<A = Global>>(
    rt: &R,
    words: &[&str],
    trace: &[u8],
) -> Result<Vec<u8>, AllocError> {
    let (status, text) = told(rt, words, trace, &WELL)?;
    same(rt, words, status, Status::Ok);
    Ok(text)
}

/// The same, and compares what it prints.
fn expect_text<C: Debug + Copy, R: Threads + Wait + Sync + Abort + Alloc<A = Global>>(
    rt: &R,
    row: C,
    words: &[&str],
    trace: &[u8],
    text: &[u8],
) -> Result<(), AllocError> {
    expect(rt, row, words, trace, &WELL, done(text))
}

/// Runs the program over a sink that takes a byte a call, and fails at each of the calls in turn: so much is printed.
fn expect_cuts<R: Threads + Wait + Sync + Abort + Alloc<A = Global>>(
    rt: &R,
    words: &[&str],
    trace: &[u8],
    text: &[u8],
) -> Result<(), AllocError> {
    for bytes in 0..text.len() {
        let ends = Ends {
            sink_fails: &[bytes as u64 + 1],
            sink_piece: 1,
            ..WELL
        };
        let wanted = Wanted {
            status: Status::SinkFault,
            text: &text[..bytes],
        };
        expect(rt, (words, bytes), words, trace, &ends, wanted)?;
    }
    Ok(())
}

#[test]
fn a_trace_in_pieces_of_any_size(rt: HostRuntime) -> Result<(), Fail> {
    for source_piece in [1, 7, 4096] {
        let ends = Ends {
            source_piece,
            ..WELL
        };
        let wanted = done(FIRST_RISE_TEXT);
        expect(&rt, source_piece, &["replay"], FIRST_RISE, &ends, wanted)?;
    }
    Ok(())
}

/// A trace that is refused, at which line, why, and what is printed.
#[derive(Clone, Copy)]
struct Refused {
    trace: &'static [u8],
    line: u64,
    reason: Reason,
    text: &'static [u8],
}

const REFUSED: [Refused; 7] = [
    Refused {
        trace: b"",
        line: 1,
        reason: Reason::NoEnd,
        text: b"refused 1 noend\n",
    },
    Refused {
        trace: b"clockboard 1\nbegin\n0 10 step",
        line: 4,
        reason: Reason::NoEnd,
        text: b"3 1\nrefused 4 noend\n",
    },
    Refused {
        trace: b"clockboard 1\nbegin\n0 10 step\n0 9 step\nend\n",
        line: 4,
        reason: Reason::CounterFell { before: 10 },
        text: b"3 1\nrefused 4 fell 10\n",
    },
    Refused {
        trace: b"clockboard 1\nbegin\n1 0 step\nend\n",
        line: 3,
        reason: Reason::Cpu,
        text: b"refused 3 cpu\n",
    },
    Refused {
        trace: b"clockboard 1\nbegin\n0 0 rdmsr 4b564d03\nend\n",
        line: 3,
        reason: Reason::Steal,
        text: b"refused 3 steal\n",
    },
    Refused {
        trace: b"clockboard 1\nbegin\n0 00 step\nend\n",
        line: 3,
        reason: Reason::Form,
        text: b"refused 3 form\n",
    },
    Refused {
        trace: &[b'0'; 129],
        line: 1,
        reason: Reason::TooLong,
        text: b"refused 1 long\n",
    },
];

#[test]
fn the_first_line_outside_ends_a_trace(rt: HostRuntime) -> Result<(), Fail> {
    for case in REFUSED {
        let row = (case.line, case.reason);
        let wanted = bad(case.line, case.reason, case.text);
        expect(&rt, row, &["replay"], case.trace, &WELL, wanted)?;
    }
    Ok(())
}

#[test]
fn a_time_past_the_range_ends_a_trace(rt: HostRuntime) -> Result<(), Fail> {
    let alloc = rt.alloc();
    let step = format!(in alloc; "clockboard 1\nbegin\n0 {RANGE_NS} step\nend\n")?;
    expect_past(&rt, 3, step.as_bytes(), "")?;
    // A move whose gap ends past the range prints nothing but its refusal, not the rise before it.
    let gap = RANGE_NS - 2_000;
    let moved = format!(in alloc;
        "clockboard 1\nbegin\n0 0 out 43 10\n0 0 out 40 01\n0 2000 move 1000000 0 {gap}\nend\n"
    )?;
    expect_past(&rt, 5, moved.as_bytes(), "3 1\n4 2\n")?;
    Ok(())
}

/// Replays a trace whose time at a line is past the range, before which this is printed.
fn expect_past<R: Threads + Wait + Sync + Abort + Alloc<A = Global>>(
    rt: &R,
    line: u64,
    trace: &[u8],
    before: &str,
) -> Result<(), AllocError> {
    let status = Status::OutOfRange {
        line,
        ns: u128::from(RANGE_NS),
    };
    let text = format!(in rt.alloc(); "{before}refused {line} range {RANGE_NS}\n")?;
    let wanted = Wanted {
        status,
        text: text.as_bytes(),
    };
    expect(rt, line, &["replay"], trace, &WELL, wanted)
}

/// Words that are no command.
const UNKNOWN: [&[&str]; 4] = [&[], &["replay", "5"], &["Replay"], &["gen", "1", "1"]];

/// Words that a text answers.
const KNOWN: [(&[&str], &[u8]); 3] = [
    (&["--version"], VERSION),
    (&["--help"], HELP),
    (&["gen", "--help"], GEN_HELP),
];

#[test]
fn words(rt: HostRuntime) -> Result<(), Fail> {
    let wanted = Wanted {
        status: Status::Usage,
        text: USAGE,
    };
    for (row, words) in UNKNOWN.iter().enumerate() {
        expect(&rt, ("unknown", row), words, FIRST_RISE, &WELL, wanted)?;
    }
    for (row, (words, text)) in KNOWN.iter().enumerate() {
        expect_text(&rt, ("known", row), words, b"", text)?;
    }
    Ok(())
}

/// A generated trace of one record, as the format gives it for the key 1.
const GENERATED: &[u8] =
    b"clockboard 1\nguest 2000000\ncpus 1\nbegin\n0 0 wrmsr 4b564d01 1\n0 0 hw 10 4 1\n0 34774 step\nend\n";

#[test]
fn generated_traces(rt: HostRuntime) -> Result<(), Fail> {
    expect_text(&rt, "gen", &["gen", "1", "1", "1"], b"", GENERATED)?;
    let sum = b"soak 1 0 34774 0\n";
    expect_text(&rt, "soak", &["soak", "1", "1", "1"], b"", sum)?;
    Ok(())
}

/// Words of soaks, and what they print. The sums are those of a plain board that steps nanosecond by nanosecond.
const SOAKS: [(&[&str], &[u8]); 3] = [
    (&["soak", "1", "1", "1"], b"soak 1 0 34774 0\n"),
    (
        &["soak", "3", "500", "3"],
        b"soak 500 25 25254290 24011396\n",
    ),
    (
        &["soak", "7", "2000", "16"],
        b"soak 2000 148 100237116 99817260\n",
    ),
];

#[test]
fn sums_of_generated_traces(rt: HostRuntime) -> Result<(), Fail> {
    for (row, (words, text)) in SOAKS.iter().enumerate() {
        expect_text(&rt, row, words, b"", text)?;
    }
    Ok(())
}

/// A guest of 2 GHz that is moved to a host of 3 GHz, over a second (the numbers are worked out in transfer's tests).
const MOVED: &[u8] =
    b"clockboard 1\nguest 2000000\nbegin\n0 0 out 43 34\n0 0 out 40 00\n0 0 out 40 00\n0 0 wrmsr 4b564d01 1\n0 1000 clock 0\n0 2000 move 3000000 500 1000000000\n0 3500 clock 0\n0 3500 counts pit\nend\n";

const MOVED_TEXT: &[u8] =
    b"4 1\n5 2\n6 3\n7 4\n8 clock 1000 1000\nedge 54926240 0 up\n9 5 moved 1000002000\n10 clock 1000003000 1000003000\n11 6 18 1 17 0\nfinal 1000003000 6 1000003000 0\n";

#[test]
fn a_guest_that_is_moved(rt: HostRuntime) -> Result<(), Fail> {
    expect_text(&rt, "moved", &["replay"], MOVED, MOVED_TEXT)?;
    Ok(())
}

/// The reference page of Hyper-V, which a guest of 2 GHz reads, before and after it is enabled.
const REFERENCE: &[u8] =
    b"clockboard 4\nguest 2000000\nbegin\n0 0 hv\n0 1000 wrmsr 40000021 1\n0 1000 hv\n0 21000 hv\n0 21000 rdmsr 40000020\nend\n";

const REFERENCE_TEXT: &[u8] =
    b"4 hv off\n5 1\n6 hv 1 92233720368547758 1 10\n7 hv 1 92233720368547758 1 210\n8 2 00000000000000d2\nfinal 21000 2 0 -\n";

#[test]
fn a_guest_that_reads_the_reference_page(rt: HostRuntime) -> Result<(), Fail> {
    for job in ["replay", "race"] {
        expect_text(&rt, job, &[job], REFERENCE, REFERENCE_TEXT)?;
    }
    Ok(())
}

/// Words, their input, and what they print.
const PRINTING: [(&[&str], &[u8], &[u8]); 3] = [
    (&["replay"], FIRST_RISE, FIRST_RISE_TEXT),
    (&["replay"], MOVED, MOVED_TEXT),
    (&["gen", "1", "1", "1"], b"", GENERATED),
];

#[test]
fn a_sink_that_fails_at_each_call(rt: HostRuntime) -> Result<(), Fail> {
    for (words, trace, text) in PRINTING {
        expect_cuts(&rt, words, trace, text)?;
    }
    Ok(())
}

#[test]
fn a_fault_after_the_last_call(rt: HostRuntime) -> Result<(), Fail> {
    // The trace has 103 bytes, and its text 62.
    let ends = Ends {
        source_fails: &[104],
        source_piece: 1,
        sink_fails: &[63],
        sink_piece: 1,
    };
    let wanted = done(FIRST_RISE_TEXT);
    expect(&rt, "no fault", &["replay"], FIRST_RISE, &ends, wanted)?;
    Ok(())
}
