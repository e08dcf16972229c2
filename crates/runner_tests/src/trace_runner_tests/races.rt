//! The job `race`: phases on threads, its refusals, and faults of both ends.
use super::{
    Ends, FIRST_RISE, FIRST_RISE_TEXT, MOVED, MOVED_TEXT, WELL, Wanted, bad, done, expect,
    expect_cuts, expect_text, text_of,
};
use crate::checks::{holds, same};
use std::alloc::{AllocError, Global};
use std::process::Abort;
use std::sync::Wait;
use std::test::Fail;
use std::thread::Threads;
use trace_runner::Status;
use trace_text::Reason;

/// How many records a race takes.
const MOST_RECORDS: usize = 200_000;

/// Counter 0 in mode 2 with count 4, which is saved twice.
const SAVED: &[u8] = b"\
clockboard 1\nbegin\n0 0 out 43 34\n0 0 out 40 04\n0 0 out 40 00\n\
0 5000 save\n0 5000 in 40\n0 9000 save\n0 9000 step\nend\n";

/// Two processors before a save and after it.
const SAVED_BY_TWO: &[u8] = b"\
clockboard 1\ncpus 2\nbegin\n0 10 step\n1 10 step\n1 20 save\n0 30 step\nend\n";

#[test]
fn a_race_of_one_processor_is_its_replay(rt: HostRuntime) -> Result<(), Fail> {
    let ends = Ends {
        source_piece: 7,
        sink_piece: 7,
        ..WELL
    };
    let wanted = done(FIRST_RISE_TEXT);
    expect(&rt, "in pieces", &["race"], FIRST_RISE, &ends, wanted)?;
    expect_text(&rt, "moved", &["race"], MOVED, MOVED_TEXT)?;
    Ok(())
}

#[test]
fn a_race_prints_a_refusal_alone(rt: HostRuntime) -> Result<(), Fail> {
    let trace = b"clockboard 1\nbegin\n0 5 step\n0 4 step\nend\n";
    let fell = Reason::CounterFell { before: 5 };
    let refused = bad(4, fell, b"refused 4 fell 5\n");
    expect(&rt, "a count fell", &["race"], trace, &WELL, refused)?;
    let ends = Ends {
        source_fails: &[2],
        source_piece: 30,
        ..WELL
    };
    let cut = Wanted {
        status: Status::SourceFault,
        text: b"fault source\n",
    };
    expect(&rt, "the source failed", &["race"], FIRST_RISE, &ends, cut)?;
    let ends = Ends {
        sink_fails: &[2],
        sink_piece: 3,
        ..WELL
    };
    let cut = Wanted {
        status: Status::SinkFault,
        text: b"3 1",
    };
    expect(&rt, "the sink failed", &["race"], FIRST_RISE, &ends, cut)?;
    Ok(())
}

/// Races a trace, and compares what it prints with what its replay prints.
pub(super) fn expect_replay<R: Threads + Wait + Sync + Abort + Alloc<A = Global>>(
    rt: &R,
    race: &[&str],
    replay: &[&str],
    trace: &[u8],
) -> Result<(), AllocError> {
    let text = text_of(rt, replay, trace)?;
    expect_text(rt, race.len(), race, trace, &text)
}

/// With one processor there is one order, so the numbers and the saved states are those of a replay.
#[test]
fn saves_and_the_last_state_in_a_race_of_one_processor(rt: HostRuntime) -> Result<(), Fail> {
    for trace in [FIRST_RISE, MOVED, SAVED] {
        expect_replay(&rt, &["race"], &["replay"], trace)?;
        expect_replay(&rt, &["race", "--state"], &["replay", "--state"], trace)?;
    }
    Ok(())
}

/// A save waits for both processors, so all from its line on is what a replay prints, whichever was first.
#[test]
fn a_save_ends_the_phase_of_both_processors(rt: HostRuntime) -> Result<(), Fail> {
    let replayed = text_of(&rt, &["replay", "--state"], SAVED_BY_TWO)?;
    let text = text_of(&rt, &["race", "--state"], SAVED_BY_TWO)?;
    let rest = replayed.strip_prefix(b"4 1\n5 2\n".as_slice());
    let first = text.strip_prefix(b"4 1\n5 2\n".as_slice());
    let second = text.strip_prefix(b"4 2\n5 1\n".as_slice());
    holds(
        &rt,
        "the rest",
        rest.is_some() && (first == rest || second == rest),
    );
    Ok(())
}

#[test]
fn a_race_takes_200000_records(rt: HostRuntime) -> Result<(), Fail> {
    let mut trace = Vec::from_slice(rt.alloc(), b"clockboard 1\nbegin\n")?;
    for _ in 0..=MOST_RECORDS {
        trace.extend_from_slice(b"0 0 step\n")?;
    }
    let many = bad(200_003, Reason::TooMany, b"refused 200003 many\n");
    expect(&rt, "a record too many", &["race"], &trace, &WELL, many)?;
    Ok(())
}

/// A race that is cut off prints nothing of the trace.
#[test]
fn a_source_that_fails_at_each_call_of_a_race(rt: HostRuntime) -> Result<(), Fail> {
    let cut = Wanted {
        status: Status::SourceFault,
        text: b"fault source\n",
    };
    for call in 1..=MOVED.len() as u64 {
        let ends = Ends {
            source_fails: &[call],
            source_piece: 1,
            ..WELL
        };
        expect(&rt, call, &["race"], MOVED, &ends, cut)?;
    }
    Ok(())
}

#[test]
fn a_sink_that_fails_at_each_call_of_a_race(rt: HostRuntime) -> Result<(), Fail> {
    expect_cuts(&rt, &["race"], MOVED, MOVED_TEXT)?;
    Ok(())
}

/// Two processors: the numbers of their accesses are 1, 2 and 3 in some order, in which the second one's first comes
/// before its second.
#[test]
fn a_race_of_two_processors(rt: HostRuntime) -> Result<(), Fail> {
    let trace =
        b"clockboard 1\nguest 2000000\ncpus 2\nbegin\n0 0 wrmsr 4b564d01 1\n1 0 step\n0 1000 clock 0\n1 900 step\nend\n";
    let texts: [&[u8]; 3] = [
        b"5 1\n7 clock 1000 1000\n6 2\n8 3\nfinal 900 3 1000 -\n",
        b"5 2\n7 clock 1000 1000\n6 1\n8 3\nfinal 900 3 1000 -\n",
        b"5 3\n7 clock 1000 1000\n6 1\n8 2\nfinal 900 3 1000 -\n",
    ];
    let text = text_of(&rt, &["race"], trace)?;
    let told = text.as_slice();
    let row = "one of three orders";
    holds(
        &rt,
        row,
        told == texts[0] || told == texts[1] || told == texts[2],
    );
    Ok(())
}

/// A trace of several pieces, whose phases end within them. With one processor it prints what its replay prints.
#[test]
fn a_race_of_several_pieces(rt: HostRuntime) -> Result<(), Fail> {
    let mut trace = Vec::from_slice(rt.alloc(), b"clockboard 1\nbegin\n")?;
    for _ in 0..3 {
        for _ in 0..3_000 {
            trace.extend_from_slice(b"0 0 step\n")?;
        }
        trace.extend_from_slice(b"0 0 save\n")?;
    }
    trace.extend_from_slice(b"end\n")?;
    expect_replay(&rt, &["race"], &["replay"], &trace)?;
    Ok(())
}

/// Two processors with 3,000 accesses each: every number is told once, so the text is as long as a replay's, and what it ends
/// with is the same.
#[test]
fn a_race_of_two_processors_in_several_pieces(rt: HostRuntime) -> Result<(), Fail> {
    let mut trace = Vec::from_slice(rt.alloc(), b"clockboard 1\ncpus 2\nbegin\n")?;
    for _ in 0..3_000 {
        trace.extend_from_slice(b"0 0 step\n1 0 step\n")?;
    }
    trace.extend_from_slice(b"end\n")?;
    let replayed = text_of(&rt, &["replay"], &trace)?;
    let text = text_of(&rt, &["race"], &trace)?;
    same(&rt, "length", text.len(), replayed.len());
    holds(&rt, "the last line", text.ends_with(b"final 0 6000 0 -\n"));
    Ok(())
}
