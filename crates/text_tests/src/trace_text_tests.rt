//! What no clause says: a worked trace as the items that its lines are.
ghost use Rattle.std.specs.Prelude.{◌+◌, ◌<◌, ◌≤◌, ◌^◌, length};
ghost use Rattle.trace_text.specs.Lines.{IsOpen};

use crate::checks::same;
use board_types::Access;
use std::process::Abort;
use trace_text::{Begin, Call, Item, Job, Reading, Reason, Record, RecordFault};

/// What a line is; of a header whether a saved board begins it, with its format, its processors and its accesses.
#[derive(Clone, Copy, Debug, PartialEq, Eq)]
enum Kind {
    Skipped,
    Part,
    Begun { saved: Option<(u8, u8, u64)> },
    Next(Record),
    End,
    Refused(RecordFault),
}

/// The format, the processors and the accesses of a saved board.
fn saved_in(begin: &Begin) -> Option<(u8, u8, u64)> {
    match begin {
        Begin::Fresh(_) => None,
        Begin::Saved(board) => Some((board.format(), board.cpus(), board.accesses())),
    }
}

fn kind_of(answer: &Result<Item, RecordFault>) -> Kind {
    match answer {
        Ok(Item::Skipped) => Kind::Skipped,
        Ok(Item::Part) => Kind::Part,
        Ok(Item::Begun(header)) => Kind::Begun {
            saved: saved_in(&header.begin),
        },
        Ok(Item::Next(record)) => Kind::Next(*record),
        Ok(Item::End) => Kind::End,
        Err(fault) => Kind::Refused(*fault),
    }
}

/// Takes these lines, none of which is `end`, and compares what each is.
fn take_lines(rt: &impl Abort, reading: &mut Reading, lines: &[(&str, Kind)])
    requires open { IsOpen reading.old.stage }
    requires few { reading.old.lines + length lines.now < 2 ^ 63 }
    ensures open { IsOpen reading.new.stage }
    ensures count { reading.new.lines ≤ reading.old.lines + length lines.now }
{
    for (line, wanted) in lines {
        let answer = reading.take_line(line.as_bytes());
        same(rt, *line, kind_of(&answer), *wanted);
        assert!(rt; !matches!(answer, Ok(Item::End)));
    }
}

/// A record that asks for this.
fn asking(cpu: u8, h: u64, call: Call) -> Record {
    Record {
        cpu,
        h,
        job: Job::Ask(call),
    }
}

/// Comments and empty lines are skipped wherever they stand; a record's counter is above the one before of its own
/// processor alone; after a refused line nothing is read.
#[test]
fn items_of_a_trace(rt: HostRuntime) {
    let access = Access::PortIn { port: 0x40 };
    let page = asking(0, 0, Call::ReadPage { page: 1 });
    let lines = [
        ("# two processors", Kind::Skipped),
        ("clockboard 1", Kind::Part),
        ("cpus 2", Kind::Part),
        ("", Kind::Skipped),
        ("begin", Kind::Begun { saved: None }),
        (
            "1 700 in 40",
            Kind::Next(asking(1, 700, Call::Act { access })),
        ),
        ("0 0 page 1", Kind::Next(page)),
    ];
    let mut reading = Reading::new();
    take_lines(&rt, &mut reading, &lines);
    let mut taken = page;
    assert!(rt; !reading.read_record(b"end", &mut taken));
    assert!(rt; reading.read_record(b"0 1 save", &mut taken));
    let save = Record {
        cpu: 0,
        h: 1,
        job: Job::Save,
    };
    same(&rt, "save", taken, save);
    let fault = RecordFault {
        line: 9,
        reason: Reason::CounterFell { before: 700 },
    };
    let refused = Kind::Refused(fault);
    let lines = [("1 699 step", refused), ("1 700 step", refused)];
    take_lines(&rt, &mut reading, &lines);
    same(&rt, "at the end", reading.at_end(), fault);
}

/// A board of format 1 after one access that did nothing, as it is printed.
const SAVED: &str = "state \
434c4b424f4152440100010040420f000000000000000000000000000000000000000000000000000000000040420f000000\
00000100000000000000000000000000000040420f0000000000010101360700000000000000000000000036070000000000\
0000000000000036030000000000000000000000000000000000000000010101002602008000000000000000000000000000\
0000000000000000000000000000000000000000000000000000000000000000000000000000000000000000000000000000\
0000000000000000000000000000000000000000000000000000000000000000000000000000000000000000000000000000\
0000400000000000000000000000002800000000000000000000000000000000002800000000000000000000000000000000\
0028000000000000000000000000000000000000000000000000000000000000000000000000000000000000000000000000\
0000000000000000000000000000000000000000000000000000000000000000000000000000000000000000000000000000\
0000000000000000000000000000000000000000000000000000000000000000000000000000000000000000000000000000\
0000000000000000000000000000000000000000000000000000000000000000000000000000000000000000000000000000\
0000000000000000000000000000000000000000000000000000000000000000000000000000000000000000000000000000\
000000";

/// A saved board is taken as it was saved, and each processor's counter before is its anchor's start; a board of an
/// older format is taken to the trace's.
#[test]
fn a_saved_board_begins_a_trace(rt: HostRuntime) {
    let access = Access::Step;
    let step = asking(0, 0, Call::Act { access });
    let saved = Some((2, 1, 1));
    let lines = [
        ("clockboard 2", Kind::Part),
        (SAVED, Kind::Part),
        ("begin", Kind::Begun { saved }),
        ("0 0 step", Kind::Next(step)),
    ];
    take_lines(&rt, &mut Reading::new(), &lines);
}

/// Why a line `state` is refused: digits that are none, odd or another character, after another line, and the places
/// of bytes that are no saved board; a version above the trace's comes before any fault after it.
#[test]
fn states_that_are_refused(rt: HostRuntime) {
    let newer = "state 434c4b424f4152440200010040420f0000000000";
    for (format, line, reason) in [
        ("clockboard 1", "state", Reason::Form),
        ("clockboard 1", "state ", Reason::Form),
        ("clockboard 1", "state 434", Reason::Form),
        ("clockboard 1", "state 4g", Reason::Form),
        ("clockboard 1", "state 43 ", Reason::Form),
        ("clockboard 1", "state 43", Reason::StateBytes { place: 1 }),
        (
            "clockboard 1",
            "state 434c4b424f4152440100",
            Reason::StateBytes { place: 10 },
        ),
        (
            "clockboard 1",
            "state 434C4B424F41524402",
            Reason::StateBytes { place: 9 },
        ),
        ("clockboard 1", newer, Reason::StateBytes { place: 8 }),
        ("clockboard 2", newer, Reason::StateBytes { place: 20 }),
    ] {
        let refused = Kind::Refused(RecordFault { line: 2, reason });
        let lines = [(format, Kind::Part), (line, refused)];
        take_lines(&rt, &mut Reading::new(), &lines);
    }
    let reason = Reason::Form;
    let refused = Kind::Refused(RecordFault { line: 3, reason });
    let lines = [
        ("clockboard 1", Kind::Part),
        ("cpus 2", Kind::Part),
        (SAVED, refused),
    ];
    take_lines(&rt, &mut Reading::new(), &lines);
}
