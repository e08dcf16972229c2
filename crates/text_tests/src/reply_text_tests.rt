//! What no clause says: with ample memory each call answers Ok, and each line follows the one before.
use crate::checks::same;
use board_types::{Reply, Value};
use edge_hooks::{Delivery, Sent};
use hv_page::HvReply;
use irq_edges::{Burst, Edge, Lines};
use pvclock_page::{ClockReply, Page, PageReply};
use reply_text::{
    CountedLines, Reason, Refused, board_line, clock_line, edge_line, final_line, hv_line,
    move_line, msg_line, page_line, refused_line, save_line, state_line, value_line,
};

/// A value of eight bytes.
const WORD: Value = Value::Word {
    width: 8,
    value: 0x0098_9680_8086_a201,
};

/// A reply without edges and messages.
fn reply_of(number: u64, value: Value) -> Reply {
    let mut reply = Reply::empty();
    reply.number = number;
    reply.value = value;
    reply
}

/// The block of an access: its edges, its messages and its reply.
#[test]
fn lines_of_an_access(rt: HostRuntime) {
    let mut out = Vec::new(rt.alloc());
    let edge = Edge {
        at: 4191,
        line: 0,
        up: true,
    };
    let to = Delivery {
        cpu: 0,
        vector: 0x30,
    };
    let burst = Burst {
        timer: 7,
        first: 5000,
        count: 1,
        every: 0,
        address: 0xfee0_0000,
        data: 0x30,
    };
    let put = [
        edge_line(&edge, None, &mut out),
        edge_line(&edge, Some(to), &mut out),
        msg_line(&Sent { burst, to }, &mut out),
        board_line(6, &reply_of(4, WORD), &mut out),
        value_line(7, 5, &Value::Byte(4), &mut out),
    ];
    let wanted =
        b"edge 4191 0 up\nedge 4191 0 up 0 30\nmsg 5000 7 0 30 1 0\n6 4 009896808086a201\n7 5 04\n";
    same(&rt, "answers", put, [Ok(()); 5]);
    same(&rt, "lines", out.as_slice(), wanted.as_slice());
}

/// Each other kind of line, and the lines that end a trace.
#[test]
fn lines_of_pages_saves_and_ends(rt: HostRuntime) {
    let mut out = Vec::new(rt.alloc());
    let page = Page {
        version: 4,
        tsc_timestamp: 2_000_004_000,
        system_time: 1_000_002_000,
        mul: 0x8000_0000,
        shift: -1,
        flags: 3,
        offset: 0,
        enabled: true,
    };
    let reading = 1_000_003_000;
    let lines = Lines {
        levels: [true, false, false, true, false, true],
    };
    let fell = Reason::CounterFell { before: 10 };
    let put = [
        page_line(11, &PageReply::On { page, reading }, &mut out),
        clock_line(12, &ClockReply::Off, &mut out),
        hv_line(13, &HvReply::Off, &mut out),
        move_line(9, 5, 1_000_002_000, &mut out),
        save_line(3, 1, b"CLKBOARD", &mut out),
        state_line(b"\xfe\x0f", &mut out),
        final_line(5000, 6, 0, lines, &mut out),
        refused_line(4, Refused::Invalid(fell), &mut out),
    ];
    let wanted =
        b"11 page 4 2000004000 1000002000 80000000 -1 03 1000003000\n12 clock off\n13 hv off\n\
9 5 moved 1000002000\n3 1 state 434c4b424f415244\nstate fe0f\nfinal 5000 6 0 0,21,23\nrefused 4 fell 10\n";
    same(&rt, "answers", put, [Ok(()); 8]);
    same(&rt, "lines", out.as_slice(), wanted.as_slice());
}

/// The value of a reply that comes so many after one of this number.
fn later_value(k: u64, number: u64) -> Value {
    match k {
        0 => Value::Nothing,
        1 => Value::Byte(4),
        2 => Value::Next(None),
        3 => WORD,
        4 => Value::Word { width: 4, value: 5 },
        _ => Value::Next(Some(number)),
    }
}

/// The lines of replies whose numbers count up, stay, grow by a digit or fall are those that are written whole.
#[test]
fn counted_lines_are_whole_lines(rt: HostRuntime) {
    let mut out = Vec::new(rt.alloc());
    let mut wanted = Vec::new(rt.alloc());
    let mut lines = CountedLines::new();
    for (line, number) in [
        (0, 0),
        (7, 97),
        (98, 99_999),
        (9_999, 8),
        (18_446_744_073_709_551_607, 18_446_744_073_709_551_598),
        (3, 1),
    ] {
        for k in 0..6 {
            let reply = reply_of(number + k * (k % 3), later_value(k, number));
            let put = [
                lines.board_line(line + k, &reply, &mut out),
                board_line(line + k, &reply, &mut wanted),
            ];
            same(&rt, (line, k), put, [Ok(()); 2]);
            same(&rt, (line, k), out.as_slice(), wanted.as_slice());
        }
    }
}

/// The lines of clock readings between lines of replies, each with the line of its own record.
#[test]
fn counted_clock_lines_are_whole_lines(rt: HostRuntime) {
    let mut out = Vec::new(rt.alloc());
    let mut wanted = Vec::new(rt.alloc());
    let mut lines = CountedLines::new();
    let off = ClockReply::Off;
    for (line, reading, clock) in [
        (0, 7, 7),
        (1, 1000, 1200),
        (8, 99_999_999, 99_999_999),
        (9, 100_000_000, 100_000_000),
        (10, 123_456_789_012, 123_456_789_013),
        (9, u64::MAX, u64::MAX),
    ] {
        let read = ClockReply::On { reading, clock };
        let reply = reply_of(reading, Value::Nothing);
        let put = [
            lines.clock_line(line, &read, &mut out),
            lines.board_line(line, &reply, &mut out),
            lines.clock_line(line + 1, &off, &mut out),
            clock_line(line, &read, &mut wanted),
            board_line(line, &reply, &mut wanted),
            clock_line(line + 1, &off, &mut wanted),
        ];
        same(&rt, (line, reading), put, [Ok(()); 6]);
        same(&rt, (line, reading), out.as_slice(), wanted.as_slice());
    }
}

/// Processors, lines and vectors of one, two and three digits.
#[test]
fn edges_of_each_length(rt: HostRuntime) {
    let mut out = Vec::new(rt.alloc());
    for (cpu, line, at) in [
        (9, 0, 0),
        (10, 23, 99_999),
        (100, 8, 100_000_000),
        (200, 20, 70_123_000_456),
        (255, 100, u64::MAX),
    ] {
        let to = Delivery { cpu, vector: 0xfe };
        let rise = Edge { at, line, up: true };
        let fall = Edge {
            at,
            line,
            up: false,
        };
        let put = [
            edge_line(&rise, Some(to), &mut out),
            edge_line(&fall, None, &mut out),
        ];
        same(&rt, (cpu, line, at), put, [Ok(()); 2]);
    }
    let wanted = b"edge 0 0 up 9 fe\nedge 0 0 down\nedge 99999 23 up 10 fe\nedge 99999 23 down\n\
edge 100000000 8 up 100 fe\nedge 100000000 8 down\nedge 70123000456 20 up 200 fe\nedge 70123000456 20 down\n\
edge 18446744073709551615 100 up 255 fe\nedge 18446744073709551615 100 down\n";
    same(&rt, "lines", out.as_slice(), wanted.as_slice());
}
