//! A board that goes by division against one that takes a step in each nanosecond.
ghost use Rattle.std.specs.Prelude.{◌<◌};

use super::{MIDNIGHT, out, play, setup};
use crate::boards::ask;
use crate::checks::same;
use board_core::{Access, BoardState, Setup, TickSource, Value};
use irq_edges::{EDGE_PLACES, EdgeList};
use std::process::Abort;
use tick_policy::Policy;

/// Numbers out of a fixed seed (xorshift).
#[derive(Drop)]
struct Numbers {
    state: u64,
}

impl Numbers {
    /// The next number, below `bound`.
    fn below(&mut self, bound: u64) -> u64
        requires { 0 < bound }
        ensures { result < bound }
    {
        let mut x = self.state;
        x ^= x.wrapping_shl(13);
        x ^= x >> 7;
        x ^= x.wrapping_shl(17);
        self.state = x;
        (x >> 11) % bound
    }
}

/// A write of 8 bytes to the HPET.
const fn wide(offset: u16, value: u64) -> Access {
    Access::HpetWrite {
        offset,
        width: 8,
        value,
    }
}

/// An access that moves lines, ticks or counts of a board of format 2, or reads of them.
fn some_access(numbers: &mut Numbers) -> Access {
    let byte = numbers.below(6) as u8;
    let line = [0, 8, 20, 21, 20, 0][byte as usize % 6];
    match numbers.below(18) {
        0 => Access::PortIn { port: 0x40 },
        1 => Access::PortOut {
            port: 0x43,
            byte: 0x30 + byte * 2,
        },
        2 | 3 => Access::PortOut {
            port: 0x40,
            byte: byte / 2,
        },
        4 => Access::PortOut {
            port: 0x70,
            byte: 0x0b + byte % 2,
        },
        5 => Access::PortOut {
            port: 0x71,
            byte: 0x02 + 0x40 * (byte % 2),
        },
        6 | 7 => Access::PortIn { port: 0x71 },
        8 => wide(0x100, [0x284c, 0x284e, 0x2844, 0x2846][byte as usize % 4]),
        9 => wide(0x108, 3 + u64::from(byte)),
        10 => wide(0x1a0, [0x284c, 0x2a4e, 0, 0x2846][byte as usize % 4]),
        11 => wide(0x10, [1, 3, 1, 1, 3, 0][byte as usize % 6]),
        12 => wide(0x20, 0xff),
        13 | 14 => Access::Ack { line },
        15 => Access::Rose { line },
        16 => Access::CountsOf {
            from: TickSource::Hpet(byte),
        },
        _ => Access::Next,
    }
}

/// Appends edges to a list that has places for them.
fn append(rt: &impl Abort, edges: &mut EdgeList, more: &EdgeList) {
    for edge in more.as_slice() {
        assert!(rt; edges.len() < EDGE_PLACES);
        edges.push(*edge);
    }
}

/// An access at `h` of a board that takes a step in each nanosecond before: its value and all edges.
fn by_steps(rt: &impl Abort, board: &mut BoardState, h: u64, access: Access) -> (Value, EdgeList) {
    let mut edges = EdgeList::new();
    for t in board.now()..h {
        let reply = ask(rt, board, t, Access::Step);
        append(rt, &mut edges, &reply.edges);
    }
    let reply = ask(rt, board, h, access);
    append(rt, &mut edges, &reply.edges);
    (reply.value, edges)
}

/// The first of the 300 nanoseconds that follow in which a line changes, by steps on a copy.
fn next_by_steps(rt: &impl Abort, board: &BoardState) -> Option<u64> {
    let mut copy = *board;
    let now = copy.now();
    for n in 1..301 {
        let t = now.wrapping_add(n);
        if !ask(rt, &mut copy, t, Access::Step).edges.is_empty() {
            return Some(t);
        }
    }
    None
}

/// Two boards hold the same, but for the number of accesses.
fn hold_the_same(rt: &impl Abort, one: &BoardState, other: &BoardState) {
    let (one, other) = (one.parts(), other.parts());
    same(rt, "host", one.host, other.host);
    same(rt, "8254", one.pit, other.pit);
    same(rt, "MC146818", one.rtc, other.rtc);
    same(rt, "HPET", one.hpet, other.hpet);
    same(rt, "ticks", one.ticks, other.ticks);
    same(rt, "rises", one.rises, other.rises);
}

/// Takes a board and one by steps through the same accesses.
fn compare(rt: &impl Abort, policy: Policy, seed: u64) {
    let mut board = BoardState::power_on(&Setup {
        slew_ns: 700,
        rtc: policy,
        hpet: policy,
        ..setup(2, policy, MIDNIGHT)
    });
    let begin = [
        out(0x70, 0x0b),
        out(0x71, 0x42),
        (976_000, Access::Step, Value::Nothing),
    ];
    play(rt, &mut board, &begin, &[]);
    let mut stepped = board;
    let mut numbers = Numbers { state: seed };
    for n in 0..300 {
        let h = board.now().wrapping_add(numbers.below(90));
        let access = some_access(&mut numbers);
        let reply = ask(rt, &mut board, h, access);
        let (value, edges) = by_steps(rt, &mut stepped, h, access);
        same(rt, (h, access), reply.value, value);
        same(rt, (h, access), reply.edges.as_slice(), edges.as_slice());
        same(rt, (h, access), board.lines(), stepped.lines());
        if n % 10 == 0 {
            hold_the_same(rt, &board, &stepped);
            let next = board
                .next_edge()
                .filter(|t| *t <= board.now().wrapping_add(300));
            same(rt, h, next, next_by_steps(rt, &board));
        }
    }
}

#[test]
fn a_board_by_division_is_one_by_steps(rt: HostRuntime) {
    compare(&rt, Policy::Delay, 0x9e37_79b9_7f4a_7c15);
    compare(&rt, Policy::Slew, 0xd1b5_4a32_d192_ed03);
}
