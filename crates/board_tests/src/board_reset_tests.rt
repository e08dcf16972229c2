//! A guest that restarts: what it set up is gone, and what it sets up anew works.
use crate::boards::ask;
use crate::checks::{holds, same};
use board_core::BoardState;
use board_reset::reset;
use board_types::{Access, Setup};
use irq_edges::{Edge, Lines};
use std::process::Abort;

/// Counter 0 in mode 2, a tick each 838 us.
fn start_counter(rt: &impl Abort, board: &mut BoardState, h: u64) {
    for (port, byte) in [(0x43, 0x34), (0x40, 0xe8), (0x40, 0x03)] {
        let _ = ask(rt, board, h, Access::PortOut { port, byte });
    }
}

#[test]
fn a_line_falls_and_no_old_tick_comes_after_it(rt: HostRuntime) {
    let mut board = BoardState::power_on(&Setup::by_default(1));
    start_counter(&rt, &mut board, 0);
    // three ticks, of which two wait
    let _ = ask(&rt, &mut board, 3_000_000, Access::Step);
    let edges = reset(&mut board);
    let fall = Edge {
        at: 3_000_000,
        line: 0,
        up: false,
    };
    same(&rt, "the fall", edges.as_slice(), [fall].as_slice());
    let _ = ask(&rt, &mut board, 3_000_001, Access::Ack { line: 0 });
    same(&rt, "all lines down", board.lines(), Lines::default());
    same(&rt, "no edge to come", board.next_edge(), None);
    start_counter(&rt, &mut board, 3_000_002);
    holds(&rt, "an edge to come", board.next_edge().is_some());
}
