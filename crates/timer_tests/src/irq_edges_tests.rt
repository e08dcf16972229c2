//! Changes of the six lines in order, rises of a stretch, and lists of edges and of bursts.

use crate::checks::{holds, same};
use irq_edges::{Burst, BurstList, Edge, EdgeList, Lines, changes, emit, lines_at, next_rise};

fn edge(at: u64, line: u8, up: bool) -> Edge {
    Edge { at, line, up }
}

#[test]
fn changes_in_order_of_line_numbers(rt: HostRuntime) {
    let before = Lines {
        levels: [false, true, false, true, true, false],
    };
    let after = Lines {
        levels: [true, false, false, true, false, true],
    };
    let mut edges = EdgeList::new();
    holds(&rt, "empty", edges.is_empty());
    edges.push(edge(1, 20, false));
    changes(before, after, 4191, &mut edges);
    let wanted = [
        edge(1, 20, false),
        edge(4191, 0, true),
        edge(4191, 8, false),
        edge(4191, 22, false),
        edge(4191, 23, true),
    ];
    same(&rt, "edges", edges.as_slice(), wanted.as_slice());
    same(&rt, "length", edges.len(), 5);
}

#[test]
fn levels_by_line_number(rt: HostRuntime) {
    let lines = Lines {
        levels: [true, false, false, true, false, true],
    };
    let levels = [
        (0, lines.level(0), true),
        (8, lines.level(8), false),
        (20, lines.level(20), false),
        (21, lines.level(21), true),
        (22, lines.level(22), false),
        (23, lines.level(23), true),
    ];
    for (line, level, wanted) in levels {
        same(&rt, line, level, wanted);
    }
}

/// Two lines that rise at one time, one that rises later, one that is up before, and one that
/// rises after the end.
#[test]
fn rises_of_a_stretch(rt: HostRuntime) {
    let times = [Some(7), Some(12), None, Some(12), Some(15), Some(99)];
    let cases = [(10, 20, Some(12)), (12, 15, Some(15)), (15, 98, None)];
    for (from, to, next) in cases {
        same(&rt, (from, to), next_rise(&times, from, to), next);
    }
    let up = [true, true, false, true, false, false];
    same(&rt, "levels at 12", lines_at(&times, 12).levels, up);
    let mut edges = EdgeList::new();
    emit(&times, 10, 20, &mut edges);
    let wanted = [edge(12, 8, true), edge(12, 21, true), edge(15, 22, true)];
    same(&rt, "edges from 10", edges.as_slice(), wanted.as_slice());
    let mut last = EdgeList::new();
    emit(&times, 12, 20, &mut last);
    same(
        &rt,
        "edges from 12",
        last.as_slice(),
        [edge(15, 22, true)].as_slice(),
    );
}

#[test]
fn bursts_in_the_order_in_which_they_came(rt: HostRuntime) {
    let one = Burst {
        timer: 3,
        first: 1000,
        count: 3,
        every: 1000,
        address: 0xfee0_0000,
        data: 0x41,
    };
    let other = Burst {
        timer: 5,
        count: 1,
        every: 0,
        ..one
    };
    let mut bursts = BurstList::new();
    holds(&rt, "empty", bursts.is_empty());
    bursts.push(one);
    bursts.push(other);
    same(&rt, "bursts", bursts.as_slice(), [one, other].as_slice());
    same(&rt, "length", bursts.len(), 2);
    bursts.clear();
    same(&rt, "cleared", bursts, BurstList::new());
}
