//! Worked values of a board's devices, as calls.

ghost use Rattle.std.specs.Prelude.{ℕ, ◌<◌, ◌≤◌, ◌^◌, IsTrue};
ghost use Rattle.pit_readback.specs.Ports.{is_pit_port};
ghost use Rattle.board_devices.specs.Places.{line_at};
ghost use Rattle.board_devices.specs.Act.{IsLegal};

mod steps;

use crate::checks::{holds, same};
use board_devices::{Act, Devices};
use board_types::Setup;
use irq_edges::{Burst, BurstList, Edge, EdgeList};
use std::process::Abort;
use tick_policy::{Counts, Policy};

/// Devices of three timers, with one policy for the ticks of the 8254, and `Delay` for the others.
fn devices(pit: Policy, slew_ns: u64) -> Devices
    requires low { 1 ≤ slew_ns }
    requires high { slew_ns ≤ 1000000000 }
{
    Devices::power_on(&Setup {
        pit,
        slew_ns,
        ..Setup::by_default(1)
    })
}

/// Whether the counts of all ticks are far from their end.
fn has_room(devices: &Devices) -> bool
    ensures { IsTrue result → (k : ℕ) → k < 10 → (line_at k devices.now).counts.due < 2 ^ 62 }
{
    for k in 0..10u8 {
        if devices.counts(k).due >= 1 << 62 {
            return false;
        }
    }
    true
}

/// An access; answers what it reads and its edges.
fn act(rt: &impl Abort, devices: &mut Devices, a: Act, at: u64) -> (u64, EdgeList)
    requires { IsLegal a }
{
    let mut edges = EdgeList::new();
    assert!(rt; devices.counts(0).due < 1 << 62);
    let value = devices.act(a, at, &mut edges);
    (value, edges)
}

/// A run; answers its edges.
fn run(rt: &impl Abort, devices: &mut Devices, from: u64, to: u64) -> EdgeList {
    let mut edges = EdgeList::new();
    assert!(rt; from <= to && to < 1 << 58);
    assert!(rt; has_room(devices));
    devices.run_to(from, to, &mut edges);
    edges
}

/// The edges are these.
fn edges_are(rt: &impl Abort, row: &str, seen: &EdgeList, wanted: &[Edge]) {
    same(rt, row, seen.as_slice(), wanted);
}

/// An edge.
fn edge(at: u64, line: u8, up: bool) -> Edge {
    Edge { at, line, up }
}

/// Counts of ticks.
fn counts(due: u64, rises: u64, queue: u64, lost: u64) -> Counts {
    Counts {
        due,
        rises,
        queue,
        lost,
    }
}

/// A write to a port of the 8254 at 0.
fn out(rt: &impl Abort, devices: &mut Devices, port: u8, byte: u8)
    requires { IsTrue (is_pit_port port) }
{
    act(rt, devices, Act::PitWrite { port, byte }, 0);
}

/// A write of 8 bytes to the HPET.
fn set(rt: &impl Abort, devices: &mut Devices, offset: u16, value: u64, at: u64)
    requires { offset ≤ 0x3ff }
{
    let write = Act::HpetWrite {
        offset,
        width: 8,
        value,
    };
    act(rt, devices, write, at);
}

/// A read of 8 bytes of the HPET.
fn get(rt: &impl Abort, devices: &mut Devices, offset: u16, at: u64) -> u64
    requires { offset ≤ 0x3ff }
{
    act(rt, devices, Act::HpetRead { offset, width: 8 }, at).0
}

/// Counter 0 in mode 2 with count 4.
fn start_counter(rt: &impl Abort, devices: &mut Devices) {
    out(rt, devices, 0x43, 0x34);
    out(rt, devices, 0x40, 4);
    out(rt, devices, 0x40, 0);
}

// periodic interrupts of the MC146818 at rate 6, and a read of register C that shows the next
#[test]
fn a_read_of_register_c_shows_a_tick_that_waits(rt: HostRuntime) {
    let mut d = devices(Policy::Delay, 1_000_000);
    act(&rt, &mut d, Act::IndexWrite { byte: 0x0b }, 0);
    act(&rt, &mut d, Act::ClockWrite { byte: 0x42 }, 0);
    let edges = run(&rt, &mut d, 0, 2_000_000);
    edges_are(&rt, "run", &edges, &[edge(976_563, 8, true)]);
    same(&rt, "run", d.counts(1), counts(2, 1, 1, 0));
    act(&rt, &mut d, Act::IndexWrite { byte: 0x0c }, 2_000_000);
    let (value, edges) = act(&rt, &mut d, Act::ClockRead, 2_000_000);
    same(&rt, "register C", value, 0xc0);
    let wanted = [edge(2_000_000, 8, false), edge(2_000_000, 8, true)];
    edges_are(&rt, "read", &edges, &wanted);
    same(&rt, "read", d.counts(1), counts(2, 2, 0, 0));
}

// a periodic timer of 32 bits across a wrap of its comparator
#[test]
fn a_periodic_timer_of_32_bits_wraps(rt: HostRuntime) {
    let mut d = devices(Policy::Delay, 1_000_000);
    set(&rt, &mut d, 0x100, 0x294c, 0);
    set(&rt, &mut d, 0x108, 0xffff_fff8, 0);
    set(&rt, &mut d, 0x108, 0x10, 0);
    set(&rt, &mut d, 0xf0, 0xffff_fff0, 0);
    set(&rt, &mut d, 0x10, 1, 0);
    let edges = run(&rt, &mut d, 0, 450);
    edges_are(&rt, "run", &edges, &[edge(80, 20, true)]);
    same(&rt, "run", d.counts(2), counts(3, 1, 2, 0));
    let reads = [
        (0x108, 0x28),
        (0xf0, 0x1_0000_001d),
        (0x100, 0x00f0_0000_0000_293c),
    ];
    for (offset, wanted) in reads {
        same(&rt, offset, get(&rt, &mut d, offset, 450), wanted);
    }
}

// legacy replacement while OUT 0 is low
#[test]
fn legacy_replacement_takes_line_0(rt: HostRuntime) {
    let mut d = devices(Policy::Delay, 1_000_000);
    start_counter(&rt, &mut d);
    set(&rt, &mut d, 0x100, 0x2804, 0);
    set(&rt, &mut d, 0x108, 0x64, 0);
    run(&rt, &mut d, 0, 3_500);
    set(&rt, &mut d, 0x10, 3, 3_500);
    let edges = run(&rt, &mut d, 3_500, 5_000);
    edges_are(&rt, "run", &edges, &[edge(4_500, 0, true)]);
    same(&rt, "the 8254", d.counts(0), counts(0, 0, 0, 0));
    same(&rt, "timer 0", d.counts(2), counts(1, 1, 0, 0));
}

/// What becomes of ten ticks that a guest misses under a policy, with catch-up points this far
/// apart: the counts before the guest acknowledges at 38,000 ns, whether line 0 goes up again then,
/// or at 39,000 ns, and the counts after.
#[derive(Clone, Copy)]
struct Missed {
    policy: Policy,
    slew_ns: u64,
    before: Counts,
    again: bool,
    later: bool,
    after: Counts,
}

/// Counter 0 of the 8254 until 39,000 ns, acknowledged once.
fn miss_ticks(rt: &impl Abort, row: &Missed) {
    assert!(rt; row.slew_ns >= 1 && row.slew_ns <= 1_000_000);
    let mut d = devices(row.policy, row.slew_ns);
    start_counter(rt, &mut d);
    let edges = run(rt, &mut d, 0, 38_000);
    edges_are(rt, "first run", &edges, &[edge(4_191, 0, true)]);
    same(rt, (row.policy, "before"), d.counts(0), row.before);
    let (_, edges) = act(rt, &mut d, Act::Ack { line: 0 }, 38_000);
    let mut wanted = EdgeList::new();
    wanted.push(edge(38_000, 0, false));
    if row.again {
        wanted.push(edge(38_000, 0, true));
    }
    same(rt, (row.policy, "acknowledged"), edges, wanted);
    let edges = run(rt, &mut d, 38_000, 39_000);
    let mut wanted = EdgeList::new();
    if row.later {
        wanted.push(edge(39_000, 0, true));
    }
    same(rt, (row.policy, "last run"), edges, wanted);
    same(rt, (row.policy, "after"), d.counts(0), row.after);
}

#[test]
fn ten_missed_ticks(rt: HostRuntime) {
    let discard = Missed {
        policy: Policy::Discard,
        slew_ns: 1_000_000,
        before: counts(11, 1, 0, 10),
        again: false,
        later: false,
        after: counts(11, 1, 0, 10),
    };
    let delay = Missed {
        policy: Policy::Delay,
        before: counts(11, 1, 10, 0),
        again: true,
        after: counts(11, 2, 9, 0),
        ..discard
    };
    let slew = Missed {
        policy: Policy::Slew,
        slew_ns: 1_000,
        again: false,
        later: true,
        ..delay
    };
    for row in [discard, delay, slew] {
        miss_ticks(&rt, &row);
    }
}

// the next edge, a whole state and eight timers more
#[test]
fn next_edge_parts_and_upgrade(rt: HostRuntime) {
    let mut d = devices(Policy::Delay, 1_000_000);
    start_counter(&rt, &mut d);
    assert!(rt; has_room(&d));
    same(&rt, "next edge", d.next_edge(0), Some(4_191));
    holds(&rt, "parts", Devices::of_parts(d.parts()).is_some());
    let upgraded = d.upgraded(true).parts().hpet;
    let fields = (upgraded.timers, upgraded.messages);
    same(&rt, "upgraded", fields, (8, true));
}

// timer 0 of edge type, periodic, each 100 pulses, with messages
#[test]
fn messages_of_a_timer(rt: HostRuntime) {
    let mut d = Devices::power_on(&Setup::by_default(5));
    set(&rt, &mut d, 0x100, 0x684c, 0);
    set(&rt, &mut d, 0x110, 0xfee0_0000_0000_0041, 0);
    set(&rt, &mut d, 0x108, 100, 0);
    set(&rt, &mut d, 0x10, 1, 0);
    same(&rt, "next message", d.next_message(0, 3_500), Some(1_000));
    let mut bursts = BurstList::new();
    d.bursts(0, 3_500, &mut bursts);
    let burst = Burst {
        timer: 0,
        first: 1_000,
        count: 3,
        every: 1_000,
        address: 0xfee0_0000,
        data: 0x41,
    };
    same(&rt, "bursts", bursts.as_slice(), [burst].as_slice());
    holds(&rt, "no edges", run(&rt, &mut d, 0, 3_500).is_empty());
    same(&rt, "no ticks", d.counts(2), counts(0, 0, 0, 0));
}
