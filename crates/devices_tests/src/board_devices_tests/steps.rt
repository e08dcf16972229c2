//! Devices that run by division against devices that run a nanosecond at a time.

ghost use Rattle.std.specs.Prelude.{◌<◌, ◌≤◌, IsTrue};
ghost use Rattle.pit_readback.specs.Ports.{is_pit_port};
ghost use Rattle.board_devices.specs.Act.{IsLegal};

use super::{act, run};
use crate::checks::same;
use board_devices::{Act, Devices};
use board_types::Setup;
use irq_edges::{EDGE_PLACES, EdgeList};
use std::process::Abort;
use tick_policy::Policy;

/// Numbers out of a fixed seed (xorshift).
#[derive(Drop)]
struct Numbers {
    state: u64,
}

impl Numbers {
    /// The next number, below `bound`.
    fn below(&mut self, bound: u64) -> u64
        requires { 0 < bound }
        ensures { result < bound }
    {
        let mut x = self.state;
        x ^= x.wrapping_shl(13);
        x ^= x >> 7;
        x ^= x.wrapping_shl(17);
        self.state = x;
        (x >> 11) % bound
    }
}

/// A write of a byte to a port of the 8254.
fn port(port: u8, byte: u8) -> Act
    requires { IsTrue (is_pit_port port) }
    ensures { IsLegal result }
{
    Act::PitWrite { port, byte }
}

/// A write of 8 bytes to the HPET.
fn wide(offset: u16, value: u64) -> Act
    requires { offset ≤ 0x3ff }
    ensures { IsLegal result }
{
    Act::HpetWrite {
        offset,
        width: 8,
        value,
    }
}

/// An access that moves lines, ticks or counts of eight timers and of the other devices.
fn some_act(numbers: &mut Numbers) -> Act
    ensures { IsLegal result }
{
    let byte = numbers.below(6) as u8;
    match numbers.below(17) {
        0 => Act::PitRead { port: 0x40 },
        1 => port(0x43, 0x30 + byte * 2),
        2 | 3 => port(0x40, byte / 2),
        4 => Act::IndexWrite {
            byte: 0x0b + byte % 2,
        },
        5 => Act::ClockWrite {
            byte: 0x02 + 0x40 * (byte % 2),
        },
        6 | 7 => Act::ClockRead,
        8 => wide(0x100, [0x284c, 0x284e, 0x684c, 0x2846][byte as usize % 4]),
        9 => wide(0x108, 3 + u64::from(byte)),
        10 => wide(0x1a0, [0x284c, 0x2a4e, 0, 0x2846][byte as usize % 4]),
        11 => wide(0x1a8, 2 + u64::from(byte)),
        12 => wide(0x10, [1, 3, 1, 1, 3, 0][byte as usize % 6]),
        13 => wide(0x20, 0xff),
        14 => wide(0xf0, u64::from(byte)),
        _ => Act::Ack {
            line: [0, 8, 20, 21, 20, 0][byte as usize % 6],
        },
    }
}

/// A run a nanosecond at a time; answers all edges.
fn run_by_steps(rt: &impl Abort, devices: &mut Devices, from: u64, to: u64) -> EdgeList {
    let mut edges = EdgeList::new();
    for t in from..to {
        for edge in run(rt, devices, t, t + 1).as_slice() {
            assert!(rt; edges.len() < EDGE_PLACES);
            edges.push(*edge);
        }
    }
    edges
}

/// Devices shortly before a periodic event of the MC146818, which interrupts.
fn begun(rt: &impl Abort, policy: Policy) -> Devices {
    let mut d = Devices::power_on(&Setup {
        pit: policy,
        rtc: policy,
        hpet: policy,
        slew_ns: 700,
        ..Setup::by_default(5)
    });
    act(rt, &mut d, Act::IndexWrite { byte: 0x0b }, 0);
    act(rt, &mut d, Act::ClockWrite { byte: 0x42 }, 0);
    run(rt, &mut d, 0, 976_000);
    d
}

/// Takes devices and some by steps through the same accesses: answers, edges and whole states.
fn compare(rt: &impl Abort, policy: Policy, seed: u64) {
    let mut whole = begun(rt, policy);
    let mut stepped = whole;
    let mut numbers = Numbers { state: seed };
    let mut now = 976_000u64;
    for n in 0..300 {
        let to = now.wrapping_add(numbers.below(90));
        let edges = run(rt, &mut whole, now, to);
        let by_steps = run_by_steps(rt, &mut stepped, now, to);
        same(rt, (policy, n, "run"), edges, by_steps);
        same(rt, (policy, n, "run"), whole.parts(), stepped.parts());
        let a = some_act(&mut numbers);
        let answer = act(rt, &mut whole, a, to);
        let by_steps = act(rt, &mut stepped, a, to);
        same(rt, (policy, n, "access"), answer, by_steps);
        same(rt, (policy, n, "access"), whole.parts(), stepped.parts());
        now = to;
    }
}

#[test]
fn devices_by_division_are_those_by_steps(rt: HostRuntime) {
    compare(&rt, Policy::Delay, 0x9e37_79b9_7f4a_7c15);
    compare(&rt, Policy::Slew, 0xd1b5_4a32_d192_ed03);
}
