//! A board that lags under its lock.
ghost use Rattle.shared_board.specs.Asks.{MayAsk};

use super::setups::{Case, Ready, plain_board, stopped, test_on};
use crate::checks::same;
use board_core::{Access, BoardParts, BoardState};
use board_io::OpenGate;
use clock_table::Name;
use shared_board::{Asked, Pass, SharedBoard};
use std::alloc::Global;
use std::process::Abort;
use std::sync::Wait;
use std::test::Fail;

/// The HPET's main counter.
const COUNTER: u16 = 0xf0;

#[test]
fn a_board_that_lagged_stops_as_a_plain_one(rt: HostRuntime) -> Result<(), Fail> {
    test_on(&rt, rt.alloc(), Case::QuietRun, plain_board(), 2)
}

/// The HPET counts, and two passes step and read its counter in turn: soon these accesses are only counted.
pub(super) fn quiet_run<N: Name, R: Wait + Abort>(
    rt: &R,
    alloc: Global,
    ready: Ready<N>,
) -> Result<(), Fail> {
    let (board, mut one, mut two) = ready.two()?;
    let mut plain = plain_board();
    let enable = Access::HpetWrite {
        offset: 0x10,
        width: 8,
        value: 1,
    };
    let read = Access::HpetRead {
        offset: COUNTER,
        width: 8,
    };
    let first = Asked {
        cpu: 0,
        h: 1,
        access: enable,
    };
    answer_alike(rt, &board, &mut plain, &mut one, first);
    for n in 1..21 {
        let step = Asked {
            cpu: 0,
            h: n * 1_000,
            access: Access::Step,
        };
        answer_alike(rt, &board, &mut plain, &mut one, step);
        let look = Asked {
            cpu: 1,
            h: n * 1_000 + 500,
            access: read,
        };
        answer_alike(rt, &board, &mut plain, &mut two, look);
    }
    let state = stopped(alloc, board, one, two)?;
    hold_the_same(rt, &state.parts(), &plain.parts());
    Ok(())
}

/// A shared board answers an access as a plain one does.
fn answer_alike<N: Name, R: Wait + Abort>(
    rt: &R,
    board: &SharedBoard<N>,
    plain: &mut BoardState,
    pass: &mut Pass<N>,
    asked: Asked,
)
    requires may { MayAsk N.state asked }
{
    let Asked { cpu, h, access } = asked;
    let told = board.access(rt, &OpenGate, pass, asked);
    assert!(rt; cpu < plain.cpus() && access.legal(plain.cpus(), plain.format()));
    same(rt, ("at count", h), told, plain.access(cpu, h, access));
}

/// Two boards hold the same.
fn hold_the_same(rt: &impl Abort, one: &BoardParts, other: &BoardParts) {
    same(rt, "format", one.format, other.format);
    same(rt, "cpus", one.cpus, other.cpus);
    same(rt, "anchor", one.anchor, other.anchor);
    same(rt, "host", one.host, other.host);
    same(rt, "guest_khz", one.guest_khz, other.guest_khz);
    same(rt, "accesses", one.accesses, other.accesses);
    same(rt, "greatest", one.greatest, other.greatest);
    same(rt, "slew_ns", one.slew_ns, other.slew_ns);
    same(rt, "pit", &one.pit, &other.pit);
    same(rt, "rtc", &one.rtc, &other.rtc);
    same(rt, "hpet", &one.hpet, &other.hpet);
    same(rt, "ticks", &one.ticks, &other.ticks);
    same(rt, "wall_number", one.wall_number, other.wall_number);
    same(rt, "wall_version", one.wall_version, other.wall_version);
    same(rt, "wall_sec", one.wall_sec, other.wall_sec);
    same(rt, "wall_nsec", one.wall_nsec, other.wall_nsec);
    same(rt, "processors", &one.processors, &other.processors);
    same(rt, "rises", &one.rises, &other.rises);
    same(rt, "apic", &one.apic, &other.apic);
    same(rt, "apic_ticks", &one.apic_ticks, &other.apic_ticks);
    same(rt, "hv", &one.hv, &other.hv);
}
