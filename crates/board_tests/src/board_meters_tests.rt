//! The meters of a board at their limits.
ghost use Rattle.std.specs.Prelude.{◌≡◌};

use crate::checks::same;
use board_core::{Access, BoardState, Refusal, Setup, Tally};
use clk_units::RANGE_NS;
use host_counter::TimeFault;
use std::test::Fail;
use transfer::MoveFault;

/// The meters of a board at power on: a host of 1 GHz, which counts nanoseconds from 0, and one processor.
#[tactic(auto, unfolding(board_core::specs::Refusals::meters_of))]
fn meters() -> Tally
    ensures cpus { result.cpus ≡ 1 }
{
    BoardState::power_on(&Setup::by_default(1)).tally()
}

/// The time at which the range ends.
const PAST: TimeFault = TimeFault::OutOfRange {
    ns: RANGE_NS as u128,
};

#[test]
fn a_count_whose_time_is_past_the_range(rt: HostRuntime) {
    let tally = meters();
    let last = RANGE_NS - 1;
    same(&rt, last, tally.check_count(last), Ok(()));
    same(&rt, RANGE_NS, tally.check_count(RANGE_NS), Err(PAST));
    same(&rt, last, tally.admit(0, last, Access::Step), Ok(()));
    let refused = tally.admit(0, RANGE_NS, Access::Step);
    same(&rt, RANGE_NS, refused, Err(Refusal::NoTime(PAST)));
}

#[test]
fn a_gap_that_ends_past_the_range(rt: HostRuntime) -> Result<(), Fail> {
    let mut tally = meters();
    same(&rt, RANGE_NS - 1, tally.admit_move(RANGE_NS - 1), Ok(()));
    match tally.admit(0, 5, Access::Step) {
        Ok(()) => tally.count(0, 5, Access::Step),
        Err(_refusal) => return Err("refused".into()),
    }
    let ns = u128::from(RANGE_NS);
    let past = Err(MoveFault::OutOfRange { ns });
    same(&rt, RANGE_NS - 5, tally.admit_move(RANGE_NS - 5), past);
    match tally.admit_move(1_000) {
        Ok(()) => tally.count_move(3_000_000, 500, 1_000),
        Err(_fault) => return Err("refused".into()),
    }
    let before = Err(TimeFault::BeforeStart { start: 500 });
    same(&rt, 499u64, tally.check_count(499), before);
    same(&rt, 500u64, tally.check_count(500), Ok(()));
    Ok(())
}
