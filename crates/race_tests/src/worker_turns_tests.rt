//! How two workers of a race meet: the start line, and turns.
use crate::checks::{holds, same};
use std::thread::join;
use worker_turns::{FEW_LOOKS, Schedule};

#[test]
fn no_worker_begins_before_all_have_come(rt: HostRuntime) {
    let schedule = Schedule::new(2);
    let shared = &schedule;
    let come = || -> u64 {
        shared.start(&rt, true);
        shared.arrived()
    };
    let (one, two) = join(&rt, come, come);
    // A host may start a thread late.
    let gave_up = shared.has_given_up();
    holds(&rt, (one, two), one == 2 && two == 2 || gave_up);
}

/// The looks that a worker's wait takes.
fn looks(schedule: &Schedule, worker: u64) -> u64 {
    let before = schedule.chance();
    schedule.wait(worker);
    schedule.chance().wrapping_sub(before)
}

#[test]
fn a_worker_waits_for_one_that_takes_turns(rt: HostRuntime) {
    let schedule = Schedule::new(2);
    schedule.begin(1);
    same(&rt, "worker 0", looks(&schedule, 0), FEW_LOOKS);
    same(&rt, "worker 1", looks(&schedule, 1), 0);
    schedule.come(1);
    let shared = &schedule;
    let wait = || -> u64 {
        shared.wait(0);
        shared.turn()
    };
    let begin = || -> u64 {
        shared.begin(0);
        0
    };
    let (turn, _) = join(&rt, wait, begin);
    same(&rt, "the turn", turn, 0);
}

#[test]
fn one_that_is_looked_for_in_vain_takes_no_turn(rt: HostRuntime) {
    let schedule = Schedule::new(2);
    schedule.come(1);
    schedule.begin(1);
    schedule.wait(0);
    same(&rt, "worker 0", looks(&schedule, 0), FEW_LOOKS);
    same(&rt, "the turn", schedule.turn(), 1);
}

#[test]
fn a_worker_at_its_end_is_not_waited_for(rt: HostRuntime) {
    let schedule = Schedule::new(2);
    schedule.come(1);
    schedule.leave(1);
    schedule.begin(1);
    same(&rt, "worker 0", looks(&schedule, 0), FEW_LOOKS);
}
