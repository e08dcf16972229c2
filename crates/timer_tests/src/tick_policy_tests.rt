//! A tick line under each policy: ticks that are missed, its fields, stretches and events.

use crate::checks::{holds, same};
use std::process::Abort;
use std::test::Fail;
use tick_policy::{Acked, Counts, Event, Policy, TickField, TickLine, TickParts, run_line};

fn counts(due: u64, rises: u64, queue: u64, lost: u64) -> Counts {
    Counts {
        due,
        rises,
        queue,
        lost,
    }
}

/// What becomes of ten ticks that a guest sleeps through, under a policy: the counts before an
/// acknowledgement, its answer, the counts after it, whether a catch-up point then shows a tick, and
/// the counts after that.
#[derive(Clone, Copy)]
struct Missed {
    policy: Policy,
    before: Counts,
    answer: Acked,
    after: Counts,
    shows: bool,
    caught_up: Counts,
}

/// A line whose guest slept through ten ticks, then an acknowledgement, then a catch-up point.
fn miss_ticks(rt: &impl Abort, row: &Missed) {
    let policy = row.policy;
    let mut line = TickLine::power_on(policy);
    let at_power_on = (line.is_up(), line.ack());
    same(
        rt,
        (policy, "at power on"),
        at_power_on,
        (false, Acked::NotUp),
    );
    line.due(11);
    let again = row.answer == Acked::DownUp;
    let missed = (line.is_up(), line.counts(), line.goes_again());
    same(rt, (policy, "missed"), missed, (true, row.before, again));
    let mut halfway = line;
    halfway.ack_down();
    let seen = (halfway.is_up(), halfway.counts());
    same(rt, (policy, "halfway"), seen, (false, row.before));
    let acked = (line.ack(), line.counts(), line.is_waiting());
    same(
        rt,
        (policy, "acknowledged"),
        acked,
        (row.answer, row.after, row.shows),
    );
    let caught_up = (line.catch_up(), line.counts());
    same(
        rt,
        (policy, "caught up"),
        caught_up,
        (row.shows, row.caught_up),
    );
}

#[test]
fn ten_missed_ticks(rt: HostRuntime) {
    let discard = Missed {
        policy: Policy::Discard,
        before: counts(11, 1, 0, 10),
        answer: Acked::Down,
        after: counts(11, 1, 0, 10),
        shows: false,
        caught_up: counts(11, 1, 0, 10),
    };
    let delay = Missed {
        policy: Policy::Delay,
        before: counts(11, 1, 10, 0),
        answer: Acked::DownUp,
        after: counts(11, 2, 9, 0),
        shows: false,
        caught_up: counts(11, 2, 9, 0),
    };
    let slew = Missed {
        policy: Policy::Slew,
        before: counts(11, 1, 10, 0),
        answer: Acked::Down,
        after: counts(11, 1, 10, 0),
        shows: true,
        caught_up: counts(11, 2, 9, 0),
    };
    for row in [discard, delay, slew] {
        miss_ticks(&rt, &row);
    }
}

/// With no tick that waits an acknowledgement and a catch-up point show none.
#[test]
fn none_missed(rt: HostRuntime) {
    for policy in [Policy::Discard, Policy::Delay, Policy::Slew] {
        let mut line = TickLine::power_on(policy);
        line.due(1);
        same(&rt, (policy, "acknowledged"), line.ack(), Acked::Down);
        holds(&rt, (policy, "catches up"), !line.catch_up());
        same(&rt, (policy, "counts"), line.counts(), counts(1, 1, 0, 0));
        line.set_up(true);
        holds(&rt, (policy, "set up"), line.is_up());
        same(&rt, (policy, "counts"), line.counts(), counts(1, 1, 0, 0));
    }
}

#[test]
fn parts_and_back(rt: HostRuntime) {
    let last = u64::MAX;
    let cases = [
        (Policy::Discard, counts(11, 1, 0, 10), None),
        (
            Policy::Discard,
            counts(11, 1, 10, 0),
            Some(TickField::Queue),
        ),
        (Policy::Delay, counts(11, 2, 9, 0), None),
        (Policy::Delay, counts(11, 2, 0, 9), Some(TickField::Lost)),
        (Policy::Slew, counts(11, 2, 9, 0), None),
        (Policy::Slew, counts(11, 2, 0, 9), Some(TickField::Lost)),
        (Policy::Delay, counts(12, 2, 9, 0), Some(TickField::Lost)),
        (Policy::Delay, counts(1, last, 2, 0), Some(TickField::Lost)),
    ];
    for (policy, counts, fault) in cases {
        let parts = TickParts {
            policy,
            up: false,
            counts,
        };
        same(&rt, parts, parts.first_fault(), fault);
        same(&rt, parts, Policy::of_byte(policy.byte()), Some(policy));
        let line = TickLine::of_parts(parts);
        same(&rt, parts, line.is_some(), fault.is_none());
        if let Some(line) = line {
            same(&rt, parts, line.parts(), parts);
        }
    }
}

/// Slewed lines of which two ticks wait, over the nanoseconds 101 to 112: one tick is due at 110,
/// or none is.
#[test]
fn stretches(rt: HostRuntime) -> Result<(), Fail> {
    let cases = [
        (false, 104, None, Some(104), counts(3, 2, 1, 0)),
        (false, 104, Some(110), Some(104), counts(4, 2, 2, 0)),
        (false, 110, Some(110), Some(110), counts(4, 2, 2, 0)),
        (false, 120, Some(110), Some(110), counts(4, 2, 2, 0)),
        (false, 120, None, None, counts(3, 1, 2, 0)),
        (true, 104, Some(110), Some(100), counts(4, 1, 3, 0)),
    ];
    for (up, point, first, up_from, wanted) in cases {
        let parts = TickParts {
            policy: Policy::Slew,
            up,
            counts: Counts {
                due: 3,
                rises: 1,
                queue: 2,
                lost: 0,
            },
        };
        let mut line = TickLine::of_parts(parts).ok_or("no line")?;
        let ticks = if first.is_some() { 1 } else { 0 };
        let run = run_line(&mut line, 100, 112, point, ticks, first);
        same(&rt, (up, point, first), run, up_from);
        same(&rt, (up, point, first), line.counts(), wanted);
    }
    Ok(())
}

#[test]
fn events_one_after_the_other(rt: HostRuntime) {
    let events = [
        Event::Tick,
        Event::Tick,
        Event::Acknowledgement,
        Event::CatchUpPoint,
        Event::Acknowledgement,
    ];
    let cases = [
        (Policy::Discard, counts(2, 1, 0, 1)),
        (Policy::Delay, counts(2, 2, 0, 0)),
        (Policy::Slew, counts(2, 2, 0, 0)),
    ];
    for (policy, wanted) in cases {
        let mut line = TickLine::power_on(policy);
        same(&rt, policy, line.run_events(&events), wanted);
        holds(&rt, policy, !line.is_up());
    }
}
