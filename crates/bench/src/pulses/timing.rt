//! How long a call takes.

use super::device::Device;
use hpet_comparator::Matches;
use std::io;
use std::rt::Clock;
use std::time::Instant;

/// Calls are made again, twice as many each time, until they take this many nanoseconds.
const LONG_ENOUGH: u128 = 50_000_000;

/// How often the number of calls may double.
const DOUBLINGS: u32 = 28;

/// Nanoseconds in a second.
const SECOND: u128 = 1_000_000_000;

/// Calls that were timed.
#[derive(Clone, Copy)]
pub struct Timing {
    /// The pulses of each call.
    pulses: u64,
    calls: u32,
    /// How long all calls took.
    nanoseconds: u128,
    /// The sum of what the calls answered.
    answers: u64,
}

impl Timing {
    /// The nanoseconds of one call.
    pub fn nanoseconds_a_call(&self) -> u128 {
        self.nanoseconds / u128::from(self.calls).max(1)
    }

    /// The pulses that pass in a second of calls.
    pub fn pulses_a_second(&self) -> u128 {
        u128::from(self.pulses) * u128::from(self.calls) * SECOND / self.nanoseconds.max(1)
    }

    /// The sum of what the calls answered.
    pub fn answers(&self) -> u64 {
        self.answers
    }
}

/// Times calls of `n` pulses each, as many as take long enough.
pub fn time_stretch(clock: &impl Clock, device: &mut Device, n: u64) -> io::Result<Timing> {
    let mut timing = time_calls(clock, device, n, 1)?;
    for doubled in 1..DOUBLINGS {
        if timing.nanoseconds >= LONG_ENOUGH {
            break;
        }
        timing = time_calls(clock, device, n, 1 << doubled)?;
    }
    Ok(timing)
}

/// Times `calls` calls of `pulses` pulses each.
fn time_calls(
    clock: &impl Clock,
    device: &mut Device,
    pulses: u64,
    calls: u32,
) -> io::Result<Timing> {
    let start = Instant::now(clock)?;
    let answers = sum_of_answers(device, pulses, calls);
    let nanoseconds = start.elapsed(clock)?.as_nanos();
    Ok(Timing {
        pulses,
        calls,
        nanoseconds,
        answers,
    })
}

/// Makes `calls` calls of `pulses` pulses each, with one array of matches for all. Returns the sum
/// of their answers.
pub fn sum_of_answers(device: &mut Device, pulses: u64, calls: u32) -> u64 {
    let mut matches = [Matches::NONE; 8];
    let mut answers: u64 = 0;
    for _ in 0..calls {
        answers = answers.wrapping_add(device.pulses(pulses, &mut matches));
    }
    answers
}
