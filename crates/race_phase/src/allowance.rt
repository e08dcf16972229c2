//! Which phases start threads.
use crate::draws::Draws;
use crate::piece::Part;
use crate::records::RecordList;
use worker_turns::Schedule;

/// A phase with at least so many records always has its threads.
const LONG: usize = 512;

/// How many records are answered in about the time in which a short phase starts its threads and they meet, and where they didn't meet
/// before one gave up.
const MEETING: u64 = 100;

const MEETING_IN_VAIN: u64 = 2_500;

/// How many short phases start threads at least, where all meet.
const FIRST_MEETINGS: u64 = 256;

// A trace may have a phase for each line, and to start threads takes as long as some hundred records, or much longer on a
// loaded host. So the first short phases start threads, and then one for each hundred records of short phases.
/// How much the short phases of a race may still spend on threads, counted in records.
#[derive(Drop)]
pub(crate) struct Allowance {
    left: u64,
    draws: Draws,
}

impl Allowance {
    /// That of a race which begins.
    pub(crate) fn new() -> Allowance {
        Allowance {
            left: FIRST_MEETINGS * MEETING,
            draws: Draws::new(0),
        }
    }

    /// The processors whose records want a thread of their own, a bit for each, in a phase that begins with this part: those that have
    /// records, and none where the phase is to start no threads.
    pub(crate) fn apart(&mut self, part: &Part) -> u64 {
        if part.end.is_none() {
            return u64::MAX;
        }
        let processors = processors_of(&part.records);
        let records = part.records.len();
        if records >= LONG || processors.count_ones() < 2 {
            return processors;
        }
        let left = self.left.saturating_add(records as u64);
        if left < MEETING {
            self.left = left;
            return 0;
        }
        self.left = left - MEETING;
        processors
    }

    /// Notes how the workers of a phase met.
    pub(crate) fn note(&mut self, schedule: &Schedule) {
        if schedule.has_given_up() {
            self.left = self.left.saturating_sub(MEETING_IN_VAIN);
        }
        self.draws.stir(schedule.chance());
    }

    /// The seed of a phase's random numbers. It differs from run to run, once threads have met.
    pub(crate) fn seed(&mut self) -> u64 {
        self.draws.below(1 << 31)
    }
}

/// The processors of records, a bit for each.
fn processors_of(records: &RecordList) -> u64 {
    let mut processors = 0;
    for place in 0..records.len() {
        processors |= 1 << (records.cpu(place) % 64);
    }
    processors
}
