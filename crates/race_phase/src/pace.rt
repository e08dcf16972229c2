//! How many accesses a worker makes each time that it has the lock, and when it asks for it.
ghost use Rattle.std.specs.Prelude.{◌≡◌, ◌<◌, ◌≤◌};

use crate::draws::Draws;
use std::hint::spin_loop;
use std::sync::Wait;
use worker_turns::Schedule;

/// The most records that a worker answers before it gives the lock back, and the fewest where many are left.
pub(crate) const MOST_AT_ONCE: usize = 16;

const LEAST_AT_ONCE: usize = 8;

/// With fewer records of its processor left, a worker answers one at a time.
pub(crate) const FEW: u64 = 1_000;

/// How many records of a phase begin in turns: its last ones. With fewer left, times the number of workers, a worker takes
/// turns.
const TURNS: u64 = 200;

/// How many pauses of the processor a worker makes before it answers one record: fewer than these.
const PAUSES: u64 = 32;

/// When a worker goes on, by random numbers of its own, so that its records fall otherwise beside those of others in each run.
#[derive(Drop)]
pub(crate) struct Pace<'a> {
    schedule: &'a Schedule,
    worker: u64,
    draws: Draws,
    /// Whether the worker was at the start line.
    has_started: bool,
}

impl<'a> Pace<'a> {
    /// The pace of a worker.
    pub(crate) fn new(schedule: &'a Schedule, worker: u64, seed: u64) -> Pace<'a> {
        Pace {
            schedule,
            worker,
            draws: Draws::new(seed.wrapping_add(worker)),
            has_started: false,
        }
    }

    /// Before the records of a processor, of which there are so many at first: waits at the start line, before the first ones.
    pub(crate) fn start<R: Wait>(&mut self, rt: &R, records: u64) {
        if records == 0 {
            return;
        }
        if self.takes_turns(records) {
            self.schedule.come(self.worker);
        }
        if !self.has_started {
            self.has_started = true;
            self.schedule.start(rt, records < FEW);
            self.stir();
        }
    }

    /// Whether the worker takes turns, where so many records are left.
    fn takes_turns(&self, left: u64) -> bool {
        left.saturating_mul(self.schedule.workers()) < TURNS
    }

    /// Makes the next numbers differ from run to run.
    fn stir(&mut self) {
        self.draws.stir(self.schedule.chance());
    }

    /// Which of so many processors the worker begins with.
    pub(crate) fn first(&mut self, processors: usize) -> usize
        ensures { result ≤ processors }
    {
        match processors {
            0 => 0,
            _ => self.draws.below(processors as u64) as usize,
        }
    }

    /// How many records are answered next, where `left` of the processor are left.
    pub(crate) fn next(&mut self, left: u64) -> usize
        ensures least { 1 ≤ result }
        ensures most { result ≤ 16 }
        ensures few { left < 1000 → result ≡ 1 }
    {
        if left < FEW {
            return 1;
        }
        let more = MOST_AT_ONCE - LEAST_AT_ONCE + 1;
        LEAST_AT_ONCE + self.draws.below(more as u64) as usize
    }

    /// Waits where one record is answered next: for the worker's turn, where it takes turns, and then for a random while.
    pub(crate) fn wait(&mut self, left: u64) {
        if left >= FEW {
            return;
        }
        if self.takes_turns(left) {
            self.take_turn(left);
        }
        for _ in 0..self.draws.below(PAUSES) {
            spin_loop();
        }
    }

    /// Waits for the worker's turn, and draws whose turn is next. At its last record it takes none any more.
    fn take_turn(&mut self, left: u64) {
        self.schedule.come(self.worker);
        self.schedule.wait(self.worker);
        self.stir();
        if left <= 1 {
            self.schedule.leave(self.worker);
        }
        let next = self.draws.below(self.schedule.workers().max(1));
        self.schedule.begin(next);
    }
}
