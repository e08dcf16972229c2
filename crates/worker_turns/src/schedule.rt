//! How the workers of a phase meet: they begin together, and take turns where few of their records are left.
use std::hint::spin_loop;
use std::sync::Wait;
use std::sync::atomic::{AtomicU64, Ordering};
use std::thread::yield_now;
use std::time::Duration;

/// How often a worker looks in a row before it lets other threads run between two looks: at the start line, where the others
/// are mostly about to come, and for its turn.
const START_SPINS: u64 = 400;

const TURN_SPINS: u64 = 100;

/// How often a worker lets other threads run between two looks for those that aren't there yet, and how often it then sleeps
/// between two, for how many microseconds at most. Where a thread can't be started, its worker comes after another has ended.
const START_YIELDS: u64 = 50;

const START_NAPS: u64 = 20;

const START_NAP_US: u64 = 500;

/// How often a worker looks at the start line before it gives it up.
const START_LOOKS: u64 = START_SPINS + START_YIELDS + START_NAPS;

/// How often a worker lets other threads run as it looks for its turn.
const MOST_YIELDS: u64 = 2_000;

/// How often a worker looks for its turn where the one whose turn it is takes none: it has more records left, is at its last
/// one, or was looked for in vain and hasn't come since.
pub const FEW_LOOKS: u64 = 100;

/// How often a worker looks for the start, once all have come.
const OPENING_LOOKS: u64 = 20_000;

/// In how many rounds the last worker to come sees the others look before a short phase starts, in how many at most it lets
/// them look, for how many pauses of the processor each time, and for how many microseconds it sleeps where they can't look
/// beside it.
const ROUNDS: u64 = 3;

const MOST_ROUNDS: u64 = 32;

const ROUND_PAUSES: u64 = 200;

const NAP_US: u64 = 20;

/// An odd number, by which the chance of one round is multiplied before that of the next comes to it.
const SPREAD: u64 = 6_364_136_223_846_793_005;

/// How many pauses of the processor come before other threads run: else all looks would be over soon where no other thread
/// wants the processor.
const PAUSES: u64 = 100;

/// Lets a short while pass between two looks, in which other threads run where there were `spins` in a row.
fn pause(looks: u64, spins: u64) {
    if looks < spins {
        spin_loop();
        return;
    }
    for _ in 0..PAUSES {
        spin_loop();
    }
    yield_now();
}

/// Whether the workers may begin: all have come, or one has given up the start line.
const ALL_CAME: u64 = 1;

const GIVEN_UP: u64 = 2;

/// The bit of a worker.
fn bit(worker: u64) -> u64 {
    1 << (worker % 64)
}

// Whoever begins a record says who begins the next one, and both go on beside each other. So records begin in an order that
// no scheduler of the host chooses, and a read can still fall into another's publishing. Where it is the turn of one that is
// at a record the others wait for it too: the first record of a new thread takes as long as some twenty later ones. No wait
// is without an end: a thread may not be run for long, or be held by the gate.
//
// Looks alone are no chance where the host runs the threads on one processor, as an idle one may: they change there at the
// same looks in each run. How often others look while one sleeps by the host's timer differs even so. On processors of their
// own it differs without a sleep, which takes longer than a thread does to start.
//
// On a loaded host a thread that lets others run is away for milliseconds, and one that sleeps is run soon after it is woken.
// So who waits at the start line sleeps, and is woken by the last one to come: both look at once then. A processor whose
// thread sleeps also takes over a thread that waits for another processor, as a new one may.
/// A start line, where a worker waits until all have come, so that none is at its end before another begins; and turns.
#[derive(Drop)]
pub struct Schedule {
    workers: u64,
    there: AtomicU64,
    /// Not 0 once the workers may begin. Those at the start line sleep on it.
    started: AtomicU64,
    /// The worker that begins the next record.
    turn: AtomicU64,
    /// A bit for each worker that takes turns.
    taking: AtomicU64,
    /// How often all workers have looked for others, which differs from run to run.
    looks: AtomicU64,
    /// What the looks of each round before the start make together.
    seed: AtomicU64,
}

impl Schedule {
    /// A start line for so many workers, numbered from 0. None takes turns.
    pub fn new(workers: u64) -> Schedule {
        Schedule {
            workers,
            there: AtomicU64::new(0),
            started: AtomicU64::new(0),
            turn: AtomicU64::new(0),
            taking: AtomicU64::new(0),
            looks: AtomicU64::new(0),
            seed: AtomicU64::new(0),
        }
    }

    /// How many workers there are.
    pub fn workers(&self) -> u64 {
        self.workers
    }

    /// How many workers have come to the start line so far.
    pub fn arrived(&self) -> u64 {
        self.there.load(Ordering::SeqCst)
    }

    /// Whether a worker has given up the start line, where the others took long to come: the records then begin all the same.
    pub fn has_given_up(&self) -> bool {
        self.started.load(Ordering::SeqCst) & GIVEN_UP != 0
    }

    /// The worker whose turn it is.
    pub fn turn(&self) -> u64 {
        self.turn.load(Ordering::SeqCst)
    }

    /// A number that differs from run to run: each look that a worker makes counts in it.
    pub fn chance(&self) -> u64 {
        let seed = self.seed.load(Ordering::SeqCst);
        seed.wrapping_add(self.looks.load(Ordering::SeqCst))
    }

    /// A worker comes to the start line, and waits a bounded number of looks for the others. The last one to come wakes them,
    /// and lets all begin: where the phase is short, after a few rounds of looks.
    pub fn start<R: Wait>(&self, rt: &R, is_short: bool) {
        let others = self.there.fetch_add(1, Ordering::SeqCst);
        if others.saturating_add(1) < self.workers {
            self.wait_for_others(rt);
            return;
        }
        if others > 0 {
            self.started.wake_all();
            if is_short {
                self.meet_others(rt);
            }
        }
        self.started.fetch_or(ALL_CAME, Ordering::SeqCst);
    }

    /// Lets the others look until they were seen in enough rounds, or one has given up the start line.
    fn meet_others<R: Wait>(&self, rt: &R) {
        let mut seen = 0u64;
        for _ in 0..MOST_ROUNDS {
            if seen >= ROUNDS || self.started.load(Ordering::SeqCst) != 0 {
                return;
            }
            if self.let_others_look(rt) {
                seen = seen.saturating_add(1);
            }
            // A round in which none looked counts too: how many there are differs from run to run.
            let chance = self.chance().wrapping_add(1).wrapping_mul(SPREAD);
            self.seed.store(chance, Ordering::SeqCst);
        }
    }

    /// Lets the others look for a short while. Where none of them runs beside this worker, it sleeps. Whether one has looked.
    fn let_others_look<R: Wait>(&self, rt: &R) -> bool {
        let before = self.looks.load(Ordering::SeqCst);
        for _ in 0..ROUND_PAUSES {
            spin_loop();
        }
        if self.looks.load(Ordering::SeqCst) == before {
            let nap = Duration::from_micros(NAP_US);
            self.started.park_timeout(rt, 0, nap);
        }
        self.looks.load(Ordering::SeqCst) != before
    }

    /// Waits a bounded number of looks for the others to come.
    fn wait_for_others<R: Wait>(&self, rt: &R) {
        for looks in 0..START_LOOKS {
            if self.there.load(Ordering::SeqCst) >= self.workers {
                self.wait_for_start();
                return;
            }
            self.looks.fetch_add(1, Ordering::SeqCst);
            if looks < START_SPINS + START_YIELDS {
                pause(looks, START_SPINS);
            } else {
                let nap = Duration::from_micros(START_NAP_US);
                self.started.park_timeout(rt, 0, nap);
            }
        }
        self.started.fetch_or(GIVEN_UP, Ordering::SeqCst);
    }

    /// Waits a bounded number of looks for the start, when all have come.
    fn wait_for_start(&self) {
        for looks in 0..OPENING_LOOKS {
            if self.started.load(Ordering::SeqCst) != 0 {
                return;
            }
            self.looks.fetch_add(1, Ordering::SeqCst);
            if looks < START_SPINS {
                spin_loop();
            } else {
                yield_now();
            }
        }
    }

    /// A worker takes turns.
    pub fn come(&self, worker: u64) {
        self.taking.fetch_or(bit(worker), Ordering::SeqCst);
    }

    /// A worker takes no more turns.
    pub fn leave(&self, worker: u64) {
        self.taking.fetch_and(!bit(worker), Ordering::SeqCst);
    }

    /// A worker waits a bounded number of looks for its turn: fewer where the one whose turn it is takes none.
    pub fn wait(&self, worker: u64) {
        self.wait_at_most(worker, TURN_SPINS + MOST_YIELDS);
    }

    /// The same with so many looks at most.
    fn wait_at_most(&self, worker: u64, most: u64) {
        for looks in 0..most {
            let turn = self.turn.load(Ordering::SeqCst);
            let takes_none = self.taking.load(Ordering::SeqCst) & bit(turn) == 0;
            if turn == worker || takes_none && looks >= FEW_LOOKS {
                self.looks.fetch_add(looks, Ordering::SeqCst);
                return;
            }
            pause(looks, TURN_SPINS);
        }
        // It isn't waited for so long again, unless it comes.
        self.leave(self.turn.load(Ordering::SeqCst));
    }

    /// A worker begins a record, and it is another's turn, or its own again.
    pub fn begin(&self, next: u64) {
        self.turn.store(next, Ordering::SeqCst);
    }
}
