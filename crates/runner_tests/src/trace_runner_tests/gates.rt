//! The job `race` at a gate: its workers answer readings while another has the lock, and keep no lock of their own for them.

use super::{strings, text_of};
use crate::checks::same;
use board_io::{Gate, MemSink, MemSource, OpenGate};
use std::alloc::{AllocError, Global};
use std::process::Abort;
use std::sync::Wait;
use std::sync::atomic::{AtomicU64, Ordering};
use std::test::Fail;
use std::thread::Threads;
use std::time::Duration;
use trace_runner::{Status, run};

/// How many processors the board has: one is the holder, and the others are readers.
const CPUS: u8 = 3;

const READERS: u64 = 2;

/// How many accesses one reader makes before its readings, under one lock where it has many records.
const ACCESSES: u64 = 2;

/// How many naps of a millisecond a wait takes at most: none at the gate is without an end.
const MOST_NAPS: u64 = 10_000;

/// The lock of the holder's access: it has it, and has given it back.
const HELD: u64 = 1;

const GIVEN_BACK: u64 = 2;

/// The program's own gate, which also makes an access of the holder meet all readings. The access waits until each reader
/// stands before its first reading. There the readers wait until the access has the lock, and it gives the lock back only
/// when all readings were answered. So a wait comes to its limit, and a reading isn't counted, where a worker has a lock
/// before a reading, or takes one in it or before the next.
#[derive(Drop)]
struct Meeting {
    open: OpenGate,
    holder: u8,
    /// How many readings there are.
    readings: u64,
    standing: AtomicU64,
    lock: AtomicU64,
    /// How many readings were answered while the holder had the lock.
    answered: AtomicU64,
    befores: AtomicU64,
    afters: AtomicU64,
    insides: AtomicU64,
}

impl Meeting {
    fn new(holder: u8, readings: u64) -> Meeting {
        Meeting {
            open: OpenGate,
            holder,
            readings,
            standing: AtomicU64::new(0),
            lock: AtomicU64::new(0),
            answered: AtomicU64::new(0),
            befores: AtomicU64::new(0),
            afters: AtomicU64::new(0),
            insides: AtomicU64::new(0),
        }
    }

    /// The place of a reader's first reading among its records.
    fn first_reading(&self, cpu: u8) -> u64 {
        if cpu == first_reader(self.holder) {
            ACCESSES
        } else {
            0
        }
    }
}

/// The reader that makes accesses first, where this is the holder.
fn first_reader(holder: u8) -> u8 {
    if holder == 0 { 1 } else { 0 }
}

/// Waits until a count is there, or the wait comes to its limit.
fn wait<R: Wait>(rt: &R, word: &AtomicU64, least: u64) {
    for _ in 0..MOST_NAPS {
        let count = word.load(Ordering::SeqCst);
        if count >= least {
            return;
        }
        let low = (count & 0xffff_ffff) as u32;
        word.park_timeout(rt, low, Duration::from_millis(1));
    }
}

impl Gate for Meeting {
    fn before<R: Wait>(&self, rt: &R, cpu: u8, index: u64) {
        self.open.before(rt, cpu, index);
        self.befores.fetch_add(1, Ordering::SeqCst);
        if cpu == self.holder {
            wait(rt, &self.standing, READERS);
        } else if index == self.first_reading(cpu) {
            self.standing.fetch_add(1, Ordering::SeqCst);
            wait(rt, &self.lock, HELD);
        }
    }

    fn after<R: Wait>(&self, rt: &R, cpu: u8, index: u64) {
        let is_reading = cpu != self.holder && index >= self.first_reading(cpu);
        if is_reading && self.lock.load(Ordering::SeqCst) == HELD {
            self.answered.fetch_add(1, Ordering::SeqCst);
        }
        self.afters.fetch_add(1, Ordering::SeqCst);
        self.open.after(rt, cpu, index);
    }

    fn inside<R: Wait>(&self, rt: &R, cpu: u8) {
        self.open.inside(rt, cpu);
        self.insides.fetch_add(1, Ordering::SeqCst);
        if cpu == self.holder {
            self.lock.store(HELD, Ordering::SeqCst);
            wait(rt, &self.answered, self.readings);
            self.lock.store(GIVEN_BACK, Ordering::SeqCst);
        }
    }
}

/// A board with the page of each processor enabled, and the reference page where its format has one.
#[derive(Clone, Copy)]
struct Board {
    format: u8,
    /// The record that enables the reference page.
    reference: &'static str,
    /// How many accesses it took, and what its replay prints before the state.
    accesses: u64,
    told: &'static [u8],
}

const BOARDS: [Board; 2] = [
    Board {
        format: 2,
        reference: "",
        accesses: 3,
        told: b"5 1\n6 2\n7 3\n8 clock 9000 9000\nfinal 0 3 9000 -\n",
    },
    Board {
        format: 4,
        reference: "0 0 wrmsr 40000021 1\n",
        accesses: 4,
        told: b"5 1\n6 2\n7 3\n8 4\n9 clock 9000 9000\nfinal 0 4 9000 -\n",
    },
];

/// The header of a trace that opens with a board, in three lines.
fn header<R: Threads + Wait + Sync + Abort + Alloc<A = Global>>(
    rt: &R,
    board: &Board,
) -> Result<Vec<u8>, Fail> {
    let Board {
        format,
        reference,
        ..
    } = board;
    let trace = format!(in rt.alloc();
        "clockboard {format}\nguest 2000000\ncpus {CPUS}\nbegin\n0 0 wrmsr 4b564d01 1\n1 0 wrmsr 4b564d01 1\n2 0 wrmsr 4b564d01 1\n{reference}0 9000 clock 0\nend\n"
    )?;
    let text = text_of(rt, &["replay", "--state"], trace.as_bytes())?;
    let state = text.strip_prefix(board.told).ok_or("the state")?;
    let version = format!(in rt.alloc(); "clockboard {format}\n")?;
    let mut header = Vec::from_slice(rt.alloc(), version.as_bytes())?;
    header.extend_from_slice(state)?;
    header.extend_from_slice(b"begin\n")?;
    Ok(header)
}

/// What readings at a count answer, of any page: the guest has a TSC of 2 GHz, and its pages were enabled at 0.
#[derive(Clone, Copy)]
struct Readings {
    count: u64,
    greatest: u64,
    clock: &'static str,
    page: &'static str,
    reference: &'static str,
}

/// At the first count each clock is the greatest that was read before, at the second it is its reading.
const READINGS: [Readings; 2] = [
    Readings {
        count: 5_000,
        greatest: 9_000,
        clock: "clock 5000 9000",
        page: "page 2 0 0 80000000 0 01 5000",
        reference: "hv 1 92233720368547758 0 49",
    },
    Readings {
        count: 20_000,
        greatest: 20_000,
        clock: "clock 20000 20000",
        page: "page 2 0 0 80000000 0 01 20000",
        reference: "hv 1 92233720368547758 0 199",
    },
];

/// The records of a race, and what it prints.
#[derive(Drop)]
struct Script {
    count: u64,
    line: u64,
    /// How many readings it has.
    readings: u64,
    trace: Vec<u8>,
    text: Vec<u8>,
}

impl Script {
    /// Adds a record, and what it is answered.
    fn add(&mut self, alloc: Global, cpu: u8, what: &str, answer: &str) -> Result<(), AllocError> {
        self.line = self.line.wrapping_add(1);
        let (count, line) = (self.count, self.line);
        let record = format!(in alloc; "{cpu} {count} {what}\n")?;
        self.trace.extend_from_slice(record.as_bytes())?;
        let block = format!(in alloc; "{line} {answer}\n")?;
        self.text.extend_from_slice(block.as_bytes())
    }

    /// Adds an access, which is answered by its number.
    fn add_step(&mut self, alloc: Global, cpu: u8, number: u64) -> Result<(), AllocError> {
        let answer = format!(in alloc; "{number}")?;
        self.add(alloc, cpu, "step", &answer)
    }

    /// Adds a reading of the clock and the words of each page, and of the reference page where the format has one.
    fn add_readings(
        &mut self,
        alloc: Global,
        cpu: u8,
        format: u8,
        readings: &Readings,
    ) -> Result<(), AllocError> {
        for page in 0..CPUS {
            let clock = format!(in alloc; "clock {page}")?;
            self.add(alloc, cpu, &clock, readings.clock)?;
            let words = format!(in alloc; "page {page}")?;
            self.add(alloc, cpu, &words, readings.page)?;
            self.readings = self.readings.wrapping_add(2);
        }
        if format == 4 {
            self.add(alloc, cpu, "hv", readings.reference)?;
            self.readings = self.readings.wrapping_add(1);
        }
        Ok(())
    }
}

/// A race: which processor is the holder, and how often each reader makes the readings.
#[derive(Clone, Copy)]
struct Race<'a> {
    board: &'a Board,
    header: &'a [u8],
    holder: u8,
    readings: &'a Readings,
    rounds: u64,
}

impl Race<'_> {
    /// The first reader's accesses come before the holder's, so there is one order of all accesses.
    fn script(&self, alloc: Global) -> Result<Script, AllocError> {
        let mut script = Script {
            count: self.readings.count,
            line: 3,
            readings: 0,
            trace: Vec::from_slice(alloc, self.header)?,
            text: Vec::new(alloc),
        };
        let number = self.board.accesses.wrapping_add(1);
        let last = number.wrapping_add(ACCESSES);
        for cpu in 0..CPUS {
            if cpu == self.holder {
                script.add_step(alloc, cpu, last)?;
                continue;
            }
            if cpu == first_reader(self.holder) {
                for place in 0..ACCESSES {
                    script.add_step(alloc, cpu, number.wrapping_add(place))?;
                }
            }
            for _ in 0..self.rounds {
                script.add_readings(alloc, cpu, self.board.format, self.readings)?;
            }
        }
        script.trace.extend_from_slice(b"end\n")?;
        let Readings {
            count,
            greatest,
            ..
        } = self.readings;
        let end = format!(in alloc; "final {count} {last} {greatest} -\n")?;
        script.text.extend_from_slice(end.as_bytes())?;
        Ok(script)
    }
}

/// Runs a race at the gate of a meeting. All its readings are answered while the holder has the lock. Each record goes
/// through the gate once, and each access, but no reading, is there once with the lock.
fn expect_met<R: Threads + Wait + Sync + Abort + Alloc<A = Global>>(
    rt: &R,
    race: &Race,
) -> Result<(), AllocError> {
    let alloc = rt.alloc();
    let script = race.script(alloc)?;
    let readings = script.readings;
    let gate = Meeting::new(race.holder, readings);
    let words = strings(alloc, &["race"])?;
    let mut source = MemSource::new(script.trace, Vec::new(alloc), 4096);
    let mut sink = MemSink::new(alloc, Vec::new(alloc), 4096);
    let status = run(rt, alloc, &words, &mut source, &mut sink, &gate);
    let row = (
        race.board.format,
        race.holder,
        race.readings.count,
        race.rounds,
    );
    same(rt, row, status, Status::Ok);
    let records = readings.wrapping_add(ACCESSES + 1);
    for (name, word, wanted) in [
        ("answered", &gate.answered, readings),
        ("before", &gate.befores, records),
        ("after", &gate.afters, records),
        ("inside", &gate.insides, ACCESSES + 1),
    ] {
        same(rt, (row, name), word.load(Ordering::SeqCst), wanted);
    }
    same(rt, row, sink.bytes(), script.text.as_slice());
    Ok(())
}

/// How often each reader makes its readings: so often that its last records alone are answered in turns, and so often that
/// the first ones are answered together with the accesses before them.
const ROUNDS: [u64; 2] = [12, 200];

#[test]
fn readings_are_answered_while_another_has_the_lock(rt: HostRuntime) -> Result<(), Fail> {
    for board in &BOARDS {
        let header = header(&rt, board)?;
        for holder in 0..CPUS {
            for (readings, rounds) in READINGS.iter().zip(ROUNDS) {
                let race = Race {
                    board,
                    header: &header,
                    holder,
                    readings,
                    rounds,
                };
                expect_met(&rt, &race)?;
            }
        }
    }
    Ok(())
}
