//! How many accesses a second a board takes.
//!
//! With the word `time` this prints a line for each kind of access, on a board with all devices running: counter 0 of the
//! 8254 in mode 2, the periodic ticks of the MC146818, and a periodic timer of the HPET. The rows of APIC timers have a
//! board of format 3 with 64 processors, the others one of format 1. With the word of a row it makes those accesses
//! alone, for a program that counts instructions.
use crate::USAGE;
use board_core::{
    Access, BoardState, MSR_APIC_DIVIDE, MSR_APIC_INITIAL, MSR_APIC_LVT, MSR_TSC_DEADLINE, Reply,
    Setup, Value,
};
use host_counter::Anchor;
use rtc_calendar::TimeBytes;
use std::io;
use std::rt::Clock;
use std::time::Instant;
use tick_policy::Policy;

/// How many accesses are timed.
const CALLS: u32 = 200_000;

/// Nanoseconds in a second.
const SECOND: u128 = 1_000_000_000;

/// A Saturday at midnight, in BCD.
const MIDNIGHT: TimeBytes = TimeBytes {
    sec: 0,
    min: 0,
    hour: 0,
    wday: 7,
    date: 1,
    month: 1,
    year: 0,
};

/// What is asked of a board.
#[derive(Clone, Copy)]
enum Asked {
    /// No access is made, but all else that is done for one.
    Nothing,
    /// An access of processor 0.
    Access(Access),
    /// The next tick of the timer of processor 0.
    Tick,
}

/// The timers of local APICs that are armed.
#[derive(Clone, Copy)]
enum Armed {
    /// The board has none.
    Absent,
    /// The first so many are periodic, with a period of a millisecond.
    Periodic(u8),
    /// The first so many have deadlines that are never reached.
    Deadline(u8),
}

/// What is asked again and again, each a number of nanoseconds after the last.
#[derive(Clone, Copy)]
struct Row {
    /// The word that asks for this row alone.
    word: &'static str,
    /// What the table calls it.
    name: &'static str,
    asked: Asked,
    gap: u64,
    armed: Armed,
}

/// A row of accesses to a board of format 1.
fn make_row(word: &'static str, name: &'static str, access: Access, gap: u64) -> Row {
    Row {
        word,
        name,
        asked: Asked::Access(access),
        gap,
        armed: Armed::Absent,
    }
}

/// The row in which nothing is asked: what of the others is not the board's.
fn bare_row() -> Row {
    Row {
        word: "bare",
        name: "nothing asked",
        asked: Asked::Nothing,
        gap: 0,
        armed: Armed::Absent,
    }
}

/// A row of steps of 700 ns with timers of local APICs.
fn timer_row(word: &'static str, name: &'static str, armed: Armed) -> Row {
    Row {
        word,
        name,
        asked: Asked::Access(Access::Step),
        gap: 700,
        armed,
    }
}

/// A row that asks for the next tick.
fn tick_row(word: &'static str, name: &'static str, armed: Armed) -> Row {
    Row {
        word,
        name,
        asked: Asked::Tick,
        gap: 0,
        armed,
    }
}

/// A write of 8 bytes to the HPET.
fn hpet_write(offset: u16, value: u64) -> Access {
    Access::HpetWrite {
        offset,
        width: 8,
        value,
    }
}

/// All rows of the table.
fn rows() -> [Row; 17] {
    let counter = Access::HpetRead {
        offset: 0xf0,
        width: 8,
    };
    [
        bare_row(),
        make_row(
            "read",
            "port 40h, no time",
            Access::PortIn { port: 0x40 },
            0,
        ),
        make_row("hpet", "HPET main counter, no time", counter, 0),
        make_row(
            "set",
            "HPET comparator set, no time",
            hpet_write(0x128, 100),
            0,
        ),
        make_row(
            "config",
            "HPET timer configured, no time",
            hpet_write(0x120, 0x2a40),
            0,
        ),
        make_row("still", "step of no time", Access::Step, 0),
        make_row("step", "step of 700 ns", Access::Step, 700),
        make_row(
            "ack",
            "acknowledgement, ticks waiting",
            Access::Ack { line: 0 },
            0,
        ),
        make_row("tsc", "TSC", Access::MsrRead { msr: 0x10 }, 0),
        make_row("next", "next edge", Access::Next, 0),
        timer_row("unarmed", "step, no APIC timer armed", Armed::Periodic(0)),
        timer_row("periodic1", "step, 1 periodic", Armed::Periodic(1)),
        timer_row("periodic64", "step, 64 periodic", Armed::Periodic(64)),
        timer_row("deadline1", "step, 1 deadline", Armed::Deadline(1)),
        timer_row("deadline64", "step, 64 deadlines", Armed::Deadline(64)),
        tick_row("tick", "next tick, periodic", Armed::Periodic(1)),
        tick_row("tickdl", "next tick, deadline", Armed::Deadline(1)),
    ]
}

/// Prints the table, or what the accesses of the row of this word are told.
pub(crate) fn run(rt: &(impl Print + Clock), word: &[u8]) -> io::Result<()> {
    if word == b"time".as_slice() {
        print_table(rt)
    } else {
        run_alone(rt, word)
    }
}

/// Times each row.
fn print_table(rt: &(impl Print + Clock)) -> io::Result<()> {
    println!(rt; "an access                        nanoseconds    accesses a second")?;
    let mut told = 0u64;
    for row in rows() {
        told = told.wrapping_add(print_row(rt, row)?);
    }
    // what was told is used, so that nothing of an access can be left out
    println!(rt; "told: {told}")
}

/// Asks the row of this word alone, for a program that counts instructions.
fn run_alone(rt: &impl Print, word: &[u8]) -> io::Result<()> {
    for row in rows() {
        if row.word.as_bytes() == word {
            let told = many(&mut running(row.armed), row);
            return println!(rt; "told: {told}");
        }
    }
    println!(rt; "{USAGE}")
}

/// Times a row. Returns the sum of what was told.
fn print_row(rt: &(impl Print + Clock), row: Row) -> io::Result<u64> {
    let mut board = running(row.armed);
    let start = Instant::now(rt)?;
    let told = many(&mut board, row);
    let nanoseconds = start.elapsed(rt)?.as_nanos();
    println!(rt;
        "{:<32}{:>12}{:>21}",
        row.name,
        nanoseconds / u128::from(CALLS),
        u128::from(CALLS) * SECOND / nanoseconds.max(1)
    )?;
    Ok(told)
}

/// Asks many times. Returns the sum of what was answered.
fn many(board: &mut BoardState, row: Row) -> u64 {
    match row.asked {
        Asked::Nothing => many_bare(board, Access::PortIn { port: 0x40 }),
        Asked::Access(access) => many_accesses(board, access, row.gap),
        Asked::Tick => many_ticks(board),
    }
}

/// Makes many accesses, with one reply for all. Returns the sum of what was answered.
fn many_accesses(board: &mut BoardState, access: Access, gap: u64) -> u64 {
    let mut reply = Reply::empty();
    let mut told = 0u64;
    let mut h = board.now();
    for _ in 0..CALLS {
        h = h.wrapping_add(gap);
        told = told.wrapping_add(ask(board, 0, h, access, &mut reply));
    }
    told
}

/// Asks many times for the next tick. Returns the sum of what was answered.
fn many_ticks(board: &BoardState) -> u64 {
    let mut told = 0u64;
    for _ in 0..CALLS {
        if board.cpus() > 0 {
            told = told.wrapping_add(board.next_tick(0).unwrap_or(0));
        }
    }
    told
}

/// One access of a processor, where it is legal. Returns what was read, and how many edges it brought, as one number.
fn ask(board: &mut BoardState, cpu: u8, h: u64, access: Access, reply: &mut Reply) -> u64 {
    if cpu >= board.cpus() || !access.legal(board.cpus(), board.format()) {
        return 0;
    }
    reply.clear();
    match board.answer(cpu, h, access, reply) {
        Ok(()) => number_of(reply.value).wrapping_add(reply.edges.len() as u64),
        Err(_) => 0,
    }
}

/// Does for many accesses all that is done but the access itself.
fn many_bare(board: &mut BoardState, access: Access) -> u64 {
    let mut reply = Reply::empty();
    let mut told = 0u64;
    for h in 0..u64::from(CALLS) {
        told = told.wrapping_add(ask_nothing(board, 0, h, access, &mut reply));
    }
    told
}

/// What `ask` does but the access itself.
#[inline(never)]
fn ask_nothing(board: &mut BoardState, cpu: u8, h: u64, access: Access, reply: &mut Reply) -> u64 {
    if cpu >= board.cpus() || !access.legal(board.cpus(), board.format()) {
        return 0;
    }
    reply.clear();
    let value = Value::Word { width: 8, value: h };
    number_of(value).wrapping_add(reply.edges.len() as u64)
}

/// A value as one number.
fn number_of(value: Value) -> u64 {
    match value {
        Value::Byte(byte) => u64::from(byte),
        Value::Word { value, .. } => value,
        Value::Counts(counts) => counts.due,
        Value::Wall { version, .. } => u64::from(version),
        Value::Next(Some(at)) => at,
        Value::Nothing | Value::Next(None) => 0,
    }
}

/// A board with all devices running, and these timers of local APICs.
fn running(armed: Armed) -> BoardState {
    let (format, cpus) = match armed {
        Armed::Absent => (1, 1),
        _ => (3, 64),
    };
    let mut board = BoardState::power_on(&Setup {
        format,
        anchor: Anchor {
            khz: 1_000_000,
            start: 0,
            base_ns: 0,
        },
        guest_khz: 1_000_000,
        cpus,
        pit: Policy::Delay,
        rtc: Policy::Delay,
        hpet: Policy::Delay,
        slew_ns: 1_000_000,
        wall_sec: 0,
        wall_nsec: 0,
        time: MIDNIGHT,
    });
    let mut reply = Reply::empty();
    start_devices(&mut board, &mut reply);
    match armed {
        Armed::Absent => {}
        Armed::Periodic(count) => {
            arm(
                &mut board,
                count,
                0x2_0030,
                MSR_APIC_INITIAL,
                1_000_000,
                &mut reply,
            );
        }
        Armed::Deadline(count) => {
            arm(
                &mut board,
                count,
                0x4_0030,
                MSR_TSC_DEADLINE,
                1 << 40,
                &mut reply,
            );
        }
    }
    ask(&mut board, 0, 5_000, Access::Step, &mut reply);
    board
}

/// Starts the 8254, the MC146818's periodic ticks and a timer of the HPET.
fn start_devices(board: &mut BoardState, reply: &mut Reply) {
    for (port, byte) in [
        (0x43, 0x34),
        (0x40, 4),
        (0x40, 0),
        (0x70, 0x0b),
        (0x71, 0x42),
    ] {
        ask(board, 0, 0, Access::PortOut { port, byte }, reply);
    }
    for (offset, value) in [(0x100, 0x284c), (0x108, 100), (0x10, 1)] {
        ask(board, 0, 0, hpet_write(offset, value), reply);
    }
}

/// Arms the timers of the first processors: a divisor of 1, the LVT, and then the count or the deadline.
fn arm(board: &mut BoardState, count: u8, lvt: u64, msr: u32, value: u64, reply: &mut Reply) {
    for cpu in 0..count {
        for (msr, value) in [(MSR_APIC_DIVIDE, 0xb), (MSR_APIC_LVT, lvt), (msr, value)] {
            ask(board, cpu, 0, Access::MsrWrite { msr, value }, reply);
        }
    }
}
