//! Reads one record, or writes one reply's line, 200,000 times, for counts of instructions.
//!
//! `read RECORD` reads that record, `reply NUMBER` writes the line of a byte that was read, by accesses from that number
//! on. Both come from the program's words, so that the compiler knows nothing of them. `bench/text` divides what
//! callgrind counts.
ghost use Rattle.std.specs.Prelude.{◌<◌, ◌≤◌, ◌^◌};
ghost use Rattle.trace_text.specs.Lines.{IsOpen};

use board_types::Value;
use reply_text::value_line;
use std::alloc::Global;
use std::io;
use trace_text::{Item, Job, Reading, Record};

/// How often a line is read or written.
const TIMES: u32 = 200_000;

/// Prints a sum over what the lines gave that were read or written.
pub(crate) fn run(rt: &impl Print, alloc: Global, what: &[u8], of: &str) -> io::Result<()> {
    let sum = if what == b"read".as_slice() {
        read(of.as_bytes())
    } else {
        reply(alloc, of.parse::<u64>().unwrap_or(0))
    };
    // the sum is used, so that no line can be left out
    println!(rt; "{sum}")
}

/// Reads a record many times.
fn read(line: &[u8]) -> u64 {
    let mut reading = Reading::new();
    match &reading.take_line(b"clockboard 1") {
        Ok(Item::Part) => {}
        _ => return 1,
    }
    match &reading.take_line(b"begin") {
        Ok(Item::Begun(_)) => {}
        _ => return 2,
    }
    read_many(reading, line)
}

fn read_many(mut reading: Reading, line: &[u8]) -> u64
    requires open { IsOpen reading.stage }
    requires few { reading.lines ≤ 10 }
{
    let mut sum = 0u64;
    let mut record = Record {
        cpu: 0,
        h: 0,
        job: Job::Save,
    };
    for i in 0..TIMES {
        if !reading.read_record(line, &mut record) {
            return 3;
        }
        sum = sum.wrapping_add(record.h ^ u64::from(i));
    }
    sum
}

/// Writes a reply's line many times, by accesses from a number on.
fn reply(alloc: Global, first: u64) -> u64 {
    let mut out = Vec::new(alloc);
    let mut sum = 0u64;
    for i in 0..TIMES {
        out.clear();
        let number = first.wrapping_add(u64::from(i % 512));
        let value = Value::Byte((i % 256) as u8);
        if value_line(number, number, &value, &mut out).is_err() {
            return 4;
        }
        sum = sum.wrapping_add(out.len() as u64);
    }
    sum
}
