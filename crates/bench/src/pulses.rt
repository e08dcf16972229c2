//! How long the devices take to let many pulses pass at once.
//!
//! With the word `time` this prints a line for each device: what a call takes for a short stretch of
//! pulses and for a long one, and how many pulses a second that is. With the word of a row it makes
//! the calls of that row alone, for a program that counts instructions; `rows` prints these words.
mod device;
mod timing;

use crate::USAGE;
use device::{DEVICES, Device, Kind, ROWS};
use std::io;
use std::rt::Clock;
use timing::{sum_of_answers, time_stretch};

/// How many calls a row makes alone.
const CALLS: u32 = 100_000;

/// The pulses of a short stretch.
const FEW: u64 = 1 << 4;

/// The pulses of a long stretch.
const MANY: u64 = 1 << 40;

/// Prints the table, the rows' words, or what the calls of the row of this word answer.
pub(crate) fn run(rt: &(impl Print + Clock), word: &[u8]) -> io::Result<()> {
    if word == b"time".as_slice() {
        print_table(rt)
    } else if word == b"rows".as_slice() {
        print_rows(rt)
    } else {
        run_alone(rt, word)
    }
}

/// Prints the word of each row and how many calls it makes.
fn print_rows(rt: &impl Print) -> io::Result<()> {
    for (word, _, _) in ROWS {
        println!(rt; "{word} {CALLS}")?;
    }
    Ok(())
}

/// Makes the calls of the row of this word alone.
fn run_alone(rt: &impl Print, word: &[u8]) -> io::Result<()> {
    for (name, kind, pulses) in ROWS {
        if name.as_bytes() == word {
            let answers = sum_of_answers(&mut Device::new(kind), pulses, CALLS);
            return println!(rt; "sum of all answers: {answers}");
        }
    }
    println!(rt; "{USAGE}")
}

/// Times each device over both stretches.
fn print_table(rt: &(impl Print + Clock)) -> io::Result<()> {
    println!(rt;
        "pulses at once                      nanoseconds a call                      pulses a second"
    )?;
    println!(rt;
        "                                      2^4     2^40           2^4                    2^40"
    )?;
    let mut answers: u64 = 0;
    for (name, kind) in DEVICES {
        answers = answers.wrapping_add(print_row(rt, name, kind)?);
    }
    // the calls' answers are used, so that no call can be left out
    println!(rt; "sum of all answers: {answers}")
}

/// Times a device over both stretches. Returns the sum of its answers.
fn print_row(rt: &(impl Print + Clock), name: &str, kind: Kind) -> io::Result<u64> {
    let mut device = Device::new(kind);
    let few = time_stretch(rt, &mut device, FEW)?;
    let many = time_stretch(rt, &mut device, MANY)?;
    println!(rt;
        "{name:<32}{:>9}{:>9}{:>14}{:>24}",
        few.nanoseconds_a_call(),
        many.nanoseconds_a_call(),
        few.pulses_a_second(),
        many.pulses_a_second()
    )?;
    Ok(few.answers().wrapping_add(many.answers()))
}
