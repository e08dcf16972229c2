//! The program `bench`: how long calls take, part by part of the code. `bench/` runs it.
#![tactic(auto)]

mod board;
mod pulses;
mod shared;
mod text;

use std::{env, io};

/// How the program is called.
const USAGE: &str = "usage: bench pulses time|rows|ROW
       bench board time|bare|read|hpet|set|config|still|step|ack|tsc|next|unarmed|periodic1|periodic64|deadline1|deadline64|tick|tickdl
       bench shared time|page|reading|access|core|answer|kept [nothing]
       bench text read RECORD | reply NUMBER";

fn main(rt: HostRuntime) -> io::Result<()> {
    let mut words = env::args(&rt)?.skip(1);
    let (Some(part), Some(word)) = (words.next(), words.next()) else {
        return println!(rt; "{USAGE}");
    };
    let more = words.next();
    let word = word.as_bytes();
    match (part.as_str(), more) {
        ("pulses", _) => pulses::run(&rt, word),
        ("board", _) => board::run(&rt, word),
        ("shared", more) => shared::run(&rt, rt.alloc(), word, more.is_some()),
        ("text", Some(of)) => text::run(&rt, rt.alloc(), word, of.as_str()),
        _ => println!(rt; "{USAGE}"),
    }
}
