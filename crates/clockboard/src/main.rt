//! The program `clockboard`: its words and the exit status. [`job::run`] has the contract.
#![tactic(auto)]

mod job;

use job::run;
use std::env;
use std::process::ExitCode;

/// The exit status where the system doesn't give the program's words as text, for whatever cause.
const WORDS_UNKNOWN: u8 = 11;

fn main(rt: HostRuntime) -> ExitCode {
    let Ok(args) = env::args(&rt) else {
        return ExitCode::from(WORDS_UNKNOWN);
    };
    let Ok(words) = args.skip(1).collect::<Vec<String>>(rt.alloc()) else {
        return ExitCode::from(WORDS_UNKNOWN);
    };
    let ran = run(&rt, rt.alloc(), &words, rt.stdin(), rt.stdout());
    ExitCode::from(ran.status.number())
}
