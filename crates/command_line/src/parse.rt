//! Words to commands.
ghost use Rattle.std.specs.Prelude.{
  ◌≡◌,
  ◌≢◌,
  map,
  false,
  codes,
  IfOk,
  OnOk,
  OnErr,
  option_map,
  option_and_then,
};
ghost use Rattle.std.specs.Option.{option_map_or};
ghost use Rattle.std.specs.String.{string_bytes};
ghost use Rattle.std.specs.Str.{bytes_eq};
ghost use Rattle.clap.specs.Words.{app_of, found_of, rows_of, rule_of, first_of};
ghost use Rattle.command_line.specs.Command.{
  app,
  number_rule,
  number_of,
  number_in,
  is_used,
  command_of,
  refused_for,
  asked_for,
  trace_job,
  in_range,
  size_of,
  HasSize,
  page_named,
  page_of,
};

use crate::command::{Command, Named, Page, Size};
use clap::builder::ValueParser;
use clap::error::ErrorKind;
use clap::{Arg, ArgAction, ArgMatches};
use clk_units::NoMemory;
use std::alloc::{AllocError, Global};
use trace_gen::{CPUS_MAX, RECORDS_MAX};

/// What these words ask for, those after the program's name. They are read as clap reads them; a list that it refuses
/// asks for nothing that is known, but where the cause is `--help` or `--version`.
#[tactic(auto, unfolding(crate::specs::Command::command_of))]
pub fn command_of(alloc: Global, words: &[String]) -> Result<Command, NoMemory>
    ensures command { IfOk result (λ c. c ≡ command_of (map string_bytes words.now)) }
    ensures size { IfOk result (λ c. HasSize c) }
{
    let command = match line(alloc) {
        Ok(command) => command,
        Err(AllocError) => return Err(NoMemory),
    };
    match command.try_get_matches_from(words) {
        Ok(matches) => Ok(asked_for(named(&matches))),
        Err(error) => refused_for(words, error.kind()),
    }
}

/// The command line, as clap sees it.
fn line<'a>(alloc: Global) -> Result<clap::Command<'a>, AllocError>
    ensures { IfOk result (λ c. app_of c ≡ app) }
{
    clap::Command::new(alloc, "clockboard")
        .no_binary_name(true)
        .version("")
        .arg(Arg::new(alloc, "job").required(true))?
        .arg(number_arg(alloc, "key", 0, u64::MAX))?
        .arg(number_arg(alloc, "records", 0, RECORDS_MAX))?
        .arg(number_arg(alloc, "cpus", 1, CPUS_MAX as u64))?
        .arg(
            Arg::new(alloc, "state")
                .long("state")
                .action(ArgAction::SetTrue),
        )
}

/// A positional of a number in a range.
fn number_arg<'a>(alloc: Global, id: &'a str, least: u64, most: u64) -> Arg<'a>
    ensures rule { rule_of result ≡ number_rule id.entry.now least most }
    ensures local { result.global ≡ false }
{
    Arg::new(alloc, id).value_parser(ValueParser::Unsigned(least, most))
}

/// What the matches of a parse name.
fn named<'a>(matches: &'a ArgMatches<'_>) -> Named<'a>
    ensures job { option_map (λ s. s.now) result.job
        ≡ first_of (codes "job") (rows_of (found_of matches.now)) }
    ensures key { result.key ≡ number_in (codes "key") (rows_of (found_of matches.now)) }
    ensures records { result.records
        ≡ number_in (codes "records") (rows_of (found_of matches.now)) }
    ensures cpus { result.cpus ≡ number_in (codes "cpus") (rows_of (found_of matches.now)) }
    ensures state { result.shows_state
        ≡ is_used (codes "state") (rows_of (found_of matches.now)) }
{
    Named {
        job: matches.get_str("job"),
        key: number(matches.get_str("key")),
        records: number(matches.get_str("records")),
        cpus: number(matches.get_str("cpus")),
        shows_state: is_true(matches.get_str("state")),
    }
}

/// A number, maybe after a plus.
fn number(text: Option<&str>) -> Option<u64>
    ensures { result ≡ option_and_then number_of (option_map (λ s. s.now) text.entry) }
{
    match text {
        Some(text) => number_of(text),
        None => None,
    }
}

/// The number that a text writes, if it does.
fn number_of(text: &str) -> Option<u64>
    ensures { result ≡ number_of text.now }
{
    text.parse::<u64>().ok()
}

/// Whether a flag was used, by its value.
fn is_true(text: Option<&str>) -> bool
    ensures { result ≡ option_map_or (λ t. bytes_eq t (codes "true"))
        (option_map (λ s. s.now) text.entry) false }
{
    match text {
        Some(text) => text == "true",
        None => false,
    }
}

/// What is asked for by what was named.
fn asked_for(named: Named) -> Command
    ensures { result ≡ asked_for (option_map (λ s. s.now) named.entry.job)
        named.entry.key named.entry.records named.entry.cpus named.entry.shows_state }
{
    match named.job {
        Some("replay") => trace_job(
            Command::Replay {
                shows_state: named.shows_state,
            },
            &named,
        ),
        Some("race") => trace_job(
            Command::Race {
                shows_state: named.shows_state,
            },
            &named,
        ),
        Some("gen") => match size_of(&named) {
            Some(size) => Command::Gen(size),
            None => Command::Unknown,
        },
        Some("soak") => match size_of(&named) {
            Some(size) => Command::Soak(size),
            None => Command::Unknown,
        },
        _ => Command::Unknown,
    }
}

/// A job over a trace, where no number stands.
fn trace_job(command: Command, named: &Named) -> Command
    ensures { result ≡ trace_job command named.now.key named.now.records named.now.cpus }
{
    match (named.key, named.records, named.cpus) {
        (None, None, None) => command,
        _ => Command::Unknown,
    }
}

/// The size of a generated trace, where all three numbers stand and the flag doesn't.
fn size_of(named: &Named) -> Option<Size>
    ensures { result
        ≡ size_of named.now.key named.now.records named.now.cpus named.now.shows_state }
{
    match (named.key, named.records, named.cpus, named.shows_state) {
        (Some(key), Some(records), Some(cpus), false) if in_range(records, cpus) => {
            Some(Size { key, records, cpus })
        }
        _ => None,
    }
}

/// Whether a trace may have so many records and processors. Clap has refused other words by then.
fn in_range(records: u64, cpus: u64) -> bool
    ensures { result ≡ in_range records cpus }
{
    records <= RECORDS_MAX && 0 < cpus && cpus <= u64::from(CPUS_MAX)
}

/// What is asked for by words that clap refuses.
fn refused_for(words: &[String], kind: ErrorKind) -> Result<Command, NoMemory>
    ensures command { IfOk result (λ c. c ≡ refused_for (map string_bytes words.now) kind) }
    ensures memory { OnOk result (kind ≢ ErrorKind.OutOfMemory) }
    ensures want { OnErr result (kind ≡ ErrorKind.OutOfMemory) }
{
    match kind {
        ErrorKind::OutOfMemory => Err(NoMemory),
        ErrorKind::DisplayHelp => Ok(Command::Help(page_of(words))),
        ErrorKind::DisplayVersion => Ok(Command::Version),
        _ => Ok(Command::Unknown),
    }
}

/// The page of the help that words ask for.
fn page_of(words: &[String]) -> Page
    ensures { result ≡ page_of (map string_bytes words.now) }
{
    match words.first() {
        Some(name) => page_named(name.as_str()),
        None => Page::Overview,
    }
}

/// The page of a job.
fn page_named(name: &str) -> Page
    ensures { result ≡ page_named name.now }
{
    match name {
        "replay" => Page::OfReplay,
        "race" => Page::OfRace,
        "gen" => Page::OfGen,
        "soak" => Page::OfSoak,
        _ => Page::Overview,
    }
}
