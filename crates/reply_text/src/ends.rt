//! How a trace ended.
ghost use Rattle.std.specs.Prelude.{
  ◌≡◌,
  ◌+◌,
  ◌<◌,
  ◌≤◌,
  ◌++◌,
  [],
  ◌∷◌,
  length,
  ◌||◌,
  if◌then◌else◌,
  decimal,
  OnOk,
  OnErr,
  vec_len,
  vec_capacity,
};
ghost use Rattle.std.specs.List.{items_where_true};
ghost use Rattle.irq_edges.specs.Lines.{line_numbers};
ghost use Rattle.reply_text.specs.declared.tail.TheConstants.{LONGEST};
ghost use Rattle.reply_text.specs.Words.{spaced};
ghost use Rattle.reply_text.specs.Text.{
  final_text,
  refused_text,
  reason_words,
  up_word,
};

use crate::tail::Tail;
use clk_units::NoMemory;
use irq_edges::{LINE_NUMBERS, Lines};

/// Why a line of a trace is invalid.
#[derive(Clone, Copy, Debug, PartialEq, Eq)]
pub enum Reason {
    /// It fits no form at its place.
    Form,
    /// It asks for steal time, whose MSR isn't kept.
    Steal,
    /// It names a processor that isn't there.
    Cpu,
    /// Its counter lies below the one before of the same processor, which is given.
    CounterFell { before: u64 },
    /// Its bytes are no saved state; the place of the fault is given.
    StateBytes { place: u64 },
    /// It is longer than a line may be.
    TooLong,
    /// There are more records than fit. A reader never gives this reason; it is a runner's.
    TooMany,
    /// The input ends before the line `end`.
    NoEnd,
}

/// Why a line of a trace is refused.
#[derive(Clone, Copy, Debug, PartialEq, Eq)]
pub enum Refused {
    /// It is invalid.
    Invalid(Reason),
    /// Its time, which is given in nanoseconds, is 2^59 or more.
    Range { ns: u128 },
    /// It would publish a page, or the wall clock's words, whose version is the last one, which is given.
    Versions { version: u64 },
    /// There were 2^62 accesses, which is the number that is given.
    Spent { number: u64 },
}

/// The line that ends a trace: the time, the number of accesses, the greatest clock reading, and which lines are up.
#[tactic(auto, unfolding(crate::specs::Text::final_text))]
pub fn final_line(
    time: u64,
    accesses: u64,
    greatest: u64,
    lines: Lines,
    out: &mut Vec<u8>,
) -> Result<(), NoMemory>
    ensures ok { OnOk result (out.new.items
        ≡ out.old.items ++ final_text time accesses greatest lines) }
    ensures err { OnErr result (out.new.items ≡ out.old.items) }
    ensures full { OnErr result (vec_capacity out.old
        < vec_len out.old + length (final_text time accesses greatest lines)) }
{
    let mut tail = up_tail(&lines.levels);
    tail.number(greatest);
    tail.number(accesses);
    tail.number(time);
    tail.text(b"final");
    tail.append_to(out)
}

/// The end of that line, from the lines that are up on.
fn up_tail(levels: &[bool; 6]) -> Tail
    ensures value { result ≡ spaced (up_word (items_where_true levels.now line_numbers) ∷ []) }
    ensures short { length result ≤ 27 }
{
    let mut tail = Tail::new();
    let mut found = false;
    for place in (0..6).rev() {
        found = put_line(&mut tail, found, LINE_NUMBERS[place], levels[place]);
    }
    if !found {
        tail.byte(b'-');
    }
    tail.byte(b' ');
    tail
}

/// A line's number in front of those found, if it is up; whether one is found now.
fn put_line(tail: &mut Tail, found: bool, line: u8, up: bool) -> bool
    requires { length tail.old + 4 ≤ LONGEST }
    ensures value { tail.new
        ≡ (if up then decimal line ++ (if found then 44 ∷ tail.old else tail.old) else tail.old) }
    ensures found { result ≡ (up || found) }
    ensures len { length tail.new ≤ length tail.old + 4 }
{
    if !up {
        return found;
    }
    if found {
        tail.byte(b',');
    }
    tail.small(line);
    true
}

/// The line of a refusal: the line of the trace, and the reason.
#[tactic(auto, unfolding(crate::specs::Text::refused_text))]
pub fn refused_line(line: u64, why: Refused, out: &mut Vec<u8>) -> Result<(), NoMemory>
    ensures ok { OnOk result (out.new.items ≡ out.old.items ++ refused_text line why) }
    ensures err { OnErr result (out.new.items ≡ out.old.items) }
    ensures full { OnErr result (vec_capacity out.old
        < vec_len out.old + length (refused_text line why)) }
{
    let mut tail = reason_tail(why);
    tail.number(line);
    tail.text(b"refused");
    tail.append_to(out)
}

/// The end of that line, from the reason on.
fn reason_tail(why: Refused) -> Tail
    ensures value { result ≡ spaced (reason_words why) }
    ensures short { length result ≤ 60 }
{
    let mut tail = Tail::new();
    match why {
        Refused::Invalid(Reason::Form) => tail.word(b"form"),
        Refused::Invalid(Reason::Steal) => tail.word(b"steal"),
        Refused::Invalid(Reason::Cpu) => tail.word(b"cpu"),
        Refused::Invalid(Reason::CounterFell { before }) => {
            tail.number(before);
            tail.word(b"fell");
        }
        Refused::Invalid(Reason::StateBytes { place }) => {
            tail.number(place);
            tail.word(b"state");
        }
        Refused::Invalid(Reason::TooLong) => tail.word(b"long"),
        Refused::Invalid(Reason::TooMany) => tail.word(b"many"),
        Refused::Invalid(Reason::NoEnd) => tail.word(b"noend"),
        Refused::Range { ns } => {
            tail.wide(ns);
            tail.word(b"range");
        }
        Refused::Versions { version } => {
            tail.number(version);
            tail.word(b"versions");
        }
        Refused::Spent { number } => {
            tail.number(number);
            tail.word(b"spent");
        }
    }
    tail
}
