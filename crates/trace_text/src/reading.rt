//! A trace that is read line by line.
ghost use Rattle.std.specs.Prelude.{
  ◌≡◌,
  ◌≢◌,
  ◌+◌,
  ◌^◌,
  ◌<◌,
  ◌≤◌,
  nat_lt,
  false,
  length,
  codes,
  None,
  Ok,
  OnOk,
  IfOk,
};
ghost use Rattle.std.specs.Bool.{OnTrue, OnFalse};
ghost use Rattle.std.specs.Str.{bytes_eq};
ghost use Rattle.trace_text.specs.private.Lines.{IsNoRecord};
ghost use Rattle.trace_text.specs.Lines.{
  at_start,
  IsOpen,
  IsEarly,
  IsStage,
  fault_of,
  taken,
  after_line,
  end_fault,
  IsItem,
  stepped,
  step_of,
  item_in,
  stage_in,
  is_skipped,
  HasTaken,
  HasRead,
};
ghost use Rattle.trace_records.specs.Calls.{asking, reading};
ghost use Rattle.trace_loop.specs.Progress.{limit_of};

use crate::faults::RecordFault;
use crate::front::Front;
use crate::header::{Head, Header, first_line};
use crate::records::Body;
use crate::words::Words;
use reply_text::Reason;
use std::marker::Model;
use trace_loop::{LINE_MAX, limit_of};
use trace_records::{Asked, ClockRead, Record};

/// What a line is.
#[derive(Clone, Copy)]
pub enum Item {
    /// An empty line, or a comment.
    Skipped,
    /// A line of the header before `begin`.
    Part,
    /// `begin`: the header is whole.
    Begun(Header),
    /// A record.
    Next(Record),
    /// `end`.
    End,
}

/// How far a trace was read.
#[derive(Clone, Copy)]
pub enum Stage {
    /// Before the first line.
    Opening,
    /// In the header.
    Heading(Head),
    /// After `begin`.
    Running(Body),
    /// After `end`.
    Ended,
    /// After a line that was refused.
    Refused(RecordFault),
}

/// What a reader knows.
#[derive(Clone, Copy)]
pub struct ReadingParts {
    pub(crate) lines: u64,
    pub(crate) stage: Stage,
}

/// A reader of a trace, which takes its lines one by one.
#[derive(Drop)]
pub struct Reading {
    parts: ReadingParts,
}

impl Model for Reading {
    ghost use Rattle.trace_text.specs.declared.reading.ReadingParts.{ReadingParts};

    ghost Value = { ReadingParts };

    ghost use Rattle.trace_text.specs.Lines.{IsReading};

    ghost view = { λ r. r.parts };

    ghost invariant = { λ r. IsReading r.parts };
}

impl Reading {
    /// A reader before the first line.
    pub fn new() -> Reading
        ensures { result ≡ at_start }
    {
        Reading {
            parts: ReadingParts {
                lines: 0,
                stage: Stage::Opening,
            },
        }
    }

    /// Takes the next line, without its end. A line over the limit that trace_loop's `limit_of` says may be handed in
    /// up to its first byte too many. `end` must not have been taken, and fewer than 2^63 lines. After a fault the same
    /// fault comes again, whatever the line.
    #[inline(never)]
    pub fn take_line(&mut self, line: &[u8]) -> Result<Item, RecordFault>
        requires open { IsOpen self.old.stage }
        requires few { self.old.lines < 2 ^ 63 }
        ensures item { result ≡ taken self.old line.now }
        ensures state { self.new ≡ after_line line.now self.old }
        ensures valid { IfOk result (IsItem self.old.stage) }

        // Another line may follow any but `end`.
        ensures open { result ≢ Ok Item.End → IsOpen self.new.stage }
        ensures count { self.new.lines ≤ self.old.lines + 1 }
    {
        if let Some(fault) = self.parts.stage.fault() {
            return Err(fault);
        }
        self.parts.lines += 1;
        match self.parts.stage.step(line) {
            Ok(item) => Ok(item),
            Err(reason) => {
                let fault = RecordFault {
                    line: self.parts.lines,
                    reason,
                };
                self.parts.stage.refuse(fault);
                Err(fault)
            }
        }
    }

    /// Takes the next line, whose front was read, if it is a record that asks for an access as most do. None for any other,
    /// and for one that is refused: the reader then stays as it was. Nothing of it is in memory.
    #[inline(always)]
    #[tactic(auto, unfolding(crate::specs::Lines::stepped))]
    pub fn take_usual(&mut self, front: &Front<'_>) -> Option<Asked>
        requires { self.old.lines < 2 ^ 63 }
        ensures { HasTaken asking self.old front.now result self.new }
    {
        // This brings the invariant of the front into the proof.
        let _line = front.line();
        let asked = match &mut self.parts.stage {
            Stage::Running(body) => body.take_usual(front)?,
            _ => return None,
        };
        self.parts.lines += 1;
        Some(asked)
    }

    /// The same of a record that reads the clock.
    #[inline(always)]
    #[tactic(auto, unfolding(crate::specs::Lines::stepped))]
    pub fn take_clock(&mut self, front: &Front<'_>) -> Option<ClockRead>
        requires { self.old.lines < 2 ^ 63 }
        ensures { HasTaken reading self.old front.now result self.new }
    {
        // This brings the invariant of the front into the proof.
        let _line = front.line();
        let read = match &mut self.parts.stage {
            Stage::Running(body) => body.take_clock(front)?,
            _ => return None,
        };
        self.parts.lines += 1;
        Some(read)
    }

    /// Takes the next line, whose front was read, as `read_record` does. A usual access has no fast way here, since
    /// `take_usual` comes before.
    #[inline(always)]
    #[tactic(auto, unfolding(crate::specs::Lines::stepped))]
    pub fn read_after(&mut self, front: &Front<'_>, into: &mut Record) -> bool
        requires { self.old.lines < 2 ^ 63 }
        ensures { HasRead self.old front.now result into.new self.new }
    {
        // This brings the invariant of the front into the proof.
        let _line = front.line();
        let is_read = match &mut self.parts.stage {
            Stage::Running(body) => body.read_after(front, into),
            _ => false,
        };
        if is_read {
            self.parts.lines += 1;
        }
        is_read
    }

    /// Takes the next line if it is a record, into one that is there: true where it is. For any other line, and for a
    /// record that is refused, the answer is false and the reader stays as it was: `take_line` then has the answer. After
    /// false the record there has no meaning. It costs less than `take_line`, whose items have room for a whole board.
    #[inline(always)]
    pub fn read_record(&mut self, line: &[u8], into: &mut Record) -> bool
        requires { self.old.lines < 2 ^ 63 }
        ensures { HasRead self.old line.now result into.new self.new }
    {
        let Some(front) = &Front::of(line) else {
            return self.read_apart(line, into);
        };
        if let Some(asked) = self.take_usual(front) {
            *into = asked.record();
            return true;
        }
        self.read_after(front, into)
    }

    /// The same, apart from where it is called, and for a line of any front.
    #[inline(never)]
    #[tactic(auto, unfolding(crate::specs::Lines::stepped))]
    pub fn read_apart(&mut self, line: &[u8], into: &mut Record) -> bool
        requires { self.old.lines < 2 ^ 63 }
        ensures { HasRead self.old line.now result into.new self.new }
    {
        let is_read = match &mut self.parts.stage {
            Stage::Running(body) if may_be_record(line) => body.read(Words::new(line), into),
            _ => false,
        };
        if is_read {
            self.parts.lines += 1;
        }
        is_read
    }

    /// The input ends before `end`: why the trace is refused, at the line after the last one. `end` must not have
    /// been taken, and fewer than 2^63 lines.
    pub fn at_end(&self) -> RecordFault
        requires open { IsOpen self.now.stage }
        requires few { self.now.lines < 2 ^ 63 }
        ensures { result ≡ end_fault self.now }
    {
        match self.parts.stage {
            Stage::Refused(fault) => fault,
            _ => RecordFault {
                line: self.parts.lines + 1,
                reason: Reason::NoEnd,
            },
        }
    }
}

impl Stage {
    /// The fault of a reader that has refused a line.
    #[inline(always)]
    fn fault(&self) -> Option<RecordFault>
        ensures { result ≡ fault_of self.now }
    {
        match *self {
            Stage::Refused(fault) => Some(fault),
            _ => None,
        }
    }

    /// A line is refused.
    #[inline(never)]
    #[cold]
    fn refuse(&mut self, fault: RecordFault)
        ensures { self.new ≡ Stage.Refused fault }
    {
        *self = Stage::Refused(fault);
    }

    /// The trace has ended.
    #[inline(never)]
    #[cold]
    fn end(&mut self)
        ensures { self.new ≡ Stage.Ended }
    {
        *self = Stage::Ended;
    }

    /// What a line is, and the stage after it.
    #[inline(always)]
    #[tactic(auto, unfolding(crate::specs::Lines::stepped))]
    fn step(&mut self, line: &[u8]) -> Result<Item, Reason>
        requires valid { IsStage self.old }
        requires open { IsOpen self.old }
        ensures item { result ≡ item_in (stepped self.old line.now) }
        ensures stage { OnOk result (self.new ≡ stage_in (stepped self.old line.now) self.old) }
        ensures open { IfOk result (λ item. item ≢ Item.End → IsOpen self.new) }
        ensures valid { IfOk result (IsItem self.old) }
        ensures kept { OnOk result (IsStage self.new) }
    {
        if line.len() > limit_of(line) {
            return Err(Reason::TooLong);
        }
        if is_skipped(line) {
            return Ok(Item::Skipped);
        }
        match self {
            Stage::Running(body) => {
                if line == b"end".as_slice() {
                    self.end();
                    return Ok(Item::End);
                }
                let record = body.record(Words::new(line))?;
                Ok(Item::Next(record))
            }
            _ => self.step_in_header(line),
        }
    }

    /// The same before `begin`.
    #[inline(never)]
    #[cold]
    #[tactic(auto, unfolding(crate::specs::Lines::stepped))]
    fn step_in_header(&mut self, line: &[u8]) -> Result<Item, Reason>
        requires valid { IsStage self.old }
        requires early { IsEarly self.old }
        ensures item { result ≡ item_in (step_of self.old line.now) }
        ensures stage { OnOk result (self.new ≡ stage_in (step_of self.old line.now) self.old) }
        ensures open { OnOk result (IsOpen self.new) }
        ensures valid { IfOk result (IsItem self.old) }
        ensures kept { OnOk result (IsStage self.new) }
    {
        match self {
            Stage::Opening => {
                let head = first_line(&mut Words::new(line))?;
                *self = Stage::Heading(head);
                Ok(Item::Part)
            }
            Stage::Heading(head) => {
                if line == b"begin".as_slice() {
                    let header = head.header();
                    *self = Stage::Running(head.body());
                    return Ok(Item::Begun(header));
                }
                head.line(&mut Words::new(line))?;
                Ok(Item::Part)
            }
            Stage::Running(_) | Stage::Ended => Err(Reason::Form),
            Stage::Refused(fault) => Err(fault.reason),
        }
    }
}

/// Whether a line is empty or a comment.
fn is_skipped(line: &[u8]) -> bool
    ensures { result ≡ is_skipped line.now }
{
    match line {
        [] => true,
        [first, ..] => *first == b'#',
    }
}

/// Whether a line is of words, and isn't `end`: it is short, and begins with a digit.
#[inline(always)]
pub(crate) fn may_be_record(line: &[u8]) -> bool
    ensures within { OnTrue result (nat_lt (limit_of line.now) (length line.now) ≡ false) }
    ensures words { OnTrue result (is_skipped line.now ≡ false) }
    ensures record { OnTrue result (bytes_eq line.now (codes "end") ≡ false) }
    ensures cause { OnFalse result (IsNoRecord line.now) }
{
    match line {
        [b'0'..=b'9', ..] => line.len() <= LINE_MAX,
        _ => false,
    }
}
