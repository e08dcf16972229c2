//! The check of a trace: its records are counted in file order, while its processors run.
ghost use Rattle.std.specs.Prelude.{
  ◌≡◌,
  ◌<◌,
  ◌≤◌,
  ◌+◌,
  ◌^◌,
  None,
  Ok,
  IfOk,
  IsErr,
  OnOk,
};
ghost use Rattle.std.specs.Bool.{OnTrue, OnFalse};
ghost use Rattle.trace_text.specs.Lines.{
  taken,
  record_in,
  IsOpen,
  IsItem,
  IsRecordAt,
  end_fault as at_end,
};
ghost use Rattle.trace_records.specs.Calls.{IsFittingCall};
ghost use Rattle.trace_blocks.specs.Ends.{IsEnd, next_board, end_refusal};
ghost use Rattle.trace_blocks.specs.Refusals.{call_refusal, job_refusal};
ghost use Rattle.board_core.specs.Refusals.{meters_of};
ghost use Rattle.trace_replay.specs.Ready.{Suits};
ghost use Rattle.trace_runner.specs.Replayed.{board_after_phases, job_after, on_board};
ghost use Rattle.trace_replay.specs.Replay.{with_header, at_start};
ghost use Rattle.trace_runner.specs.Sound.{IsSound};
ghost use Rattle.trace_runner.specs.Check.{
  with_end,
  end_by,
  kept,
  is_full,
  unchecked,
  trace_of,
  read_on,
};

use crate::counting::{admits, count_call, count_end, job_refusal};
use crate::trace::Trace;
use board_core::{BoardState, Tally};
use clk_units::NoMemory;
use race_phase::{Feed, Feeding, Writer};
use reply_text::Refused;
use std::alloc::Global;
use std::marker::Model;
use trace_blocks::{Deliveries, End, NewHost, Record};
use trace_replay::{deliveries_of, no_routes, opening};
use trace_text::{Begin, Call, Header, Item, Job, Reading, Record as Written, RecordFault};

/// How many records a trace may have whose processors run on threads of their own.
const RECORDS_MAX: u64 = 200_000;

/// A trace that is checked: its records are counted one after the other, in file order, and put into the feed of the
/// processors' threads. Nothing is printed but a refusal.
///
/// Contracts see in it a replay of these records, with the board that they leave. That board isn't there: it is worked
/// out from the records, and its meters say what it refuses.
#[derive(Drop)]
pub(crate) struct Check<'a, F: Feeding> {
    reading: Reading,
    shows_state: bool,
    deliveries: Deliveries,
    /// The meters of the board after the records.
    tally: Tally,
    opening: BoardState,
    /// Puts the phases, and the records after the last of them.
    writer: Writer<'a, F>,
    taken: u64,
}

impl<'a, F: Feeding> Model for Check<'a, F> {
    ghost use Rattle.trace_runner.specs.Checking.{Checking};
    ghost use Rattle.trace_runner.specs.Replayed.{replayed};
    ghost use Rattle.trace_runner.specs.private.Counted.{IsCounted};

    ghost Value = { Checking };

    ghost view = { λ c. record {
      replay = record {
        reading = c.reading;
        shows_state = c.shows_state;
        board = replayed c.opening c.writer.phases c.writer.last;
        deliveries = c.deliveries;
      };
      opening = c.opening;
      phases = c.writer.phases;
      last = c.writer.last;
      taken = c.taken;
    } };

    ghost invariant = { λ c. IsCounted c.opening c.deliveries c.writer c.tally };
}

impl<'a, F: Feeding> Check<'a, F> {
    /// Before the first line of a trace, at whose end the board's state is shown or not.
    #[tactic(auto, unfolding(board_core::specs::Refusals::meters_of))]
    pub(crate) fn new(alloc: Global, feed: &'a Feed<F>, shows_state: bool) -> Check<'a, F>
        ensures { result ≡ unchecked (at_start shows_state) }
    {
        let board = BoardState::power_on(&opening());
        Check {
            reading: Reading::new(),
            shows_state,
            deliveries: no_routes(),
            tally: board.tally(),
            opening: board,
            writer: Writer::new(alloc, feed, board.cpus(), board.format()),
            taken: 0,
        }
    }

    /// Keeps a record of the phase, which is answered, and counts it.
    #[tactic(auto, unfolding(board_core::specs::Refusals::meters_of))]
    #[inline(always)]
    fn push(&mut self, line: u64, given: &Written, call: Call) -> Result<(), NoMemory>
        requires few { self.old.taken < 200000 }
        requires cpu { given.now.cpu < self.old.replay.board.cpus }
        requires fits { IsFittingCall self.old.replay.board.cpus self.old.replay.board.format call }
        requires free { call_refusal (meters_of self.old.replay.board) given.now.cpu given.now.h call
            ≡ None }
        ensures { OnOk result (self.new ≡ kept line given.now (Job.Ask call)
            (on_board (board_after_phases self.old.replay.board given.now.cpu given.now.h call) self.old)) }
    {
        let Ok(()) = self.writer.push(&Record {
            line,
            cpu: given.cpu,
            h: given.h,
            call,
        })
        else {
            return recount(&mut self.tally, &self.opening);
        };
        count_call(&mut self.tally, given.cpu, given.h, &call);
        self.taken += 1;
        Ok(())
    }

    /// Ends the phase by what isn't refused, and counts it.
    #[tactic(auto, unfolding(board_core::specs::Refusals::meters_of))]
    #[inline(never)]
    fn end_phase(&mut self, end: End) -> Result<(), NoMemory>
        requires few { self.old.taken ≤ 200000 }
        requires fits { IsEnd self.old.replay.board.cpus end }
        requires free { end_refusal (meters_of self.old.replay.board) end ≡ None }
        ensures { OnOk result (self.new
            ≡ with_end end (on_board (next_board end self.old.replay.board) self.old)) }
    {
        let Ok(()) = self.writer.end(end) else {
            return recount(&mut self.tally, &self.opening);
        };
        count_end(&mut self.tally, end);
        self.taken += 1;
        Ok(())
    }

    /// Keeps a record that isn't refused: a save and a move end their phase.
    #[inline(always)]
    pub(crate) fn keep(&mut self, line: u64, given: &Written) -> Result<(), NoMemory>
        requires few { self.old.taken < 200000 }
        requires suits { Suits (Item.Next given.now) self.old.replay.board }
        requires free { job_refusal (meters_of self.old.replay.board) given.now.cpu given.now.h
            given.now.job ≡ None }
        ensures { OnOk result (self.new ≡ kept line given.now given.now.job
            (on_board (job_after given.now.cpu given.now.h given.now.job self.old.replay.board)
            self.old)) }
    {
        match given.job {
            Job::Ask(call) => self.push(line, given, call),
            Job::Save => self.keep_end(line, given),
            Job::Move { .. } => self.keep_end(line, given),
        }
    }

    /// Ends the phase by a record that isn't refused.
    #[cold]
    #[inline(never)]
    fn keep_end(&mut self, line: u64, given: &Written) -> Result<(), NoMemory>
        requires few { self.old.taken ≤ 200000 }
        requires fits { IsEnd self.old.replay.board.cpus (end_by line given.now given.now.job) }
        requires free { end_refusal (meters_of self.old.replay.board)
            (end_by line given.now given.now.job) ≡ None }
        ensures { let end = end_by line given.now given.now.job in OnOk result (self.new
            ≡ with_end end (on_board (next_board end self.old.replay.board) self.old)) }
    {
        self.end_phase(end_by(line, given))
    }

    /// Whether a record is one that ends no phase, and isn't refused.
    #[tactic(auto, unfolding(board_core::specs::Refusals::meters_of))]
    #[inline(always)]
    pub(crate) fn admits(&self, given: &Written) -> bool
        requires { Suits (Item.Next given.now) self.now.replay.board }
        ensures { OnTrue result
            (job_refusal (meters_of self.now.replay.board) given.now.cpu given.now.h given.now.job
            ≡ None) }
    {
        admits(&self.tally, given)
    }

    /// Why a record is refused.
    #[tactic(auto, unfolding(board_core::specs::Refusals::meters_of))]
    pub(crate) fn refusal(&self, given: &Written) -> Option<Refused>
        requires { Suits (Item.Next given.now) self.now.replay.board }
        ensures { result
            ≡ job_refusal (meters_of self.now.replay.board) given.now.cpu given.now.h given.now.job }
    {
        job_refusal(&self.tally, given)
    }

    /// Whether there is no room for a record more.
    pub(crate) fn is_full(&self) -> bool
        ensures { result ≡ is_full self.now }
    {
        self.taken >= RECORDS_MAX
    }

    /// The header is whole: the board is made.
    #[tactic(auto, unfolding(board_core::specs::Refusals::meters_of))]
    pub(crate) fn begin(&mut self, header: &Header) -> Result<(), NoMemory>
        requires { Suits (Item.Begun header.now) self.old.replay.board }
        ensures { OnOk result (self.new ≡ unchecked (with_header header.now self.old.replay)) }
    {
        let opening = match header.begin {
            Begin::Fresh(setup) => BoardState::power_on(&setup),
            Begin::Saved(board) => board,
        };
        let deliveries = deliveries_of(opening.cpus(), &header.routes);
        self.writer.open(&opening, &deliveries)?;
        self.opening = opening;
        self.deliveries = deliveries;
        self.tally = self.opening.tally();
        self.taken = 0;
        Ok(())
    }

    /// The trace, which was read to its end. The check is then as before its first record.
    #[tactic(auto, unfolding(board_core::specs::Refusals::meters_of))]
    pub(crate) fn whole(&mut self, alloc: Global) -> Result<Trace<'a, F>, NoMemory>
        requires few { self.old.taken ≤ 200000 }
        requires sound { IsSound self.old }
        ensures { IfOk result (λ trace. trace ≡ trace_of self.old) }
    {
        self.end_phase(End::Finish)?;
        let written = self.writer.written();
        self.tally = self.opening.tally();
        let written = written?;
        let Ok(opening) = Box::new(alloc, self.opening) else {
            return Err(NoMemory);
        };
        Ok(Trace {
            opening,
            deliveries: self.deliveries,
            written,
            shows_state: self.shows_state,
        })
    }

    /// Closes the feed: what waits for more of the trace stops.
    pub(crate) fn close_feed(self) {
        let Check { mut writer, .. } = self;
        writer.close();
    }

    /// Takes a line, which may be no record, or refused.
    #[inline(never)]
    pub(crate) fn read_line(&mut self, text: &[u8]) -> Result<Item, RecordFault>
        requires open { IsOpen self.old.replay.reading.stage }
        requires few { self.old.replay.reading.lines < 2 ^ 63 }
        ensures item { result ≡ taken self.old.replay.reading text.now }
        ensures state { self.new ≡ read_on text.now self.old }
        ensures valid { IfOk result (IsItem self.old.replay.reading.stage) }
    {
        self.reading.take_line(text)
    }

    /// Takes a line into a record that is there, if it is one that isn't refused by its words. After false the record
    /// has no meaning.
    #[inline(always)]
    pub(crate) fn read_record(&mut self, text: &[u8], given: &mut Written) -> bool
        requires { self.old.replay.reading.lines < 2 ^ 63 }
        ensures item { OnTrue result
            (taken self.old.replay.reading text.now ≡ Ok (Item.Next given.new)) }
        ensures state { OnTrue result (self.new ≡ read_on text.now self.old) }
        ensures valid { OnTrue result (IsRecordAt self.old.replay.reading.stage given.new) }
        ensures cause { OnFalse result (record_in (taken self.old.replay.reading text.now) ≡ None) }
        ensures none { OnFalse result (self.new ≡ self.old) }
    {
        self.reading.read_record(text, given)
    }

    /// Why the end of the input is refused, where the trace has not ended.
    pub(crate) fn at_end(&self) -> RecordFault
        requires open { IsOpen self.now.replay.reading.stage }
        requires few { self.now.replay.reading.lines < 2 ^ 63 }
        ensures { result ≡ at_end self.now.replay.reading }
    {
        self.reading.at_end()
    }
}

/// Counts anew, where the writer had no memory for more: it is as before its first record.
#[cold]
#[inline(never)]
fn recount(tally: &mut Tally, opening: &BoardState) -> Result<(), NoMemory>
    ensures err { IsErr result }
    ensures after { tally.new ≡ meters_of opening.now }
{
    *tally = opening.tally();
    Err(NoMemory)
}

/// What ends a phase by a record: a move, or else a save.
fn end_by(line: u64, given: &Written) -> End
    ensures { result ≡ end_by line given.now given.now.job }
{
    let cpu = given.cpu;
    let h = given.h;
    match given.job {
        Job::Move { khz, start, gap } => End::Move {
            line,
            cpu,
            h,
            host: NewHost { khz, start, gap },
        },
        _ => End::Save { line, cpu, h },
    }
}
