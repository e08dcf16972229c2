//! What answers the lines of a trace that is checked.
ghost use Rattle.std.specs.Prelude.{◌≡◌, ◌<◌, ◌≤◌, ◌+◌, ◌^◌, ◌++◌, None, IfOk, OnOk};
ghost use Rattle.trace_loop.specs.Answered.{IsAnswered};
ghost use Rattle.trace_text.specs.Lines.{taken, record_in, record_of_item};
ghost use Rattle.trace_replay.specs.Ready.{Suits};
ghost use Rattle.trace_runner.specs.Sound.{IsSound};
ghost use Rattle.trace_runner.specs.Check.{
  too_many,
  refusal,
  record_checked,
  item_checked,
  fault_checked,
  check_answer,
  check_closing,
  IsCheckReady,
  has_form,
  unchecked,
};
ghost use Rattle.trace_replay.specs.Records.{stops};
ghost use Rattle.trace_replay.specs.Replay.{at_start};
ghost use Rattle.trace_replay.specs.private.Closed.{IsClosedBy};

use crate::check::Check;
use crate::trace::Checked;
use clk_units::NoMemory;
use race_phase::{Feed, Feeding};
use reply_text::{Reason, Refused};
use std::alloc::Global;
use std::marker::Model;
use trace_loop::Answerer;
use trace_replay::stop;
use trace_text::{Item, Job, Record as Written, RecordFault};

/// A check, with a place for the record that a line is: it is read into that place and handed on by reference, so that
/// none is moved.
#[derive(Drop)]
pub(crate) struct Checker<'a, F: Feeding> {
    check: Check<'a, F>,
    /// The record that is taken; between two lines it means nothing.
    given: Written,
}

impl<'a, F: Feeding> Model for Checker<'a, F> {
    ghost use Rattle.trace_runner.specs.Checking.{Checking};

    ghost Value = { Checking };

    ghost view = { λ c. c.check };
}

impl<'a, F: Feeding> Checker<'a, F> {
    /// Before the first line of a trace, at whose end the board's state is shown or not.
    pub(crate) fn new(alloc: Global, feed: &'a Feed<F>, shows_state: bool) -> Checker<'a, F>
        ensures { result ≡ unchecked (at_start shows_state) }
    {
        Checker {
            check: Check::new(alloc, feed, shows_state),
            given: Written {
                cpu: 0,
                h: 0,
                job: Job::Save,
            },
        }
    }

    /// Closes the feed: what waits for more of the trace stops.
    pub(crate) fn close_feed(self) {
        let Checker { check, .. } = self;
        check.close_feed();
    }
}

impl<'a, F: Feeding> Answerer<Checked<'a, F>> for Checker<'a, F> {
    ghost use Rattle.trace_runner.specs.Check.{check_answer, check_closing, IsCheckReady};

    ghost answer = { check_answer };

    ghost closing = { check_closing };

    ghost may = { IsCheckReady };

    /// No end is made where the trace goes on.
    #[inline(always)]
    #[tactic(auto, unfolding(crate::specs::Check::check_answer))]
    fn answer(
        &mut self,
        line: u64,
        text: &[u8],
        out: &mut Vec<u8>,
        end: &mut Option<Checked<'a, F>>,
    ) -> Result<(), NoMemory> {
        if self.check.read_record(text, &mut self.given) {
            return self.check.take(line, &self.given, out, end);
        }
        self.check.answer_other(line, text, out, end)
    }

    fn close(&mut self, line: u64, out: &mut Vec<u8>) -> Result<Checked<'a, F>, NoMemory> {
        self.check.close(line, out)
    }
}

impl<'a, F: Feeding> Check<'a, F> {
    /// Refuses a record where a replay would, or keeps it. A common one is kept here; what ends a phase, or is refused,
    /// is apart, since ends and causes have places that a call clears as it begins.
    #[tactic(auto, unfolding(board_core::specs::Refusals::meters_of))]
    #[inline(always)]
    fn take(
        &mut self,
        line: u64,
        given: &Written,
        out: &mut Vec<u8>,
        end: &mut Option<Checked<'a, F>>,
    ) -> Result<(), NoMemory>
        requires suits { Suits (Item.Next given.now) self.old.replay.board }
        requires open { end.old ≡ None }
        ensures { IsAnswered (record_checked line given.now self.old) self.old self.new
            out.old.items out.new.items end.new result }
    {
        if !self.is_full() && self.admits(given) {
            return self.keep(line, given);
        }
        self.take_slowly(line, given, out, end)
    }

    /// The same for every record.
    #[tactic(auto, unfolding(board_core::specs::Refusals::meters_of))]
    #[cold]
    #[inline(never)]
    fn take_slowly(
        &mut self,
        line: u64,
        given: &Written,
        out: &mut Vec<u8>,
        end: &mut Option<Checked<'a, F>>,
    ) -> Result<(), NoMemory>
        requires suits { Suits (Item.Next given.now) self.old.replay.board }
        requires open { end.old ≡ None }
        ensures { IsAnswered (record_checked line given.now self.old) self.old self.new
            out.old.items out.new.items end.new result }
    {
        if self.is_full() {
            return many(line, out, end);
        }
        if let Some(why) = self.refusal(given) {
            return stopped(line, why, out, end);
        }
        self.keep(line, given)
    }

    /// Answers a line that was read, and is no record.
    fn answer_item(
        &mut self,
        line: u64,
        item: &Item,
        out: &mut Vec<u8>,
        end: &mut Option<Checked<'a, F>>,
    ) -> Result<(), NoMemory>
        requires item { Suits item.now self.old.replay.board }
        requires other { record_of_item item.now ≡ None }
        requires few { self.old.taken ≤ 200000 }
        requires sound { IsSound self.old }
        requires open { end.old ≡ None }
        ensures { IsAnswered (item_checked line item.now self.old) self.old self.new
            out.old.items out.new.items end.new result }
    {
        match item {
            Item::Skipped | Item::Part => Ok(()),
            Item::Begun(header) => self.begin(header),
            Item::Next(_record) => unreachable!(),
            Item::End => {
                let trace = self.whole(*out.allocator())?;
                *end = Some(Checked::whole(trace));
                Ok(())
            }
        }
    }

    /// Refuses a line: one that has a record's form is one too many first.
    fn refuse(
        &self,
        line: u64,
        fault: RecordFault,
        out: &mut Vec<u8>,
        end: &mut Option<Checked<'a, F>>,
    ) -> Result<(), NoMemory>
        ensures { IsClosedBy (fault_checked line fault self.now) out.old.items out.new.items
            end.new result }
    {
        if self.is_full() && has_form(fault.reason) {
            return many(line, out, end);
        }
        stopped(fault.line, Refused::Invalid(fault.reason), out, end)
    }

    /// Answers a line that is no record, or one that is refused. It is apart, since its item has room for a board,
    /// which a call clears as it begins.
    #[cold]
    #[inline(never)]
    #[tactic(auto, unfolding(crate::specs::Check::check_answer))]
    fn answer_other(
        &mut self,
        line: u64,
        text: &[u8],
        out: &mut Vec<u8>,
        end: &mut Option<Checked<'a, F>>,
    ) -> Result<(), NoMemory>
        requires room { line < 2 ^ 63 }
        requires may { IsCheckReady line self.old }
        requires other { record_in (taken self.old.replay.reading text.now) ≡ None }
        requires open { end.old ≡ None }
        ensures answered { IsAnswered (check_answer line self.old text.now) self.old self.new
            out.old.items out.new.items end.new result }
        ensures may { OnOk result (end.new ≡ None → IsCheckReady (line + 1) self.new) }
    {
        match self.read_line(text) {
            Ok(item) => self.answer_item(line, &item, out, end),
            Err(fault) => self.refuse(line, fault, out, end),
        }
    }

    /// Refuses the end of the input, where the trace has not ended.
    fn close(&self, line: u64, out: &mut Vec<u8>) -> Result<Checked<'a, F>, NoMemory>
        requires room { line < 2 ^ 63 }
        requires may { IsCheckReady line self.now }
        ensures printed { OnOk result
            (out.new.items ≡ out.old.items ++ (check_closing line self.now).text) }
        ensures ends { IfOk result (λ end. end ≡ (check_closing line self.now).end) }
    {
        let fault = self.at_end();
        let verdict = stop(fault.line, Refused::Invalid(fault.reason), out)?;
        Ok(Checked::stopped(verdict))
    }
}

/// Whether a line that is refused has a record's form.
fn has_form(reason: Reason) -> bool
    ensures { result ≡ has_form reason }
{
    matches!(
        reason,
        Reason::Steal | Reason::Cpu | Reason::CounterFell { .. }
    )
}

/// Refuses a record that is one too many.
#[cold]
#[inline(never)]
fn many<'a, F: Feeding>(
    line: u64,
    out: &mut Vec<u8>,
    end: &mut Option<Checked<'a, F>>,
) -> Result<(), NoMemory>
    ensures { IsClosedBy (too_many line) out.old.items out.new.items end.new result }
{
    stopped(line, Refused::Invalid(Reason::TooMany), out, end)
}

/// Appends the line of a refusal, which ends the check.
#[cold]
#[inline(never)]
fn stopped<'a, F: Feeding>(
    line: u64,
    why: Refused,
    out: &mut Vec<u8>,
    end: &mut Option<Checked<'a, F>>,
) -> Result<(), NoMemory>
    ensures { IsClosedBy (refusal (stops line why)) out.old.items out.new.items end.new result }
{
    let verdict = stop(line, why, out)?;
    *end = Some(Checked::stopped(verdict));
    Ok(())
}
