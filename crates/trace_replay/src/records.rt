//! The answers to records.
ghost use Rattle.std.specs.Prelude.{◌≡◌, ◌<◌, ◌≤◌, ◌++◌, IsSome, None, OnOk, OnErr};
ghost use Rattle.std.specs.Io.{StartsWith};
ghost use Rattle.board_types.specs.Reply.{IsFresh};
ghost use Rattle.board_types.specs.declared.setup.TheConstants.{HV_FORMAT};
ghost use Rattle.trace_text.specs.declared.reading.Item.TheVariants.{Next};
ghost use Rattle.trace_loop.specs.Answered.{IsAnswered};
ghost use Rattle.trace_blocks.specs.Blocks.{block_of};
ghost use Rattle.trace_blocks.specs.declared.records.Answer.TheVariants.{Acted};
ghost use Rattle.board_core.specs.Pages.{page_reply, clock_reply, after_clock};
ghost use Rattle.board_core.specs.Hv.{hv_reply};
ghost use Rattle.board_core.specs.Refusals.{refusal_of};
ghost use Rattle.trace_records.specs.Calls.{asking, reading};
ghost use Rattle.reply_text.specs.Text.{page_text, clock_text, hv_text};
ghost use Rattle.trace_blocks.specs.Refusals.{count_refusal};
ghost use Rattle.trace_replay.specs.Records.{answer_unless};
ghost use Rattle.trace_replay.specs.Replay.{record_answer, with_board};
ghost use Rattle.trace_replay.specs.Ready.{Suits};

use crate::replay::Replay;
use crate::status::{Verdict, refuse};
use board_core::Reply;
use clk_units::NoMemory;
use reply_text::{CountedLines, hv_line, page_line};
use trace_blocks::{Deliveries, NewHost, access_block, refused_access, refused_time};
use trace_text::{Asked, Call, ClockRead, Job, Record};

impl Replay {
    /// Answers a record: appends its block, or refuses it. After an `Err` the text begins as it was. Only a refusal writes
    /// the end, which was none: it is too large for registers, and most records have none.
    #[inline(always)]
    pub(crate) fn answer_record(
        &mut self,
        line: u64,
        given: &Record,
        out: &mut Vec<u8>,
        end: &mut Option<Verdict>,
    ) -> Result<(), NoMemory>
        requires suits { Suits (Next given.now) self.old.board }
        requires open { end.old ≡ None }
        ensures { IsAnswered (record_answer line given.now self.old) self.old self.new
            out.old.items out.new.items end.new result }
    {
        let cpu = given.cpu;
        let h = given.h;
        match given.job {
            Job::Ask(Call::Act { access }) => {
                self.answer_access(line, Asked { cpu, h, access }, out, end)
            }
            Job::Ask(Call::ReadPage { page }) => self.answer_page(line, page, h, out, end),
            Job::Ask(Call::ReadClock { page }) => {
                self.answer_clock_apart(line, ClockRead { cpu, h, page }, out, end)
            }
            Job::Ask(Call::ReadHv) => self.answer_hv(line, h, out, end),
            Job::Save => self.answer_save(line, given, out, end),
            Job::Move { khz, start, gap } => {
                self.answer_move(line, given, NewHost { khz, start, gap }, out, end)
            }
        }
    }

    /// The same, apart from where it is called.
    #[cold]
    #[inline(never)]
    pub(crate) fn answer_record_apart(
        &mut self,
        line: u64,
        given: &Record,
        out: &mut Vec<u8>,
        end: &mut Option<Verdict>,
    ) -> Result<(), NoMemory>
        requires suits { Suits (Next given.now) self.old.board }
        requires open { end.old ≡ None }
        ensures { IsAnswered (record_answer line given.now self.old) self.old self.new
            out.old.items out.new.items end.new result }
    {
        self.answer_record(line, given, out, end)
    }

    /// Answers an access to the board.
    #[inline(always)]
    pub(crate) fn answer_access(
        &mut self,
        line: u64,
        asked: Asked,
        out: &mut Vec<u8>,
        end: &mut Option<Verdict>,
    ) -> Result<(), NoMemory>
        requires suits { Suits (Next (asking asked)) self.old.board }
        requires open { end.old ≡ None }
        ensures { IsAnswered (record_answer line (asking asked) self.old) self.old self.new
            out.old.items out.new.items end.new result }
    {
        let Asked { cpu, h, access } = asked;
        let board = &mut self.board;
        let reply = &mut board.reply;
        if !board.state.take(cpu, h, access, reply) {
            return self.refuse_access(line, Asked { cpu, h, access }, out, end);
        }
        if reply.edges.is_empty() && reply.bursts.is_empty() {
            return board.lines.board_line(line, reply, out);
        }
        print_block(line, reply, &self.deliveries, &mut board.lines, out)
    }

    /// Refuses an access, with its cause. It is apart, since a cause has a place that a call clears as it begins.
    #[cold]
    #[inline(never)]
    fn refuse_access(
        &self,
        line: u64,
        asked: Asked,
        out: &mut Vec<u8>,
        end: &mut Option<Verdict>,
    ) -> Result<(), NoMemory>
        requires suits { Suits (Next (asking asked)) self.now.board }
        requires refused { IsSome (refusal_of self.now.board asked.cpu asked.h asked.access) }
        requires open { end.old ≡ None }
        ensures { IsAnswered (record_answer line (asking asked) self.now) self.now self.now
            out.old.items out.new.items end.new result }
    {
        let refusal = self.board.state.refusal(asked.cpu, asked.h, asked.access);
        refuse(line, refused_access(refusal), out, end)
    }

    /// Answers a read of a page.
    #[inline(always)]
    fn answer_page(
        &mut self,
        line: u64,
        page: u8,
        h: u64,
        out: &mut Vec<u8>,
        end: &mut Option<Verdict>,
    ) -> Result<(), NoMemory>
        requires page { page < self.old.board.cpus }
        requires open { end.old ≡ None }
        ensures { let by = answer_unless (count_refusal self.old.board.anchor h) line
            (page_text line (page_reply self.old.board page h)) self.old.board in
            IsAnswered (with_board by self.old) self.old self.new
            out.old.items out.new.items end.new result }
    {
        let board = &self.board;
        match board.state.page_of(page, h) {
            Ok(reply) => {
                page_line(line, &reply, out)?;
                Ok(())
            }
            Err(fault) => refuse(line, refused_time(fault), out, end),
        }
    }

    /// Answers a read of the clock, apart from where it is called: in one place the compiler inlines all of it.
    #[inline(never)]
    pub(crate) fn answer_clock_apart(
        &mut self,
        line: u64,
        read: ClockRead,
        out: &mut Vec<u8>,
        end: &mut Option<Verdict>,
    ) -> Result<(), NoMemory>
        requires suits { Suits (Next (reading read)) self.old.board }
        requires open { end.old ≡ None }
        ensures { IsAnswered (record_answer line (reading read) self.old) self.old self.new
            out.old.items out.new.items end.new result }
    {
        self.answer_clock(line, read.page, read.h, out, end)
    }

    /// Answers a read of the clock.
    #[inline(always)]
    fn answer_clock(
        &mut self,
        line: u64,
        page: u8,
        h: u64,
        out: &mut Vec<u8>,
        end: &mut Option<Verdict>,
    ) -> Result<(), NoMemory>
        requires page { page < self.old.board.cpus }
        requires open { end.old ≡ None }
        ensures { let by = answer_unless (count_refusal self.old.board.anchor h) line
            (clock_text line (clock_reply self.old.board page h))
            (after_clock self.old.board page h) in
            IsAnswered (with_board by self.old) self.old self.new
            out.old.items out.new.items end.new result }
    {
        let board = &mut self.board;
        match board.state.clock_of(page, h) {
            Ok(reply) => {
                board.lines.clock_line(line, &reply, out)?;
                Ok(())
            }
            Err(fault) => refuse(line, refused_time(fault), out, end),
        }
    }

    /// Answers a read of the reference page.
    #[inline(always)]
    fn answer_hv(
        &mut self,
        line: u64,
        h: u64,
        out: &mut Vec<u8>,
        end: &mut Option<Verdict>,
    ) -> Result<(), NoMemory>
        requires format { HV_FORMAT ≤ self.old.board.format }
        requires open { end.old ≡ None }
        ensures { let by = answer_unless (count_refusal self.old.board.anchor h) line
            (hv_text line (hv_reply self.old.board h)) self.old.board in
            IsAnswered (with_board by self.old) self.old self.new
            out.old.items out.new.items end.new result }
    {
        let board = &self.board;
        match board.state.hv_of(h) {
            Ok(reply) => {
                hv_line(line, &reply, out)?;
                Ok(())
            }
            Err(fault) => refuse(line, refused_time(fault), out, end),
        }
    }
}

/// Prints the block of an access that brought an edge or a message, and takes these out of its reply.
// Most accesses bring none. Inlined, it makes the answer to a line too large to be inlined in the loop over lines.
#[inline(never)]
fn print_block(
    line: u64,
    reply: &mut Reply,
    deliveries: &Deliveries,
    lines: &mut CountedLines,
    out: &mut Vec<u8>,
) -> Result<(), NoMemory>
    ensures ok { OnOk result
        (out.new.items ≡ out.old.items ++ block_of deliveries.now line (Acted reply.old)) }
    ensures err { OnErr result (StartsWith out.new.items out.old.items) }
    ensures fresh { IsFresh reply.new }
{
    let printed = access_block(line, reply, deliveries, Some(lines), out);
    reply.clear();
    printed
}
