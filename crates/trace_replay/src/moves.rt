//! The answers to saves and moves. Each begins with an access that lets time pass.
ghost use Rattle.std.specs.Prelude.{◌≡◌, ◌<◌, None};
ghost use Rattle.clk_units.specs.Ranges.{IsKhz};
ghost use Rattle.trace_loop.specs.Answered.{IsAnswered};
ghost use Rattle.trace_blocks.specs.Ends.{IsEnd};
ghost use Rattle.trace_replay.specs.Records.{end_answer};
ghost use Rattle.trace_replay.specs.Replay.{with_board};

use crate::replay::Replay;
use crate::status::{Verdict, refuse};
use clk_units::NoMemory;
use trace_blocks::{End, NewHost, end_phase};
use trace_text::Record;

impl Replay {
    /// Answers a save: the board runs to the time of the record, and its state is printed.
    #[inline(never)]
    pub(crate) fn answer_save(
        &mut self,
        line: u64,
        given: &Record,
        out: &mut Vec<u8>,
        end: &mut Option<Verdict>,
    ) -> Result<(), NoMemory>
        requires cpu { given.now.cpu < self.old.board.cpus }
        requires open { end.old ≡ None }
        ensures { let by = end_answer line (End.Save line given.now.cpu given.now.h)
            self.old.deliveries self.old.board in
            IsAnswered (with_board by self.old) self.old self.new
            out.old.items out.new.items end.new result }
    {
        let ending = End::Save {
            line,
            cpu: given.cpu,
            h: given.h,
        };
        self.answer_end(line, &ending, out, end)
    }

    /// Answers a move: the board runs to the time of the record, over the gap, and goes on at the new host. A move that
    /// is refused prints nothing but that.
    #[inline(never)]
    pub(crate) fn answer_move(
        &mut self,
        line: u64,
        given: &Record,
        host: NewHost,
        out: &mut Vec<u8>,
        end: &mut Option<Verdict>,
    ) -> Result<(), NoMemory>
        requires cpu { given.now.cpu < self.old.board.cpus }
        requires rate { IsKhz host.khz }
        requires open { end.old ≡ None }
        ensures { let by = end_answer line (End.Move line given.now.cpu given.now.h host)
            self.old.deliveries self.old.board in
            IsAnswered (with_board by self.old) self.old self.new
            out.old.items out.new.items end.new result }
    {
        let ending = End::Move {
            line,
            cpu: given.cpu,
            h: given.h,
            host,
        };
        self.answer_end(line, &ending, out, end)
    }

    /// Does what ends a phase, or refuses it.
    fn answer_end(
        &mut self,
        line: u64,
        ending: &End,
        out: &mut Vec<u8>,
        end: &mut Option<Verdict>,
    ) -> Result<(), NoMemory>
        requires fits { IsEnd self.old.board.cpus ending.now }
        requires open { end.old ≡ None }
        ensures { let by = end_answer line ending.now self.old.deliveries self.old.board in
            IsAnswered (with_board by self.old) self.old self.new
            out.old.items out.new.items end.new result }
    {
        match end_phase(ending, self.board.state.state_mut(), &self.deliveries, out)? {
            None => Ok(()),
            Some(why) => refuse(line, why, out, end),
        }
    }
}
