//! What answers the lines of a trace: a reader, and the board that its records act on.
ghost use Rattle.std.specs.Prelude.{
  ◌≡◌,
  ◌++◌,
  replicate,
  Ok,
  None,
  Some,
  OnOk,
  OnErr,
};
ghost use Rattle.board_types.specs.Setup.{setup_by_default};
ghost use Rattle.trace_text.specs.Header.{board_of};
ghost use Rattle.std.specs.Io.{StartsWith};
ghost use Rattle.trace_loop.specs.Answered.{IsAnswered};
ghost use Rattle.trace_replay.specs.Deliveries.{deliveries_of};
ghost use Rattle.trace_replay.specs.Replay.{answer_of, item_answer, ended};
ghost use Rattle.trace_replay.specs.Ready.{Suits};
ghost use Rattle.trace_replay.specs.private.Ready.{MayAnswer};

use crate::deliveries::deliveries_of;
use crate::kept::KeptBoard;
use crate::status::{Verdict, refuse, stop};
use board_core::{BoardState, Setup};
use clk_units::NoMemory;
use reply_text::{Refused, final_line, state_line};
use save_state::encode;
use trace_blocks::Deliveries;
use trace_loop::Answerer;
use trace_text::{Begin, Front, Header, Item, Job, Reading, Record};

/// A trace that is replayed: its records are answered one after the other.
#[derive(Drop)]
pub struct Replay {
    /// The reader of its lines.
    pub(crate) reading: Reading,
    /// Whether the board's state is shown at the end.
    pub(crate) shows_state: bool,
    /// The board; before `begin` one that no line asks.
    pub(crate) board: KeptBoard,
    /// Where rises go, where the header has routes.
    pub(crate) deliveries: Deliveries,
}

/// The board before `begin`.
pub fn opening() -> Setup
    ensures { result ≡ setup_by_default 1 }
{
    Setup::by_default(1)
}

/// Who gets interrupts before `begin`.
pub fn no_routes() -> Deliveries
    ensures { result ≡ record { cpus = 1; lines = replicate 6 None } }
{
    Deliveries {
        cpus: 1,
        lines: [None; 6],
    }
}

/// A place for a record that is read.
#[inline(always)]
fn no_record() -> Record {
    Record {
        cpu: 0,
        h: 0,
        job: Job::Save,
    }
}

impl Replay {
    ghost use Rattle.trace_replay.specs.Replay.{at_start};

    /// Before the first line of a trace, at whose end the board's state is shown or not.
    pub fn new(shows_state: bool) -> Replay
        ensures { result ≡ at_start shows_state }
    {
        Replay {
            reading: Reading::new(),
            shows_state,
            board: KeptBoard::new(BoardState::power_on(&opening())),
            deliveries: no_routes(),
        }
    }

    /// The header is whole: the board is made.
    pub(crate) fn begin(&mut self, header: &Header)
        requires { Suits (Item.Begun header.now) self.old.board }
        ensures board { self.new.board ≡ board_of header.now.begin }
        ensures deliveries { self.new.deliveries
            ≡ deliveries_of (board_of header.now.begin).cpus header.now.routes }
        ensures reading { self.new.reading ≡ self.old.reading }
        ensures shows_state { self.new.shows_state ≡ self.old.shows_state }
    {
        match header.begin {
            Begin::Fresh(setup) => self.board = KeptBoard::new(BoardState::power_on(&setup)),
            Begin::Saved(board) => self.board = KeptBoard::new(board),
        }
        self.deliveries = deliveries_of(self.board.state.cpus(), &header.routes);
    }

    /// Answers a line that was read.
    pub(crate) fn answer_item(
        &mut self,
        line: u64,
        item: &Item,
        out: &mut Vec<u8>,
        end: &mut Option<Verdict>,
    ) -> Result<(), NoMemory>
        requires suits { Suits item.now self.old.board }
        requires open { end.old ≡ None }
        ensures { IsAnswered (item_answer line item.now self.old) self.old self.new
            out.old.items out.new.items end.new result }
    {
        match item {
            Item::Skipped | Item::Part => Ok(()),
            Item::Begun(header) => {
                self.begin(header);
                Ok(())
            }
            Item::Next(record) => self.answer_record_apart(line, record, out, end),
            Item::End => {
                self::end(self.board.state.state_mut(), self.shows_state, out)?;
                *end = Some(Verdict::Done);
                Ok(())
            }
        }
    }
}

impl Replay {
    /// Answers a line whose front was read, and which isn't of the usual accesses: mostly a reading of the clock.
    #[inline(never)]
    #[tactic(auto, unfolding(crate::specs::Replay::answer_of))]
    fn answer_after(
        &mut self,
        line: u64,
        front: Front<'_>,
        out: &mut Vec<u8>,
        end: &mut Option<Verdict>,
    ) -> Result<(), NoMemory>
        requires { MayAnswer line self.old end.old }
        ensures { IsAnswered (answer_of line self.old front.entry) self.old self.new
            out.old.items out.new.items end.new result }
    {
        if let Some(read) = self.reading.take_clock(&front) {
            return self.answer_clock_apart(line, read, out, end);
        }
        self.answer_rest(line, &front, out, end)
    }

    /// Answers any other line whose front was read.
    #[inline(never)]
    #[tactic(auto, unfolding(crate::specs::Replay::answer_of))]
    fn answer_rest(
        &mut self,
        line: u64,
        front: &Front<'_>,
        out: &mut Vec<u8>,
        end: &mut Option<Verdict>,
    ) -> Result<(), NoMemory>
        requires { MayAnswer line self.old end.old }
        ensures { IsAnswered (answer_of line self.old front.now) self.old self.new
            out.old.items out.new.items end.new result }
    {
        let mut given = no_record();
        if self.reading.read_after(front, &mut given) {
            return self.answer_record(line, &given, out, end);
        }
        self.answer_other(line, front.line(), out, end)
    }

    /// Answers a line of any other front.
    #[cold]
    #[inline(never)]
    #[tactic(auto, unfolding(crate::specs::Replay::answer_of))]
    fn answer_apart(
        &mut self,
        line: u64,
        text: &[u8],
        out: &mut Vec<u8>,
        end: &mut Option<Verdict>,
    ) -> Result<(), NoMemory>
        requires { MayAnswer line self.old end.old }
        ensures { IsAnswered (answer_of line self.old text.now) self.old self.new
            out.old.items out.new.items end.new result }
    {
        let mut given = no_record();
        if self.reading.read_apart(text, &mut given) {
            return self.answer_record_apart(line, &given, out, end);
        }
        self.answer_other(line, text, out, end)
    }

    /// Answers a line that is no record, or one that is refused. It is apart, since its item has room for a board,
    /// which a call clears as it begins.
    #[cold]
    #[inline(never)]
    #[tactic(auto, unfolding(crate::specs::Replay::answer_of))]
    fn answer_other(
        &mut self,
        line: u64,
        text: &[u8],
        out: &mut Vec<u8>,
        end: &mut Option<Verdict>,
    ) -> Result<(), NoMemory>
        requires { MayAnswer line self.old end.old }
        ensures { IsAnswered (answer_of line self.old text.now) self.old self.new
            out.old.items out.new.items end.new result }
    {
        match self.reading.take_line(text) {
            Ok(item) => self.answer_item(line, &item, out, end),
            Err(fault) => refuse(fault.line, Refused::Invalid(fault.reason), out, end),
        }
    }
}

/// Appends what ends a trace: its last line, and the state where it is shown.
pub fn end(board: &BoardState, shows_state: bool, out: &mut Vec<u8>) -> Result<(), NoMemory>
    ensures printed { OnOk result
        (out.new.items ≡ out.old.items ++ (ended shows_state board.now).text) }
    ensures err { OnErr result (StartsWith out.new.items out.old.items) }
{
    final_line(
        board.now(),
        board.accesses(),
        board.greatest(),
        board.lines(),
        out,
    )?;
    if shows_state {
        let bytes = encode(*out.allocator(), board)?;
        state_line(&bytes, out)?;
    }
    Ok(())
}

impl Answerer<Verdict> for Replay {
    ghost use Rattle.trace_replay.specs.Replay.{answer_of, closing_of};
    ghost use Rattle.trace_replay.specs.Ready.{IsReady};

    ghost answer = { answer_of };

    ghost closing = { closing_of };

    ghost may = { IsReady };

    /// An access as most lines ask for it is read and answered here, in registers. Any other line is read and answered by a
    /// call: it would make this too large to be inlined in the loop over the lines.
    #[inline(always)]
    #[tactic(auto, unfolding(crate::specs::Replay::answer_of), using(crate::proofs::ReadyNext::next_ready))]
    fn answer(
        &mut self,
        line: u64,
        text: &[u8],
        out: &mut Vec<u8>,
        end: &mut Option<Verdict>,
    ) -> Result<(), NoMemory> {
        let Some(front) = Front::of(text) else {
            return self.answer_apart(line, text, out, end);
        };
        if let Some(asked) = self.reading.take_usual(&front) {
            return self.answer_access(line, asked, out, end);
        }
        self.answer_after(line, front.again(), out, end)
    }

    fn close(&mut self, _line: u64, out: &mut Vec<u8>) -> Result<Verdict, NoMemory> {
        let fault = self.reading.at_end();
        stop(fault.line, Refused::Invalid(fault.reason), out)
    }
}
