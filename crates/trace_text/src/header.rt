//! The header: what a trace is set up with.
ghost use Rattle.std.specs.Prelude.{◌≡◌, ◌<◌, ◌≤◌, ◌++◌, Ok, IfOk, OnOk, MatchResult};
ghost use Rattle.board_types.specs.Setup.{IsSetup};
ghost use Rattle.board_types.specs.declared.setup.TheConstants.{LAST_FORMAT};
ghost use Rattle.trace_text.specs.Rows.{by_table, left_by};
ghost use Rattle.trace_text.specs.private.SetupLines.{set_by, other_rows};
ghost use Rattle.trace_text.specs.declared.header.TheConstants.{ROUTE_ROW};
ghost use Rattle.trace_text.specs.Header.{
  head_of,
  first_line,
  first_rows,
  later_rows,
  last_rows,
  header_line,
  header_of,
  body_of,
  IsHead,
  board_of,
};

use crate::records::Body;
use crate::setup_line::SetupLine;
use crate::words::Words;
use board_core::BoardState;
use board_types::{LAST_FORMAT, Setup};
use edge_hooks::Delivery;
use reply_text::Reason;

/// The place of each line in the order of a header, which `Head` keeps of the last one.
pub(crate) const FORMAT_ROW: u8 = 0;

pub(crate) const HOST_ROW: u8 = 1;

pub(crate) const GUEST_ROW: u8 = 2;

pub(crate) const CPUS_ROW: u8 = 3;

pub(crate) const POLICY_ROW: u8 = 4;

pub(crate) const SLEW_ROW: u8 = 5;

pub(crate) const WALL_ROW: u8 = 6;

pub(crate) const RTC_ROW: u8 = 7;

pub(crate) const STATE_ROW: u8 = 8;

pub(crate) const ROUTE_ROW: u8 = 9;

/// What a trace begins with.
#[derive(Clone, Copy)]
pub enum Begin {
    /// A board at power on.
    Fresh(Setup),
    /// A saved board, in the trace's format.
    Saved(BoardState),
}

/// What the lines before `begin` say.
#[derive(Clone, Copy)]
pub struct Header {
    /// What the trace begins with.
    pub begin: Begin,
    /// Where the rises of the lines 0, 8, 20, 21, 22 and 23 go, for those that have a route.
    pub routes: [Option<Delivery>; 6],
}

/// What is known before `begin`: the place of the last line in the order, what the trace begins with, the least line
/// that may be routed next, and the routes.
#[derive(Clone, Copy)]
pub struct Head {
    pub(crate) row: u8,
    pub(crate) begin: Begin,
    pub(crate) next_line: u8,
    pub(crate) routes: [Option<Delivery>; 6],
}

impl Begin {
    /// The format.
    fn format(&self) -> u8
        ensures { result ≡ (board_of self.now).format }
    {
        match self {
            Begin::Fresh(setup) => setup.format,
            Begin::Saved(state) => state.format(),
        }
    }

    /// How many processors there are.
    pub(crate) fn cpus(&self) -> u8
        ensures { result ≡ (board_of self.now).cpus }
    {
        match self {
            Begin::Fresh(setup) => setup.cpus,
            Begin::Saved(state) => state.cpus(),
        }
    }

    /// The host's counter at the anchor.
    fn start(&self) -> u64
        ensures { result ≡ (board_of self.now).anchor.start }
    {
        match self {
            Begin::Fresh(setup) => setup.anchor.start,
            Begin::Saved(state) => state.anchor().start,
        }
    }
}

/// What is known after the first line.
pub(crate) fn first_line(words: &mut Words<'_>) -> Result<Head, Reason>
    ensures head { result ≡ first_line words.old }
    ensures valid { IfOk result IsHead }
{
    if !words.takes(b"clockboard") {
        return Err(Reason::Form);
    }
    let last = u64::from(LAST_FORMAT);
    let format = words.dec_within(1, last).ok_or(Reason::Form)?;
    words.end()?;
    Ok(Head::of_format(format as u8))
}

impl Head {
    /// What is so where no line says otherwise.
    fn of_format(format: u8) -> Head
        requires { (1 ≤ format) × (format ≤ LAST_FORMAT) }
        ensures head { result ≡ head_of format }
        ensures valid { IsHead result }
    {
        Head {
            row: FORMAT_ROW,
            begin: Begin::Fresh(Setup::by_default(format)),
            next_line: 0,
            routes: [None; 6],
        }
    }

    /// The next line of a header. After a fault what is known has no meaning.
    #[tactic(auto, unfolding(crate::specs::Header::header_line))]
    pub(crate) fn line(&mut self, words: &mut Words<'_>) -> Result<(), Reason>
        requires { IsHead self.old }
        ensures head { header_line self.old words.old ≡ left_by result self.new }
        ensures valid { OnOk result (IsHead self.new) }
    {
        match self.begin {
            Begin::Fresh(setup) => self.first_line(setup, words),
            Begin::Saved(_) => self.last_line(words),
        }
    }

    /// The next line of a header without a saved state.
    fn first_line(&mut self, setup: Setup, words: &mut Words<'_>) -> Result<(), Reason>
        requires valid { IsHead self.old }
        requires setup { IsSetup setup }
        ensures head { by_table (first_rows self.old setup ++ later_rows self.old setup) words.old
            ≡ left_by result self.new }
        ensures valid { OnOk result (IsHead self.new) }
    {
        match SetupLine::named(words) {
            Some(line) => self.setup_line(line, setup, words),
            None => self.other_line(setup.format, words),
        }
    }

    /// A line that sets something up. The lines come in a fixed order: each has a higher number than the one before it.
    fn setup_line(
        &mut self,
        line: SetupLine,
        mut setup: Setup,
        words: &mut Words<'_>,
    ) -> Result<(), Reason>
        requires valid { IsHead self.old }
        requires setup { IsSetup setup }
        ensures head { set_by self.old setup line words.old ≡ left_by result self.new }
        ensures valid { OnOk result (IsHead self.new) }
    {
        self.in_order(line.row())?;
        line.read(&mut setup, words)?;
        self.set_up(line.row(), setup);
        Ok(())
    }

    /// A saved state, or a line that may follow it.
    fn other_line(&mut self, format: u8, words: &mut Words<'_>) -> Result<(), Reason>
        requires valid { IsHead self.old }
        requires format { format ≤ LAST_FORMAT }
        ensures head { by_table (other_rows self.old format) words.old ≡ left_by result self.new }
        ensures valid { OnOk result (IsHead self.new) }
    {
        if words.takes(b"state") {
            self.state(format, words)
        } else {
            self.last_line(words)
        }
    }

    /// A route, the one line that may follow a saved state.
    fn last_line(&mut self, words: &mut Words<'_>) -> Result<(), Reason>
        requires { IsHead self.old }
        ensures head { by_table (last_rows self.old) words.old ≡ left_by result self.new }
        ensures valid { OnOk result (IsHead self.new) }
    {
        if words.takes(b"route") {
            self.route(words)
        } else {
            Err(Reason::Form)
        }
    }

    /// Whether a line of this number may follow the last one; else it is out of form.
    fn in_order(&self, number: u8) -> Result<(), Reason>
        ensures { MatchResult result (λ _. self.now.row < number)
            (λ e. (e ≡ Reason.Form) × (number ≤ self.now.row)) }
    {
        if self.row < number {
            Ok(())
        } else {
            Err(Reason::Form)
        }
    }

    /// The line of this number has made the setup this one.
    fn set_up(&mut self, number: u8, setup: Setup)
        requires valid { IsHead self.old }
        requires setup { IsSetup setup }
        requires early { self.old.row < number }
        requires first { number < ROUTE_ROW }
        ensures head { self.new ≡ record self.old { row = number; begin = Begin.Fresh setup } }
        ensures valid { IsHead self.new }
    {
        self.row = number;
        self.begin = Begin::Fresh(setup);
    }

    /// What `begin` begins.
    pub(crate) fn header(&self) -> Header
        ensures { result ≡ header_of self.now }
    {
        Header {
            begin: self.begin,
            routes: self.routes,
        }
    }

    /// What is known after it.
    pub(crate) fn body(&self) -> Body
        ensures { result ≡ body_of self.now }
    {
        Body {
            format: self.begin.format(),
            cpus: self.begin.cpus(),
            before: [self.begin.start(); 64],
        }
    }
}
