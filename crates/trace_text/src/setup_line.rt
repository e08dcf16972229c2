//! The lines of a header that set something up, by their names.
ghost use Rattle.std.specs.Prelude.{◌≡◌, ◌<◌, ◌++◌, OnOk};
ghost use Rattle.std.specs.Option.{option_map_or};
ghost use Rattle.board_types.specs.Setup.{IsSetup};
ghost use Rattle.trace_text.specs.Rows.{by_table, left_by};
ghost use Rattle.trace_text.specs.Header.{first_rows, later_rows};
ghost use Rattle.trace_text.specs.declared.header.Head.{Head};
ghost use Rattle.trace_text.specs.declared.header.TheConstants.{ROUTE_ROW};
ghost use Rattle.trace_text.specs.private.SetupLines.{number_of, meaning, set_by, other_rows};

use crate::header::{CPUS_ROW, GUEST_ROW, HOST_ROW, POLICY_ROW, RTC_ROW, SLEW_ROW, WALL_ROW};
use crate::header_lines::{cpus, guest, host, policies, rtc, slew, wall};
use crate::words::Words;
use board_types::Setup;
use reply_text::Reason;

/// A line that sets something up.
#[derive(Clone, Copy)]
pub(crate) enum SetupLine {
    Host,
    Guest,
    Cpus,
    Policy,
    Slew,
    Wall,
    Rtc,
}

impl SetupLine {
    /// The line whose name is the next word, if one has it; the words are then those after it.
    pub(crate) fn named(words: &mut Words<'_>) -> Option<SetupLine>
        ensures { (head : Head) (s : Setup) → by_table (first_rows head s ++ later_rows head s) words.old
            ≡ option_map_or (λ line. set_by head s line words.new) result
            (by_table (other_rows head s.format) words.new) }
    {
        if words.takes(b"host") {
            Some(SetupLine::Host)
        } else if words.takes(b"guest") {
            Some(SetupLine::Guest)
        } else if words.takes(b"cpus") {
            Some(SetupLine::Cpus)
        } else if words.takes(b"policy") {
            Some(SetupLine::Policy)
        } else if words.takes(b"slew") {
            Some(SetupLine::Slew)
        } else if words.takes(b"wall") {
            Some(SetupLine::Wall)
        } else if words.takes(b"rtc") {
            Some(SetupLine::Rtc)
        } else {
            None
        }
    }

    /// Its place in the order of a header.
    pub(crate) fn row(self) -> u8
        ensures number { result ≡ number_of self }
        ensures early { result < ROUTE_ROW }
    {
        match self {
            SetupLine::Host => HOST_ROW,
            SetupLine::Guest => GUEST_ROW,
            SetupLine::Cpus => CPUS_ROW,
            SetupLine::Policy => POLICY_ROW,
            SetupLine::Slew => SLEW_ROW,
            SetupLine::Wall => WALL_ROW,
            SetupLine::Rtc => RTC_ROW,
        }
    }

    /// What it makes of a setup, by the words after its name.
    pub(crate) fn read(self, setup: &mut Setup, words: &mut Words<'_>) -> Result<(), Reason>
        requires { IsSetup setup.old }
        ensures setup { meaning setup.old self words.old ≡ left_by result setup.new }
        ensures valid { OnOk result (IsSetup setup.new) }
    {
        match self {
            SetupLine::Host => host(setup, words),
            SetupLine::Guest => guest(setup, words),
            SetupLine::Cpus => cpus(setup, words),
            SetupLine::Policy => policies(setup, words),
            SetupLine::Slew => slew(setup, words),
            SetupLine::Wall => wall(setup, words),
            SetupLine::Rtc => rtc(setup, words),
        }
    }
}
