//! A trace that was read whole, and what a check ends with.
ghost use Rattle.std.specs.Prelude.{◌≡◌};
ghost use Rattle.trace_runner.specs.Checked.Checked.{Whole, Stopped};
ghost use Rattle.trace_runner.specs.private.CheckEnd.{checked_of};

use board_core::BoardState;
use race_phase::{Feeding, Written};
use std::marker::Model;
use trace_blocks::Deliveries;
use trace_replay::Verdict;

/// A trace that was read to its end. No record of it is refused in file order.
#[derive(Drop)]
pub(crate) struct Trace<'a, F: Feeding> {
    /// The board that it begins with. It is apart, since the answer to a line has room for a trace.
    pub(crate) opening: Box<BoardState>,
    /// Where rises go, where the header has routes.
    pub(crate) deliveries: Deliveries,
    /// Its phases.
    pub(crate) written: Written<'a, F>,
    /// Whether the board's state is shown at the end.
    pub(crate) shows_state: bool,
}

impl<'a, F: Feeding> Model for Trace<'a, F> {
    ghost use Rattle.trace_runner.specs.Trace.{TraceRead};

    ghost Value = { TraceRead };

    ghost view = { λ t. record {
      opening = t.opening.value;
      deliveries = t.deliveries;
      phases = t.written.phases;
      shows_state = t.shows_state;
    } };

    ghost use Rattle.std.specs.Prelude.{◌≡◌, Some};
    ghost use Rattle.trace_runner.specs.Free.{IsFree};

    ghost invariant = { λ t. IsFree t.opening.value t.written.phases
        × (t.written.opened ≡ Some (record { state = t.opening.value; deliveries = t.deliveries })) };
}

/// A trace, read to its end; or a line that is refused.
#[derive(Drop)]
pub(crate) enum CheckEnd<'a, F: Feeding> {
    Whole(Trace<'a, F>),
    Stopped(Verdict),
}

/// What a check ends with.
#[derive(Drop)]
pub(crate) struct Checked<'a, F: Feeding> {
    pub(crate) end: CheckEnd<'a, F>,
}

impl<'a, F: Feeding> Model for Checked<'a, F> {
    ghost use Rattle.trace_runner.specs.Checked.{Checked};
    ghost use Rattle.trace_runner.specs.private.CheckEnd.{checked_of};

    ghost Value = { Checked };

    ghost view = { λ c. checked_of c.end };
}

impl<'a, F: Feeding> Checked<'a, F> {
    /// The trace was read to its end.
    pub(crate) fn whole(trace: Trace<'a, F>) -> Checked<'a, F>
        ensures { result ≡ Whole trace.entry }
    {
        Checked {
            end: CheckEnd::Whole(trace),
        }
    }

    /// A line is refused.
    pub(crate) fn stopped(verdict: Verdict) -> Checked<'a, F>
        ensures { result ≡ Stopped verdict }
    {
        Checked {
            end: CheckEnd::Stopped(verdict),
        }
    }

    /// Which it is.
    pub(crate) fn into_end(self) -> CheckEnd<'a, F>
        ensures { checked_of result ≡ self.entry }
    {
        self.end
    }
}
