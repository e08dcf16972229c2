//! Which line of a generated trace comes next.
ghost use Rattle.std.specs.Prelude.{◌≡◌, ◌++◌, []};

use crate::draws::Draws;
use crate::piece::Piece;
use crate::records::{enable, header, record_line};

/// The line that starts the HPET.
const START: &[u8] = b"0 0 hw 10 4 1\n";

/// The last line.
const END: &[u8] = b"end\n";

/// What was made last.
#[derive(Clone, Copy)]
pub(crate) enum Stage {
    /// Nothing: the header comes.
    Header,
    /// The header, and the pages of some processors.
    Enabling,
    /// All pages and the HPET, and some records.
    Drawing,
    /// The whole trace.
    Ended,
}

/// The place in a generated trace.
#[derive(Clone, Copy)]
pub(crate) struct Course {
    pub(crate) stage: Stage,
    /// How many processors the trace has.
    pub(crate) cpus: u8,
    /// Of how many the page was switched on.
    pub(crate) enabled: u8,
    /// How many records are still to come.
    pub(crate) left: u64,
    /// The sequence after the records that were made.
    pub(crate) draws: Draws,
}

impl Course {
    ghost use Rattle.trace_gen.specs.private.Course.{text_after, IsCourse, IsMade};

    /// Makes the next lines; after the last one there are none.
    pub(crate) fn advance(&mut self) -> Piece
        requires { IsCourse self.old }
        ensures text { text_after self.old ≡ result ++ text_after self.new }
        ensures end { result ≡ [] → text_after self.old ≡ [] }
        ensures kept { IsCourse self.new }
    {
        match self.stage {
            Stage::Header => {
                self.stage = Stage::Enabling;
                header(self.cpus)
            }
            Stage::Enabling => self.enable_next(),
            Stage::Drawing => self.draw_next(),
            Stage::Ended => Piece::empty(),
        }
    }

    /// Switches the next page on, or starts the HPET after the last one.
    fn enable_next(&mut self) -> Piece
        requires course { IsCourse self.old }
        requires stage { self.old.stage ≡ Stage.Enabling }
        ensures { IsMade self.old self.new result }
    {
        if self.enabled == self.cpus {
            self.stage = Stage::Drawing;
            return Piece::of(START);
        }
        let cpu = self.enabled;
        self.enabled += 1;
        enable(cpu)
    }

    /// Makes the next record, or the last line after the last one.
    fn draw_next(&mut self) -> Piece
        requires course { IsCourse self.old }
        requires stage { self.old.stage ≡ Stage.Drawing }
        ensures { IsMade self.old self.new result }
    {
        if self.left == 0 {
            self.stage = Stage::Ended;
            return Piece::of(END);
        }
        self.left -= 1;
        self.draws.draw();
        record_line(self.cpus, &self.draws)
    }
}
