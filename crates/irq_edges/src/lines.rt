//! The levels of the six lines, and the edges between two of them.
ghost use Rattle.std.specs.Prelude.{◌≡◌, ◌+◌, ◌≤◌, ◌++◌, length, IsTrue};
ghost use Rattle.irq_edges.specs.declared.edges.TheConstants.{EDGE_PLACES};
ghost use Rattle.irq_edges.specs.Lines.{line_numbers, changes, level_of, is_line};

use crate::edges::{Edge, EdgeList};

/// The numbers of the six lines, in rising order.
pub const LINE_NUMBERS: [u8; 6] = [0, 8, 20, 21, 22, 23];

/// Whether a number is that of one of the six lines.
#[inline(always)]
pub fn is_line(number: u8) -> bool
    ensures { result ≡ is_line number }
{
    matches!(number, 0 | 8 | 20 | 21 | 22 | 23)
}

/// The levels of the six lines, in order of line numbers: true where a line is up.
#[derive(Clone, Copy, Debug, Default, PartialEq, Eq)]
#[repr(C)]
pub struct Lines {
    /// The levels of the lines 0, 8, 20, 21, 22 and 23.
    pub levels: [bool; 6],
}

impl Lines {
    /// The level of a line, given by its number: one of 0, 8, 20, 21, 22 and 23.
    pub fn level(&self, line: u8) -> bool
        requires { IsTrue (is_line line) }
        ensures { result ≡ level_of line_numbers self.now.levels line }
    {
        match line {
            0 => self.levels[0],
            8 => self.levels[1],
            20 => self.levels[2],
            21 => self.levels[3],
            22 => self.levels[4],
            _ => self.levels[5],
        }
    }
}

/// Appends an edge for each line whose level differs, with the time `at`, in order of line numbers.
/// Six places must be free.
pub fn changes(before: Lines, after: Lines, at: u64, into: &mut EdgeList)
    requires { length into.old + 6 ≤ EDGE_PLACES }
    ensures appended { into.new ≡ into.old ++ changes at line_numbers before.levels after.levels }
    ensures few { length into.new ≤ length into.old + 6 }
{
    append_changes(&LINE_NUMBERS, &before.levels, &after.levels, at, into);
}

/// Appends an edge for each of these lines whose level differs. There must be a place for each of
/// the edges.
fn append_changes(lines: &[u8], before: &[bool], after: &[bool], at: u64, into: &mut EdgeList)
    requires levels_before { length before.now ≡ length lines.now }
    requires levels_after { length after.now ≡ length lines.now }
    requires room { length into.old + length (changes at lines.now before.now after.now)
        ≤ EDGE_PLACES }
    ensures { into.new ≡ into.old ++ changes at lines.now before.now after.now }
{
    for place in 0..lines.len() {
        let up = after[place];
        if before[place] != up {
            into.push(Edge {
                at,
                line: lines[place],
                up,
            });
        }
    }
}
