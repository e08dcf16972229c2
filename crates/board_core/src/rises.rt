//! How often each line went up.
ghost use Rattle.std.specs.Prelude.{
  ◌≡◌,
  ℕ,
  ◌+◌,
  ◌<◌,
  ◌≤◌,
  ◌^◌,
  length,
  drop,
  slice_index_or,
  IsTrue,
  false,
};
ghost use Rattle.irq_edges.specs.declared.edges.TheConstants.{EDGE_PLACES};
ghost use Rattle.irq_edges.specs.Lines.{line_numbers, is_line};
ghost use Rattle.board_devices.specs.Rises.{lifts, rises_with};
ghost use Rattle.board_core.specs.Rises.{rises_after, count_at};

use irq_edges::{Edge, EdgeList};

/// How many of the edges lift a line.
fn lifts(edges: &[Edge], line: u8) -> u64
    requires { length edges.now ≤ EDGE_PLACES }
    ensures value { result ≡ lifts line edges.now }
    ensures few { result ≤ EDGE_PLACES }
{
    let mut count = 0;
    for k in 0..edges.len() {
        let edge = edges[k];
        if edge.up && edge.line == line {
            count += 1;
        }
    }
    count
}

/// Counts the edges upwards of the list from place `from` on, where the format counts them.
#[inline(always)]
pub(crate) fn count_rises(rises: &mut [u64; 6], format: u8, edges: &EdgeList, from: usize)
    requires inside { from ≤ length edges.now }
    requires room { (k : ℕ) → k < 6 → slice_index_or rises.old k 0 + EDGE_PLACES < 2 ^ 64 }
    ensures { rises.new ≡ rises_after format (drop from edges.now) rises.old }
{
    if format >= 2 {
        add_rises(rises, edges_from(edges, from));
    }
}

/// The same where some came after place `from`; where none did, no edge is there.
#[inline(always)]
pub(crate) fn count_rises_where(
    came: bool,
    rises: &mut [u64; 6],
    format: u8,
    edges: &EdgeList,
    from: usize,
)
    requires inside { from ≤ length edges.now }
    requires none { came ≡ false → from ≡ length edges.now }
    requires room { (k : ℕ) → k < 6 → slice_index_or rises.old k 0 + EDGE_PLACES < 2 ^ 64 }
    ensures { rises.new ≡ rises_after format (drop from edges.now) rises.old }
{
    if came {
        count_rises(rises, format, edges, from);
    }
}

/// The edges from place `from` on.
fn edges_from(edges: &EdgeList, from: usize) -> &[Edge]
    requires { from ≤ length edges.now }
    ensures value { result.now ≡ drop from edges.now }
    ensures few { length result.now ≤ EDGE_PLACES }
{
    let all = edges.as_slice();
    &all[from..]
}

/// Adds the edges upwards to the counts. Most accesses have none, and then nothing is done.
#[inline(always)]
#[tactic(auto, using(crate::proofs::Counted::none_counted))]
fn add_rises(rises: &mut [u64; 6], edges: &[Edge])
    requires few { length edges.now ≤ EDGE_PLACES }
    requires room { (k : ℕ) → k < 6 → slice_index_or rises.old k 0 + EDGE_PLACES < 2 ^ 64 }
    ensures { rises.new ≡ rises_with edges.now line_numbers rises.old }
{
    if edges.is_empty() {
        return;
    }
    add_some(rises, edges);
}

/// Adds the edges upwards to the counts, line by line.
#[inline(never)]
fn add_some(rises: &mut [u64; 6], edges: &[Edge])
    requires few { length edges.now ≤ EDGE_PLACES }
    requires room { (k : ℕ) → k < 6 → slice_index_or rises.old k 0 + EDGE_PLACES < 2 ^ 64 }
    ensures { rises.new ≡ rises_with edges.now line_numbers rises.old }
{
    *rises = [
        rises[0] + lifts(edges, 0),
        rises[1] + lifts(edges, 8),
        rises[2] + lifts(edges, 20),
        rises[3] + lifts(edges, 21),
        rises[4] + lifts(edges, 22),
        rises[5] + lifts(edges, 23),
    ];
}

/// The count of a line.
pub(crate) fn count_at(rises: &[u64; 6], line: u8) -> u64
    requires { IsTrue (is_line line) }
    ensures { result ≡ count_at line_numbers rises.now line }
{
    match line {
        0 => rises[0],
        8 => rises[1],
        20 => rises[2],
        21 => rises[3],
        22 => rises[4],
        _ => rises[5],
    }
}
