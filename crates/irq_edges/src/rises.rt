//! Lines that go up once at most in a stretch, each given by the nanosecond from which on it is up.
ghost use Rattle.std.specs.Prelude.{◌≡◌, ◌+◌, ◌-◌, ◌≤◌, [], ◌∷◌, ◌++◌, length, IfSome};
ghost use Rattle.irq_edges.specs.declared.edges.TheConstants.{EDGE_PLACES};
ghost use Rattle.irq_edges.specs.Lines.{line_numbers};
ghost use Rattle.irq_edges.specs.Rises.{is_up_at, levels_at, rises_of, IsNextRise};
ghost use Rattle.irq_edges.specs.private.Rises.{earlier_rise, rises_at, rising, listed, edge_within, edges_within};

use crate::edges::{Edge, EdgeList};
use crate::lines::{LINE_NUMBERS, Lines};

/// The levels of the six lines at time `t`.
pub fn lines_at(times: &[Option<u64>; 6], t: u64) -> Lines
    ensures { result.levels ≡ levels_at t times.now }
{
    let mut levels = [false; 6];
    for place in 0..6 {
        levels[place] = is_up_at(times[place], t);
    }
    Lines { levels }
}

/// Whether a line that is up from then on is up at time `t`.
fn is_up_at(from: Option<u64>, t: u64) -> bool
    ensures { result ≡ is_up_at t from }
{
    match from {
        Some(rise) => rise <= t,
        None => false,
    }
}

/// The first time after `at` and up to `to` at which one of the lines goes up, if there is one.
pub fn next_rise(times: &[Option<u64>], at: u64, to: u64) -> Option<u64>
    ensures { IsNextRise times.now at to result }
{
    let mut next = None;
    for time in times {
        next = earlier_rise(next, *time, at, to);
    }
    next
}

/// The earlier of the first rise so far and a line's rise, where that falls after `at` and up to
/// `to`.
fn earlier_rise(next: Option<u64>, time: Option<u64>, at: u64, to: u64) -> Option<u64>
    ensures { result ≡ earlier_rise at to next time }
{
    match time {
        Some(rise) if at < rise && rise <= next.unwrap_or(to) => Some(rise),
        _ => next,
    }
}

/// Whether a line that is up from then on goes up at time `t`.
fn rises_at(time: Option<u64>, t: u64) -> bool
    ensures { result ≡ rises_at t time }
{
    match time {
        Some(rise) => rise == t,
        None => false,
    }
}

/// Appends an edge for each line that goes up at time `t`. There must be a place for each of them.
/// Answers when the next line goes up, after `t` and up to `to`.
fn append_rises(times: &[Option<u64>; 6], t: u64, to: u64, into: &mut EdgeList) -> Option<u64>
    requires { length into.old + length (rising t line_numbers times.now) ≤ EDGE_PLACES }
    ensures edges { into.new ≡ into.old ++ rising t line_numbers times.now }
    ensures next { IsNextRise times.now t to result }
{
    let mut next = None;
    for place in 0..6 {
        next = earlier_rise(next, times[place], t, to);
        if rises_at(times[place], t) {
            into.push(Edge {
                at: t,
                line: LINE_NUMBERS[place],
                up: true,
            });
        }
    }
    next
}

/// The edge of a line that is up from then on, if it goes up after `from` and up to `to`.
fn edge_within(line: u8, time: Option<u64>, from: u64, to: u64) -> Option<Edge>
    ensures { listed result ≡ edge_within from to line time }
{
    match time {
        Some(rise) if from < rise && rise <= to => Some(Edge {
            at: rise,
            line,
            up: true,
        }),
        _ => None,
    }
}

/// The one edge after `from` and up to `to`, or None where there are more, or none.
#[inline(always)]
fn sole_edge(times: &[Option<u64>; 6], from: u64, to: u64) -> Option<Edge>
    ensures { IfSome result (λ e. edges_within from to line_numbers times.now ≡ e ∷ []) }
{
    let mut sole = None;
    for place in 0..6 {
        if let Some(edge) = edge_within(LINE_NUMBERS[place], times[place], from, to) {
            if sole.is_some() {
                return None;
            }
            sole = Some(edge);
        }
    }
    sole
}

/// Appends the edges of the nanoseconds after `from` and up to `to`, in order of time and, at one
/// time, of line numbers. They are six at most, since no line falls; six places must be free.
// Most stretches with an edge have one.
pub fn emit(times: &[Option<u64>; 6], from: u64, to: u64, into: &mut EdgeList)
    requires forward { from ≤ to }
    requires room { length into.old + 6 ≤ EDGE_PLACES }
    ensures appended { into.new ≡ into.old ++ rises_of line_numbers times.now from (to - from) }
    ensures few { length into.new ≤ length into.old + 6 }
{
    match sole_edge(times, from, to) {
        Some(edge) => into.push(edge),
        None => emit_all(times, from, to, into),
    }
}

/// The same from rise to rise, for as many as there are.
#[inline(never)]
fn emit_all(times: &[Option<u64>; 6], from: u64, to: u64, into: &mut EdgeList)
    requires forward { from ≤ to }
    requires room { length into.old + 6 ≤ EDGE_PLACES }
    ensures appended { into.new ≡ into.old ++ rises_of line_numbers times.now from (to - from) }
    ensures few { length into.new ≤ length into.old + 6 }
{
    let mut at = from;
    let mut next = next_rise(times, from, to);
    while let Some(rise) = next {
        at = rise;
        next = append_rises(times, at, to, into);
    }
}
