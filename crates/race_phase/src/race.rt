//! A trace of phases, run by one thread a processor.
ghost use Rattle.std.specs.Prelude.{◌≡◌, ◌++◌, [], None, IfOk, IfSome, OnOk};
ghost use Rattle.board_core.specs.Refusals.{meters_of};
ghost use Rattle.race_phase.specs.Phases.{trace_refusal, race_text};
ghost use Rattle.race_phase.specs.private.Feed.{PhaseHasEnded, board_or};

use crate::allowance::Allowance;
use crate::feed::{Feed, Feeding, Spot, Taken};
use crate::halt::Halt;
use crate::means::Means;
use crate::phase::{RanPhase, run_phase};
use crate::text::Text;
use crate::written::Written;
use board_core::BoardState;
use board_io::Gate;
use clk_units::NoMemory;
use clock_table::Blank;
use std::alloc::Global;
use std::marker::Brand;
use std::sync::Wait;
use std::thread::Threads;
use trace_blocks::{Deliveries, End, end_phase};

/// How many phases a trace has at most: it has fewer.
const MOST_PHASES: usize = 1 << 20;

/// What a trace gave.
#[derive(Drop)]
pub struct Ran<'a, F: Feeding> {
    /// The board after the last phase.
    pub state: Box<BoardState>,
    /// The text of all phases.
    pub text: Text,
    /// The trace that was run.
    pub trace: Written<'a, F>,
}

/// Runs a trace as it is read. What it gives means nothing where a line of the trace is refused in file order. Each phase
/// runs on a board that its threads share, one thread a processor, and ends by its save or move on the board that they
/// leave.
pub fn run_race<'a, F: Feeding + Send + Sync, R: Threads + Wait + Sync, G: Gate + Sync>(
    rt: &R,
    alloc: Global,
    gate: &G,
    feed: &'a Feed<F>,
) -> Result<Ran<'a, F>, Halt>
    ensures { IfOk result (λ r. IfSome r.trace.opened (λ o.
        trace_refusal (meters_of o.state) r.trace.phases ≡ None
        → race_text o.deliveries o.state r.trace.phases r.state.value r.text)) }
{
    let opened = feed.opened(rt)?;
    let Some(opening) = feed.opening(&opened) else {
        return Err(Halt::Closed);
    };
    let means = Means { rt, alloc, gate };
    let mut text = Text::new(alloc);
    let mut taken = Vec::new(alloc);
    let mut allowance = Allowance::new();
    let mut left = None;
    let mut from = Spot { piece: 0, part: 0 };
    for _phase in 0..MOST_PHASES {
        let state = opens_with(&opening.state, &left);
        let ended = run_and_end(
            &means,
            state,
            &opening.deliveries,
            feed,
            from,
            &mut allowance,
            &mut text,
        )?;
        join_parts(&mut taken, ended.taken)?;
        from = ended.next;
        if ended.end == End::Finish {
            return Ok(Ran {
                state: ended.board,
                text,
                trace: Written { opened, put: taken },
            });
        }
        left = Some(ended.board);
    }
    Err(Halt::Closed)
}

/// The board with which a phase opens: the one that the phase before it left, or the first one.
fn opens_with<'a>(first: &'a BoardState, left: &'a Option<Box<BoardState>>) -> &'a BoardState
    ensures { result.now ≡ board_or first.now left.now }
{
    match left {
        Some(board) => &**board,
        None => first,
    }
}

/// Puts parts behind others.
fn join_parts<'a, F: Feeding>(
    taken: &mut Vec<Taken<'a, F>>,
    more: Vec<Taken<'a, F>>,
) -> Result<(), NoMemory>
    ensures { OnOk result
        (taken.new.items ≡ taken.old.items ++ more.entry.items) }
{
    for part in more {
        let Ok(()) = taken.push(part) else {
            return Err(NoMemory);
        };
    }
    Ok(())
}

/// A phase that was run and ended.
#[derive(Drop)]
struct EndedPhase<'a, F: Feeding> {
    /// The board with which the next opens.
    board: Box<BoardState>,
    taken: Vec<Taken<'a, F>>,
    end: End,
    /// Where the next begins.
    next: Spot,
}

/// Runs one phase and ends it.
fn run_and_end<'a, F: Feeding + Send + Sync, R: Threads + Wait + Sync, G: Gate + Sync>(
    means: &Means<'_, R, G>,
    state: &BoardState,
    deliveries: &Deliveries,
    feed: &'a Feed<F>,
    from: Spot,
    allowance: &mut Allowance,
    text: &mut Text,
) -> Result<EndedPhase<'a, F>, Halt>
    ensures { IfOk result (λ g. PhaseHasEnded state.now deliveries.now g.taken.items g.end
        g.board.value text.old text.new) }
{
    let blank = Blank::new(means.alloc, state)?;
    let RanPhase {
        mut board,
        text: lines,
        taken,
        end,
        next,
    } = run_phase::<Brand, F, R, G>(means, blank, state, deliveries, feed, from, allowance)?;
    if board.cpus() != state.cpus() {
        return Err(Halt::Closed);
    }
    text.join(lines)?;
    let mut block = Vec::new(means.alloc);
    let None = end_phase(&end, &mut *board, deliveries, &mut block)? else {
        return Err(Halt::Closed);
    };
    text.append(block)?;
    Ok(EndedPhase {
        board,
        taken,
        end,
        next,
    })
}
