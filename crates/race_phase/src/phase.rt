//! The records of a phase, each processor's in a thread of its own.
ghost use Rattle.std.specs.Prelude.{◌≡◌, ◌<◌, IfOk, OnOk, length, vec_len};
ghost use Rattle.std.specs.Bool.{OnTrue};
ghost use Rattle.trace_blocks.specs.declared.deliveries.Deliveries.{Deliveries};
ghost use Rattle.race_phase.specs.private.Feed.{AllRan, AreFresh, GatheredAll, Gathers, HasRunOwn, HaveRun, PhaseRun};

use crate::allowance::Allowance;
use crate::feed::{Feed, Feeding, Spot, Taken, agree};
use crate::halt::Halt;
use crate::means::Means;
use crate::pace::Pace;
use crate::team::{Team, teams_of, work_in_turn};
use crate::text::Text;
use crate::work::Worked;
use crate::worker::Worker;
use board_core::BoardState;
use board_io::Gate;
use clock_table::{Blank, Name};
use shared_board::{Pass, SharedBoard};
use std::alloc::Global;
use std::sync::Wait;
use std::thread::{Threads, map_vec};
use trace_blocks::{Deliveries, End};
use worker_turns::Schedule;

/// A phase whose records were run.
#[derive(Drop)]
pub(crate) struct RanPhase<'a, F: Feeding> {
    /// The board after them.
    pub(crate) board: Box<BoardState>,
    /// Their text: the blocks of processor 0, then those of 1, and so on.
    pub(crate) text: Text,
    /// The parts of the phase.
    pub(crate) taken: Vec<Taken<'a, F>>,
    pub(crate) end: End,
    /// Where the next phase begins.
    pub(crate) next: Spot,
}

/// What the workers of a phase gave.
#[derive(Drop)]
struct Gathered<'a, N: Name, F: Feeding> {
    passes: Vec<Pass<N>>,
    text: Text,
    taken: Vec<Taken<'a, F>>,
    end: End,
    next: Spot,
}

/// Runs the records of a phase from a place on, as they come, on a board, of whose state the blank was made, each
/// processor's in a thread of its own.
pub(crate) fn run_phase<
    'a,
    N: Name + Send + Sync,
    F: Feeding + Send + Sync,
    R: Threads + Wait + Sync,
    G: Gate + Sync,
>(
    means: &Means<'_, R, G>,
    blank: Blank,
    state: &BoardState,
    deliveries: &Deliveries,
    feed: &'a Feed<F>,
    from: Spot,
    allowance: &mut Allowance,
) -> Result<RanPhase<'a, F>, Halt>
    requires table { blank.0 ≡ N.table }
    requires blank { blank.1 ≡ N.state }
    requires state { state.now ≡ N.state }
    requires passes { N.passes ≡ N.state.cpus }
    ensures { IfOk result (λ p. PhaseRun N.state deliveries.now p.taken.items p.end
        p.board.value p.text) }
{
    let rt = means.rt;
    let alloc = means.alloc;
    let gate = means.gate;
    let _processors = state.processors();
    let cpus = state.cpus();
    let format = state.format();
    let (board, passes) = SharedBoard::<N>::new(alloc, blank, state, cpus)?;
    let shared = &board;
    let apart = apart_in(rt, feed, from, allowance)?;
    let teams = teams_of(alloc, passes, apart)?;
    let workers = Schedule::new(teams.len() as u64);
    let schedule = &workers;
    let seed = allowance.seed();
    let Ok(results) = map_vec(
        rt,
        teams,
        &move |team: Team<N>| -> Result<Vec<Worked<'_, N, F>>, Halt>
            requires { AreFresh N.state team.passes.items
                × (cpus ≡ N.state.cpus) × (format ≡ N.state.format) }
            ensures { IfOk result (λ ws. HaveRun N.state deliveries.entry.now ws.items) }
        {
            let worker = Worker {
                rt,
                gate,
                board: shared,
                deliveries,
                cpus,
                format,
            };
            work_in_turn(
                &worker,
                alloc,
                Pace::new(schedule, team.number, seed),
                feed,
                from,
                team.passes,
            )
        },
    ) else {
        return Err(Halt::NoMemory);
    };
    allowance.note(schedule);
    let Gathered {
        passes,
        text,
        taken,
        end,
        next,
    } = gather(alloc, cpus, results)?;
    let stopped = match board.stop(passes) {
        Ok(stopped) => stopped,
        Err(_out) => unreachable!(),
    };
    Ok(RanPhase {
        board: stopped.state,
        text,
        taken,
        end,
        next,
    })
}

/// The processors that want threads of their own, by the first part of a phase.
fn apart_in<F: Feeding, R: Wait>(
    rt: &R,
    feed: &Feed<F>,
    from: Spot,
    allowance: &mut Allowance,
) -> Result<u64, Halt> {
    let (_shown, piece) = feed.take(rt, from.piece)?;
    match piece.part(from.part) {
        Some(part) => Ok(allowance.apart(part)),
        None => Err(Halt::Closed),
    }
}

/// The passes, and the texts of the workers one after another. All have taken the same parts.
fn gather<'a, N: Name, F: Feeding>(
    alloc: Global,
    cpus: u8,
    results: Vec<Result<Vec<Worked<'a, N, F>>, Halt>>,
) -> Result<Gathered<'a, N, F>, Halt>
    ensures len { IfOk result (λ g. vec_len g.passes ≡ cpus) }
    ensures all { IfOk result (λ g. (ds : Deliveries) → AllRan results.entry.items N.state ds
        → GatheredAll N.state ds g.taken.items g.end g.passes.items g.text) }
{
    let mut gathered = Gathered {
        passes: Vec::new(alloc),
        text: Text::new(alloc),
        taken: Vec::new(alloc),
        end: End::Finish,
        next: Spot { piece: 0, part: 0 },
    };
    for result in results {
        let team = result?;
        gathered.add_all(team)?;
    }
    if gathered.passes.is_empty() || gathered.passes.len() != usize::from(cpus) {
        return Err(Halt::Closed);
    }
    Ok(gathered)
}

impl<'a, N: Name, F: Feeding> Gathered<'a, N, F> {
    /// Adds what the workers of a team gave.
    fn add_all(&mut self, team: Vec<Worked<'a, N, F>>) -> Result<(), Halt>
        ensures { OnOk result ((ds : Deliveries) → HaveRun N.state ds team.entry.items
            → Gathers N.state ds self.old → Gathers N.state ds self.new) }
    {
        for worked in team {
            self.add(worked)?;
        }
        Ok(())
    }

    /// Adds what the worker of the next processor gave, which has taken the same parts as those before it.
    fn add(&mut self, worked: Worked<'a, N, F>) -> Result<(), Halt>
        ensures { OnOk result ((ds : Deliveries) → HasRunOwn N.state ds worked.entry
            → Gathers N.state ds self.old → Gathers N.state ds self.new) }
    {
        if worked.pass.number() != self.passes.len() as u64 || !self.has_taken(&worked.taken) {
            return Err(Halt::Closed);
        }
        self.text.append(worked.text)?;
        let Ok(()) = self.passes.push(worked.pass) else {
            return Err(Halt::NoMemory);
        };
        self.taken = worked.taken;
        self.end = worked.end;
        self.next = worked.next;
        Ok(())
    }
    /// Whether the workers so far have taken these parts.
    fn has_taken(&self, parts: &Vec<Taken<'a, F>>) -> bool
        ensures { OnTrue result
            (0 < length self.now.passes.items → self.now.taken.items ≡ parts.now.items) }
    {
        self.passes.is_empty() || agree(&self.taken, parts)
    }
}
