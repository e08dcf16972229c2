//! The processors whose records one thread takes.
ghost use Rattle.std.specs.Prelude.{◌≡◌, All, IfOk, OnOk};
ghost use Rattle.race_phase.specs.private.Feed.{AreFresh, HaveRun};

use crate::feed::{Feed, Feeding, Spot};
use crate::halt::Halt;
use crate::pace::Pace;
use crate::work::{Worked, work};
use crate::worker::Worker;
use board_io::Gate;
use clk_units::NoMemory;
use clock_table::Name;
use shared_board::Pass;
use std::alloc::Global;
use std::sync::Wait;

/// Processors that follow one another, whose records one thread takes.
#[derive(Drop)]
pub(crate) struct Team<N: Name> {
    /// Its place among the teams of a phase.
    pub(crate) number: u64,
    pub(crate) passes: Vec<Pass<N>>,
}

/// The passes in teams: each has at most one of the processors that `apart` has a bit of.
pub(crate) fn teams_of<N: Name>(
    alloc: Global,
    passes: Vec<Pass<N>>,
    apart: u64,
) -> Result<Vec<Team<N>>, NoMemory>
    requires fresh { AreFresh N.state passes.items }
    ensures fresh { IfOk result (λ ts. All (λ t. AreFresh N.state t.passes.items) ts.items) }
{
    let mut teams = Vec::new(alloc);
    let mut team = Vec::new(alloc);
    let mut is_led = false;
    for pass in passes {
        let leads = apart >> (pass.number() % 64) & 1 == 1;
        if leads && is_led {
            add_team(&mut teams, team)?;
            team = Vec::new(alloc);
        }
        is_led |= leads;
        let Ok(()) = team.push(pass) else {
            return Err(NoMemory);
        };
    }
    add_team(&mut teams, team)?;
    Ok(teams)
}

/// Adds a team of these passes.
fn add_team<N: Name>(teams: &mut Vec<Team<N>>, passes: Vec<Pass<N>>) -> Result<(), NoMemory>
    requires fresh { AreFresh N.state passes.items }
    requires teams { All (λ t. AreFresh N.state t.passes.items) teams.old.items }
    ensures { OnOk result (All (λ t. AreFresh N.state t.passes.items) teams.new.items) }
{
    let number = teams.len() as u64;
    teams.push(Team { number, passes }).map_err(|_| NoMemory)
}

/// Takes the records of a team's processors: of one after another, from any of them on.
pub(crate) fn work_in_turn<'a, N: Name, F: Feeding, R: Wait, G: Gate>(
    worker: &Worker<'_, N, R, G>,
    alloc: Global,
    mut pace: Pace<'_>,
    feed: &'a Feed<F>,
    from: Spot,
    mut passes: Vec<Pass<N>>,
) -> Result<Vec<Worked<'a, N, F>>, Halt>
    requires fresh { AreFresh N.state passes.items }
    requires cpus { worker.now.cpus ≡ N.state.cpus }
    requires format { worker.now.format ≡ N.state.format }
    ensures { IfOk result (λ ws. HaveRun N.state worker.now.deliveries.now ws.items) }
{
    let first = pace.first(passes.len());
    let Ok(begin) = passes.split_off(first) else {
        return Err(Halt::NoMemory);
    };
    let mut behind = work_each(worker, alloc, &mut pace, feed, from, begin)?;
    let mut all = work_each(worker, alloc, &mut pace, feed, from, passes)?;
    let Ok(()) = all.append(&mut behind) else {
        return Err(Halt::NoMemory);
    };
    Ok(all)
}

/// Takes the records of processors, one after another.
fn work_each<'a, N: Name, F: Feeding, R: Wait, G: Gate>(
    worker: &Worker<'_, N, R, G>,
    alloc: Global,
    pace: &mut Pace<'_>,
    feed: &'a Feed<F>,
    from: Spot,
    passes: Vec<Pass<N>>,
) -> Result<Vec<Worked<'a, N, F>>, Halt>
    requires fresh { AreFresh N.state passes.items }
    requires cpus { worker.now.cpus ≡ N.state.cpus }
    requires format { worker.now.format ≡ N.state.format }
    ensures { IfOk result (λ ws. HaveRun N.state worker.now.deliveries.now ws.items) }
{
    let mut all = Vec::new(alloc);
    for pass in passes {
        let worked = work(worker, alloc, pace, feed, from, pass)?;
        let Ok(()) = all.push(worked) else {
            return Err(Halt::NoMemory);
        };
    }
    Ok(all)
}
