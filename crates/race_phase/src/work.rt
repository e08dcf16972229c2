//! One worker: it takes the records of one processor.
ghost use Rattle.std.specs.Prelude.{◌≡◌, ◌<◌, ◌++◌, [], ◌∷◌, IfOk};
ghost use Rattle.race_phase.specs.Parts.{IsPart, part_at};
ghost use Rattle.shared_board.specs.Passes.{mine};
ghost use Rattle.race_phase.specs.private.Feed.{HasRun};

use crate::feed::{Feed, Feeding, Spot, Taken};
use crate::halt::Halt;
use crate::pace::Pace;
use crate::piece::{Part, Piece};
use crate::worker::Worker;
use crate::working::Working;
use board_io::Gate;
use clock_table::Name;
use shared_board::Pass;
use std::alloc::Global;
use std::sync::Wait;
use trace_blocks::End;

/// How many parts a phase has at most: a trace has fewer.
const MOST_PARTS: usize = 1 << 20;

/// What a worker gives back.
#[derive(Drop)]
pub(crate) struct Worked<'a, N: Name, F: Feeding> {
    pub(crate) pass: Pass<N>,
    pub(crate) text: Vec<u8>,
    /// The parts of the phase, the last of which ends it.
    pub(crate) taken: Vec<Taken<'a, F>>,
    pub(crate) end: End,
    /// Where the next phase begins.
    pub(crate) next: Spot,
}

/// Takes the records of the pass's processor in order, in the parts of a phase from a place on, as they come. It waits for the
/// other workers at the start line, and then for none.
pub(crate) fn work<'a, N: Name, F: Feeding, R: Wait, G: Gate>(
    worker: &Worker<'_, N, R, G>,
    alloc: Global,
    pace: &mut Pace<'_>,
    feed: &'a Feed<F>,
    from: Spot,
    pass: Pass<N>,
) -> Result<Worked<'a, N, F>, Halt>
    requires cpu { pass.number < N.state.cpus }
    requires fresh { (mine pass ≡ []) × (pass.misses ≡ []) }
    requires cpus { worker.now.cpus ≡ N.state.cpus }
    requires format { worker.now.format ≡ N.state.format }
    ensures { IfOk result (λ w. HasRun N.state worker.now.deliveries.now
        w.taken.items w.end pass.number w.pass w.text.items) }
{
    let mut working = Working::new(alloc, pass)?;
    let mut taken = Vec::new(alloc);
    let mut at = from;
    for done in 0..MOST_PARTS {
        let part = next_part(worker, feed, &mut at, &mut taken)?;
        working.take_part(worker, pace, part, done == 0)?;
        if let Some(end) = part.end {
            let Working { pass, text, .. } = working;
            return Ok(Worked {
                pass,
                text,
                taken,
                end,
                next: at,
            });
        }
    }
    Err(Halt::Closed)
}

/// Waits for the part at a place, and adds it to those that were taken. The place is then that of the next part.
fn next_part<'a, N: Name, F: Feeding, R: Wait, G>(
    worker: &Worker<'_, N, R, G>,
    feed: &'a Feed<F>,
    at: &mut Spot,
    taken: &mut Vec<Taken<'a, F>>,
) -> Result<&'a Part, Halt>
    ensures more { IfOk result (λ p. taken.new.items ≡ taken.old.items ++ p.now ∷ []) }
    ensures fits { IfOk result (λ p. IsPart worker.now.cpus worker.now.format p.now) }
{
    let (shown, piece) = feed.take(worker.rt, at.piece)?;
    let part = fitting_part(piece, worker.cpus, worker.format, at.part)?;
    let Ok(()) = taken.push(Taken::of(shown, at.part)) else {
        return Err(Halt::NoMemory);
    };
    *at = after(piece, *at);
    Ok(part)
}

/// A part that fits a board of so many processors and this format, where there is one.
fn fitting_part(piece: &Piece, cpus: u8, format: u8, index: usize) -> Result<&Part, Halt>
    ensures part { IfOk result (λ p. part_at piece.now index ≡ p.now) }
    ensures fits { IfOk result (λ p. IsPart cpus format p.now) }
{
    if piece.cpus() != cpus || piece.format() != format {
        return Err(Halt::Closed);
    }
    match piece.part(index) {
        Some(part) => Ok(part),
        None => Err(Halt::Closed),
    }
}

/// The place of the next part.
fn after(piece: &Piece, at: Spot) -> Spot {
    let part = at.part.saturating_add(1);
    if part < piece.len() {
        return Spot {
            piece: at.piece,
            part,
        };
    }
    Spot {
        piece: at.piece.saturating_add(1),
        part: 0,
    }
}
