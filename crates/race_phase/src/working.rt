//! What one worker has done of a phase.
ghost use Rattle.std.specs.Prelude.{◌≡◌, ◌<◌, ◌≤◌, ◌+◌, ◌^◌, ℕ, [], ◌++◌, All, List, IfOk, IfSome, OnOk, false, length};
ghost use Rattle.board_history.specs.History.{IsLegal};
ghost use Rattle.shared_board.specs.Passes.{mine};
ghost use Rattle.trace_blocks.specs.declared.deliveries.Deliveries.{Deliveries};
ghost use Rattle.race_phase.specs.Calls.{IsFitting};
ghost use Rattle.trace_blocks.specs.declared.records.Record.{Record};
ghost use Rattle.race_phase.specs.private.Working.{IsReady, IsWorking};

use crate::batch::{Halted, Place, new_places, print_all};
use crate::pace::{FEW, MOST_AT_ONCE, Pace};
use crate::piece::Part;
use crate::records::RecordList;
use crate::worker::Worker;
use board_io::Gate;
use clk_units::NoMemory;
use clock_table::Name;
use shared_board::Pass;
use std::alloc::Global;
use std::sync::Wait;
use trace_blocks::Record;

/// About how many bytes the block of a record has: most have a line and no edge.
const BLOCK_LEN: u64 = 40;

/// What a worker has done: the records that wait are answered next. Once one isn't answered, it answers none.
#[derive(Drop)]
pub(crate) struct Working<N: Name> {
    pub(crate) pass: Pass<N>,
    pub(crate) text: Vec<u8>,
    waiting: Vec<Record>,
    places: Vec<Place>,
    /// How many records it has answered.
    answered: u64,
    halted: bool,
}

impl<N: Name> Working<N> {
    /// Nothing yet.
    pub(crate) fn new(alloc: Global, pass: Pass<N>) -> Result<Working<N>, NoMemory>
        requires fresh { (mine pass ≡ []) × (pass.misses ≡ []) }
        ensures ready { IfOk result (IsReady N.state) }
        ensures none { IfOk result (λ w. (w.answered ≡ 0) × (w.waiting.items ≡ [])) }
        ensures working { IfOk result (λ w. (ds : Deliveries)
            → IsWorking N.state ds pass.number [] w) }
    {
        let _legal = pass.number();
        let places = new_places(alloc, MOST_AT_ONCE)?;
        Ok(Working {
            pass,
            text: Vec::new(alloc),
            waiting: Vec::new(alloc),
            places,
            answered: 0,
            halted: false,
        })
    }

    /// How many records wait.
    fn waits(&self) -> u64 {
        self.waiting.len() as u64
    }

    /// Makes room for the blocks of so many records. Where there is no memory for it, the text grows as they are appended.
    fn make_room(&mut self, records: u64)
        ensures rest { self.new ≡ record self.old { text = self.new.text } }
        ensures text { self.new.text.items ≡ self.old.text.items }
    {
        let _ = self
            .text
            .reserve(records.saturating_mul(BLOCK_LEN) as usize);
    }

    /// Takes the records of the pass's processor in a part, and answers all where the part ends its phase. Before the first part
    /// of a phase it makes room for their blocks, and waits for the other workers at the start line.
    pub(crate) fn take_part<R: Wait, G: Gate>(
        &mut self,
        worker: &Worker<'_, N, R, G>,
        pace: &mut Pace<'_>,
        part: &Part,
        is_first: bool,
    ) -> Result<(), NoMemory>
        requires ready { IsReady N.state self.old }
        requires fitting { All (IsFitting N.state.cpus N.state.format) part.now.records }
        requires few { self.old.answered + length self.old.waiting.items + length part.now.records
            < 2 ^ 63 }
        ensures ready { OnOk result (IsReady N.state self.new) }
        ensures few { OnOk result (self.new.answered + length self.new.waiting.items
            ≤ self.old.answered + length self.old.waiting.items + length part.now.records) }
        ensures done { OnOk result ((n : ℕ) (rs : List Record)
            → IsWorking N.state worker.now.deliveries.now n rs self.old
            → IsWorking N.state worker.now.deliveries.now n (rs ++ part.now.records) self.new) }
        ensures none { OnOk result (IfSome part.now.end (λ _. self.new.waiting.items ≡ [])) }
    {
        let left = left_of(part, self.pass.number()).saturating_add(self.waits());
        if is_first {
            self.make_room(left);
            pace.start(worker.rt, left);
        }
        self.take(worker, pace, &part.records, left)?;
        if part.end.is_none() {
            return Ok(());
        }
        self.answer(worker)
    }

    /// Takes the records of the pass's processor in order: takes a few, asks for the lock, and appends their blocks when
    /// it has given the lock back. So many are left, with those that wait.
    fn take<R: Wait, G: Gate>(
        &mut self,
        worker: &Worker<'_, N, R, G>,
        pace: &mut Pace<'_>,
        records: &RecordList,
        mut left: u64,
    ) -> Result<(), NoMemory>
        requires ready { IsReady N.state self.old }
        requires fitting { All (IsFitting N.state.cpus N.state.format) records.now }
        requires few { self.old.answered + length self.old.waiting.items + length records.now < 2 ^ 63 }
        ensures ready { OnOk result (IsReady N.state self.new) }
        ensures few { OnOk result (self.new.answered + length self.new.waiting.items
            ≤ self.old.answered + length self.old.waiting.items + length records.now) }
        ensures done { OnOk result ((n : ℕ) (rs : List Record)
            → IsWorking N.state worker.now.deliveries.now n rs self.old
            → IsWorking N.state worker.now.deliveries.now n (rs ++ records.now) self.new) }
    {
        let cpu = self.pass.number();
        let mut at_once = pace.next(left);
        for place in 0..records.len() {
            if self.halted || u64::from(records.cpu(place)) != cpu {
                continue;
            }
            let Ok(()) = self.waiting.push(records.record(place)) else {
                return Err(NoMemory);
            };
            if self.waiting.len() >= at_once {
                pace.wait(left);
                worker.board.give_way();
                left = left.saturating_sub(self.waits());
                self.answer(worker)?;
                at_once = pace.next(left);
            }
        }
        Ok(())
    }

    /// Answers the records that wait, and appends their blocks. Then none waits.
    fn answer<R: Wait, G: Gate>(&mut self, worker: &Worker<'_, N, R, G>) -> Result<(), NoMemory>
        requires places { length self.old.places.items ≡ 16 }
        requires most { length self.old.waiting.items ≤ 16 }
        requires small { self.old.answered + length self.old.waiting.items < 2 ^ 64 }
        requires fitting { All (IsFitting N.state.cpus N.state.format) self.old.waiting.items }
        requires legal { self.old.halted ≡ false → IsLegal self.old.pass.seen }
        ensures ready { OnOk result (IsReady N.state self.new) }
        ensures none { OnOk result (self.new.waiting.items ≡ []) }
        ensures few { OnOk result
            (self.new.answered ≤ self.old.answered + length self.old.waiting.items) }
        ensures done { OnOk result ((n : ℕ) (rs : List Record)
            → IsWorking N.state worker.now.deliveries.now n rs self.old
            → IsWorking N.state worker.now.deliveries.now n rs self.new) }
    {
        if !self.halted {
            let answered = print_all(
                worker,
                &mut self.pass,
                &self.waiting,
                self.answered,
                &mut self.places,
                &mut self.text,
            )?;
            match answered {
                Ok(()) => self.answered += self.waiting.len() as u64,
                Err(Halted) => self.halted = true,
            }
        }
        self.waiting.clear();
        Ok(())
    }
}

/// How many records of a processor are left: many, where the part doesn't end its phase.
fn left_of(part: &Part, cpu: u64) -> u64 {
    let own = part.records.count_of(cpu);
    match part.end {
        Some(_) => own,
        None => own.saturating_add(FEW),
    }
}
