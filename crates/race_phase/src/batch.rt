//! Records of one processor that are answered together: accesses that follow one another under one lock, reads of pages
//! and clocks without it.
ghost use Rattle.std.specs.Prelude.{◌≡◌, ◌<◌, ◌≤◌, ◌+◌, ◌^◌, ◌++◌, ◌⊎◌, All, IfOk, OnOk, OnErr, length, take, vec_len};
ghost use Rattle.std.specs.Bool.{OnTrue};
ghost use Rattle.board_history.specs.History.{IsLegal};
ghost use Rattle.race_phase.specs.Calls.{IsFitting};
ghost use Rattle.race_phase.specs.private.Told.{reading};
ghost use Rattle.race_phase.specs.private.Workers.{
  places_text,
  AllAnswered,
  AreAskable,
  HasAnswered,
  HasGoneOn,
  HasHalted,
  HasPrinted,
};

use crate::texts::append_block;
use crate::told::Told;
use crate::worker::Worker;
use board_core::{Access, Reply};
use board_io::Gate;
use clk_units::NoMemory;
use clock_table::Name;
use shared_board::{Asked, Holding, Pass, Read};
use std::alloc::Global;
use std::sync::Wait;
use trace_blocks::{Deliveries, Record};
use trace_records::Call;

// The count of the reply's edges is last in it, beside what each record asks for.
/// What a record was told, until it is printed. Its reply is put where it stays, so that no list of edges is moved.
#[derive(Drop)]
pub(crate) struct Place {
    pub(crate) reply: Reply,
    pub(crate) told: Told,
}

/// A record wasn't answered.
#[derive(Drop)]
pub(crate) struct Halted;

/// So many places.
pub(crate) fn new_places(alloc: Global, count: usize) -> Result<Vec<Place>, NoMemory>
    ensures { IfOk result (λ v. vec_len v ≡ count) }
{
    let Ok(mut places) = Vec::with_capacity(alloc, count) else {
        return Err(NoMemory);
    };
    let mut made = 0;
    while made < count {
        let Ok(()) = places.push(Place {
            reply: Reply::empty(),
            told: Told::Acted,
        }) else {
            return Err(NoMemory);
        };
        made += 1;
    }
    Ok(places)
}

/// Answers records in order, and then appends their blocks. It stops at the first record that isn't answered, and then
/// appends none. `index` is that of the first for the gate.
pub(crate) fn print_all<N: Name, R: Wait, G: Gate>(
    worker: &Worker<'_, N, R, G>,
    pass: &mut Pass<N>,
    records: &[Record],
    index: u64,
    places: &mut [Place],
    out: &mut Vec<u8>,
) -> Result<Result<(), Halted>, NoMemory>
    requires places { length records.now ≤ length places.old }
    requires small { index + length records.now < 2 ^ 64 }
    requires fitting { All (IsFitting N.state.cpus N.state.format) records.now }
    requires legal { IsLegal pass.old.seen }
    ensures ok { IfOk result (λ told. OnOk told (HasPrinted N.state worker.now.deliveries.now
        records.now out.old.items out.new.items pass.old pass.new)) }
    ensures legal { IfOk result (λ told. OnOk told (IsLegal pass.new.seen)) }
    ensures err { IfOk result
        (λ told. OnErr told (HasHalted N.state records.now pass.old pass.new)) }
{
    let Ok(()) = answer_all(worker, pass, records, index, places) else {
        return Ok(Err(Halted));
    };
    append_blocks(records, &places[..records.len()], worker.deliveries, out)?;
    Ok(Ok(()))
}

/// Answers records in order, each between two calls of the gate, and puts what each was told into its place. It stops at
/// the first record that isn't answered. `index` is that of the first for the gate.
fn answer_all<N: Name, R: Wait, G: Gate>(
    worker: &Worker<'_, N, R, G>,
    pass: &mut Pass<N>,
    records: &[Record],
    index: u64,
    places: &mut [Place],
) -> Result<(), Halted>
    requires { AreAskable N.state index records.now places.old pass.old }
    ensures ok { OnOk result (AllAnswered N.state records.now
        (take (length records.now) places.new) pass.old pass.new) }
    ensures legal { OnOk result (IsLegal pass.new.seen) }
    ensures err { OnErr result (HasHalted N.state records.now pass.old pass.new) }
{
    let mut done = 0;
    while done < records.len() {
        let run = match answer_run(worker, pass, records, index, places, done) {
            Ok(next) => next,
            Err(Halted) => return Err(Halted),
        };
        match answer_next(worker, pass, records, index, places, run) {
            Ok(next) => done = next,
            Err(Halted) => return Err(Halted),
        }
    }
    Ok(())
}

/// Whether there is an access at a place, and another after it.
fn begins_run(records: &[Record], done: usize) -> bool
    requires { done < length records.now }
    ensures { OnTrue result (done + 1 < length records.now) }
{
    done + 1 < records.len()
        && matches!(records[done].call, Call::Act { .. })
        && matches!(records[done + 1].call, Call::Act { .. })
}

/// Answers accesses that follow one another, two at least, from a place on, under one lock, which it gives back. It
/// says at which place it stops, where there is no access, or no record; or that one of the accesses wasn't answered. The
/// gate's first and last calls are outside of the lock.
fn answer_run<N: Name, R: Wait, G: Gate>(
    worker: &Worker<'_, N, R, G>,
    pass: &mut Pass<N>,
    records: &[Record],
    index: u64,
    places: &mut [Place],
    from: usize,
) -> Result<usize, Halted>
    requires fit { AreAskable N.state index records.now places.old pass.old }
    requires from { from < length records.now }
    ensures place { IfOk result (λ k. (from ≤ k) × (k ≤ length records.now)) }
    ensures told { HasGoneOn N.state records.now places.old places.new from result pass.old pass.new }
{
    if !begins_run(records, from) {
        return Ok(from);
    }
    let cpu = records[from].cpu;
    let mut last = index + from as u64;
    worker.gate.before(worker.rt, cpu, last);
    let mut holding = worker.board.hold(worker.rt);
    let mut done = from;
    while done < records.len() {
        let record = &records[done];
        let Call::Act { access } = record.call else {
            break;
        };
        let at = index + done as u64;
        if at > last {
            worker.gate.after(worker.rt, cpu, last);
            worker.gate.before(worker.rt, cpu, at);
            last = at;
        }
        match answer_access(
            worker,
            &mut holding,
            pass,
            record,
            access,
            &mut places[done],
        ) {
            Ok(()) => {}
            Err(Halted) => return Err(Halted),
        }
        done += 1;
    }
    drop(holding);
    worker.gate.after(worker.rt, cpu, last);
    Ok(done)
}

/// Answers the record at a place, where there is one. It says at which place it stops, or that the record wasn't answered.
fn answer_next<N: Name, R: Wait, G: Gate>(
    worker: &Worker<'_, N, R, G>,
    pass: &mut Pass<N>,
    records: &[Record],
    index: u64,
    places: &mut [Place],
    from: usize,
) -> Result<usize, Halted>
    requires fit { AreAskable N.state index records.now places.old pass.old }
    requires from { from ≤ length records.now }
    ensures place { IfOk result (λ k. (k ≡ from) × (k ≡ length records.now)
        ⊎ (k ≡ from + 1) × (k ≤ length records.now)) }
    ensures told { HasGoneOn N.state records.now places.old places.new from result pass.old pass.new }
{
    if from == records.len() {
        return Ok(from);
    }
    let record = &records[from];
    let at = index + from as u64;
    match held(worker, pass, record, at, &mut places[from]) {
        Ok(()) => Ok(from + 1),
        Err(Halted) => Err(Halted),
    }
}

/// Answers a record that is an access, under the lock.
#[inline(always)]
fn answer_access<N: Name, R: Wait, G: Gate>(
    worker: &Worker<'_, N, R, G>,
    holding: &mut Holding<'_, N>,
    pass: &mut Pass<N>,
    given: &Record,
    access: Access,
    place: &mut Place,
) -> Result<(), Halted>
    requires call { given.now.call ≡ Call.Act access }
    requires fitting { IsFitting N.state.cpus N.state.format given.now }
    requires legal { IsLegal pass.old.seen }
    ensures { HasAnswered N.state given.now place.new result pass.old pass.new }
{
    place.told.note_act();
    place.reply.clear();
    let asked = Asked {
        cpu: given.cpu,
        h: given.h,
        access,
    };
    match holding.answer(worker.rt, worker.gate, pass, asked, &mut place.reply) {
        Ok(()) => Ok(()),
        Err(_refusal) => Err(Halted),
    }
}

/// Answers a record between two calls of the gate, which are outside of the lock.
#[inline(always)]
fn held<N: Name, R: Wait, G: Gate>(
    worker: &Worker<'_, N, R, G>,
    pass: &mut Pass<N>,
    given: &Record,
    index: u64,
    place: &mut Place,
) -> Result<(), Halted>
    requires fitting { IsFitting N.state.cpus N.state.format given.now }
    requires legal { IsLegal pass.old.seen }
    ensures { HasAnswered N.state given.now place.new result pass.old pass.new }
{
    worker.gate.before(worker.rt, given.cpu, index);
    let result = answer(worker, pass, given, place);
    worker.gate.after(worker.rt, given.cpu, index);
    result
}

/// Answers a record: an access under a lock of its own, a read of a page or of the clock without one.
fn answer<N: Name, R: Wait, G: Gate>(
    worker: &Worker<'_, N, R, G>,
    pass: &mut Pass<N>,
    given: &Record,
    place: &mut Place,
) -> Result<(), Halted>
    requires fitting { IsFitting N.state.cpus N.state.format given.now }
    requires legal { IsLegal pass.old.seen }
    ensures { HasAnswered N.state given.now place.new result pass.old pass.new }
{
    match given.call {
        Call::Act { access } => {
            let mut holding = worker.board.hold(worker.rt);
            answer_access(worker, &mut holding, pass, given, access, place)
        }
        Call::ReadPage { page } => {
            answer_read(worker, pass, given, Read::Page { cpu: page }, place)
        }
        Call::ReadClock { page } => {
            answer_read(worker, pass, given, Read::Clock { cpu: page }, place)
        }
        Call::ReadHv => answer_read(worker, pass, given, Read::Hv, place),
    }
}

/// Answers a record that reads this.
#[inline(always)]
fn answer_read<N: Name, R: Wait, G>(
    worker: &Worker<'_, N, R, G>,
    pass: &mut Pass<N>,
    given: &Record,
    what: Read,
    place: &mut Place,
) -> Result<(), Halted>
    requires call { given.now.call ≡ reading what }
    requires fitting { IsFitting N.state.cpus N.state.format given.now }
    requires legal { IsLegal pass.old.seen }
    ensures { HasAnswered N.state given.now place.new result pass.old pass.new }
{
    match worker.board.read(worker.rt, pass, what, given.h) {
        Ok(reply) => {
            place.told = Told::Read { reply };
            Ok(())
        }
        Err(_fault) => Err(Halted),
    }
}

/// Appends the blocks of records, in order, each by its place.
fn append_blocks(
    records: &[Record],
    places: &[Place],
    deliveries: &Deliveries,
    out: &mut Vec<u8>,
) -> Result<(), NoMemory>
    requires { length places.now ≡ length records.now }
    ensures { OnOk result
        (out.new.items ≡ out.old.items ++ places_text deliveries.now records.now places.now) }
{
    for k in 0..records.len() {
        let record = &records[k];
        let place = &places[k];
        append_block(record.line, &place.told, &place.reply, deliveries, out)?;
    }
    Ok(())
}
