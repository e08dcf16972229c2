//! What a check counts of the records that it keeps, and why it refuses one: by the meters of the board.
ghost use Rattle.std.specs.Prelude.{◌≡◌, ◌<◌, None};
ghost use Rattle.std.specs.Bool.{OnTrue};
ghost use Rattle.trace_records.specs.Calls.{IsFittingCall};
ghost use Rattle.trace_blocks.specs.Ends.{IsEnd, next_meters, end_refusal};
ghost use Rattle.trace_blocks.specs.Refusals.{
  refused_access,
  count_refusal,
  call_refusal,
  move_refusal,
  job_refusal,
};
ghost use Rattle.race_phase.specs.Order.{after_call};
ghost use Rattle.trace_replay.specs.Ready.{JobSuits};

use board_core::{Access, Tally};
use reply_text::Refused;
use trace_blocks::{End, refused_access, refused_move, refused_time};
use trace_text::{Call, Job, Record};

/// Whether a record is one that ends no phase, and isn't refused. No cause of a refusal is made.
#[inline(always)]
pub(crate) fn admits(tally: &Tally, given: &Record) -> bool
    requires cpu { given.now.cpu < tally.now.cpus }
    requires suits { JobSuits tally.now.cpus tally.now.format given.now.job }
    ensures { OnTrue result
        (job_refusal tally.now given.now.cpu given.now.h given.now.job ≡ None) }
{
    match given.job {
        Job::Ask(call) => admits_call(tally, given.cpu, given.h, call),
        Job::Save => false,
        Job::Move { .. } => false,
    }
}

/// Whether a call isn't refused.
#[inline(always)]
fn admits_call(tally: &Tally, cpu: u8, h: u64, call: Call) -> bool
    requires cpu { cpu < tally.now.cpus }
    requires fits { IsFittingCall tally.now.cpus tally.now.format call }
    ensures { OnTrue result (call_refusal tally.now cpu h call ≡ None) }
{
    match call {
        Call::Act { access } => admits_access(tally, cpu, h, access),
        Call::ReadPage { .. } => admits_count(tally, h),
        Call::ReadClock { .. } => admits_count(tally, h),
        Call::ReadHv => admits_count(tally, h),
    }
}

/// Whether an access isn't refused.
#[inline(always)]
fn admits_access(tally: &Tally, cpu: u8, h: u64, access: Access) -> bool
    requires cpu { cpu < tally.now.cpus }
    requires legal { IsFittingCall tally.now.cpus tally.now.format (Call.Act access) }
    ensures { OnTrue result (call_refusal tally.now cpu h (Call.Act access) ≡ None) }
{
    match tally.admit(cpu, h, access) {
        Ok(()) => true,
        Err(_) => false,
    }
}

/// Whether a reading at a count of the host's counter isn't refused.
#[inline(always)]
#[tactic(auto, using(trace_replay::proofs::Counts::counted))]
fn admits_count(tally: &Tally, h: u64) -> bool
    ensures { OnTrue result (count_refusal tally.now.anchor h ≡ None) }
{
    match tally.check_count(h) {
        Ok(()) => true,
        Err(_) => false,
    }
}

/// Why a record is refused, if it is.
pub(crate) fn job_refusal(tally: &Tally, given: &Record) -> Option<Refused>
    requires cpu { given.now.cpu < tally.now.cpus }
    requires suits { JobSuits tally.now.cpus tally.now.format given.now.job }
    ensures { result ≡ job_refusal tally.now given.now.cpu given.now.h given.now.job }
{
    match given.job {
        Job::Ask(call) => call_refusal(tally, given.cpu, given.h, call),
        Job::Save => access_refusal(tally, given.cpu, given.h, Access::Step),
        Job::Move { gap, .. } => move_refusal(tally, given.cpu, given.h, gap),
    }
}

/// Why a call is refused.
fn call_refusal(tally: &Tally, cpu: u8, h: u64, call: Call) -> Option<Refused>
    requires cpu { cpu < tally.now.cpus }
    requires fits { IsFittingCall tally.now.cpus tally.now.format call }
    ensures { result ≡ call_refusal tally.now cpu h call }
{
    match call {
        Call::Act { access } => access_refusal(tally, cpu, h, access),
        Call::ReadPage { .. } => count_refusal(tally, h),
        Call::ReadClock { .. } => count_refusal(tally, h),
        Call::ReadHv => count_refusal(tally, h),
    }
}

/// Why an access is refused.
fn access_refusal(tally: &Tally, cpu: u8, h: u64, access: Access) -> Option<Refused>
    requires cpu { cpu < tally.now.cpus }
    requires legal { IsFittingCall tally.now.cpus tally.now.format (Call.Act access) }
    ensures { result ≡ call_refusal tally.now cpu h (Call.Act access) }
{
    match tally.admit(cpu, h, access) {
        Ok(()) => None,
        Err(refusal) => Some(refused_access(refusal)),
    }
}

/// Why a reading at a count of the host's counter is refused.
#[tactic(auto, using(trace_replay::proofs::Counts::counted, trace_replay::proofs::Counts::faulted))]
fn count_refusal(tally: &Tally, h: u64) -> Option<Refused>
    ensures { result ≡ count_refusal tally.now.anchor h }
{
    match tally.check_count(h) {
        Ok(()) => None,
        Err(fault) => Some(refused_time(fault)),
    }
}

/// Why a move is refused, by the access before it or by its gap.
fn move_refusal(tally: &Tally, cpu: u8, h: u64, gap: u64) -> Option<Refused>
    requires { cpu < tally.now.cpus }
    ensures { result ≡ move_refusal tally.now cpu h gap }
{
    let mut tally = *tally;
    match tally.admit(cpu, h, Access::Step) {
        Ok(()) => tally.count(cpu, h, Access::Step),
        Err(refusal) => return Some(refused_access(refusal)),
    }
    match tally.admit_move(gap) {
        Ok(()) => None,
        Err(fault) => Some(refused_move(fault)),
    }
}

/// Counts a call that isn't refused.
#[inline(always)]
pub(crate) fn count_call(tally: &mut Tally, cpu: u8, h: u64, call: &Call)
    requires cpu { cpu < tally.old.cpus }
    requires fits { IsFittingCall tally.old.cpus tally.old.format call.now }
    requires free { call_refusal tally.old cpu h call.now ≡ None }
    ensures { tally.new ≡ after_call tally.old cpu h call.now }
{
    match *call {
        Call::Act { access } => tally.count(cpu, h, access),
        Call::ReadPage { .. } => {}
        Call::ReadClock { .. } => {}
        Call::ReadHv => {}
    }
}

/// Counts what ends a phase, and isn't refused.
pub(crate) fn count_end(tally: &mut Tally, end: End)
    requires fits { IsEnd tally.old.cpus end }
    requires free { end_refusal tally.old end ≡ None }
    ensures { tally.new ≡ next_meters end tally.old }
{
    match end {
        End::Finish => {}
        End::Save { cpu, h, .. } => tally.count(cpu, h, Access::Step),
        End::Move { cpu, h, host, .. } => {
            tally.count(cpu, h, Access::Step);
            tally.count_move(host.khz, host.start, host.gap)
        }
    }
}
