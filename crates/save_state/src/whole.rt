//! The board that bytes are, whether or not their conditions hold.
ghost use Rattle.std.specs.Prelude.{◌≡◌, ◌≤◌, ◌<◌, ◌+◌, ◌-◌, ◌^◌, ◌++◌, replicate, slice_index_or, if◌then◌else◌, nat_le, false};
ghost use Rattle.board_types.specs.Setup.{timers_of, has_messages};
ghost use Rattle.board_types.specs.declared.setup.TheConstants.{LAST_FORMAT};
ghost use Rattle.byte_table.specs.Codes.{byte, row_value};
ghost use Rattle.byte_table.specs.Fold.{size_of};
ghost use Rattle.byte_table.specs.Reading.{IsPast};
ghost use Rattle.tick_policy.specs.Parts.{policy_of};
ghost use Rattle.save_state.specs.Fields.{
  counters,
  clock,
  registers,
  timers,
  policy_place,
  lines,
  counts_of,
  rises,
  processors,
  front,
};
ghost use Rattle.save_state.specs.Reading.{board_in};
ghost use Rattle.save_state.specs.private.Cursor.{read_at};
ghost use Rattle.save_state.specs.private.Front.{front_of};

use crate::apics::apics_in;
use crate::front::Front;
use crate::messages::messages_in;
use crate::pieces::{counter_in, processor_in, ticks_in, timer_in};
use crate::reference::hv_in;
use crate::sizes::counts_of;
use board_core::{BoardParts, ProcessorParts, timers_of};
use board_types::has_messages;
use byte_table::Fields;
use hpet_comparator::TimerParts;
use hpet_registers::HpetParts;
use pit_counter::CounterParts;
use pit_readback::PitParts;
use rtc_registers::RtcParts;
use tick_policy::{Counts, Policy, TickParts};

/// What the place of a processor that isn't there holds.
const NO_PROCESSOR: ProcessorParts = ProcessorParts {
    offset: 0,
    adjust: 0,
    number: 0,
    version: 0,
    tsc_timestamp: 0,
    system_time: 0,
    mul: 0,
    shift: 0,
    flags: 0,
};

/// What the place of a timer that isn't there holds.
const NO_TIMER: TimerParts = TimerParts {
    config: 0,
    comparator: 0,
    period: 0,
};

/// What the place of a tick line that isn't there holds.
pub(crate) const NO_LINE: TickParts = TickParts {
    policy: Policy::Discard,
    up: false,
    counts: Counts {
        due: 0,
        rises: 0,
        queue: 0,
        lost: 0,
    },
};

/// The counters of the 8254.
#[tactic(auto, using(crate::proofs::Formats::takes))]
fn counters_in(fields: &mut Fields) -> [CounterParts; 3]
    requires { fields.old.place < 2 ^ 40 }
    ensures value { result ≡ (read_at counters fields.old).pit.counters }
    ensures next { IsPast (size_of counters) fields.old fields.new }
{
    [counter_in(fields), counter_in(fields), counter_in(fields)]
}

/// Speaker data, and the MC146818.
#[tactic(auto, unfolding(crate::specs::Fields::clock, byte_table::specs::Kinds::plain, byte_table::specs::Codes::rows))]
fn clock_in(fields: &mut Fields) -> (bool, RtcParts)
    requires { fields.old.place < 2 ^ 40 }
    ensures speaker { result.0 ≡ (read_at clock fields.old).pit.speaker }
    ensures rtc { result.1 ≡ (read_at clock fields.old).rtc }
    ensures next { IsPast (size_of clock) fields.old fields.new }
{
    let speaker = fields.flag();
    let rtc = RtcParts {
        index: fields.byte(),
        bytes: clock_bytes_in(fields),
        d: fields.two(),
        cycle: fields.flag(),
    };
    (speaker, rtc)
}

/// The bytes of the MC146818.
fn clock_bytes_in(fields: &mut Fields) -> [u8; 128]
    requires { fields.old.place < 2 ^ 50 }
    ensures value { result ≡ row_value byte 128 fields.old.place fields.old.bytes.now
        ++ replicate (128 - 128) 0 }
    ensures next { IsPast 128 fields.old fields.new }
{
    let mut all = [0; 128];
    for k in 0..128 {
        all[k] = fields.byte();
    }
    all
}

/// The HPET, without messages.
#[tactic(auto, using(crate::proofs::Formats::takes))]
fn hpet_in(fields: &mut Fields, format: u8) -> HpetParts
    requires { fields.old.place < 2 ^ 40 }
    ensures value { result ≡ record (read_at (registers ++ timers (timers_of format)) fields.old).hpet {
      timers = timers_of format;
      messages = has_messages format;
      message_bit = replicate 8 false;
      message_word = replicate 8 0;
    } }
    ensures next { IsPast (size_of (registers ++ timers (timers_of format))) fields.old fields.new }
    ensures near { fields.new.place ≤ fields.old.place + 154 }
{
    HpetParts {
        config: fields.byte(),
        status: fields.byte(),
        counter: fields.eight(),
        timer: timers_in(fields, format),
        timers: timers_of(format),
        messages: has_messages(format),
        message_bit: [false; 8],
        message_word: [0; 8],
    }
}

/// The places of the timers.
#[tactic(auto, using(crate::proofs::Formats::takes))]
fn timers_in(fields: &mut Fields, format: u8) -> [TimerParts; 8]
    requires { fields.old.place < 2 ^ 45 }
    ensures value { result ≡ (read_at (timers (timers_of format)) fields.old).hpet.timer }
    ensures next { IsPast (size_of (timers (timers_of format))) fields.old fields.new }
    ensures near { fields.new.place ≤ fields.old.place + 144 }
{
    let mut all = [NO_TIMER; 8];
    for k in 0..timers_of(format) {
        all[k as usize] = timer_in(fields);
    }
    all
}

/// The policy of tick line `k`.
fn policy_of(policies: &[u8; 3], k: u8) -> Policy
    ensures { result ≡ policy_of (slice_index_or policies.now (if nat_le 2 k then 2 else k) 0) }
{
    match policies[usize::from(k.min(2))] {
        0 => Policy::Discard,
        1 => Policy::Delay,
        _ => Policy::Slew,
    }
}

/// The tick lines, by the policies before the 8254.
#[tactic(auto, using(crate::proofs::Formats::takes))]
fn lines_in(fields: &mut Fields, format: u8, policies: &[u8; 3]) -> [TickParts; 10]
    requires place { fields.old.place < 2 ^ 40 }
    requires policies { policies.now ≡ row_value byte 3 (policy_place 0) fields.old.bytes.now }
    ensures value { result ≡ (read_at (lines (timers_of format)) fields.old).ticks }
    ensures next { IsPast (size_of (lines (timers_of format))) fields.old fields.new }
    ensures near { fields.new.place ≤ fields.old.place + 330 }
{
    let mut all = [NO_LINE; 10];
    for k in 0..timers_of(format) + 2 {
        all[k as usize] = ticks_in(fields, policy_of(policies, k));
    }
    all
}

/// The counts of rises.
#[tactic(auto, using(crate::proofs::Formats::takes))]
fn rises_in(fields: &mut Fields, format: u8) -> [u64; 6]
    requires { fields.old.place < 2 ^ 40 }
    ensures value { result ≡ (read_at (rises (counts_of format)) fields.old).rises }
    ensures next { IsPast (size_of (rises (counts_of format))) fields.old fields.new }
    ensures near { fields.new.place ≤ fields.old.place + 48 }
{
    let mut all = [0; 6];
    for k in 0..counts_of(format) {
        all[k as usize] = fields.eight();
    }
    all
}

/// The processors.
#[tactic(auto, using(crate::proofs::Formats::takes))]
fn processors_in(fields: &mut Fields, cpus: u8) -> [ProcessorParts; 64]
    requires place { fields.old.place < 2 ^ 40 }
    requires few { cpus ≤ 64 }
    ensures value { result ≡ (read_at (processors cpus) fields.old).processors }
    ensures next { IsPast (size_of (processors cpus)) fields.old fields.new }
    ensures near { fields.new.place ≤ fields.old.place + 3200 }
{
    let mut all = [NO_PROCESSOR; 64];
    for k in 0..cpus {
        all[k as usize] = processor_in(fields);
    }
    all
}

/// The board, after what is before the 8254.
#[tactic(auto, using(crate::proofs::Formats::takes))]
pub(crate) fn board_in(fields: &mut Fields, f: &Front) -> BoardParts
    requires place { fields.old.place ≡ size_of front }
    requires front { f.now ≡ front_of fields.old.bytes.now }
    requires format { f.now.format ≤ LAST_FORMAT }
    requires few { f.now.cpus ≤ 64 }
    ensures { result ≡ board_in fields.old.bytes.now }
{
    let format = f.format as u8;
    let cpus = f.cpus as u8;
    let counters = counters_in(fields);
    let (speaker, rtc) = clock_in(fields);
    let hpet = hpet_in(fields, format);
    let ticks = lines_in(fields, format, &f.policies);
    let rises = rises_in(fields, format);
    let wall_number = fields.eight();
    let wall_version = fields.four();
    let wall_sec = fields.four();
    let wall_nsec = fields.four();
    let processors = processors_in(fields, cpus);
    let (apic, apic_ticks) = apics_in(fields, format, cpus);
    let hv = hv_in(fields, format);
    let (message_bit, message_word) = messages_in(fields, format);
    BoardParts {
        format,
        cpus,
        anchor: f.anchor,
        host: f.host,
        guest_khz: f.guest_khz,
        accesses: f.accesses,
        greatest: f.greatest,
        slew_ns: f.slew_ns,
        pit: PitParts { counters, speaker },
        rtc,
        hpet: HpetParts {
            message_bit,
            message_word,
            ..hpet
        },
        ticks,
        wall_number,
        wall_version,
        wall_sec,
        wall_nsec,
        processors,
        rises,
        apic,
        apic_ticks,
        hv,
    }
}
