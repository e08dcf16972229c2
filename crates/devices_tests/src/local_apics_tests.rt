//! Timers of local APICs, with accesses as on a board: time runs to the access, then it acts, then all
//! deadlines are looked at. The numbers were worked out by hand.

ghost use Rattle.std.specs.Prelude.{◌≡◌, ℕ, true, ◌^◌, ◌<◌};
ghost use Rattle.local_apics.specs.Places.{line_at};

use crate::checks::{holds, same};
use board_types::ProcessorParts;
use clk_units::{RANGE_NS, is_khz};
use host_counter::Anchor;
use lapic_timer::{ApicParts, ApicRegister};
use local_apics::{ApicsParts, LocalApics, TscClock};
use std::process::Abort;
use tick_policy::{Counts, Policy};
use tsc_scale::Tsc;

/// More ticks than a test makes due.
const MANY: u64 = 1 << 62;

/// What a guest does on a processor.
#[derive(Clone, Copy, Debug, PartialEq, Eq)]
enum Act {
    /// A write of an MSR.
    Write(u32, u64),
    /// A read of an MSR, and the answer.
    Read(u32, u64),
    /// The end of an interrupt.
    Eoi,
    /// The ticks of the processor's line: due, rises, lost.
    Ticks(u64, u64, u64),
    /// The processor's TSC is moved by a distance.
    MoveTsc(u64),
}

/// A processor whose TSC is the guest's count.
const PROCESSOR: ProcessorParts = ProcessorParts {
    offset: 0,
    adjust: 0,
    number: 0,
    version: 0,
    tsc_timestamp: 0,
    system_time: 0,
    mul: 0,
    shift: 0,
    flags: 0,
};

/// The timers with the processors' TSCs, and the time.
#[derive(Clone, Copy)]
struct Rig {
    apics: LocalApics,
    clock: TscClock,
    processors: [ProcessorParts; 64],
    now: u64,
}

/// A clock whose rates are both 1 GHz, or others, and whose anchor is at 0.
fn clock(host_khz: u64, guest_khz: u64) -> TscClock {
    TscClock {
        anchor: Anchor {
            khz: host_khz,
            start: 0,
            base_ns: 0,
        },
        guest_khz,
    }
}

fn rig_of(cpus: u8, clock: TscClock) -> Rig
    requires { cpus < 65 }
{
    Rig {
        apics: LocalApics::power_on(cpus),
        clock,
        processors: [PROCESSOR; 64],
        now: clock.anchor.base_ns,
    }
}

/// Whether all lines can take many more ticks.
fn has_room(apics: &LocalApics) -> bool
    ensures { result ≡ true → (k : ℕ) → k < 64 → (line_at k apics.now).counts.due < 2 ^ 62 }
{
    for cpu in 0..64 {
        if apics.counts(cpu).due >= MANY {
            return false;
        }
    }
    true
}

/// The calls, each once its conditions hold.
impl Rig {
    /// Runs to `to`.
    fn run_to(&mut self, rt: &impl Abort, to: u64) {
        let TscClock { anchor, guest_khz } = self.clock;
        assert!(rt; is_khz(anchor.khz) && is_khz(guest_khz));
        assert!(rt; anchor.base_ns <= self.now && self.now <= to && to < RANGE_NS);
        assert!(rt; has_room(&self.apics));
        self.apics.run(&self.clock, &self.processors, self.now, to);
        self.now = to;
    }

    /// Looks at the deadlines.
    fn look(&mut self, rt: &impl Abort) {
        let TscClock { anchor, guest_khz } = self.clock;
        assert!(rt; is_khz(anchor.khz) && is_khz(guest_khz));
        assert!(rt; anchor.base_ns <= self.now && self.now < RANGE_NS);
        assert!(rt; has_room(&self.apics));
        self.apics.look(&self.clock, &self.processors, self.now);
    }

    /// The next tick of a processor up to `to`.
    fn next_tick(&self, rt: &impl Abort, cpu: u8, to: u64) -> Option<u64> {
        let TscClock { anchor, guest_khz } = self.clock;
        assert!(rt; is_khz(anchor.khz) && is_khz(guest_khz));
        assert!(rt; anchor.base_ns <= self.now && self.now <= to && to < RANGE_NS);
        assert!(rt; cpu < 64);
        let ProcessorParts { offset, adjust, .. } = self.processors[cpu as usize];
        let tsc = Tsc { offset, adjust };
        self.apics.next_tick(cpu, &self.clock, tsc, self.now, to)
    }
}

/// The register of an MSR of the timer.
fn register(rt: &impl Abort, msr: u32) -> ApicRegister {
    ApicRegister::of_msr(msr).expect(rt, "an MSR of the timer")
}

/// What a processor does at a nanosecond, and the look at the end.
fn perform(rt: &impl Abort, rig: &mut Rig, cpu: u8, at: u64, act: Act) {
    assert!(rt; cpu < 64);
    rig.run_to(rt, at);
    match act {
        Act::Write(msr, v) => rig.apics.write(cpu, register(rt, msr), v),
        Act::Read(msr, v) => {
            let answer = rig.apics.read(cpu, register(rt, msr));
            same(rt, (cpu, at, act), answer, v);
        }
        Act::Eoi => rig.apics.eoi(cpu),
        Act::Ticks(due, rises, lost) => {
            let counts = Counts {
                due,
                rises,
                queue: 0,
                lost,
            };
            same(rt, (cpu, at, act), rig.apics.counts(cpu), counts);
        }
        Act::MoveTsc(distance) => {
            let processor = &mut rig.processors[cpu as usize];
            processor.offset = processor.offset.wrapping_add(distance);
        }
    }
    rig.look(rt);
}

/// Plays rows of processor, nanosecond and what it does, from power on at rates of 1 GHz.
fn play(rt: &impl Abort, rows: &[(u8, u64, Act)]) {
    let mut rig = rig_of(2, clock(1_000_000, 1_000_000));
    for (cpu, at, what) in rows {
        perform(rt, &mut rig, *cpu, *at, *what);
    }
}

/// A periodic timer of 10, masked from 25 to 55: its phase goes on, and its fires at 30, 40 and 50
/// are no ticks.
const MASKED: [(u8, u64, Act); 8] = [
    (0, 0, Act::Write(0x83e, 0xb)),
    (0, 0, Act::Write(0x832, 0x2_0030)),
    (0, 0, Act::Write(0x838, 0xa)),
    (0, 25, Act::Write(0x832, 0x3_0030)),
    (0, 55, Act::Ticks(2, 1, 1)),
    (0, 55, Act::Write(0x832, 0x2_0030)),
    (0, 65, Act::Ticks(3, 1, 2)),
    (0, 65, Act::Read(0x839, 5)),
];

/// A masked deadline is spent without a tick.
const MASKED_DEADLINE: [(u8, u64, Act); 6] = [
    (0, 0, Act::Write(0x832, 0x5_0031)),
    (0, 0, Act::Write(0x6e0, 0x64)),
    (0, 100, Act::Read(0x6e0, 0)),
    (0, 100, Act::Ticks(0, 0, 0)),
    (0, 100, Act::Write(0x832, 0x4_0031)),
    (0, 200, Act::Ticks(0, 0, 0)),
];

/// A TSC that starts 100 before its modulus: deadlines on both sides, and at half of the numbers.
const MODULO: [(u8, u64, Act); 14] = [
    (0, 0, Act::Write(0x832, 0x4_0031)),
    (0, 0, Act::MoveTsc(0xffff_ffff_ffff_ff9c)),
    (0, 0, Act::Write(0x6e0, 5)),
    (0, 104, Act::Read(0x6e0, 5)),
    (0, 105, Act::Read(0x6e0, 0)),
    (0, 105, Act::Ticks(1, 1, 0)),
    (0, 105, Act::Write(0x6e0, 0xffff_ffff_ffff_ffff)),
    (0, 105, Act::Read(0x6e0, 0)),
    (0, 105, Act::Ticks(2, 1, 1)),
    (0, 105, Act::Write(0x6e0, 0x8000_0000_0000_0006)),
    (0, 105, Act::Ticks(3, 1, 2)),
    (0, 105, Act::Write(0x6e0, 0x8000_0000_0000_0005)),
    (0, 105, Act::Read(0x6e0, 0x8000_0000_0000_0005)),
    (0, 106, Act::Read(0x6e0, 0x8000_0000_0000_0005)),
];

/// A divide write drops the phase: the second 128 nanoseconds count from 127.
const DIVIDED: [(u8, u64, Act); 8] = [
    (0, 0, Act::Write(0x832, 0x30)),
    (0, 0, Act::Write(0x83e, 0xa)),
    (0, 0, Act::Write(0x838, 1)),
    (0, 127, Act::Write(0x83e, 0xfa)),
    (0, 128, Act::Ticks(0, 0, 0)),
    (0, 254, Act::Ticks(0, 0, 0)),
    (0, 255, Act::Ticks(1, 1, 0)),
    (0, 255, Act::Read(0x83e, 0xa)),
];

/// Registers of 32 bits take the low half, 839h takes nothing, and 6E0h nothing outside its mode.
const REGISTERS: [(u8, u64, Act); 7] = [
    (0, 0, Act::Write(0x83e, 0xffff_ffff_0000_000b)),
    (0, 0, Act::Read(0x83e, 0xb)),
    (0, 0, Act::Write(0x839, 0x77)),
    (0, 0, Act::Read(0x839, 0)),
    (0, 0, Act::Write(0x6e0, 5)),
    (0, 0, Act::Read(0x6e0, 0)),
    (0, 0, Act::Read(0x832, 0x1_0000)),
];

/// The end of an interrupt takes no tick away, and the next one raises the line again.
const ENDED: [(u8, u64, Act); 7] = [
    (0, 0, Act::Eoi),
    (0, 0, Act::Ticks(0, 0, 0)),
    (0, 0, Act::Write(0x832, 0x2_0030)),
    (0, 0, Act::Write(0x838, 5)),
    (0, 30, Act::Eoi),
    (0, 30, Act::Ticks(3, 1, 2)),
    (0, 40, Act::Ticks(4, 2, 2)),
];

/// A million fires in one run, each a tick.
const MILLION: [(u8, u64, Act); 7] = [
    (0, 0, Act::Write(0x83e, 0xb)),
    (0, 0, Act::Write(0x832, 0x2_0030)),
    (0, 0, Act::Write(0x838, 1)),
    (0, 1_000_000, Act::Ticks(1_000_000, 1, 999_999)),
    (0, 1_000_000, Act::Eoi),
    (0, 2_000_000, Act::Ticks(2_000_000, 2, 1_999_998)),
    (0, 2_000_000, Act::Read(0x839, 1)),
];

/// A change of the mode stops the timer, mode 11 leaves the mode, and deadline mode takes no
/// initial count.
const MODES: [(u8, u64, Act); 14] = [
    (0, 0, Act::Write(0x83e, 0xb)),
    (0, 0, Act::Write(0x832, 0x2_0030)),
    (0, 0, Act::Write(0x838, 0x64)),
    (0, 50, Act::Write(0x832, 0x30)),
    (0, 50, Act::Read(0x838, 0)),
    (0, 50, Act::Read(0x839, 0)),
    (0, 50, Act::Write(0x838, 5)),
    (0, 50, Act::Write(0x832, 0x7_0131)),
    (0, 50, Act::Read(0x832, 0x1_0031)),
    (0, 55, Act::Read(0x839, 0)),
    (0, 55, Act::Ticks(0, 0, 0)),
    (0, 55, Act::Write(0x832, 0x4_0031)),
    (0, 55, Act::Write(0x838, 9)),
    (0, 55, Act::Read(0x838, 0)),
];

/// Two processors: a TSC that is moved past a deadline reaches it in the look, on its own line.
const TWO: [(u8, u64, Act); 12] = [
    (1, 0, Act::Write(0x832, 0x4_0032)),
    (1, 0, Act::Write(0x6e0, 0xf_4240)),
    (0, 10, Act::MoveTsc(0xf_4240)),
    (1, 10, Act::Read(0x6e0, 0xf_4240)),
    (1, 10, Act::MoveTsc(0xf_4240)),
    (1, 10, Act::Read(0x6e0, 0)),
    (1, 10, Act::Ticks(1, 1, 0)),
    (0, 10, Act::Ticks(0, 0, 0)),
    (0, 10, Act::Eoi),
    (1, 10, Act::Eoi),
    (1, 10, Act::Write(0x6e0, 1)),
    (1, 10, Act::Ticks(2, 2, 0)),
];

#[test]
fn rows_that_were_worked_out_by_hand(rt: HostRuntime) {
    play(&rt, &MASKED);
    play(&rt, &MASKED_DEADLINE);
    play(&rt, &MODULO);
    play(&rt, &DIVIDED);
    play(&rt, &REGISTERS);
    play(&rt, &ENDED);
    play(&rt, &MILLION);
    play(&rt, &MODES);
    play(&rt, &TWO);
}

#[test]
fn sixty_four_periods_at_once(rt: HostRuntime) {
    let mut rig = rig_of(64, clock(1_000_000, 1_000_000));
    holds(&rt, "none is armed", !rig.apics.is_armed());
    for cpu in 0..64u8 {
        perform(&rt, &mut rig, cpu, 0, Act::Write(0x83e, 0xb));
        perform(&rt, &mut rig, cpu, 0, Act::Write(0x832, 0x2_0030));
        perform(&rt, &mut rig, cpu, 0, Act::Write(0x838, u64::from(cpu) + 1));
    }
    holds(&rt, "armed", rig.apics.is_armed());
    for cpu in 0..64u8 {
        let due = 1_000 / (u64::from(cpu) + 1);
        perform(
            &rt,
            &mut rig,
            cpu,
            1_000,
            Act::Ticks(due, 1, due.saturating_sub(1)),
        );
    }
}

#[test]
fn a_deadline_within_a_nanosecond_of_ten_counts(rt: HostRuntime) {
    let mut rig = rig_of(1, clock(10_000_000, 10_000_000));
    perform(&rt, &mut rig, 0, 0, Act::Write(0x832, 0x4_0031));
    perform(&rt, &mut rig, 0, 0, Act::Write(0x6e0, 0x15));
    same(&rt, "next tick", rig.next_tick(&rt, 0, 9), Some(3));
    perform(&rt, &mut rig, 0, 2, Act::Read(0x6e0, 0x15));
    perform(&rt, &mut rig, 0, 3, Act::Read(0x6e0, 0));
}

/// The LVT, initial count and deadline that are written, up to where is asked, and the next tick.
const NEXT_TICKS: [(u64, u64, u64, u64, Option<u64>); 7] = [
    (0x2_0030, 5, 0, 9_999, Some(10)),
    (0x2_0030, 5, 0, 9, None),
    (0x30, 5, 0, 10, Some(10)),
    (0x3_0030, 5, 0, 9_999, None),
    (0x4_0030, 5, 100, 9_999, Some(100)),
    (0x4_0030, 5, 100, 99, None),
    (0x5_0030, 5, 100, 9_999, None),
];

#[test]
fn next_ticks(rt: HostRuntime) {
    for (lvt, initial, deadline, to, next) in NEXT_TICKS {
        let mut rig = rig_of(2, clock(1_000_000, 1_000_000));
        perform(&rt, &mut rig, 1, 0, Act::Write(0x832, lvt));
        perform(&rt, &mut rig, 1, 0, Act::Write(0x838, initial));
        perform(&rt, &mut rig, 1, 0, Act::Write(0x6e0, deadline));
        same(&rt, (lvt, to), rig.next_tick(&rt, 1, to), next);
        same(&rt, (lvt, to), rig.next_tick(&rt, 0, to), None);
        rig.run_to(&rt, 4);
        same(&rt, (lvt, to, "at 4"), rig.next_tick(&rt, 1, to), next);
    }
}

/// Whether fields are those of one processor.
fn is_one(parts: &ApicsParts) -> bool {
    LocalApics::of_parts(1, parts).is_some()
}

#[test]
fn fields_are_given_back(rt: HostRuntime) {
    let mut rig = rig_of(1, clock(1_000_000, 1_000_000));
    perform(&rt, &mut rig, 0, 0, Act::Write(0x832, 0x2_0030));
    perform(&rt, &mut rig, 0, 0, Act::Write(0x838, 5));
    rig.run_to(&rt, 27);
    let parts = rig.apics.parts();
    let timer = ApicParts {
        lvt: 0x2_0030,
        divide: 0,
        initial: 5,
        current: 2,
        phase: 1,
        deadline: 0,
    };
    same(&rt, "timer", parts.timers[0], timer);
    let apics = LocalApics::of_parts(1, &parts).expect(&rt, "fields of one processor");
    same(&rt, "fields", apics.parts(), parts);
    let none = LocalApics::power_on(0).parts();
    let cases = [
        ("too many for none", 0, parts, false),
        ("few enough for 64", 64, parts, true),
        ("of none", 0, none, true),
    ];
    for (row, cpus, parts, is_some) in cases {
        same(
            &rt,
            row,
            LocalApics::of_parts(cpus, &parts).is_some(),
            is_some,
        );
    }
}

#[test]
fn fields_that_no_timers_have(rt: HostRuntime) {
    let parts = LocalApics::power_on(1).parts();
    holds(&rt, "at power on", is_one(&parts));
    let mut armed = parts;
    armed.timers[0].deadline = 1;
    holds(&rt, "armed", !is_one(&armed));
    let mut waits = parts;
    waits.lines[0].policy = Policy::Delay;
    holds(&rt, "waits", !is_one(&waits));
    let mut uncounted = parts;
    uncounted.lines[0].counts.due = 1;
    holds(&rt, "uncounted", !is_one(&uncounted));
    let mut absent = parts;
    absent.lines[63].up = true;
    holds(&rt, "absent", !is_one(&absent));
    let mut stray = parts;
    stray.timers[1].divide = 1;
    holds(&rt, "stray", !is_one(&stray));
}
