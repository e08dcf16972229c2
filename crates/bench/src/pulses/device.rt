//! The devices that are timed.
ghost use Rattle.std.specs.Prelude.{◌≤◌};

use hpet_comparator::{Matches, Timer};
use hpet_registers::Hpet;
use pit_counter::Counter;
use pit_readback::Pit;
use rtc_calendar::{Alarm, Form, TimeBytes, after, first_match};
use rtc_cycle::Divider;

/// BCD and 24 hours.
const FORM: Form = Form {
    binary: false,
    hours24: true,
};

/// The first second of a century.
const NEW_CENTURY: TimeBytes = TimeBytes {
    sec: 0,
    min: 0,
    hour: 0,
    wday: 1,
    date: 1,
    month: 1,
    year: 0,
};

/// An alarm at a minute that no hour has.
const NEVER: Alarm = Alarm {
    sec: 0xc0,
    min: 0x60,
    hour: 0xc0,
};

/// The count of each counter.
const COUNT: u8 = 5;

/// A timer's configuration: route 20, VAL_SET, periodic.
const PERIODIC: u64 = 0x2848;

/// The pulses from one match of a timer to the next.
const PERIOD: u64 = 10;

/// A device, and how it is set up.
#[derive(Clone, Copy)]
pub enum Kind {
    /// No device: what the loop itself takes.
    Nothing,
    /// A counter of the 8254 in this mode, which takes the low byte of a count. Before each stretch its count is written, and it is
    /// triggered.
    Counter(u8),
    /// A counter in this mode that nothing is written to from now on: programmed by a control word for both bytes, and with this
    /// count, or with none where it is 0, and then with GATE at this level.
    Left(u8, u16, bool),
    /// The 8254 behind its ports.
    Pit,
    /// A timer of the HPET with this configuration register, and this comparator and period.
    Timer(u64, u64),
    /// A block of three timers with this general configuration, of which the first is periodic.
    ThreeTimers(u64, u64),
    /// A block of eight timers, which runs, and all of which are periodic.
    EightTimers,
    /// The divider of the MC146818.
    Divider,
    /// The time bytes of the MC146818. A pulse is an update.
    Calendar,
    /// The alarm of the MC146818, looked for from the first second of a century on. A pulse is an update.
    Alarm,
}

/// A device, and where it goes on from.
#[derive(Clone, Copy)]
pub enum Device {
    Nothing,
    Counter(Counter),
    Left(Counter),
    Pit(Pit),
    /// A timer, and its main counter.
    Timer(Timer, u64),
    Hpet(Hpet),
    Divider(Divider),
    Calendar(TimeBytes),
    Alarm(TimeBytes),
}

/// Each device of the table by its name.
pub const DEVICES: [(&str, Kind); 16] = [
    ("8254, mode 0", Kind::Counter(0)),
    ("8254, mode 1", Kind::Counter(1)),
    ("8254, mode 2", Kind::Counter(2)),
    ("8254, mode 3, odd count", Kind::Counter(3)),
    ("8254, mode 4", Kind::Counter(4)),
    ("8254, mode 5", Kind::Counter(5)),
    ("8254, three counters", Kind::Pit),
    ("HPET, one-shot, 32 bits", Kind::Timer(0x2900, PERIOD)),
    ("HPET, periodic, 64 bits", Kind::Timer(PERIODIC, PERIOD)),
    ("HPET, period of 0", Kind::Timer(PERIODIC, 0)),
    ("HPET, three timers, halted", Kind::ThreeTimers(0, PERIOD)),
    ("HPET, one of three periodic", Kind::ThreeTimers(1, PERIOD)),
    ("HPET, all of eight periodic", Kind::EightTimers),
    ("MC146818, divider", Kind::Divider),
    ("MC146818, time bytes (updates)", Kind::Calendar),
    ("MC146818, alarm (updates)", Kind::Alarm),
];

/// Rows of one device each, with the pulses of a call: their words, and the loop without a device first.
pub const ROWS: [(&str, Kind, u64); 16] = [
    ("loop", Kind::Nothing, 1),
    ("counter-no-pulse", Kind::Left(2, 0x2e9c, true), 0),
    ("counter-no-count", Kind::Left(2, 0, true), 16),
    ("counter-low-gate", Kind::Left(3, 0x2e9c, false), 16),
    ("counter-mode-2", Kind::Left(2, 0xffff, true), 1),
    ("counter-mode-3", Kind::Left(3, 0xffff, true), 1),
    ("counter-loads", Kind::Left(2, 16, true), 16),
    ("three-counters", Kind::Pit, 1),
    ("hpet-halted", Kind::ThreeTimers(0, PERIOD), 70),
    ("hpet-no-match", Kind::ThreeTimers(1, 1 << 60), 70),
    ("hpet-one-matches", Kind::ThreeTimers(1, PERIOD), 70),
    ("hpet-eight-match", Kind::EightTimers, 70),
    ("divider", Kind::Divider, 16),
    ("time-bytes", Kind::Calendar, 1),
    ("time-bytes-day", Kind::Calendar, 86_399),
    ("alarm", Kind::Alarm, 200_000),
];

impl Device {
    /// The device of a kind.
    pub fn new(kind: Kind) -> Device {
        match kind {
            Kind::Nothing => Device::Nothing,
            Kind::Counter(mode) => Device::Counter(counter(mode)),
            Kind::Left(mode, count, gate) => Device::Left(left_counter(mode, count, gate)),
            Kind::Pit => Device::Pit(pit()),
            Kind::Timer(config, period) => Device::Timer(timer(config, period), 0),
            Kind::ThreeTimers(general, period) => Device::Hpet(three_timers(general, period)),
            Kind::EightTimers => Device::Hpet(eight_timers()),
            Kind::Divider => Device::Divider(Divider::power_on()),
            Kind::Calendar => Device::Calendar(NEW_CENTURY),
            Kind::Alarm => Device::Alarm(NEW_CENTURY),
        }
    }

    /// Lets `n` pulses pass, with room for the matches of a block of the HPET. Answers a number in
    /// which each device's answer takes part.
    pub fn pulses(&mut self, n: u64, matches: &mut [Matches; 8]) -> u64 {
        match self {
            Device::Nothing => n,
            Device::Counter(counter) => triggered(counter, n),
            Device::Left(counter) => counter.pulses(n).count,
            Device::Pit(pit) => pit.pulses(n).count,
            Device::Hpet(hpet) => matched(hpet, n, matches),
            Device::Timer(timer, from) => matched_from(timer, from, n),
            Device::Divider(divider) => divided(divider, n),
            Device::Calendar(bytes) => updated(bytes, n),
            Device::Alarm(bytes) => found_alarm(bytes, n),
        }
    }
}

/// The rises of a counter that is written and triggered before its pulses.
fn triggered(counter: &mut Counter, n: u64) -> u64 {
    counter.write_byte(COUNT);
    counter.gate(false);
    counter.gate(true);
    counter.pulses(n).count
}

/// The matches of the first two timers of a block.
fn matched(hpet: &mut Hpet, n: u64, matches: &mut [Matches; 8]) -> u64 {
    hpet.pulses(n, matches);
    matches[0].count.wrapping_add(matches[1].count)
}

/// The matches of a timer, whose main counter then goes on from there.
fn matched_from(timer: &mut Timer, from: &mut u64, n: u64) -> u64 {
    let matches = timer.pulses(*from, n);
    *from = from.wrapping_add(n);
    matches.count
}

/// The ticks and updates of a divider.
fn divided(divider: &mut Divider, n: u64) -> u64 {
    let events = divider.pulses(n);
    events.ticks.wrapping_add(events.updates)
}

/// The second after updates.
fn updated(bytes: &mut TimeBytes, n: u64) -> u64 {
    *bytes = after(*bytes, FORM, n);
    u64::from(bytes.sec)
}

/// The update that meets the alarm, looked for a second later each time.
fn found_alarm(bytes: &mut TimeBytes, n: u64) -> u64 {
    *bytes = after(*bytes, FORM, 1);
    first_match(*bytes, FORM, NEVER, n).unwrap_or(0)
}

/// A counter in this mode, which takes the low byte of a count.
fn counter(mode: u8) -> Counter {
    let mut counter = Counter::power_on(true);
    counter.control(0x10 + mode % 8 * 2);
    counter
}

/// A counter that is programmed for both bytes of a count, and takes it where it isn't 0; then GATE gets this level.
fn left_counter(mode: u8, count: u16, gate: bool) -> Counter {
    let mut counter = Counter::power_on(true);
    counter.control(0x30 + mode % 8 * 2);
    if count > 0 {
        counter.write_byte((count % 256) as u8);
        counter.write_byte((count / 256) as u8);
        counter.pulses(1);
    }
    counter.gate(gate);
    counter
}

/// The 8254 as a PC has it: counter 0 in mode 2 at 100 Hz, counter 1 in mode 2 at the rate of the
/// memory's refresh, and counter 2 in mode 3 at 1 kHz, with its GATE high.
fn pit() -> Pit {
    let mut pit = Pit::power_on();
    pit.write_61(1);
    for (port, control, low, high) in [
        (0x40, 0x34, 0x9c, 0x2e),
        (0x41, 0x74, 0x12, 0x00),
        (0x42, 0xb6, 0xa9, 0x04),
    ] {
        pit.write(0x43, control);
        pit.write(port, low);
        pit.write(port, high);
    }
    pit
}

/// A timer with this configuration register, and this comparator and period.
fn timer(config: u64, period: u64) -> Timer {
    let mut timer = Timer::power_on();
    timer.write_config(config);
    timer.write_comparator(8, false, period);
    timer.write_comparator(8, false, period);
    timer
}

/// A block of three timers with this general configuration, of which the first is periodic.
fn three_timers(general: u64, period: u64) -> Hpet {
    let mut hpet = Hpet::power_on(3, false);
    start_periodic(&mut hpet, 0x100, period);
    hpet.write(0x10, 8, general);
    hpet
}

/// A block of eight timers, which runs, and all of which are periodic.
fn eight_timers() -> Hpet {
    let mut hpet = Hpet::power_on(8, true);
    for place in 0..8 {
        start_periodic(&mut hpet, 0x100 + 0x20 * place, PERIOD);
    }
    hpet.write(0x10, 8, 1);
    hpet
}

/// Makes a timer periodic whose registers begin at this offset: the configuration with VAL_SET,
/// then the comparator, then the period.
fn start_periodic(hpet: &mut Hpet, offset: u16, period: u64)
    requires { offset ≤ 1015 }
{
    hpet.write(offset, 8, PERIODIC);
    hpet.write(offset + 8, 8, period);
    hpet.write(offset + 8, 8, period);
}
