//! A board that lags: passive accesses are only counted, and its devices run when they are needed.
ghost use Rattle.std.specs.Prelude.{◌≡◌, ℕ, ◌+◌, ◌-◌, ◌^◌, ◌<◌, ◌≤◌, true, false, [], IsTrue};
ghost use Rattle.clk_units.specs.declared.ranges.TheConstants.{RANGE_NS};
ghost use Rattle.hpet_bursts.specs.Messages.{message_at};
ghost use Rattle.hpet_registers.specs.Access.{part_of};
ghost use Rattle.pit_readback.specs.Ports.{is_pit_port, port_read, after_port_read};
ghost use Rattle.board_devices.specs.Places.{line_at};
ghost use Rattle.board_devices.specs.Run.{run};
ghost use Rattle.board_types.specs.declared.access.Access.{Access};
ghost use Rattle.board_types.specs.declared.parts.TheConstants.{MOST_ACCESSES};
ghost use Rattle.board_core.specs.Time.{now_of, time_of_access};
ghost use Rattle.host_counter.specs.Time.{HasTime};
ghost use Rattle.board_core.specs.Access.{after_run, value_at};
ghost use Rattle.board_core.specs.Conditions.{IsJoined};
ghost use Rattle.std.specs.Bool.{OnTrue, OnFalse};
ghost use Rattle.board_core.specs.Outcome.{IsAsked, HasTaken, IsRefused, IsClockRead};
ghost use Rattle.board_core.specs.Quiet.{IsQuiet};
ghost use Rattle.board_core.specs.Lazy.{
  is_passive,
  left_by,
  caught_up,
  IsLazy,
  IsCounted,
  IsPassed,
};

use crate::board::BoardState;
use crate::refusals::known_time;
use board_devices::Devices;
use board_types::{Access, MOST_ACCESSES, Reply, Value};
use clk_units::RANGE_NS;
use host_counter::{Anchor, TimeFault};
use irq_edges::{BurstList, EdgeList};
use pit_readback::is_pit_port;
use pvclock_page::ClockReply;

/// How many numbers half of a register has.
const HALF: u64 = 0x1_0000_0000;

/// Nanoseconds in a millisecond, in which a counter of 1 kHz counts once.
const MILLISECOND_NS: u128 = 1_000_000;

/// After so many passive accesses in a row that bring no edge the horizon is looked for (own): by then they have cost as
/// much as to look.
const STILL: u8 = 8;

/// How far a board lags. Whoever keeps a board and its lag has the board that `BoardState::catch_up` makes of it.
#[derive(Clone, Copy)]
#[repr(C)]
pub struct Lag {
    /// The greatest count of all accesses, where a horizon is known; else 0.
    pub host: u64,
    /// Before this count nothing comes that a caller sees; 0 where that isn't known.
    pub horizon: u64,
    /// How many accesses came last that are passive and brought no edge, counted to `STILL` at most.
    pub still: u8,
}

/// That of a board which doesn't lag, and of which no horizon is known.
pub const NO_LAG: Lag = Lag {
    host: 0,
    horizon: 0,
    still: 0,
};

impl BoardState {
    /// Brings a board that lags up to its time. With the same lag it may lag on from there.
    #[inline(always)]
    pub fn catch_up(&mut self, lag: &Lag)
        requires { IsLazy self.old lag.now.host lag.now.horizon }
        ensures state { self.new ≡ caught_up self.old lag.now }
        ensures same { caught_up self.new lag.now ≡ self.new }
        ensures lazy { IsLazy self.new lag.now.host lag.now.horizon }
    {
        self.joined();
        self.pass_to(lag.host);
    }

    /// Takes one access as `take` does. A passive one is only counted before the horizon.
    #[inline(always)]
    pub fn take_lagging(
        &mut self,
        lag: &mut Lag,
        cpu: u8,
        h: u64,
        a: Access,
        reply: &mut Reply,
    ) -> bool
        requires lazy { IsLazy self.old lag.old.host lag.old.horizon }
        requires asked { IsAsked (caught_up self.old lag.old) cpu a reply.old }
        ensures taken { OnTrue result (HasTaken (caught_up self.old lag.old) cpu h a
            (caught_up self.new lag.new) reply.new) }
        ensures left { OnFalse result (IsRefused (caught_up self.old lag.old) cpu h a
            (caught_up self.new lag.new) reply.old reply.new) }
        ensures lazy { IsLazy self.new lag.new.host lag.new.horizon }
    {
        let passive = is_passive(a);
        if passive && self.counts(lag, h) {
            let _later = self.count(lag, h);
            reply.number = self.accesses;
            match a {
                Access::Step => reply.value = Value::Nothing,
                _ => self.read_counted(lag, a, &mut reply.value),
            }
            return true;
        }
        self.catch_up_before(lag, h);
        self.joined();
        // One run takes the board from where it lags to the access.
        if !self.take(cpu, h, a, reply) {
            return false;
        }
        if passive {
            self.lag_on(lag, reply.edges.is_empty());
        } else {
            *lag = NO_LAG; // whatever the access changes
        }
        true
    }

    /// What an access that is counted reads, at the time of all counts.
    // Inlined, it makes the answer to a line too large to be inlined in the loop over lines, which costs each line 29
    // instructions.
    #[inline(never)]
    fn read_counted(&mut self, lag: &Lag, a: Access, value: &mut Value)
        requires passive { IsTrue (is_passive a) }
        requires lazy { IsLazy self.old lag.now.host lag.now.horizon }
        ensures value { (cpu g : ℕ) → value.new ≡ value_at (caught_up self.old lag.now) cpu g a }
        ensures state { caught_up self.new lag.now ≡ left_by a (caught_up self.old lag.now) }
        ensures lazy { IsLazy self.new lag.now.host lag.now.horizon }
    {
        let now_ns = self.lagging_now(lag);
        *value = self.take_passive(lag, now_ns, a);
    }

    /// Brings a board that lags beyond count `h` up to its time. One that lags to `h` at most stays as it is.
    #[inline(always)]
    fn catch_up_before(&mut self, lag: &mut Lag, h: u64)
        requires { IsLazy self.old lag.old.host lag.old.horizon }
        ensures same { caught_up self.new lag.new ≡ caught_up self.old lag.old }
        ensures lazy { IsLazy self.new lag.new.host lag.new.horizon }
        ensures within { lag.new.host ≤ h }
    {
        if h < lag.host {
            self.catch_up(lag);
            *lag = NO_LAG;
        }
    }

    /// Sets the lag after a passive access, to whose time the devices have run; `no_edge` says whether it brought none. After
    /// `STILL` in a row that brought none the horizon is looked for, and the board may lag up to it.
    #[inline(always)]
    fn lag_on(&self, lag: &mut Lag, no_edge: bool)
        ensures same { caught_up self.now lag.new ≡ self.now }
        ensures lazy { IsLazy self.now lag.new.host lag.new.horizon }
    {
        lag.still = more_still(lag.still, no_edge);
        lag.host = 0;
        lag.horizon = 0;
        if lag.still == STILL {
            lag.horizon = self.quiet_before();
            if lag.horizon > 0 {
                lag.host = self.host;
            }
        }
    }

    /// Whether a passive access at count `h` is only counted: it comes before the horizon.
    #[inline(always)]
    pub fn counts(&self, lag: &Lag, h: u64) -> bool
        ensures { result ≡ true → IsCounted self.now lag.now h }
    {
        h < lag.horizon
            && (lag.host <= h || self.anchor.start <= h)
            && self.accesses < MOST_ACCESSES
    }

    /// Counts a passive access at count `h`, and answers whether `h` is beyond all counts before, so that the board's time may
    /// grow. Nothing is read yet: `take_passive` does what the access asks.
    #[inline(always)]
    pub fn count(&mut self, lag: &mut Lag, h: u64) -> bool
        requires lazy { IsLazy self.old lag.old.host lag.old.horizon }
        requires counted { IsCounted self.old lag.old h }
        ensures passed { (cpu : ℕ) (a : Access) → is_passive a ≡ true
            → IsPassed (caught_up self.old lag.old) cpu h a self.new.accesses (caught_up self.new lag.new) }
        ensures later { result ≡ true → self.new.host < lag.new.host }
        ensures now { result ≡ false
            → now_of (caught_up self.new lag.new) ≡ now_of (caught_up self.old lag.old) }
        ensures lazy { IsLazy self.new lag.new.host lag.new.horizon }
    {
        self.count_access();
        let later = h > lag.host;
        if later {
            lag.host = h;
        }
        later
    }

    /// What a read of the clock by the page of `cpu` at count `h` answers, of a board that lags.
    #[inline(always)]
    pub fn lagging_clock_of(&mut self, lag: &Lag, cpu: u8, h: u64) -> Result<ClockReply, TimeFault>
        requires lazy { IsLazy self.old lag.now.host lag.now.horizon }
        requires cpu { cpu < self.old.cpus }
        ensures read { IsClockRead (caught_up self.old lag.now) cpu h result
            (caught_up self.new lag.now) }
        ensures lazy { IsLazy self.new lag.now.host lag.now.horizon }
    {
        self.clock_of(cpu, h)
    }

    /// The time of a board that lags, in nanoseconds: that of the greatest count of all accesses.
    #[inline(always)]
    pub fn lagging_now(&self, lag: &Lag) -> u64
        requires { IsLazy self.now lag.now.host lag.now.horizon }
        ensures value { result ≡ now_of (caught_up self.now lag.now) }
        ensures range { result < RANGE_NS }
    {
        self.joined();
        self.time_by(lag.host)
    }

    /// The same after a count beyond the board's own, as `count` answers.
    #[inline(always)]
    pub fn later_now(&self, lag: &Lag) -> u64
        requires lazy { IsLazy self.now lag.now.host lag.now.horizon }
        requires later { self.now.host < lag.now.host }
        ensures value { result ≡ now_of (caught_up self.now lag.now) }
        ensures range { result < RANGE_NS }
    {
        self.joined();
        self.time_beyond(lag.host)
    }

    /// The time to which an access at count `h` would run.
    pub(crate) fn time_by(&self, h: u64) -> u64
        requires { self.now.host < h → HasTime self.now.anchor h }
        ensures value { result ≡ time_of_access self.now h }
        ensures range { result < RANGE_NS }
    {
        if h <= self.host {
            return self.time_ns;
        }
        self.time_beyond(h)
    }

    /// The same where `h` is beyond the board's count.
    #[inline(always)]
    fn time_beyond(&self, h: u64) -> u64
        requires { HasTime self.now.anchor h }
        ensures value { result ≡ time_of_access self.now h }
        ensures range { result < RANGE_NS }
    {
        known_time(self.anchor, h).max(self.time_ns)
    }

    /// Lets the time up to that of count `h` pass, without an access. Its edges and messages are not told.
    #[inline(always)]
    pub(crate) fn pass_to(&mut self, h: u64)
        requires { self.old.host < h → HasTime self.old.anchor h }
        ensures { self.new ≡ after_run self.old h }
    {
        if h > self.host {
            self.pass_on(h);
        }
    }

    /// The same where `h` is beyond the board's count.
    #[inline(never)]
    fn pass_on(&mut self, h: u64)
        requires { HasTime self.old.anchor h }
        ensures { self.new ≡ after_run self.old h }
    {
        let to = self.time_by(h);
        let mut edges = EdgeList::new();
        let mut bursts = BurstList::new();
        self.run_to(h, to, &mut edges, &mut bursts);
    }

    /// What a passive access reads of a board that lags, whose time is `now_ns`; the board is left so, and lags on.
    #[inline(always)]
    pub fn take_passive(&mut self, lag: &Lag, now_ns: u64, a: Access) -> Value
        requires passive { IsTrue (is_passive a) }
        requires lazy { IsLazy self.old lag.now.host lag.now.horizon }
        requires now { now_ns ≡ now_of (caught_up self.old lag.now) }
        ensures value { (cpu g : ℕ) → result ≡ value_at (caught_up self.old lag.now) cpu g a }
        ensures state { caught_up self.new lag.now ≡ left_by a (caught_up self.old lag.now) }
        ensures lazy { IsLazy self.new lag.now.host lag.now.horizon }
    {
        match a {
            Access::PortIn { port } => Value::Byte(self.read_pit(lag, now_ns, port)),
            Access::HpetRead { width, .. } => Value::Word {
                width,
                value: low_part(width, self.main_counter(lag, now_ns)),
            },
            _ => Value::Nothing,
        }
    }

    /// Reads a port of the 8254 of such a board.
    #[inline(always)]
    fn read_pit(&mut self, lag: &Lag, now_ns: u64, port: u8) -> u8
        requires port { IsTrue (is_pit_port port) }
        requires lazy { IsLazy self.old lag.now.host lag.now.horizon }
        requires now { now_ns ≡ now_of (caught_up self.old lag.now) }
        ensures state { self.new ≡ record self.old { pit = after_port_read port self.old.pit } }
        ensures byte { result ≡ port_read now_ns port (caught_up self.old lag.now).pit }
    {
        self.devices.read_pit_later(self.time_ns, now_ns, port)
    }

    /// The HPET's main counter of such a board.
    #[inline(always)]
    fn main_counter(&self, lag: &Lag, now_ns: u64) -> u64
        requires lazy { IsLazy self.now lag.now.host lag.now.horizon }
        requires now { now_ns ≡ now_of (caught_up self.now lag.now) }
        ensures { result ≡ (caught_up self.now lag.now).hpet.counter }
    {
        self.devices.main_counter(self.time_ns, now_ns)
    }

    /// Counts an access.
    #[inline(always)]
    fn count_access(&mut self)
        requires { self.old.accesses < MOST_ACCESSES }
        ensures state { self.new ≡ record self.old { accesses = self.old.accesses + 1 } }
        ensures joined { IsJoined self.old }
    {
        self.accesses += 1;
    }

    /// A count before which nothing comes that a caller sees if no access comes; 0 where none is known. It asks for the
    /// next edge, and costs as much.
    #[inline(never)]
    fn quiet_before(&self) -> u64
        ensures quiet { 0 < result → IsQuiet self.now (result - 1) }
        ensures beyond { 0 < result → self.now.host < result }
    {
        if self.apics.is_armed() {
            return 0;
        }
        let still = still_to(&self.devices, self.time_ns);
        let quiet = silent_to(&self.devices, self.time_ns, still);
        let last = last_count(self.anchor, quiet);
        match self.anchor.time(last) {
            Ok(ns) if ns <= quiet && self.host <= last => last + 1,
            _ => 0,
        }
    }
}

/// What a read of 8 bytes or of 4 gives of a register, the low half first.
#[inline(always)]
fn low_part(width: u8, v: u64) -> u64
    ensures { result ≡ part_of width false v }
{
    if width == 8 { v } else { v % HALF }
}

/// A nanosecond up to which no line changes.
fn still_to(devices: &Devices, now: u64) -> u64
    requires range { now < RANGE_NS }
    requires room { (k : ℕ) → k < 10 → (line_at k devices.now).counts.due
        + (RANGE_NS - 1 - now) < 2 ^ 63 }
    ensures order { now ≤ result }
    ensures range { result < RANGE_NS }
    ensures still { (run now (result - now) devices.now).edges ≡ [] }
{
    match devices.next_edge(now) {
        Some(edge) => edge - 1,
        None => RANGE_NS - 1,
    }
}

/// A nanosecond up to which no timer of the HPET sends a message, `to` at most.
fn silent_to(devices: &Devices, now: u64, to: u64) -> u64
    requires order { now ≤ to }
    requires range { to < RANGE_NS }
    ensures order { now ≤ result }
    ensures most { result ≤ to }
    ensures silent { (k n : ℕ) → k < 8 → now + n < result
        → message_at k now n devices.now.hpet ≡ false }
{
    match devices.next_message(now, to) {
        Some(message) => message - 1,
        None => to,
    }
}

/// A count about the last one of that time.
fn last_count(anchor: Anchor, ns: u64) -> u64
    ensures { result < 18446744073709551615 }
{
    let counts = u128::from(ns.saturating_sub(anchor.base_ns)) * u128::from(anchor.khz)
        / MILLISECOND_NS;
    let last = u128::from(anchor.start) + counts;
    if last < u128::from(u64::MAX) {
        last as u64
    } else {
        u64::MAX - 1
    }
}

/// Whether an access changes nothing that time looks at, whatever the board: a step, a read of the HPET's main counter,
/// whole or its low half, and a read of a port of the 8254.
#[inline(always)]
pub fn is_passive(a: Access) -> bool
    ensures { result ≡ is_passive a }
{
    match a {
        Access::Step => true,
        Access::PortIn { port } => is_pit_port(port),
        Access::HpetRead { offset, width } => offset == 0xf0 && (width == 4 || width == 8),
        _ => false,
    }
}

/// How many still accesses came last, counted to `STILL` at most, with one more that may be still.
#[inline(always)]
fn more_still(before: u8, still: bool) -> u8 {
    if still {
        before.saturating_add(1).min(STILL)
    } else {
        0
    }
}
