//! The timer, and its calls.

ghost use Rattle.std.specs.Prelude.{
  ◌≡◌,
  ◌↔◌,
  ◌+◌,
  ◌≤◌,
  ◌<◌,
  length,
  map,
  true,
  slice_index_or,
  IsSome,
  IfSome,
  IsTrue,
};
ghost use Rattle.clk_units.specs.Bits.{bit, bit_value};
ghost use Rattle.clk_units.specs.Events.{IsFirst};
ghost use Rattle.pit_counter.specs.Table.{has_risen, pulsed_times, rises_in};
ghost use Rattle.pit_counter.specs.Programming.{byte_written, counter_at_power_on};
ghost use Rattle.pit_counter.specs.Parts.{IsCounter};
ghost use Rattle.pit_readback.specs.Pit.{
  counter_of,
  with_counter,
  pit_at_power_on,
  pit_pulsed_times,
};
ghost use Rattle.pit_readback.specs.Parts.{IsPit};
ghost use Rattle.pit_readback.specs.Ports.{
  is_pit_port,
  commanded,
  read_back,
  written_43,
  port_written,
  port_read,
  after_port_read,
  written_61,
  read_of_61,
};

use crate::parts::PitParts;
use crate::ports::{CONTROL_PORT, COUNTER_PORT, SYSTEM_PORT};
use crate::read_back::read_back_of;
use clk_units::{bit, bit_value};
use pit_counter::{Counter, CounterParts, Rises};
use std::marker::Model;

/// The three counters of an Intel 8254, wired as in a PC, and the bits of port 61h.
#[derive(Clone, Copy, Debug, PartialEq, Eq)]
#[repr(C)]
pub struct Pit {
    counters: [Counter; 3],
    speaker: bool,
}

impl Model for Pit {
    ghost use Rattle.std.specs.Prelude.{◌≡◌, length};
    ghost use Rattle.pit_readback.specs.declared.parts.PitParts.{PitParts};

    ghost Value = { PitParts };

    ghost use Rattle.pit_readback.specs.private.Wiring.{parts_of, IsWired};

    ghost view = { parts_of };

    ghost invariant = { λ p. IsWired (parts_of p) };

    ghost inverse = { λ p. record { counters = p.counters; speaker = p.speaker } };
}

impl Pit {
    /// The timer at power on (own).
    pub fn power_on() -> Pit
        ensures { result ≡ pit_at_power_on }
    {
        Pit {
            counters: [
                Counter::power_on(true),
                Counter::power_on(true),
                Counter::power_on(false),
            ],
            speaker: false,
        }
    }

    /// All fields, as a saved state keeps them.
    pub fn parts(&self) -> PitParts
        ensures value { result ≡ self.now }
        ensures valid { IsPit self.now }
    {
        PitParts {
            counters: [
                self.counters[0].parts(),
                self.counters[1].parts(),
                self.counters[2].parts(),
            ],
            speaker: self.speaker,
        }
    }

    /// The device with these fields, or None exactly where a condition on them fails.
    pub fn of_parts(parts: PitParts) -> Option<Pit>
        ensures valid { IsSome result ↔ IsPit parts }
        ensures value { IfSome result (λ p. p ≡ parts) }
    {
        let first = wired(parts.counter(0))?;
        let second = wired(parts.counter(1))?;
        let third = Counter::of_parts(parts.counter(2))?;
        Some(Pit {
            counters: [first, second, third],
            speaker: parts.speaker,
        })
    }

    /// Writes a byte to one of the ports: to 40h, 41h or 42h a byte of a count, to 43h a control
    /// word, a latch or a read-back command, to 61h GATE of counter 2 and speaker data. Answers
    /// whether OUT of counter 0 rose.
    #[tactic(auto, unfolding(crate::specs::Ports::port_written))]
    pub fn write(&mut self, port: u8, byte: u8) -> bool
        requires { IsTrue (is_pit_port port) }
        ensures state { self.new ≡ port_written port byte self.old }
        ensures rose { result ≡ has_risen (counter_of self.old 0)
            (counter_of (port_written port byte self.old) 0) }
    {
        if port == SYSTEM_PORT {
            self.write_61(byte);
            return false;
        }
        if port == CONTROL_PORT {
            self.write_43(byte)
        } else {
            let k = port - COUNTER_PORT;
            self.replace(k, byte_written(byte, self.counter(k)))
        }
    }

    /// Writes a byte to port 43h.
    #[tactic(auto, unfolding(crate::specs::Ports::written_43))]
    fn write_43(&mut self, byte: u8) -> bool
        ensures state { self.new ≡ written_43 byte self.old }
        ensures rose { result ≡ has_risen (counter_of self.old 0)
            (counter_of (written_43 byte self.old) 0) }
    {
        let k = byte / 64;
        if k == 3 {
            self.read_back(byte)
        } else {
            self.replace(k, commanded(byte, self.counter(k)))
        }
    }

    /// The read-back command.
    #[tactic(auto, unfolding(crate::specs::Ports::read_back))]
    fn read_back(&mut self, byte: u8) -> bool
        ensures state { self.new ≡ read_back byte self.old }
        ensures rose { result ≡ has_risen (counter_of self.old 0)
            (counter_of (read_back byte self.old) 0) }
    {
        let first = read_back_of(byte, 0, self.counter(0));
        let second = read_back_of(byte, 1, self.counter(1));
        let third = read_back_of(byte, 2, self.counter(2));
        let rose = !self.counters[0].out() && first.out();
        let counters = [first, second, third];
        self.counters = counters;
        rose
    }

    /// Reads one of the ports at nanosecond `now`: 40h, 41h or 42h gives a latched status first,
    /// then a latched count, else the present count; 43h reads FFh (own); 61h as `read_61` says.
    #[inline(always)]
    #[tactic(auto, unfolding(crate::specs::Ports::port_read, crate::specs::Ports::after_port_read))]
    pub fn read(&mut self, port: u8, now: u64) -> u8
        requires { IsTrue (is_pit_port port) }
        ensures state { self.new ≡ after_port_read port self.old }
        ensures byte { result ≡ port_read now port self.old }
    {
        if port == SYSTEM_PORT {
            return self.read_61(now);
        }
        if port == CONTROL_PORT {
            return 0xff;
        }
        self.counters[(port - COUNTER_PORT) as usize].read()
    }

    /// Reads one of the ports at nanosecond `at` as after `n` more CLK pulses, and takes none of them: no pulse looks at
    /// what a read changes, so they may come after it.
    #[inline(always)]
    #[tactic(auto, unfolding(crate::specs::Ports::after_port_read))]
    pub fn read_later(&mut self, port: u8, n: u64, at: u64) -> u8
        requires { IsTrue (is_pit_port port) }
        ensures state { self.new ≡ after_port_read port self.old }
        ensures byte { result ≡ port_read at port (pit_pulsed_times n self.old) }
    {
        if port == SYSTEM_PORT {
            let mut counter = self.counter(2);
            counter.pulses(n);
            return byte_of_61(&counter, self.speaker, at);
        }
        if port == CONTROL_PORT {
            0xff
        } else {
            self.counters[(port - COUNTER_PORT) as usize].read_later(n)
        }
    }

    /// Writes a byte to port 61h: bit 0 is GATE of counter 2, bit 1 speaker data.
    #[tactic(auto, unfolding(crate::specs::Ports::written_61))]
    pub fn write_61(&mut self, byte: u8)
        ensures { self.new ≡ written_61 byte self.old }
    {
        let mut counter = self.counters[2];
        counter.gate(bit(0, byte as u64));
        self.counters[2] = counter;
        self.speaker = bit(1, byte as u64);
    }

    /// Reads port 61h at nanosecond `now`: bit 0 GATE of counter 2, bit 1 speaker data, bit 4 bit
    /// 14 of `now` (own), bit 5 OUT of counter 2.
    #[tactic(auto, unfolding(crate::specs::Ports::read_of_61))]
    pub fn read_61(&self, now: u64) -> u8
        ensures { result ≡ read_of_61 now self.now }
    {
        byte_of_61(&self.counters[2], self.speaker, now)
    }

    /// Takes `n` CLK pulses in each counter. Answers how often OUT of counter 0 rose, and at which
    /// of them first.
    #[inline(always)]
    pub fn pulses(&mut self, n: u64) -> Rises
        ensures state { self.new ≡ pit_pulsed_times n self.old }
        ensures three { length self.new.counters ≡ 3 }
        ensures count { result.count ≡ rises_in (counter_of self.old 0) n }
        ensures few { result.count ≤ n }
        ensures first { IsFirst (rises_in (counter_of self.old 0)) n result.first }
    {
        pulse_each(&mut self.counters, n)
    }

    /// Whether `n` CLK pulses bring no rise of OUT of counter 0, as far as that shows without taking them.
    #[inline(always)]
    pub fn is_quiet(&self, n: u64) -> bool
        ensures { result ≡ true → rises_in (counter_of self.now 0) n ≡ 0 }
    {
        n <= self.counters[0].quiet()
    }

    /// Takes `n` CLK pulses in each counter, as `pulses` does, for a caller that asks for no rises.
    #[inline(always)]
    pub fn pass(&mut self, n: u64)
        ensures { self.new ≡ pit_pulsed_times n self.old }
    {
        let _rises = self.pulses(n);
    }

    /// Counter `k`.
    pub fn counter(&self, k: u8) -> Counter
        requires { k < 3 }
        ensures value { result ≡ counter_of self.now k }
        ensures wired { k < 2 → IsTrue result.gate }
    {
        self.counters[k as usize]
    }

    /// The level of OUT of counter `k`.
    pub fn out(&self, k: u8) -> bool
        requires { k < 3 }
        ensures { result ≡ (counter_of self.now k).out }
    {
        self.counters[k as usize].out()
    }

    /// Puts another counter in the place of counter `k`. Answers whether OUT of counter 0 rose by
    /// that.
    fn replace(&mut self, k: u8, counter: Counter) -> bool
        requires three { k < 3 }
        requires wired { k < 2 → IsTrue counter.gate }
        ensures state { self.new ≡ with_counter k counter self.old }
        ensures rose { result ≡ has_risen (counter_of self.old 0)
            (counter_of (with_counter k counter self.old) 0) }
    {
        let out = self.counters[0].out();
        self.counters[k as usize] = counter;
        !out && self.counters[0].out()
    }
}

/// Takes `n` CLK pulses in each of three counters. Answers the rises of OUT of the first.
#[inline(always)]
fn pulse_each(counters: &mut [Counter; 3], n: u64) -> Rises
    ensures state { counters.new ≡ map (pulsed_times n) counters.old }
    ensures count { result.count
        ≡ rises_in (slice_index_or counters.old 0 (counter_at_power_on true)) n }
    ensures few { result.count ≤ n }
    ensures first { IsFirst (rises_in (slice_index_or counters.old 0 (counter_at_power_on true)))
        n result.first }
{
    let rises = counters[0].pulses(n);
    counters[1].pulses(n);
    counters[2].pulses(n);
    rises
}

/// The byte of port 61h at nanosecond `now`, with this as counter 2.
fn byte_of_61(counter: &Counter, speaker: bool, now: u64) -> u8
    ensures { result ≡ bit_value counter.now.gate 0 + bit_value speaker 1 + bit_value (bit 14 now) 4
        + bit_value counter.now.out 5 }
{
    let counter = counter.parts();
    let bits = bit_value(counter.gate, 0)
        + bit_value(speaker, 1)
        + bit_value(bit(14, now), 4)
        + bit_value(counter.out, 5);
    bits as u8
}

/// The counter that holds this, if one can and GATE is high.
fn wired(parts: CounterParts) -> Option<Counter>
    ensures valid { IsSome result ↔ (IsCounter parts × IsTrue parts.gate) }
    ensures value { IfSome result (λ c. c ≡ parts) }
{
    if parts.gate {
        Counter::of_parts(parts)
    } else {
        None
    }
}

/// The counter after a byte of its count is written.
fn byte_written(byte: u8, mut counter: Counter) -> Counter
    ensures value { result ≡ byte_written byte counter }
    ensures gate { result.gate ≡ counter.gate }
{
    counter.write_byte(byte);
    counter
}

/// The counter after a word for it: D5 D4 = 00 latches its count, another is a control word.
#[tactic(auto, unfolding(crate::specs::Ports::commanded))]
fn commanded(byte: u8, mut counter: Counter) -> Counter
    ensures value { result ≡ commanded byte counter }
    ensures gate { result.gate ≡ counter.gate }
{
    if byte / 16 % 4 == 0 {
        counter.latch_count();
        return counter;
    }
    counter.control(byte % 64);
    counter
}
