//! The record of all fields of a timer, and the conditions on them.

ghost use Rattle.std.specs.Prelude.{◌≡◌, ◌↔◌, ◌<◌, IsNone};
ghost use Rattle.pit_readback.specs.Parts.{IsPit, fault_of, fault_at, pit_fault};
ghost use Rattle.pit_readback.specs.Pit.{counter_of};

use pit_counter::{CounterField, CounterParts};

/// All that a timer holds.
#[derive(Clone, Copy, Debug, PartialEq, Eq)]
#[repr(C)]
pub struct PitParts {
    /// Counters 0, 1 and 2.
    pub counters: [CounterParts; 3],
    /// Speaker data, bit 1 of port 61h.
    pub speaker: bool,
}

/// A field of a counter whose condition fails.
#[derive(Clone, Copy, Debug, PartialEq, Eq)]
pub struct PitFault {
    /// The number of the counter.
    pub counter: u8,
    /// The field of it.
    pub field: CounterField,
}

impl PitParts {
    /// The first field whose condition fails, counter by counter and each in the order of a saved
    /// state, or None where these are the fields of a timer. That GATE of counters 0 and 1 is high
    /// is a condition on their flags.
    pub fn first_fault(&self) -> Option<PitFault>
        ensures value { result ≡ pit_fault self.now }
        ensures none { IsNone result ↔ IsPit self.now }
    {
        let third = fault_at(2, fault_of(2, &self.counter(2)), None);
        let second = fault_at(1, fault_of(1, &self.counter(1)), third);
        fault_at(0, fault_of(0, &self.counter(0)), second)
    }

    /// What counter `k` holds.
    pub fn counter(&self, k: u8) -> CounterParts
        requires { k < 3 }
        ensures { result ≡ counter_of self.now k }
    {
        self.counters[k as usize]
    }
}

/// The first field of counter `k` whose condition fails.
fn fault_of(k: u8, parts: &CounterParts) -> Option<CounterField>
    ensures { result ≡ fault_of k parts.now }
{
    let fault = parts.first_fault();
    let is_wired = parts.gate || k >= 2;
    if fault == Some(CounterField::ProgrammedBits) || is_wired {
        fault
    } else {
        Some(CounterField::Flags)
    }
}

/// A fault of counter `k`, or else a later one.
fn fault_at(k: u8, fault: Option<CounterField>, later: Option<PitFault>) -> Option<PitFault>
    ensures { result ≡ fault_at k fault later }
{
    match fault {
        Some(field) => Some(PitFault { counter: k, field }),
        None => later,
    }
}
