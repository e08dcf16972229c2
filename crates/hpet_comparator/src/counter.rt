//! The main counter.

ghost use Rattle.std.specs.Prelude.{◌≡◌, ◌*◌, ◌^◌, ◌<◌, IsTrue};
ghost use Rattle.hpet_comparator.specs.Counter.{counter_after};
ghost use Rattle.hpet_comparator.specs.Part.{part_written, is_register_width};

use crate::part::write_part;

/// The main counter. Every value of 64 bits is one that it may have.
#[repr(C)]
#[derive(Clone, Copy, Debug, PartialEq, Eq)]
pub struct MainCounter {
    /// The number of pulses seen since the counter was 0, modulo 2^64.
    pub value: u64,
}

impl MainCounter {
    /// Counts `n` pulses, modulo 2^64.
    pub fn pulses(&mut self, n: u64)
        ensures value { self.new.value ≡ counter_after self.old.value n }
    {
        self.value = self.value.wrapping_add(n);
    }

    /// A write of the whole counter (`width` 8) or of one half (`width` 4; `high` says which). It
    /// may come at any time, also while the counter runs (own).
    pub fn write(&mut self, width: u8, high: bool, v: u64)
        requires width { IsTrue (is_register_width width) }
        requires fits { v < 2 ^ (8 * width) }
        ensures value { self.new.value ≡ part_written width high v self.old.value }
    {
        self.value = write_part(self.value, width, high, v);
    }
}
