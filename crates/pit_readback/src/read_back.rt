//! The read-back command. Intel 8254 data sheet, "Read-Back Command".

ghost use Rattle.std.specs.Prelude.{◌≡◌, ◌<◌};
ghost use Rattle.pit_readback.specs.Ports.{
  is_chosen,
  latches_count,
  latches_status,
  read_back_of,
};

use clk_units::bit;
use pit_counter::Counter;

/// Whether a read-back command chooses counter `k`; one with D0 = 1 does nothing (own).
#[tactic(auto, unfolding(crate::specs::Ports::is_chosen))]
fn is_chosen(byte: u8, k: u8) -> bool
    requires { k < 3 }
    ensures { result ≡ is_chosen byte k }
{
    !bit(0, byte as u64) && bit(k as u32 + 1, byte as u64)
}

/// D5 = 0 latches the counts of the chosen counters.
#[tactic(auto, unfolding(crate::specs::Ports::latches_count))]
fn latches_count(byte: u8, k: u8) -> bool
    requires { k < 3 }
    ensures { result ≡ latches_count byte k }
{
    is_chosen(byte, k) && !bit(5, byte as u64)
}

/// D4 = 0 latches their status.
#[tactic(auto, unfolding(crate::specs::Ports::latches_status))]
fn latches_status(byte: u8, k: u8) -> bool
    requires { k < 3 }
    ensures { result ≡ latches_status byte k }
{
    is_chosen(byte, k) && !bit(4, byte as u64)
}

/// Counter `k` after a read-back command.
#[tactic(auto, unfolding(crate::specs::Ports::read_back_of))]
pub fn read_back_of(byte: u8, k: u8, mut counter: Counter) -> Counter
    requires { k < 3 }
    ensures { result ≡ read_back_of byte k counter }
{
    if latches_count(byte, k) {
        counter.latch_count();
    }
    if latches_status(byte, k) {
        counter.latch_status();
    }
    counter
}
