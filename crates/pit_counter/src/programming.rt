//! What control words, counts and GATE do to a counter. Intel 8254 data sheet, "Programming the
//! 8254" and "Gate".

ghost use Rattle.std.specs.Prelude.{◌≡◌};
ghost use Rattle.pit_counter.specs.Programming.{
  programmed,
  completed,
  begun,
  byte_written_by,
  byte_written,
  gated,
};

use crate::mode::{Access, access_of, mode_of};
use crate::parts::CounterParts;

/// A counter just programmed, with GATE at this level.
#[tactic(auto, unfolding(crate::specs::Programming::programmed))]
pub fn programmed(bits: u8, gate: bool) -> CounterParts
    ensures { result ≡ programmed bits gate }
{
    CounterParts {
        bits,
        null: true,
        out: !mode_of(bits).is_terminal(),
        gate,
        full: false,
        live: false,
        armed: false,
        trig: false,
        odd: false,
        cr: 0,
        ce: 0,
        part_there: false,
        part: 0,
        high_next: false,
        count_latched: false,
        latched_count: 0,
        status_latched: false,
        latched_status: 0,
    }
}

/// A whole count is written.
#[tactic(auto, unfolding(crate::specs::Programming::completed))]
fn completed(count: u16, p: CounterParts) -> CounterParts
    ensures { result ≡ completed count p }
{
    CounterParts {
        cr: count,
        full: true,
        null: true,
        part_there: false,
        part: 0,
        ..p
    }
}

/// The first of two bytes is written.
#[tactic(auto, unfolding(crate::specs::Programming::begun))]
fn begun(byte: u8, p: CounterParts) -> CounterParts
    ensures { result ≡ begun byte p }
{
    CounterParts {
        part_there: true,
        part: byte,
        ..p
    }
}

/// A byte of a count is written: in mode 0 OUT goes low with each.
#[tactic(auto, unfolding(crate::specs::Programming::byte_written_by))]
pub fn byte_written(byte: u8, p: CounterParts) -> CounterParts
    ensures { result ≡ byte_written byte p }
{
    let p = CounterParts {
        out: p.out && !mode_of(p.bits).is_terminal(),
        ..p
    };
    match access_of(p.bits) {
        Access::LowByte => completed(byte as u16, p),
        Access::HighByte => completed(byte as u16 * 256, p),
        Access::LowThenHigh => second_or_first(byte, p),
    }
}

/// A byte of a two-byte count is written.
#[tactic(auto, unfolding(crate::specs::Programming::byte_written_by))]
fn second_or_first(byte: u8, p: CounterParts) -> CounterParts
    ensures { result ≡ byte_written_by Access.LowThenHigh byte p }
{
    if p.part_there {
        completed(p.part as u16 + byte as u16 * 256, p)
    } else {
        begun(byte, p)
    }
}

/// GATE takes a level; what its edges do is (own).
#[tactic(auto, unfolding(crate::specs::Programming::gated))]
pub fn gated(level: bool, p: CounterParts) -> CounterParts
    ensures { result ≡ gated level p }
{
    let mode = mode_of(p.bits);
    CounterParts {
        gate: level,
        out: p.out || (p.gate && !level && mode.is_periodic()),
        trig: p.trig || (!p.gate && level && mode.has_trigger() && p.full),
        ..p
    }
}
