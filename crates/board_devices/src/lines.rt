//! The levels of the lines.
ghost use Rattle.std.specs.Prelude.{◌≡◌, ℕ, ◌<◌, Some, None, slice_index_or, if◌then◌else◌};
ghost use Rattle.pit_readback.specs.declared.parts.PitParts.{PitParts};
ghost use Rattle.board_devices.specs.Places.{no_line};
ghost use Rattle.board_devices.specs.Lines.{levels};
ghost use Rattle.board_devices.specs.private.Stretch.{output_by};

use crate::levels::{add_rise, front_times, slot_of};
use hpet_registers::Hpet;
use irq_edges::{Lines, lines_at};
use rtc_registers::Rtc;
use tick_policy::TickLine;

/// Whether the tick line at a place is up.
pub(crate) fn up_at(ticks: &[TickLine; 10], k: usize) -> bool
    requires { k < 10 }
    ensures { result ≡ (slice_index_or ticks.now k no_line).up }
{
    ticks[k].is_up()
}

/// The output of timer `k`.
#[tactic(auto, unfolding(crate::specs::private::Stretch::output_by))]
fn output_by(h: &Hpet, k: u8, ticks: &[TickLine; 10]) -> bool
    requires { k < 8 }
    ensures { result ≡ output_by k h.now ticks.now }
{
    let timer = h.timer(k);
    if timer.is_level() {
        h.status_bit(k) && timer.is_enabled()
    } else {
        !h.is_message(k) && up_at(ticks, k as usize + 2)
    }
}

/// From when on a line is up of which the level alone is asked.
fn at_once(up: bool) -> Option<u64>
    ensures { result ≡ (if up then Some 0 else None) }
{
    if up { Some(0) } else { None }
}

/// The levels of the lines.
pub(crate) fn lines_of(rtc: &Rtc, hpet: &Hpet, ticks: &[TickLine; 10]) -> Lines
    ensures { (p : PitParts) (slew : ℕ) → result.levels ≡ levels (record {
      pit = p;
      rtc = rtc.now;
      hpet = hpet.now;
      ticks = ticks.now;
      slew_ns = slew;
    }) }
{
    let _parts = hpet.parts();
    let pit = at_once(up_at(ticks, 0));
    let mut times = front_times(hpet.legacy(), pit, at_once(rtc.irqf()));
    for k in 0..hpet.timers() {
        if output_by(hpet, k, ticks) {
            add_rise(&mut times, slot_of(hpet, k), 0);
        }
    }
    lines_at(&times, 0)
}
