//! What reads and writes do to the fields, in place.

ghost use Rattle.std.specs.Prelude.{◌≡◌, ℕ, ◌/◌, ◌%◌, ◌<◌, ◌≤◌, ◌||◌, ◌==◌, if◌then◌else◌};
ghost use Rattle.std.specs.Prelude.{slice_set};
ghost use Rattle.rtc_cycle.specs.Divider.{with_dv, with_rate, with_set};
ghost use Rattle.rtc_cycle.specs.Parts.{IsDivider};
ghost use Rattle.rtc_registers.specs.Access.{rtc_read, after_rtc_read, b_stored, stored};
ghost use Rattle.rtc_registers.specs.Access.{divider_written, rtc_written, flagged};
ghost use Rattle.rtc_registers.specs.Parts.{IsRtc, rtc_at_power_on};
ghost use Rattle.rtc_registers.specs.Pulses.{rtc_pulsed_times};
ghost use Rattle.rtc_registers.specs.Registers.{time_of};

use crate::parts::{RtcParts, VALID};
use crate::registers::{
    self, ALARM, REGISTER_A, REGISTER_B, REGISTER_C, REGISTER_D, SET, UPDATE_ENDED,
};
use rtc_calendar::TimeBytes;
use rtc_cycle::{Divider, DividerParts};

/// UIP as register A shows it, and IRQF as register C does.
const SHOWN: u8 = 0x80;

/// Register A at power on: DV 010, rate 6.
const A_AT_POWER_ON: u8 = 0x26;

/// Register B at power on: 24 hours, BCD.
const B_AT_POWER_ON: u8 = 0x02;

/// The divider at power on: half a second before the first update cycle begins.
const D_AT_POWER_ON: u16 = 16_384;

/// The byte that the data port reads.
#[tactic(auto, unfolding(crate::specs::Access::rtc_read))]
pub(crate) fn rtc_read(r: &RtcParts) -> u8
    requires { IsRtc r.now }
    ensures value { result ≡ rtc_read r.now }
    ensures still { r.now.index ≡ 0x0a → result < 0x80 → (n : ℕ) → n ≤ 73
        → time_of (rtc_pulsed_times n r.now) ≡ time_of r.now }
{
    match r.index {
        REGISTER_A => {
            r.bytes[REGISTER_A as usize] + registers::byte_if(registers::divider(r).uip(), SHOWN)
        }
        REGISTER_C => {
            r.bytes[REGISTER_C as usize] + registers::byte_if(registers::irqf_of(r), SHOWN)
        }
        index => r.bytes[index as usize],
    }
}

/// Does what a read does.
#[tactic(auto, unfolding(crate::specs::Access::after_rtc_read))]
pub(crate) fn leave_read(r: &mut RtcParts)
    ensures { r.new ≡ after_rtc_read r.old }
{
    if r.index == REGISTER_C {
        r.bytes[REGISTER_C as usize] = 0;
    }
}

/// Sets PF.
#[tactic(auto, unfolding(crate::specs::Access::flagged))]
pub(crate) fn set_pf(r: &mut RtcParts)
    ensures { r.new ≡ flagged r.old }
{
    r.bytes[REGISTER_C as usize] = registers::flags_byte(
        true,
        registers::is_flagged(r, ALARM),
        registers::is_flagged(r, UPDATE_ENDED),
    );
}

/// Register B as a write stores it.
fn b_stored(r: &RtcParts, byte: u8) -> u8
    ensures { result ≡ b_stored byte r.now }
{
    if registers::has_bit(SET, byte)
        && (!registers::is_enabled(r, SET) && registers::has_bit(UPDATE_ENDED, byte))
    {
        byte - 0x10
    } else {
        byte
    }
}

/// What a write at the index stores.
fn stored(r: &RtcParts, byte: u8) -> u8
    ensures { result ≡ stored byte r.now }
{
    match r.index {
        REGISTER_A => byte % SHOWN,
        REGISTER_B => b_stored(r, byte),
        _ => byte,
    }
}

/// Stores a byte where one can be written.
fn store(bytes: &mut [u8; 128], index: u8, byte: u8)
    requires { index < 128 }
    ensures { bytes.new
        ≡ (if index == 0x0c || index == 0x0d then bytes.old else slice_set bytes.old index byte) }
{
    if index != REGISTER_C && index != REGISTER_D {
        bytes[index as usize] = byte;
    }
}

/// The divider after register A is written.
fn a_written(divider: Divider, byte: u8) -> Divider
    ensures { result ≡ with_rate (byte % 16) (with_dv (byte / 16 % 8) divider) }
{
    let mut divider = divider;
    divider.dv(byte / 16 % 8);
    divider.rate(byte % 16);
    divider
}

/// The divider after SET is written.
fn set_written(divider: Divider, on: bool) -> Divider
    ensures { result ≡ with_set on divider }
{
    let mut divider = divider;
    divider.set(on);
    divider
}

/// The divider's fields after a write.
fn divider_written(r: &RtcParts, byte: u8) -> DividerParts
    requires { IsRtc r.now }
    ensures value { result ≡ divider_written byte r.now }
    ensures valid { IsDivider result }
{
    let divider = registers::divider(r);
    match r.index {
        REGISTER_A => a_written(divider, byte).parts(),
        REGISTER_B => set_written(divider, registers::has_bit(SET, byte)).parts(),
        _ => divider.parts(),
    }
}

/// Writes a byte at the index.
#[tactic(auto, unfolding(crate::specs::Access::rtc_written))]
pub(crate) fn write(r: &mut RtcParts, byte: u8)
    requires { IsRtc r.old }
    ensures { r.new ≡ rtc_written byte r.old }
{
    let divider = divider_written(r, byte);
    let byte = stored(r, byte);
    let index = r.index;
    store(&mut r.bytes, index, byte);
    r.d = divider.d;
    r.cycle = divider.cycle;
}

/// The fields at power on.
#[tactic(auto, unfolding(crate::specs::Parts::rtc_at_power_on))]
pub(crate) fn rtc_at_power_on(time: TimeBytes) -> RtcParts
    ensures { result ≡ rtc_at_power_on time }
{
    let mut bytes = [0; 128];
    registers::write_time(&mut bytes, time);
    bytes[REGISTER_A as usize] = A_AT_POWER_ON;
    bytes[REGISTER_B as usize] = B_AT_POWER_ON;
    bytes[REGISTER_D as usize] = VALID;
    RtcParts {
        index: 0,
        bytes,
        d: D_AT_POWER_ON,
        cycle: false,
    }
}
