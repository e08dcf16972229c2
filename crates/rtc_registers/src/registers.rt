//! The registers: what their bits mean.

ghost use Rattle.std.specs.Prelude.{◌≡◌, ◌≤◌, ◌==◌, if◌then◌else◌};
ghost use Rattle.clk_units.specs.Bits.{bit};
ghost use Rattle.rtc_registers.specs.Parts.{IsRtc};
ghost use Rattle.rtc_registers.specs.Registers.{register_b, register_c, pf_of, af_of, uf_of};
ghost use Rattle.rtc_registers.specs.Registers.{irqf_of, flags_byte, divider_of, form_of, time_of};
ghost use Rattle.rtc_registers.specs.Registers.{alarm_of, with_time};

use crate::parts::RtcParts;
use clk_units::bit;
use rtc_calendar::{Alarm, Form, TimeBytes};
use rtc_cycle::{Divider, DividerParts};

/// Register A: UIP, DV and RS.
pub(crate) const REGISTER_A: u8 = 0x0a;
/// Register B: what the clock does.
pub(crate) const REGISTER_B: u8 = 0x0b;
/// Register C: the flags.
pub(crate) const REGISTER_C: u8 = 0x0c;
/// Register D: VRT.
pub(crate) const REGISTER_D: u8 = 0x0d;

/// The place of SET in register B: no updates.
pub(crate) const SET: u32 = 7;
/// The place of PIE in register B, and of PF in register C: the periodic interrupt.
pub(crate) const PERIODIC: u32 = 6;
/// The place of AIE in register B, and of AF in register C: the alarm interrupt.
pub(crate) const ALARM: u32 = 5;
/// The place of UIE in register B, and of UF in register C: the update-ended interrupt.
pub(crate) const UPDATE_ENDED: u32 = 4;
/// The place of DM in register B: binary numbers.
const BINARY: u32 = 2;
/// The place of 24/12 in register B: hours 0 to 23.
const HOURS_24: u32 = 1;

/// Whether a bit of a byte is 1.
pub(crate) fn has_bit(k: u32, byte: u8) -> bool
    ensures { result ≡ bit k byte }
{
    bit(k, u64::from(byte))
}

/// Bit `k` of register B, which lets the interrupt of the flag at this place through.
pub(crate) fn is_enabled(r: &RtcParts, k: u32) -> bool
    ensures { result ≡ bit k (register_b r.now) }
{
    has_bit(k, r.bytes[REGISTER_B as usize])
}

/// The flag at this place of register C.
pub(crate) fn is_flagged(r: &RtcParts, k: u32) -> bool
    ensures { result ≡ bit k (register_c r.now) }
{
    has_bit(k, r.bytes[REGISTER_C as usize])
}

/// IRQF of register C.
pub(crate) fn irqf_of(r: &RtcParts) -> bool
    ensures { result ≡ irqf_of r.now }
{
    (is_flagged(r, PERIODIC) && is_enabled(r, PERIODIC))
        || ((is_flagged(r, ALARM) && is_enabled(r, ALARM))
            || (is_flagged(r, UPDATE_ENDED) && is_enabled(r, UPDATE_ENDED)))
}

/// A byte, or 0.
pub(crate) fn byte_if(on: bool, byte: u8) -> u8
    ensures value { result ≡ (if on then byte else 0) }
    ensures few { result ≤ byte }
{
    if on { byte } else { 0 }
}

/// The byte of register C with these flags, without IRQF.
pub(crate) fn flags_byte(pf: bool, af: bool, uf: bool) -> u8
    ensures { result ≡ flags_byte pf af uf }
{
    byte_if(pf, 0x40) + (byte_if(af, 0x20) + byte_if(uf, 0x10))
}

/// Whether register C holds nothing but its flags.
pub(crate) fn has_only_flags(r: &RtcParts) -> bool
    ensures { result ≡ (register_c r.now == flags_byte (pf_of r.now) (af_of r.now) (uf_of r.now)) }
{
    r.bytes[REGISTER_C as usize]
        == flags_byte(
            is_flagged(r, PERIODIC),
            is_flagged(r, ALARM),
            is_flagged(r, UPDATE_ENDED),
        )
}

/// The divider's fields.
pub(crate) fn divider_of(r: &RtcParts) -> DividerParts
    ensures { result ≡ divider_of r.now }
{
    let a = r.bytes[REGISTER_A as usize];
    DividerParts {
        d: r.d,
        cycle: r.cycle,
        dv: a / 16 % 8,
        rs: a % 16,
        set: is_enabled(r, SET),
    }
}

/// The divider.
pub(crate) fn divider(r: &RtcParts) -> Divider
    requires { IsRtc r.now }
    ensures { result ≡ divider_of r.now }
{
    Divider::of_valid_parts(divider_of(r))
}

/// The form of the time bytes.
pub(crate) fn form_of(r: &RtcParts) -> Form
    ensures { result ≡ form_of r.now }
{
    Form {
        binary: is_enabled(r, BINARY),
        hours24: is_enabled(r, HOURS_24),
    }
}

/// The time bytes.
pub(crate) fn time_of(r: &RtcParts) -> TimeBytes
    ensures { result ≡ time_of r.now }
{
    TimeBytes {
        sec: r.bytes[0],
        min: r.bytes[2],
        hour: r.bytes[4],
        wday: r.bytes[6],
        date: r.bytes[7],
        month: r.bytes[8],
        year: r.bytes[9],
    }
}

/// The alarm bytes.
pub(crate) fn alarm_of(r: &RtcParts) -> Alarm
    ensures { result ≡ alarm_of r.now }
{
    Alarm {
        sec: r.bytes[1],
        min: r.bytes[3],
        hour: r.bytes[5],
    }
}

/// Writes the time bytes.
#[tactic(auto, unfolding(crate::specs::Registers::with_time))]
pub(crate) fn write_time(bytes: &mut [u8; 128], time: TimeBytes)
    ensures { bytes.new ≡ with_time time bytes.old }
{
    bytes[0] = time.sec;
    bytes[2] = time.min;
    bytes[4] = time.hour;
    bytes[6] = time.wday;
    bytes[7] = time.date;
    bytes[8] = time.month;
    bytes[9] = time.year;
}
