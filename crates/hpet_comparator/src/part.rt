//! Writes of a register of 64 bits, whole or by halves.

ghost use Rattle.std.specs.Prelude.{◌≡◌, ◌*◌, ◌/◌, ◌%◌, ◌^◌, ◌<◌, true, false, IsTrue};
ghost use Rattle.hpet_comparator.specs.Part.{part_written, is_register_width};

/// How many numbers a half of a register has.
const HALF: u64 = 0x1_0000_0000;

/// What a register of 64 bits that holds `old` holds after a write of `v`, of 8 bytes or of the 4
/// bytes of one half (IA-PC HPET specification 1.0a, section 2.4: software may use 32 or 64 bit
/// accesses).
pub fn write_part(old: u64, width: u8, high: bool, v: u64) -> u64
    requires width { IsTrue (is_register_width width) }
    requires fits { v < 2 ^ (8 * width) }
    ensures value { result ≡ part_written width high v old }
    ensures halves { width ≡ 8
        → result ≡ part_written 4 true (v / 2 ^ 32) (part_written 4 false (v % 2 ^ 32) old) }
{
    if width == 8 {
        v
    } else if high {
        v * HALF + old % HALF
    } else {
        old - old % HALF + v
    }
}
