//! The block of twelve bytes.

ghost use Rattle.std.specs.Prelude.{◌≡◌, ◌<◌, ◌*◌, ◌^◌, IsTrue};
ghost use Rattle.pm_timer.specs.Registers.{is_pm_width, pm_block, pm_read};
ghost use Rattle.pm_timer.specs.Registers.{status_written, enable_written, pm_written};

use crate::parts::PmParts;
use clk_units::{bit, bit_value};

/// The bytes of the block.
const BLOCK_BYTES: u8 = 12;
/// The byte of PM1_EN that has TMR_EN.
const ENABLE_BYTE: u8 = 2;
/// The place of PM_TMR in the block's number.
const COUNT_UNIT: u128 = 0x1_0000_0000_0000_0000;

/// The block as one number, its byte 0 the lowest.
fn block(p: PmParts) -> u128
    ensures value { result ≡ pm_block p }
    ensures small { result < 2 ^ 96 }
{
    bit_value(p.status, 0) as u128 + bit_value(p.enable, 16) as u128 + p.count as u128 * COUNT_UNIT
}

/// What a read of `width` bytes from byte `offset` on gives.
pub(crate) fn read(p: PmParts, offset: u8, width: u8) -> u32
    requires { IsTrue (is_pm_width width) }
    ensures value { result ≡ pm_read offset width p }
    ensures fits { result < 2 ^ (8 * width) }
{
    let block = block(p);
    if offset >= BLOCK_BYTES {
        return 0;
    }
    let rest = block >> (8 * offset as u32);
    if width == 1 {
        (rest % 0x100) as u32
    } else if width == 2 {
        (rest % 0x1_0000) as u32
    } else {
        (rest % 0x1_0000_0000) as u32
    }
}

/// TMR_STS after a write.
fn status_after(p: PmParts, offset: u8, value: u32) -> bool
    ensures { result ≡ status_written offset value p }
{
    p.status && !(offset == 0 && bit(0, value as u64))
}

/// TMR_EN after a write.
fn enable_after(p: PmParts, offset: u8, width: u8, value: u32) -> bool
    ensures { result ≡ enable_written offset width value p }
{
    if offset <= ENABLE_BYTE && width > ENABLE_BYTE - offset {
        bit(8 * (ENABLE_BYTE - offset) as u32, value as u64)
    } else {
        p.enable
    }
}

/// The fields after a write of `width` bytes from byte `offset` on.
#[tactic(auto, unfolding(crate::specs::Registers::pm_written))]
pub(crate) fn written(p: PmParts, offset: u8, width: u8, value: u32) -> PmParts
    ensures { result ≡ pm_written offset width value p }
{
    if p.bits == 0 {
        return p;
    }
    PmParts {
        status: status_after(p, offset, value),
        enable: enable_after(p, offset, width, value),
        ..p
    }
}
