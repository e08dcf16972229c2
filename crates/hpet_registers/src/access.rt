//! What a register holds, and a write to it.

ghost use Rattle.std.specs.Prelude.{◌≡◌, ◌+◌, ◌*◌, ◌^◌, ◌<◌, ◌≤◌, IsTrue};
ghost use Rattle.hpet_comparator.specs.Part.{part_written, is_register_width};
ghost use Rattle.hpet_comparator.specs.Config.{config_written};
ghost use Rattle.hpet_comparator.specs.Comparator.{comparator_written};
ghost use Rattle.hpet_registers.specs.Parts.{IsHpet, timer_at};
ghost use Rattle.hpet_registers.specs.Register.{IsRegister};
ghost use Rattle.hpet_registers.specs.Access.{is_access_width, hpet_read, part_of, register_value};
ghost use Rattle.hpet_registers.specs.Access.{register_written, timer_config_register};
ghost use Rattle.hpet_registers.specs.Access.{timer_config_written};

use crate::parts::HpetParts;
use crate::register::{Register, is_effective, register_at};
use hpet_comparator::{MainCounter, Timer, TimerParts, write_part};

/// The capabilities of a block of one timer: 10 ns a pulse, vendor 8086h, legacy replacement, 64
/// bits, revision 1.
const CAPABILITIES: u64 = 0x0098_9680_8086_a001;
/// One more timer, in the capabilities.
const ONE_TIMER: u64 = 0x100;
/// Bit 14 of a timer's configuration: its matches are messages.
const MESSAGE: u64 = 0x4000;
/// Bit 15: it can send messages.
const MESSAGE_CAPABLE: u64 = 0x8000;
/// How many numbers a half of a register has.
const HALF: u64 = 0x1_0000_0000;

/// The configuration register of timer `k`.
fn timer_config(parts: &HpetParts, k: u8) -> u64
    requires valid { IsHpet parts.now }
    requires range { k < parts.now.timers }
    ensures { result ≡ timer_config_register k parts.now }
{
    let bit = if parts.message_bit[k as usize] {
        MESSAGE
    } else {
        0
    };
    let capable = if parts.messages { MESSAGE_CAPABLE } else { 0 };
    Timer::of_valid_parts(parts.timer[k as usize]).config() + bit + capable
}

/// What a register holds.
fn value(parts: &HpetParts, register: Register) -> u64
    requires valid { IsHpet parts.now }
    requires range { IsRegister parts.now.timers parts.now.messages register }
    ensures { result ≡ register_value register parts.now }
{
    match register {
        Register::Capabilities => CAPABILITIES + (parts.timers as u64 - 1) * ONE_TIMER,
        Register::Configuration => parts.config as u64,
        Register::Status => parts.status as u64,
        Register::MainCounter => parts.counter,
        Register::TimerConfig(k) => timer_config(parts, k),
        Register::TimerComparator(k) => parts.timer[k as usize].comparator,
        Register::TimerMessage(k) => parts.message_word[k as usize],
        Register::Reserved => 0,
    }
}

/// What an access of this width reads of a register.
fn read(parts: &HpetParts, register: Register, width: u8, high: bool) -> u64
    requires valid { IsHpet parts.now }
    requires range { IsRegister parts.now.timers parts.now.messages register }
    ensures { result ≡ part_of width high (register_value register parts.now) }
{
    let v = value(parts, register);
    if width == 8 {
        v
    } else if high {
        v / HALF
    } else {
        v % HALF
    }
}

/// The largest number of this width, in bytes.
fn all_ones(width: u8) -> u64
    requires { IsTrue (is_access_width width) }
    ensures { result + 1 ≡ 2 ^ (8 * width) }
{
    match width {
        1 => 0xff,
        2 => 0xffff,
        4 => 0xffff_ffff,
        _ => u64::MAX,
    }
}

/// What an access reads: a register or a half of one, or all ones where it reaches none.
pub(crate) fn read_at(parts: &HpetParts, offset: u16, width: u8) -> u64
    requires valid { IsHpet parts.now }
    requires offset { offset ≤ 1023 }
    requires width { IsTrue (is_access_width width) }
    ensures { result ≡ hpet_read offset width parts.now }
{
    if is_effective(offset, width) {
        let register = register_at(parts.timers, parts.messages, offset - offset % 8);
        read(parts, register, width, offset % 8 == 4)
    } else {
        all_ones(width)
    }
}

/// The main counter after a write.
fn counter_written(value: u64, width: u8, high: bool, v: u64) -> u64
    requires width { IsTrue (is_register_width width) }
    requires fits { v < 2 ^ (8 * width) }
    ensures { result ≡ part_written width high v value }
{
    let mut counter = MainCounter { value };
    counter.write(width, high, v);
    counter.value
}

/// Timer `k` after a write of `v` to its configuration register.
fn timer_config_written(parts: &HpetParts, k: u8, v: u64) -> TimerParts
    requires valid { IsHpet parts.now }
    requires range { k < parts.now.timers }
    ensures { result ≡ config_written v (timer_at k parts.now) }
{
    let mut timer = Timer::of_valid_parts(parts.timer[k as usize]);
    timer.write_config(v);
    timer.parts()
}

/// Timer `k` after a write to its comparator register.
fn timer_comparator_written(parts: &HpetParts, k: u8, width: u8, high: bool, v: u64) -> TimerParts
    requires valid { IsHpet parts.now }
    requires range { k < parts.now.timers }
    requires width { IsTrue (is_register_width width) }
    requires fits { v < 2 ^ (8 * width) }
    ensures { result ≡ comparator_written width high v (timer_at k parts.now) }
{
    let mut timer = Timer::of_valid_parts(parts.timer[k as usize]);
    timer.write_comparator(width, high, v);
    timer.parts()
}

/// Writes `v` to the configuration register of timer `k`.
fn write_timer_config(parts: &mut HpetParts, k: u8, v: u64)
    requires valid { IsHpet parts.old }
    requires range { k < parts.old.timers }
    ensures { parts.new ≡ timer_config_written k v parts.old }
{
    parts.timer[k as usize] = timer_config_written(parts, k, v);
    if parts.messages {
        parts.message_bit[k as usize] = v / MESSAGE % 2 == 1;
    }
}

/// Writes `v` to a register. The fields change in their places: to move all would cost more than the write does.
pub(crate) fn write_register(
    parts: &mut HpetParts,
    register: Register,
    width: u8,
    high: bool,
    v: u64,
)
    requires valid { IsHpet parts.old }
    requires range { IsRegister parts.old.timers parts.old.messages register }
    requires width { IsTrue (is_register_width width) }
    requires fits { v < 2 ^ (8 * width) }
    ensures { parts.new ≡ register_written register width high v parts.old }
{
    match register {
        Register::Capabilities | Register::Reserved => {}
        Register::Configuration => {
            parts.config = (write_part(parts.config as u64, width, high, v) % 4) as u8;
        }
        Register::Status => {
            parts.status &= !((write_part(0, width, high, v) % 0x100) as u8);
        }
        Register::MainCounter => {
            parts.counter = counter_written(parts.counter, width, high, v);
        }
        Register::TimerConfig(k) => {
            let v = write_part(timer_config(parts, k), width, high, v);
            write_timer_config(parts, k, v);
        }
        Register::TimerComparator(k) => {
            parts.timer[k as usize] = timer_comparator_written(parts, k, width, high, v);
        }
        Register::TimerMessage(k) => {
            let word = write_part(parts.message_word[k as usize], width, high, v);
            parts.message_word[k as usize] = word;
        }
    }
}
