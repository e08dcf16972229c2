//! A board at power on.
ghost use Rattle.std.specs.Prelude.{◌≡◌, IsTrue};
ghost use Rattle.board_types.specs.Setup.{IsSetup};
ghost use Rattle.tick_policy.specs.Parts.{policy_of};
ghost use Rattle.clockboard_c.specs.Kept.{seen};
ghost use Rattle.clockboard_c.specs.Replies.{IsReply};
ghost use Rattle.clockboard_c.specs.Setup.{
  setup_of,
  time_of,
  setup_valid,
  power_on_told,
  powered_on,
};

use crate::board::{Board, sealed};
use crate::code::BAD_SETUP;
use crate::reply::{NO_VALUE, ReplyWords};
use board_core::BoardState;
use board_types::{LAST_FORMAT, SECOND_NS, SLEW_MAX_NS, Setup, processors_of};
use clk_units::{RANGE_NS, is_khz};
use host_counter::Anchor;
use rtc_calendar::TimeBytes;
use tick_policy::Policy;

/// What a board is at power on, as plain numbers: `struct clockboard_setup` of the header.
#[derive(Clone, Copy)]
#[repr(C)]
pub struct SetupWords {
    /// The rate of the host's counter in kHz, 100,000 to 10,000,000.
    pub host_khz: u64,
    /// Its count at power on.
    pub host_start: u64,
    /// The time at that count in nanoseconds, below 2^59.
    pub base_ns: u64,
    /// The rate of the guest's TSC in kHz, 100,000 to 10,000,000.
    pub guest_khz: u64,
    /// Nanoseconds from one catch-up point to the next, 1 to 1,000,000,000.
    pub slew_ns: u64,
    /// The wall clock at power on: seconds, and nanoseconds below 1,000,000,000.
    pub wall_sec: u32,
    pub wall_nsec: u32,
    /// The format, 1 to 5.
    pub format: u8,
    /// How many processors there are: 1 to 16, from format 2 on to 64.
    pub cpus: u8,
    /// What becomes of a late tick of the 8254, the MC146818 and the HPET: 0 discard, 1 delay, 2 slew.
    pub pit_policy: u8,
    pub rtc_policy: u8,
    pub hpet_policy: u8,
    /// The time of the MC146818 in BCD, as it holds it: seconds, minutes, hour of 24, day of the week (1 is Sunday), date,
    /// month, year of the century. Bytes that spell no time are kept as they are, and the clock counts on from them.
    pub sec: u8,
    pub min: u8,
    pub hour: u8,
    pub wday: u8,
    pub date: u8,
    pub month: u8,
    pub year: u8,
}

/// Makes a board at power on, in any memory. Where the setup is out of range the memory stays as it is.
#[unsafe(no_mangle)]
pub extern "C" fn clockboard_power_on(board: &mut Board, setup: &SetupWords, reply: &mut ReplyWords)
    ensures reply { IsReply reply.old reply.new (power_on_told setup.now) }
    ensures board { seen board.new ≡ powered_on setup.now (seen board.old) }
{
    if !is_valid(setup) {
        reply.refuse(BAD_SETUP);
        return;
    }
    let state = BoardState::power_on(&setup_of(setup));
    let now_ns = state.now();
    *board = sealed(state);
    reply.take(0, now_ns, NO_VALUE, &[], &[]);
}

/// Whether each number of a setup is in its range. A time byte may have any value.
fn is_valid(s: &SetupWords) -> bool
    ensures value { result ≡ setup_valid s.now }
    ensures valid { IsTrue result → IsSetup (setup_of s.now) }
{
    1 <= s.format
        && s.format <= LAST_FORMAT
        && is_khz(s.host_khz)
        && s.base_ns < RANGE_NS
        && is_khz(s.guest_khz)
        && 1 <= s.cpus
        && s.cpus <= processors_of(s.format)
        && 1 <= s.slew_ns
        && s.slew_ns <= SLEW_MAX_NS
        && s.wall_nsec < SECOND_NS
        && s.pit_policy <= 2
        && s.rtc_policy <= 2
        && s.hpet_policy <= 2
}

/// The setup of these numbers.
fn setup_of(s: &SetupWords) -> Setup
    ensures { result ≡ setup_of s.now }
{
    Setup {
        format: s.format,
        anchor: Anchor {
            khz: s.host_khz,
            start: s.host_start,
            base_ns: s.base_ns,
        },
        guest_khz: s.guest_khz,
        cpus: s.cpus,
        pit: policy_of(s.pit_policy),
        rtc: policy_of(s.rtc_policy),
        hpet: policy_of(s.hpet_policy),
        slew_ns: s.slew_ns,
        wall_sec: s.wall_sec,
        wall_nsec: s.wall_nsec,
        time: time_of(s),
    }
}

/// The time bytes of a setup.
fn time_of(s: &SetupWords) -> TimeBytes
    ensures { result ≡ time_of s.now }
{
    TimeBytes {
        sec: s.sec,
        min: s.min,
        hour: s.hour,
        wday: s.wday,
        date: s.date,
        month: s.month,
        year: s.year,
    }
}

/// The policy of a number up to 2.
fn policy_of(byte: u8) -> Policy
    ensures { result ≡ policy_of byte }
{
    match byte {
        0 => Policy::Discard,
        1 => Policy::Delay,
        _ => Policy::Slew,
    }
}
