//! What is before the 8254: what the bytes are, rates, counts and policies; read, and its first fault.
ghost use Rattle.std.specs.Prelude.{◌≡◌, ◌&&◌, nat_lt, nat_le, OnOk};
ghost use Rattle.std.specs.Result.{result_err};
ghost use Rattle.host_counter.specs.Time.{time_at};
ghost use Rattle.host_counter.specs.declared.Anchor.{Anchor};
ghost use Rattle.clk_units.specs.declared.ranges.TheConstants.{RANGE_NS};
ghost use Rattle.board_types.specs.Setup.{processors_of};
ghost use Rattle.byte_table.specs.Fold.{fault_in, size_of};
ghost use Rattle.byte_table.specs.Reading.{IsPast, Passes};
ghost use Rattle.save_state.specs.Fields.{khz_valid, front};
ghost use Rattle.save_state.specs.Reading.{board_in};
ghost use Rattle.save_state.specs.private.Front.{front_of};
ghost use Rattle.save_state.specs.private.Rows.{front_rows};

use crate::encoding::MAGIC;
use crate::fault::{StateFault, StateKind};
use crate::table::{Row, both, check_rows, field};
use board_core::{MOST_ACCESSES, processors_of};
use board_types::{LAST_FORMAT, SLEW_MAX_NS};
use byte_table::Fields;
use clk_units::{KHZ_MAX, KHZ_MIN, RANGE_NS};
use host_counter::Anchor;

/// What is before the 8254, whether or not its conditions hold.
#[derive(Clone, Copy)]
pub(crate) struct Front {
    pub(crate) magic: u64,
    pub(crate) format: u16,
    pub(crate) cpus: u16,
    pub(crate) anchor: Anchor,
    pub(crate) host: u64,
    pub(crate) guest_khz: u64,
    pub(crate) accesses: u64,
    pub(crate) greatest: u64,
    pub(crate) slew_ns: u64,
    /// Those of the 8254, of the MC146818 and of the HPET's timers.
    pub(crate) policies: [u8; 3],
}

/// What is before the 8254.
#[tactic(auto, unfolding(crate::proofs::Formats::layout, byte_table::specs::Codes::row_value))]
pub(crate) fn front_in(fields: &mut Fields) -> Front
    requires { fields.old.place ≡ 0 }
    ensures value { result ≡ front_of fields.old.bytes.now }
    ensures next { IsPast (size_of front) fields.old fields.new }
{
    Front {
        magic: fields.eight(),
        format: fields.two(),
        cpus: fields.two(),
        anchor: Anchor {
            khz: fields.eight(),
            start: fields.eight(),
            base_ns: fields.eight(),
        },
        host: fields.eight(),
        guest_khz: fields.eight(),
        accesses: fields.eight(),
        greatest: fields.eight(),
        slew_ns: fields.eight(),
        policies: [fields.byte(), fields.byte(), fields.byte()],
    }
}

/// Goes over the fields before the 8254, up to their first fault.
pub(crate) fn check_front(fields: &mut Fields, f: &Front) -> Result<(), StateFault>
    requires start { fields.old.place ≡ 0 }
    requires front { f.now ≡ front_of fields.old.bytes.now }
    ensures fault { result_err result ≡ fault_in front (board_in fields.old.bytes.now)
        (board_in fields.old.bytes.now) 0 fields.old.bytes.now }
    ensures next { OnOk result (Passes (size_of front) fields.old fields.new) }
{
    let rows = front_rows(f);
    check_rows(fields, &rows)
}

/// The rows of what is before the 8254.
#[tactic(auto, unfolding(crate::specs::private::Rows::front_rows))]
fn front_rows(f: &Front) -> [Row; 14]
    ensures { result ≡ front_rows f.now }
{
    [
        Row {
            kind: StateKind::Magic,
            ..field(8, f.magic == MAGIC)
        },
        Row {
            kind: StateKind::Version,
            ..field(2, both(1 <= f.format, f.format <= u16::from(LAST_FORMAT)))
        },
        field(2, cpus_valid(f.format, f.cpus)),
        field(8, khz_valid(f.anchor.khz)),
        field(8, true),
        field(8, f.anchor.base_ns < RANGE_NS),
        field(8, host_valid(&f.anchor, f.host)),
        field(8, khz_valid(f.guest_khz)),
        field(8, f.accesses <= MOST_ACCESSES),
        field(8, true),
        field(8, slew_valid(f.slew_ns)),
        field(1, f.policies[0] < 3),
        field(1, f.policies[1] < 3),
        field(1, f.policies[2] < 3),
    ]
}

/// Whether a board of a format may have so many processors.
fn cpus_valid(format: u16, cpus: u16) -> bool
    ensures { result ≡ (nat_le 1 cpus && nat_le cpus (processors_of format)) }
{
    let most = processors_of(format.min(2) as u8);
    both(1 <= cpus, cpus <= u16::from(most))
}

/// Whether a rate is in range.
fn khz_valid(khz: u64) -> bool
    ensures { result ≡ khz_valid khz }
{
    both(KHZ_MIN <= khz, khz <= KHZ_MAX)
}

/// Whether the nanoseconds between catch-up points are in range.
fn slew_valid(slew_ns: u64) -> bool
    ensures { result ≡ (nat_le 1 slew_ns && nat_le slew_ns 1000000000) }
{
    both(1 <= slew_ns, slew_ns <= SLEW_MAX_NS)
}

/// Whether the greatest count isn't before the anchor's, and its time is in range.
fn host_valid(anchor: &Anchor, host: u64) -> bool
    ensures { result ≡ (nat_le anchor.now.start host && nat_lt (time_at anchor.now host) RANGE_NS) }
{
    let time = time_at(anchor, host);
    both(anchor.start <= host, time < u128::from(RANGE_NS))
}

/// The nanoseconds at a count, whatever the anchor is: a rate of 0 moves no time.
#[tactic(auto, unfolding(host_counter::specs::Time::time_at))]
fn time_at(anchor: &Anchor, count: u64) -> u128
    ensures { result ≡ time_at anchor.now count }
{
    let counts = u128::from(count.saturating_sub(anchor.start));
    let since = if anchor.khz == 0 {
        0
    } else {
        counts * 1_000_000 / u128::from(anchor.khz)
    };
    u128::from(anchor.base_ns) + since
}
