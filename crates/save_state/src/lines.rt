//! The first fault of the tick lines, and of the counts of rises.
ghost use Rattle.std.specs.Prelude.{◌≡◌, ◌+◌, ◌<◌, ◌≤◌, ◌&&◌, ◌||◌, OnOk, length, slice_index_or};
ghost use Rattle.std.specs.Result.{result_err};
ghost use Rattle.rtc_registers.specs.Registers.{pf_of};
ghost use Rattle.board_types.specs.Setup.{timers_of, has_messages};
ghost use Rattle.board_types.specs.declared.parts.TheConstants.{MOST_ACCESSES};
ghost use Rattle.board_devices.specs.Nanosecond.{counts_rtc};
ghost use Rattle.board_devices.specs.Lines.{levels};
ghost use Rattle.board_devices.specs.Parts.{AreDevices};
ghost use Rattle.board_devices.specs.Places.{no_line};
ghost use Rattle.board_core.specs.Time.{devices_in, now_of};
ghost use Rattle.host_counter.specs.Time.{HasTime};
ghost use Rattle.byte_table.specs.Fold.{fault_in, size_of};
ghost use Rattle.byte_table.specs.Reading.{Passes};
ghost use Rattle.save_state.specs.Rises.{rise_valid, legacy_rises_valid, routed_rises_valid};
ghost use Rattle.save_state.specs.Fields.{line, lines, up_allowed, counts_of, rises};
ghost use Rattle.clk_units.specs.Ranges.{IsKhz};

use crate::fault::StateFault;
use crate::sizes::counts_of;
use crate::table::{both, check_rows, field, flag_field};
use board_core::{BoardParts, timers_of};
use board_devices::{DeviceParts, Devices};
use board_types::has_messages;
use byte_table::Fields;
use clk_units::bit;
use irq_edges::Lines;
use tick_policy::{lost_valid, queue_valid};

/// Goes over the tick lines, up to their first fault.
#[tactic(auto, unfolding(crate::specs::Fields::lines, byte_table::specs::Kinds::blocks))]
pub(crate) fn check_lines(fields: &mut Fields, b: &BoardParts) -> Result<(), StateFault>
    requires there { fields.old.place ≤ length fields.old.bytes.now }
    requires rate { IsKhz b.now.anchor.khz }
    requires time { HasTime b.now.anchor b.now.host }
    requires accesses { b.now.accesses ≤ MOST_ACCESSES }
    ensures fault { result_err result ≡ fault_in (lines (timers_of b.now.format)) b.now b.now
        fields.old.place fields.old.bytes.now }
    ensures next { OnOk result (Passes (size_of (lines (timers_of b.now.format))) fields.old fields.new) }
{
    let most = b.anchor.time_of(b.host) + b.accesses;
    let clock_up = clock_up(b);
    for k in 0..timers_of(b.format) + 2 {
        check_line(fields, b, k, most, clock_up)?;
    }
    Ok(())
}

/// Goes over tick line `k`: `most` ticks are due, at most, and `clock_up` tells whether that of the MC146818 is up.
#[tactic(auto, using(crate::proofs::BlockRows::block_rows))]
fn check_line(
    fields: &mut Fields,
    b: &BoardParts,
    k: u8,
    most: u64,
    clock_up: bool,
) -> Result<(), StateFault>
    requires there { fields.old.place ≤ length fields.old.bytes.now }
    requires k { k < 10 }
    requires most { most ≡ now_of b.now + b.now.accesses }
    requires clock_up { clock_up ≡ (counts_rtc (devices_in b.now) && pf_of b.now.rtc) }
    ensures fault { result_err result ≡ fault_in (line k) b.now (slice_index_or b.now.ticks k no_line)
        fields.old.place fields.old.bytes.now }
    ensures next { OnOk result (Passes 33 fields.old fields.new) }
{
    let l = &b.ticks[k as usize];
    let rows = [
        flag_field(1, up_allowed(k, l.up, clock_up)),
        field(8, l.counts.due <= most),
        field(8, true),
        field(8, queue_valid(l)),
        field(8, lost_valid(l)),
    ];
    check_rows(fields, &rows)
}

/// Whether the line of the MC146818 is up while its ticks are counted and PF is 1.
fn clock_up(b: &BoardParts) -> bool
    ensures { result ≡ (counts_rtc (devices_in b.now) && pf_of b.now.rtc) }
{
    let pie = bit(6, u64::from(b.rtc.bytes[0x0b]));
    let pf = bit(6, u64::from(b.rtc.bytes[0x0c]));
    let legacy = bit(1, u64::from(b.hpet.config));
    both(both(pie, !legacy), pf)
}

/// Whether tick line `k` may be up, or down.
fn up_allowed(k: u8, up: bool, clock_up: bool) -> bool
    ensures { (b : BoardParts) → clock_up ≡ (counts_rtc (devices_in b) && pf_of b.rtc)
        → result ≡ up_allowed b k up }
{
    k != 1 || up == clock_up
}

/// Goes over the counts of rises.
#[tactic(auto, using(crate::proofs::BlockRows::block_rows))]
pub(crate) fn check_rises(fields: &mut Fields, b: &BoardParts) -> Result<(), StateFault>
    requires there { fields.old.place ≤ length fields.old.bytes.now }
    requires accesses { b.now.accesses ≤ MOST_ACCESSES }
    requires devices { AreDevices (devices_in b.now) }
    ensures fault { result_err result ≡ fault_in (rises (counts_of b.now.format)) b.now b.now
        fields.old.place fields.old.bytes.now }
    ensures next { OnOk result (Passes (size_of (rises (counts_of b.now.format))) fields.old fields.new) }
{
    let rows = [field(8 * counts_of(b.format), rises_valid(b))];
    check_rows(fields, &rows)
}

/// Whether the counts of rises are valid; those of lines 20 to 23 are looked at later where timers send messages.
fn rises_valid(b: &BoardParts) -> bool
    requires accesses { b.now.accesses ≤ MOST_ACCESSES }
    requires devices { AreDevices (devices_in b.now) }
    ensures { result ≡ (legacy_rises_valid b.now
        && (has_messages b.now.format || routed_rises_valid b.now)) }
{
    rise_valid(b, 0) && rise_valid(b, 1) && (has_messages(b.format) || routed_rises_valid(b))
}

/// Whether the counts of rises of lines 20 to 23 are valid.
pub(crate) fn routed_rises_valid(b: &BoardParts) -> bool
    requires accesses { b.now.accesses ≤ MOST_ACCESSES }
    requires devices { AreDevices (devices_in b.now) }
    ensures { result ≡ routed_rises_valid b.now }
{
    rise_valid(b, 2) && rise_valid(b, 3) && rise_valid(b, 4) && rise_valid(b, 5)
}

/// Whether the count of rises of line `k` isn't too great. The line's level is looked at only where there were more
/// rises than accesses, since all devices are made of their parts for it.
fn rise_valid(b: &BoardParts, k: usize) -> bool
    requires accesses { b.now.accesses ≤ MOST_ACCESSES }
    requires devices { AreDevices (devices_in b.now) }
    requires k { k < 6 }
    ensures { result ≡ rise_valid b.now k }
{
    if b.rises[k] <= b.accesses {
        return true;
    }
    b.rises[k] <= b.accesses + u64::from(lines_of(b).levels[k])
}

/// The levels of the six lines.
fn lines_of(b: &BoardParts) -> Lines
    requires { AreDevices (devices_in b.now) }
    ensures { result.levels ≡ levels (devices_in b.now) }
{
    let ticks = b.ticks;
    let devices = Devices::of_parts(DeviceParts {
        pit: b.pit,
        rtc: b.rtc,
        hpet: b.hpet,
        ticks,
        slew_ns: b.slew_ns,
    });
    match devices {
        Some(devices) => devices.lines(),
        None => unreachable!(),
    }
}
