//! The first fault of the devices of a board that was read from bytes.
ghost use Rattle.std.specs.Prelude.{◌≡◌, ◌≤◌, ◌<◌, ◌||◌, nat_le, OnOk, length, slice_index_or};
ghost use Rattle.std.specs.Result.{result_err};
ghost use Rattle.hpet_registers.specs.Parts.{no_timer};
ghost use Rattle.board_types.specs.Setup.{timers_of};
ghost use Rattle.byte_table.specs.Fold.{fault_in, size_of};
ghost use Rattle.byte_table.specs.Reading.{Passes};
ghost use Rattle.save_state.specs.Fields.{
  counter,
  no_counter,
  counters,
  clock,
  registers,
  timer,
  timers,
};

use crate::fault::StateFault;
use crate::table::{both, check_rows, either, field, flag_field};
use board_core::{BoardParts, timers_of};
use byte_table::Fields;
use hpet_comparator::{is_comparator_valid, is_config_valid, is_period_valid};
use pit_counter::{
    bits_valid, ce_valid, cr_valid, flags_valid, latched_count_valid, latched_status_valid,
    part_valid, read_order_valid,
};
use rtc_registers::{bytes_valid, cycle_valid, divider_valid, index_valid};

/// Goes over the counters of the 8254, up to their first fault.
#[tactic(auto, unfolding(crate::specs::Fields::counters, byte_table::specs::Kinds::blocks))]
pub(crate) fn check_counters(fields: &mut Fields, b: &BoardParts) -> Result<(), StateFault>
    requires { fields.old.place ≤ length fields.old.bytes.now }
    ensures fault { result_err result ≡ fault_in counters b.now b.now fields.old.place fields.old.bytes.now }
    ensures next { OnOk result (Passes (size_of counters) fields.old fields.new) }
{
    for k in 0..3 {
        check_counter(fields, b, k)?;
    }
    Ok(())
}

/// Goes over counter `k`.
#[tactic(auto, using(crate::proofs::BlockRows::block_rows))]
fn check_counter(fields: &mut Fields, b: &BoardParts, k: u8) -> Result<(), StateFault>
    requires there { fields.old.place ≤ length fields.old.bytes.now }
    requires k { k < 3 }
    ensures fault { result_err result ≡ fault_in (counter k) b.now (slice_index_or b.now.pit.counters k no_counter)
        fields.old.place fields.old.bytes.now }
    ensures next { OnOk result (Passes 14 fields.old fields.new) }
{
    let c = b.pit.counter(k);
    let rows = [
        field(1, bits_valid(&c)),
        field(1, both(flags_valid(&c), is_wired(c.gate, k))),
        field(2, cr_valid(&c)),
        field(2, ce_valid(&c)),
        flag_field(2, part_valid(&c)),
        flag_field(1, read_order_valid(&c)),
        flag_field(3, latched_count_valid(&c)),
        flag_field(2, latched_status_valid(&c)),
    ];
    check_rows(fields, &rows)
}

/// Whether GATE of counter `k` is as it is wired: high at counters 0 and 1.
fn is_wired(gate: bool, k: u8) -> bool
    ensures { result ≡ (gate || nat_le 2 k) }
{
    gate || k >= 2
}

/// Goes over speaker data and the MC146818.
#[tactic(auto, using(crate::proofs::BlockRows::block_rows))]
pub(crate) fn check_clock(fields: &mut Fields, b: &BoardParts) -> Result<(), StateFault>
    requires { fields.old.place ≤ length fields.old.bytes.now }
    ensures fault { result_err result ≡ fault_in clock b.now b.now fields.old.place fields.old.bytes.now }
    ensures next { OnOk result (Passes (size_of clock) fields.old fields.new) }
{
    let rows = [
        flag_field(1, true),
        field(1, index_valid(&b.rtc)),
        field(128, bytes_valid(&b.rtc)),
        field(2, divider_valid(&b.rtc)),
        flag_field(1, cycle_valid(&b.rtc)),
    ];
    check_rows(fields, &rows)
}

/// Goes over the registers of the HPET.
#[tactic(auto, using(crate::proofs::BlockRows::block_rows))]
pub(crate) fn check_registers(fields: &mut Fields, b: &BoardParts) -> Result<(), StateFault>
    requires { fields.old.place ≤ length fields.old.bytes.now }
    ensures fault { result_err result ≡ fault_in registers b.now b.now fields.old.place fields.old.bytes.now }
    ensures next { OnOk result (Passes (size_of registers) fields.old fields.new) }
{
    let rows = [
        field(1, b.hpet.config <= 3),
        field(1, either(b.format >= 2, b.hpet.status <= 7)),
        field(8, true),
    ];
    check_rows(fields, &rows)
}

/// Goes over the timers of the HPET, up to their first fault.
#[tactic(auto, unfolding(crate::specs::Fields::timers, byte_table::specs::Kinds::blocks))]
pub(crate) fn check_timers(fields: &mut Fields, b: &BoardParts) -> Result<(), StateFault>
    requires { fields.old.place ≤ length fields.old.bytes.now }
    ensures fault { result_err result ≡ fault_in (timers (timers_of b.now.format)) b.now b.now
        fields.old.place fields.old.bytes.now }
    ensures next { OnOk result (Passes (size_of (timers (timers_of b.now.format))) fields.old fields.new) }
{
    for k in 0..timers_of(b.format) {
        check_timer(fields, b, k)?;
    }
    Ok(())
}

/// Goes over timer `k`.
#[tactic(auto, using(crate::proofs::BlockRows::block_rows))]
fn check_timer(fields: &mut Fields, b: &BoardParts, k: u8) -> Result<(), StateFault>
    requires there { fields.old.place ≤ length fields.old.bytes.now }
    requires k { k < 8 }
    ensures fault { result_err result ≡ fault_in (timer k) b.now (slice_index_or b.now.hpet.timer k no_timer)
        fields.old.place fields.old.bytes.now }
    ensures next { OnOk result (Passes 18 fields.old fields.new) }
{
    let t = &b.hpet.timer[k as usize];
    let rows = [
        field(2, is_config_valid(t)),
        field(8, is_comparator_valid(t)),
        field(8, is_period_valid(t)),
    ];
    check_rows(fields, &rows)
}
