//! The first fault of what follows the tick lines and the counts of rises.
ghost use Rattle.std.specs.Prelude.{◌≡◌, ◌*◌, ◌<◌, ◌≤◌, OnOk, length, slice_index_or};
ghost use Rattle.std.specs.Result.{result_err};
ghost use Rattle.std.specs.Int.{w8, cast_unsigned};
ghost use Rattle.pvclock_page.specs.Scale.{mul_for, shift_for};
ghost use Rattle.clk_units.specs.Ranges.{IsKhz};
ghost use Rattle.board_core.specs.Tsc.{no_processor};
ghost use Rattle.byte_table.specs.Fold.{fault_in, size_of};
ghost use Rattle.byte_table.specs.Reading.{Passes};
ghost use Rattle.save_state.specs.Fields.{wall, version_valid, published_valid, processor, processors};
ghost use Rattle.save_state.specs.Table.{trailing};
ghost use Rattle.save_state.specs.private.Rows.{processor_rows};

use crate::fault::{StateFault, StateKind};
use crate::table::{Row, check_rows, either, field};
use board_core::{BoardParts, ProcessorParts};
use byte_table::Fields;
use clk_units::RANGE_NS;
use pvclock_page::scale_of;

/// Goes over the wall clock.
#[tactic(auto, using(crate::proofs::BlockRows::block_rows))]
pub(crate) fn check_wall(fields: &mut Fields, b: &BoardParts) -> Result<(), StateFault>
    requires { fields.old.place ≤ length fields.old.bytes.now }
    ensures fault { result_err result ≡ fault_in wall b.now b.now fields.old.place fields.old.bytes.now }
    ensures next { OnOk result (Passes (size_of wall) fields.old fields.new) }
{
    let rows = [
        field(8, true),
        field(4, version_valid(b.wall_version, b.wall_number == 0)),
        field(4, true),
        field(4, b.wall_nsec < 1_000_000_000),
    ];
    check_rows(fields, &rows)
}

/// Goes over the processors, up to their first fault.
#[tactic(auto, unfolding(crate::specs::Fields::processors, byte_table::specs::Kinds::blocks))]
pub(crate) fn check_processors(fields: &mut Fields, b: &BoardParts) -> Result<(), StateFault>
    requires there { fields.old.place ≤ length fields.old.bytes.now }
    requires few { b.now.cpus ≤ 64 }
    requires rate { IsKhz b.now.guest_khz }
    ensures fault { result_err result ≡ fault_in (processors b.now.cpus) b.now b.now
        fields.old.place fields.old.bytes.now }
    ensures next { OnOk result (Passes (size_of (processors b.now.cpus)) fields.old fields.new) }
{
    let (mul, shift) = scale_of(b.guest_khz * 1000);
    for k in 0..b.cpus {
        check_processor(fields, b, k, mul, shift.cast_unsigned())?;
    }
    Ok(())
}

/// Goes over processor `k`, by the scale of the guest's rate, `shift` as its byte.
fn check_processor(
    fields: &mut Fields,
    b: &BoardParts,
    k: u8,
    mul: u32,
    shift: u8,
) -> Result<(), StateFault>
    requires there { fields.old.place ≤ length fields.old.bytes.now }
    requires k { k < 64 }
    requires mul { mul ≡ mul_for (b.now.guest_khz * 1000) }
    requires shift { shift ≡ cast_unsigned w8 (shift_for (b.now.guest_khz * 1000)) }
    ensures fault { result_err result ≡ fault_in (processor k) b.now (slice_index_or b.now.processors k no_processor)
        fields.old.place fields.old.bytes.now }
    ensures next { OnOk result (Passes 50 fields.old fields.new) }
{
    let rows = processor_rows(&b.processors[k as usize], mul, shift);
    check_rows(fields, &rows)
}

/// The rows of a processor, by the guest's scale.
#[tactic(auto, unfolding(crate::specs::private::Rows::processor_rows))]
fn processor_rows(p: &ProcessorParts, mul: u32, shift: u8) -> [Row; 9]
    ensures { result ≡ processor_rows mul shift p.now }
{
    let shift_byte = p.shift.cast_unsigned();
    let unused = p.offset == 0 && p.adjust == 0 && p.number == 0;
    let version = p.version;
    [
        field(8, true),
        field(8, true),
        field(8, true),
        field(4, version_valid(version, unused)),
        field(8, published_valid(version, p.tsc_timestamp, true)),
        field(
            8,
            published_valid(version, p.system_time, p.system_time < RANGE_NS),
        ),
        field(4, published_valid(version, u64::from(p.mul), p.mul == mul)),
        field(
            1,
            published_valid(version, u64::from(shift_byte), shift_byte == shift),
        ),
        field(
            1,
            published_valid(
                version,
                u64::from(p.flags),
                either(p.flags == 1, p.flags == 3),
            ),
        ),
    ]
}

/// Whether a version is even, and before the first publishing 0 with what is before it.
pub(crate) fn version_valid(version: u32, unused: bool) -> bool
    ensures { result ≡ version_valid version unused }
{
    version % 2 == 0 && (0 < version || unused)
}

/// Whether a field after a version is 0 before the first publishing, and then as it has to be.
pub(crate) fn published_valid(version: u32, value: u64, valid: bool) -> bool
    ensures { result ≡ published_valid version value valid }
{
    if version == 0 { value == 0 } else { valid }
}

/// Whether no byte follows the last field.
pub(crate) fn check_end(fields: &Fields) -> Result<(), StateFault>
    ensures { result_err result ≡ trailing fields.now.place fields.now.bytes.now }
{
    let wanted = fields.place;
    if wanted < fields.bytes.len() {
        return Err(StateFault {
            place: wanted as u64,
            kind: StateKind::Trailing,
        });
    }
    Ok(())
}
