//! Rows of the table of a saved state, and the first at fault.
ghost use Rattle.std.specs.Prelude.{◌≡◌, ◌≤◌, ◌&&◌, ◌||◌, length, OnOk};
ghost use Rattle.std.specs.Result.{result_err};
ghost use Rattle.byte_table.specs.Reading.{Passes};
ghost use Rattle.save_state.specs.private.Rows.{field, flag_field, spelled, row_fault, rows_size};

use crate::fault::{StateFault, StateKind};
use byte_table::{Fields, flag_valid};

/// A field of the table.
#[derive(Clone, Copy)]
pub(crate) struct Row {
    /// How many bytes it takes.
    pub(crate) size: u8,
    /// Whether the first of them is a flag, 00 or 01.
    pub(crate) flag: bool,
    /// Whether its condition holds.
    pub(crate) valid: bool,
    /// What is at fault where it doesn't.
    pub(crate) kind: StateKind,
}

/// A row as most are.
pub(crate) const fn field(size: u8, valid: bool) -> Row
    ensures { result ≡ field size valid }
{
    Row {
        size,
        flag: false,
        valid,
        kind: StateKind::Field,
    }
}

/// A row whose first byte is a flag.
pub(crate) const fn flag_field(size: u8, valid: bool) -> Row
    ensures { result ≡ flag_field size valid }
{
    Row {
        size,
        flag: true,
        valid,
        kind: StateKind::Field,
    }
}

/// Whether both hold.
pub(crate) fn both(a: bool, b: bool) -> bool
    ensures { result ≡ (a && b) }
{
    a && b
}

/// Whether one of the two holds.
pub(crate) fn either(a: bool, b: bool) -> bool
    ensures { result ≡ (a || b) }
{
    a || b
}

/// Goes over the rows, up to the first fault.
#[tactic(auto, using(crate::proofs::BlockRows::walk))]
pub(crate) fn check_rows(fields: &mut Fields, rows: &[Row]) -> Result<(), StateFault>
    requires { fields.old.place ≤ length fields.old.bytes.now }
    ensures fault { result_err result ≡ row_fault fields.old.bytes.now fields.old.place rows.now }
    ensures next { OnOk result (Passes (rows_size rows.now) fields.old fields.new) }
{
    for r in rows {
        let end = fields.place + usize::from(r.size);
        if fields.bytes.len() < end {
            return Err(StateFault {
                place: fields.bytes.len() as u64,
                kind: StateKind::Short,
            });
        }
        if !is_valid(fields, r) {
            return Err(StateFault {
                place: fields.place as u64,
                kind: r.kind,
            });
        }
        fields.place = end;
    }
    Ok(())
}

/// Whether the bytes of a row spell a value, and its condition holds.
fn is_valid(fields: &Fields, r: &Row) -> bool
    ensures { result ≡ (spelled r.now fields.now.place fields.now.bytes.now && r.now.valid) }
{
    (!r.flag || flag_valid(fields.bytes, fields.place)) && r.valid
}
