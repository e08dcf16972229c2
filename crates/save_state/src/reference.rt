//! The reference page of Hyper-V in a saved state: written, read, and its first fault.
ghost use Rattle.std.specs.Prelude.{◌≡◌, ◌+◌, ◌<◌, ◌≤◌, ◌^◌, ◌++◌, OnOk, length};
ghost use Rattle.std.specs.Result.{result_err};
ghost use Rattle.clk_units.specs.Ranges.{IsKhz};
ghost use Rattle.board_core.specs.Hv.{no_hv};
ghost use Rattle.byte_table.specs.Fold.{write, read, fault_in, size_of};
ghost use Rattle.byte_table.specs.Reading.{IsPast, Passes};
ghost use Rattle.save_state.specs.Fields.{scale_for, reference, references, references_of};
ghost use Rattle.save_state.specs.private.Cursor.{read_at};
ghost use Rattle.save_state.specs.private.Fits.{ReferenceFits};

use crate::fault::StateFault;
use crate::rest::{published_valid, version_valid};
use crate::table::{check_rows, either, field};
use board_core::{BoardParts, BoardState, HV_FORMAT, HvParts, NO_HV};
use byte_table::{Fields, put, put_4, put_8};
use clk_units::{NoMemory, bit};
use hv_page::scale_of;

/// Appends the reference page, which formats before `HV_FORMAT` don't have.
#[tactic(auto, using(crate::proofs::Blocks::reference_page))]
pub(crate) fn put_references(out: &mut Vec<u8>, b: &BoardState) -> Result<(), NoMemory>
    ensures bytes { OnOk result (out.new.items
        ≡ out.old.items ++ write (references (references_of b.now.format)) b.now) }
    ensures fits { OnOk result (ReferenceFits b.now.hv) }
{
    let hv = b.hv();
    if b.format() < HV_FORMAT {
        return Ok(());
    }
    put_reference(out, &hv)
}

/// Appends a reference page.
#[tactic(auto, unfolding(crate::specs::Fields::reference, byte_table::specs::Kinds::plain))]
fn put_reference(out: &mut Vec<u8>, p: &HvParts) -> Result<(), NoMemory>
    ensures { OnOk result (out.new.items ≡ out.old.items ++ write (reference 0) p.now) }
{
    put_8(out, p.number)?;
    put_4(out, p.version)?;
    put(out, &[p.cpu])?;
    put_8(out, p.scale)?;
    put_8(out, p.offset)?;
    put_8(out, p.tsc_offset)
}

/// The reference page of a board.
#[tactic(auto, using(crate::proofs::Formats::takes))]
pub(crate) fn hv_in(fields: &mut Fields, format: u8) -> HvParts
    requires { fields.old.place < 2 ^ 40 }
    ensures value { result ≡ (read_at (references (references_of format)) fields.old).hv }
    ensures next { IsPast (size_of (references (references_of format))) fields.old fields.new }
    ensures near { fields.new.place ≤ fields.old.place + 37 }
{
    if format < HV_FORMAT {
        return NO_HV;
    }
    reference_in(fields)
}

/// A reference page.
#[tactic(auto, unfolding(crate::specs::Fields::reference, byte_table::specs::Kinds::plain))]
fn reference_in(fields: &mut Fields) -> HvParts
    requires { fields.old.place < 2 ^ 50 }
    ensures value { result ≡ read (reference 0) fields.old.place fields.old.bytes.now no_hv }
    ensures next { IsPast 37 fields.old fields.new }
{
    HvParts {
        number: fields.eight(),
        version: fields.four(),
        cpu: fields.byte(),
        scale: fields.eight(),
        offset: fields.eight(),
        tsc_offset: fields.eight(),
    }
}

/// Goes over the reference page, up to its first fault.
#[tactic(auto, using(crate::proofs::Blocks::reference_page))]
pub(crate) fn check_references(fields: &mut Fields, b: &BoardParts) -> Result<(), StateFault>
    requires there { fields.old.place ≤ length fields.old.bytes.now }
    requires rate { IsKhz b.now.guest_khz }
    ensures fault { result_err result ≡ fault_in (references (references_of b.now.format)) b.now b.now
        fields.old.place fields.old.bytes.now }
    ensures next { OnOk result (Passes (size_of (references (references_of b.now.format)))
        fields.old fields.new) }
{
    if b.format < HV_FORMAT {
        return Ok(());
    }
    check_reference(fields, b)
}

/// Goes over a reference page.
#[tactic(auto, using(crate::proofs::BlockRows::block_rows))]
fn check_reference(fields: &mut Fields, b: &BoardParts) -> Result<(), StateFault>
    requires there { fields.old.place ≤ length fields.old.bytes.now }
    requires rate { IsKhz b.now.guest_khz }
    ensures fault { result_err result ≡ fault_in (reference 0) b.now b.now.hv
        fields.old.place fields.old.bytes.now }
    ensures next { OnOk result (Passes 37 fields.old fields.new) }
{
    let p = &b.hv;
    let scale = scale_for(b.guest_khz, p.number);
    let rows = [
        field(8, true),
        field(4, version_valid(p.version, p.number == 0)),
        field(
            1,
            published_valid(p.version, u64::from(p.cpu), p.cpu < b.cpus),
        ),
        field(8, p.scale == scale),
        field(8, either(0 < p.scale, p.offset == 0)),
        field(8, either(0 < p.scale, p.tsc_offset == 0)),
    ];
    check_rows(fields, &rows)
}

/// The scale of a page with this number.
fn scale_for(guest_khz: u64, number: u64) -> u64
    requires { IsKhz guest_khz }
    ensures { result ≡ scale_for guest_khz number }
{
    if bit(0, number) {
        scale_of(guest_khz)
    } else {
        0
    }
}
