//! The board of bytes, or the first field at fault.
ghost use Rattle.std.specs.Prelude.{◌≡◌, ◌≤◌, ◌+◌, None, Some, IfErr, IfOk, OnOk, length};
ghost use Rattle.std.specs.Option.{option_or};
ghost use Rattle.std.specs.Result.{result_err};
ghost use Rattle.board_devices.specs.Parts.{AreDevices};
ghost use Rattle.board_core.specs.Time.{devices_in};
ghost use Rattle.byte_table.specs.Fold.{fault_in, size_of};
ghost use Rattle.byte_table.specs.Reading.{Passes};
ghost use Rattle.save_state.specs.Fields.{devices, back};
ghost use Rattle.save_state.specs.Reading.{board_in};
ghost use Rattle.save_state.specs.Table.{fault_of, trailing};
ghost use Rattle.save_state.specs.Writing.{bytes_of};
ghost use Rattle.save_state.specs.private.Parts.{IsHead};

use crate::apics::check_apics;
use crate::fault::StateFault;
use crate::faults::{check_clock, check_counters, check_registers, check_timers};
use crate::front::{check_front, front_in};
use crate::lines::{check_lines, check_rises};
use crate::messages::check_messages;
use crate::reference::check_references;
use crate::rest::{check_end, check_processors, check_wall};
use crate::whole::board_in;
use board_core::{BoardParts, BoardState};
use byte_table::Fields;

/// The board that bytes are, or the first field at fault: in the order of the table, the first field that
/// isn't wholly there, or whose condition fails, or bytes after the last one.
#[tactic(auto, using(crate::proofs::Valid::decoded))]
pub fn decode(bytes: &[u8]) -> Result<BoardState, StateFault>
    ensures refused { IfErr result (λ e. fault_of bytes.now ≡ Some e) }
    ensures taken { OnOk result (fault_of bytes.now ≡ None) }
    ensures state { IfOk result (λ s. s ≡ board_in bytes.now) }
    // One state has one spelling: these bytes are those that `encode` gives.
    ensures spelling { IfOk result (λ s. bytes_of s ≡ bytes.now) }
{
    let mut fields = Fields::new(bytes);
    let front = front_in(&mut fields);
    let mut checks = Fields::new(bytes);
    check_front(&mut checks, &front)?;
    let parts = board_in(&mut fields, &front);
    check_devices(&mut checks, &parts)?;
    check_rest(&mut checks, &parts)?;
    match BoardState::of_parts(parts) {
        Some(state) => Ok(state),
        None => unreachable!(),
    }
}

/// Goes over the devices and their tick lines, up to their first fault.
#[tactic(auto, using(crate::proofs::BlockRows::along))]
fn check_devices(fields: &mut Fields, b: &BoardParts) -> Result<(), StateFault>
    requires there { fields.old.place ≤ length fields.old.bytes.now }
    requires head { IsHead b.now }
    ensures fault { result_err result ≡ fault_in (devices b.now.format) b.now b.now
        fields.old.place fields.old.bytes.now }
    ensures next { OnOk result (Passes (size_of (devices b.now.format)) fields.old fields.new) }
{
    check_counters(fields, b)?;
    check_clock(fields, b)?;
    check_registers(fields, b)?;
    check_timers(fields, b)?;
    check_lines(fields, b)
}

/// Goes over what follows the tick lines, up to the first fault or the last byte.
#[tactic(auto, using(crate::proofs::BlockRows::along))]
fn check_rest(fields: &mut Fields, b: &BoardParts) -> Result<(), StateFault>
    requires there { fields.old.place ≤ length fields.old.bytes.now }
    requires head { IsHead b.now }
    requires devices { AreDevices (devices_in b.now) }
    ensures { result_err result ≡ option_or
        (fault_in (back b.now.format b.now.cpus) b.now b.now fields.old.place fields.old.bytes.now)
        (trailing (fields.old.place + size_of (back b.now.format b.now.cpus)) fields.old.bytes.now) }
{
    check_rises(fields, b)?;
    check_wall(fields, b)?;
    check_processors(fields, b)?;
    check_apics(fields, b)?;
    check_references(fields, b)?;
    check_messages(fields, b)?;
    check_end(fields)
}
