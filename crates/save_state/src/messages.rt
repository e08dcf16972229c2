//! The messages of the HPET's timers in a saved state: written, read, and their first fault.
ghost use Rattle.std.specs.Prelude.{◌≡◌, ℕ, ◌+◌, ◌<◌, ◌≤◌, ◌^◌, ◌==◌, ◌||◌, not, ◌++◌, OnOk, length, slice_index_or};
ghost use Rattle.std.specs.Result.{result_err};
ghost use Rattle.board_types.specs.declared.parts.TheConstants.{MOST_ACCESSES};
ghost use Rattle.board_devices.specs.Parts.{AreDevices};
ghost use Rattle.board_core.specs.Time.{devices_in};
ghost use Rattle.byte_table.specs.Fold.{write, fault_in, size_of};
ghost use Rattle.byte_table.specs.Reading.{IsPast, Passes};
ghost use Rattle.save_state.specs.Rises.{routed_rises_valid};
ghost use Rattle.save_state.specs.Fields.{message, messages_of, no_message, message_pairs, messages};
ghost use Rattle.save_state.specs.private.Cursor.{read_at};
ghost use Rattle.save_state.specs.private.Devices.{board_with};

use crate::fault::StateFault;
use crate::lines::routed_rises_valid;
use crate::sizes::messages_of;
use crate::table::{check_rows, field, flag_field};
use board_core::BoardParts;
use board_devices::DeviceParts;
use byte_table::{Fields, flag_byte, put, put_8};
use clk_units::NoMemory;

/// The last timer.
const LAST_TIMER: u8 = 7;

/// Appends the messages, which formats before `MESSAGE_FORMAT` don't have.
#[tactic(auto, unfolding(crate::specs::Fields::messages, byte_table::specs::Kinds::blocks))]
pub(crate) fn put_messages(out: &mut Vec<u8>, format: u8, d: &DeviceParts) -> Result<(), NoMemory>
    ensures { OnOk result (out.new.items
        ≡ out.old.items ++ write (messages (messages_of format)) (board_with d.now)) }
{
    for k in 0..messages_of(format) {
        put_message(
            out,
            d.hpet.message_bit[k as usize],
            d.hpet.message_word[k as usize],
        )?;
    }
    Ok(())
}

/// Appends the messages of timer `k`, whichever it is.
#[tactic(auto, unfolding(crate::specs::Fields::message, byte_table::specs::Kinds::plain))]
fn put_message(out: &mut Vec<u8>, sends: bool, register: u64) -> Result<(), NoMemory>
    ensures { (k : ℕ) → OnOk result (out.new.items ≡ out.old.items
        ++ write (message k) (sends, register)) }
{
    put(out, &[flag_byte(sends)])?;
    put_8(out, register)
}

/// The messages: which timers send them, and their message registers.
#[tactic(auto, using(crate::proofs::Formats::takes))]
pub(crate) fn messages_in(fields: &mut Fields, format: u8) -> ([bool; 8], [u64; 8])
    requires { fields.old.place < 2 ^ 40 }
    ensures bits { result.0 ≡ (read_at (messages (messages_of format)) fields.old).hpet.message_bit }
    ensures words { result.1 ≡ (read_at (messages (messages_of format)) fields.old).hpet.message_word }
    ensures next { IsPast (size_of (messages (messages_of format))) fields.old fields.new }
{
    let mut bits = [false; 8];
    let mut words = [0; 8];
    for k in 0..messages_of(format) {
        bits[k as usize] = fields.flag();
        words[k as usize] = fields.eight();
    }
    (bits, words)
}

/// Goes over the messages, up to their first fault.
#[tactic(auto, unfolding(crate::specs::Fields::messages, byte_table::specs::Kinds::blocks))]
pub(crate) fn check_messages(fields: &mut Fields, b: &BoardParts) -> Result<(), StateFault>
    requires there { fields.old.place ≤ length fields.old.bytes.now }
    requires accesses { b.now.accesses ≤ MOST_ACCESSES }
    requires devices { AreDevices (devices_in b.now) }
    ensures fault { result_err result ≡ fault_in (messages (messages_of b.now.format)) b.now b.now
        fields.old.place fields.old.bytes.now }
    ensures next { OnOk result (Passes (size_of (messages (messages_of b.now.format))) fields.old fields.new) }
{
    for k in 0..messages_of(b.format) {
        check_message(fields, b, k)?;
    }
    Ok(())
}

/// Goes over the messages of timer `k`.
#[tactic(auto, using(crate::proofs::BlockRows::block_rows))]
fn check_message(fields: &mut Fields, b: &BoardParts, k: u8) -> Result<(), StateFault>
    requires there { fields.old.place ≤ length fields.old.bytes.now }
    requires k { k < 8 }
    requires accesses { b.now.accesses ≤ MOST_ACCESSES }
    requires devices { AreDevices (devices_in b.now) }
    ensures fault { result_err result ≡ fault_in (message k) b.now (slice_index_or (message_pairs b.now) k no_message)
        fields.old.place fields.old.bytes.now }
    ensures next { OnOk result (Passes 9 fields.old fields.new) }
{
    let rows = [flag_field(1, rises_allowed(b, k)), field(8, true)];
    check_rows(fields, &rows)
}

/// Whether the counts of rises of lines 20 to 23 are valid, where timer `k` is the last.
fn rises_allowed(b: &BoardParts, k: u8) -> bool
    requires accesses { b.now.accesses ≤ MOST_ACCESSES }
    requires devices { AreDevices (devices_in b.now) }
    ensures { result ≡ (not (k == 7) || routed_rises_valid b.now) }
{
    k != LAST_TIMER || routed_rises_valid(b)
}
