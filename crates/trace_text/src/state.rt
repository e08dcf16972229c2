//! The header line `state`: a saved board.
ghost use Rattle.std.specs.Prelude.{◌≡◌, ◌/◌, ◌≤◌, length, Some, None, IfOk};
ghost use Rattle.std.specs.Result.{result_ok};
ghost use Rattle.std.specs.Bool.{OnTrue, OnFalse};
ghost use Rattle.board_types.specs.declared.setup.TheConstants.{LAST_FORMAT};
ghost use Rattle.hex.specs.Hex.{decode_of};
ghost use Rattle.save_state.specs.Places.{format_in};
ghost use Rattle.trace_text.specs.State.{is_newer, place_in, in_format, restored};
ghost use Rattle.trace_text.specs.private.State.{restored_digits};

use board_core::BoardState;
use byte_table::two_at;
use reply_text::Reason;
use save_state::{StateFault, decode};
use trace_loop::STATE_LINE_MAX;

/// The place of a saved state's version, which is a number of two bytes.
const VERSION: u64 = 8;

/// The board of a saved state, by its digits, in this format. Its bytes lie on the stack of this call alone.
#[inline(never)]
#[cold]
pub(crate) fn board_of(digits: &[u8], format: u8) -> Result<BoardState, Reason>
    requires { format ≤ LAST_FORMAT }
    ensures board { result ≡ restored_digits format digits.now }
    ensures few { IfOk result (λ b. b.cpus ≤ 64) }
{
    if digits.is_empty() || digits.len() > STATE_LINE_MAX {
        return Err(Reason::Form);
    }
    let mut buffer = [0; STATE_LINE_MAX / 2];
    let bytes = &mut buffer[..digits.len() / 2];
    if decode_digits(digits, bytes) {
        restored(bytes, format)
    } else {
        Err(Reason::Form)
    }
}

/// Writes the bytes that digits spell, if they spell some; whether they do.
fn decode_digits(digits: &[u8], bytes: &mut [u8]) -> bool
    requires { length bytes.old ≡ length digits.now / 2 }
    ensures bytes { OnTrue result (result_ok (decode_of digits.now) ≡ Some bytes.new) }
    ensures none { OnFalse result (result_ok (decode_of digits.now) ≡ None) }
{
    match hex::decode_to_slice(digits, bytes) {
        Ok(()) => true,
        Err(_) => false,
    }
}

/// The board that bytes are, in this format.
#[tactic(auto, unfolding(crate::specs::State::restored))]
fn restored(bytes: &[u8], format: u8) -> Result<BoardState, Reason>
    requires { format ≤ LAST_FORMAT }
    ensures board { result ≡ restored format bytes.now }
    ensures few { IfOk result (λ b. b.cpus ≤ 64) }
{
    match decode(bytes) {
        Ok(board) => in_format(&board, format),
        Err(fault) => Err(Reason::StateBytes {
            place: place_in(bytes, format, fault),
        }),
    }
}

/// A board in this format, or in a later one than its own.
fn in_format(board: &BoardState, format: u8) -> Result<BoardState, Reason>
    requires { format ≤ LAST_FORMAT }
    ensures board { result ≡ in_format format board.now }
    ensures few { IfOk result (λ b. b.cpus ≤ 64) }
{
    if board.format() > format {
        return Err(Reason::StateBytes { place: VERSION });
    }
    let upgraded = board.upgraded(format);
    // how many they are is known of every board
    let _cpus = upgraded.cpus();
    Ok(upgraded)
}

/// The place of a fault; a version above the format is one too.
fn place_in(bytes: &[u8], format: u8, fault: StateFault) -> u64
    ensures { result ≡ place_in format bytes.now fault }
{
    if is_newer(bytes, format) {
        fault.place.min(VERSION)
    } else {
        fault.place
    }
}

/// Whether the version of bytes is there, and above the format.
fn is_newer(bytes: &[u8], format: u8) -> bool
    ensures { result ≡ is_newer format bytes.now }
{
    bytes.len() >= 10 && version_of(bytes) > u16::from(format)
}

/// The version of a saved state, its lower byte first.
fn version_of(bytes: &[u8]) -> u16
    ensures { result ≡ format_in bytes.now }
{
    two_at(bytes, VERSION as usize)
}
