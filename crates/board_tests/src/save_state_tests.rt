//! Bytes of boards, worked out by hand from the table, and the fault of bytes that are none.
ghost use Rattle.std.specs.Prelude.{◌≤◌};
ghost use Rattle.board_types.specs.declared.setup.TheConstants.{LAST_FORMAT};

mod odd_writes;
mod set_bytes;

use crate::checks::same;
use board_core::{BoardState, Setup};
use save_state::{StateFault, StateKind, decode, encode};
use std::process::Abort;
use std::test::Fail;

/// The bytes before the 8254: of hosts and guests of 1 GHz, one processor and 1 ms between catch-up points.
const FRONT: [u8; 79] = [
    0x43, 0x4c, 0x4b, 0x42, 0x4f, 0x41, 0x52, 0x44, 1, 0, 1, 0, 0x40, 0x42, 0x0f, 0, 0, 0, 0, 0, 0,
    0, 0, 0, 0, 0, 0, 0, 0, 0, 0, 0, 0, 0, 0, 0, 0, 0, 0, 0, 0, 0, 0, 0, 0x40, 0x42, 0x0f, 0, 0, 0,
    0, 0, 0, 0, 0, 0, 0, 0, 0, 0, 0, 0, 0, 0, 0, 0, 0, 0, 0x40, 0x42, 0x0f, 0, 0, 0, 0, 0, 1, 1, 1,
];

/// A board at power on.
fn board(format: u8) -> BoardState
    requires low { 1 ≤ format }
    requires high { format ≤ LAST_FORMAT }
{
    BoardState::power_on(&Setup::by_default(format))
}

/// So many bytes from a place on, which are there.
fn part<'a>(rt: &impl Abort, bytes: &'a [u8], place: usize, len: usize) -> &'a [u8] {
    if place > bytes.len() || len > bytes.len() - place {
        panic!(rt; "{len} bytes at {place}");
    }
    &bytes[place..place + len]
}

/// These bytes are at these places.
fn are_at(rt: &impl Abort, bytes: &[u8], rows: &[(usize, &[u8])]) {
    for (place, wanted) in rows {
        let seen = part(rt, bytes, *place, wanted.len());
        same(rt, *place, seen, *wanted);
    }
}

#[test]
fn a_board_of_version_1_at_power_on(rt: HostRuntime) -> Result<(), Fail> {
    let bytes = encode(rt.alloc(), &board(1))?;
    same(&rt, "length", bytes.len(), 553);
    let counter = [0x36, 7, 0, 0, 0, 0, 0, 0, 0, 0, 0, 0, 0, 0];
    let zeros = [0; 50];
    let rows = [
        (0, FRONT.as_slice()),
        (79, counter.as_slice()),
        (503, zeros.as_slice()),
    ];
    are_at(&rt, &bytes, &rows);
    Ok(())
}

#[test]
fn a_board_of_version_2_at_power_on(rt: HostRuntime) -> Result<(), Fail> {
    let bytes = encode(rt.alloc(), &board(2))?;
    same(&rt, "length", bytes.len(), 856);
    let zeros = [0; 118];
    let rows = [
        (8, [2].as_slice()),
        (264, [0, 0x28].as_slice()),
        (390, [0, 0x28].as_slice()),
        (738, zeros.as_slice()),
    ];
    are_at(&rt, &bytes, &rows);
    Ok(())
}

/// A saved state of 553 bytes, by the places of those that aren't 0, and these: the page of its one processor is enabled.
const PLACES: [usize; 44] = [
    0, 1, 2, 3, 4, 5, 6, 7, 8, 10, 12, 13, 14, 44, 45, 46, 52, 68, 69, 70, 76, 77, 78, 79, 80, 93,
    94, 107, 108, 129, 130, 131, 133, 134, 136, 252, 265, 283, 301, 519, 527, 550, 551, 552,
];

const BYTES: [u8; 44] = [
    67, 76, 75, 66, 79, 65, 82, 68, 1, 1, 64, 66, 15, 64, 66, 15, 2, 64, 66, 15, 1, 1, 1, 54, 7,
    54, 7, 54, 3, 1, 1, 1, 38, 2, 128, 64, 40, 40, 40, 1, 2, 128, 1, 1,
];

/// The saved state.
fn saved() -> [u8; 553] {
    let mut bytes = [0; 553];
    for (place, byte) in PLACES.iter().zip(BYTES.iter()) {
        if *place < 553 {
            bytes[*place] = *byte;
        }
    }
    bytes
}

/// The fault of bytes that aren't those of a board.
fn fault_of(bytes: &[u8]) -> Option<StateFault> {
    decode(bytes).err()
}

/// The board of the bytes.
fn decoded(rt: &impl Abort, bytes: &[u8]) -> BoardState {
    match decode(bytes) {
        Ok(state) => state,
        Err(fault) => panic!(rt; "{fault:?}"),
    }
}

#[test]
fn a_state_cut_anywhere_is_short(rt: HostRuntime) {
    let bytes = saved();
    for len in 0..553 {
        let fault = StateFault {
            place: len as u64,
            kind: StateKind::Short,
        };
        same(&rt, len, fault_of(&bytes[..len]), Some(fault));
    }
}

#[test]
fn a_byte_more_is_trailing(rt: HostRuntime) {
    let mut bytes = [0; 554];
    bytes[..553].copy_from_slice(&saved());
    let fault = StateFault {
        place: 553,
        kind: StateKind::Trailing,
    };
    same(&rt, 553, fault_of(&bytes), Some(fault));
}

#[test]
fn a_version_is_read(rt: HostRuntime) {
    let mut bytes = saved();
    bytes[527] = 0xfe;
    for place in 528..531 {
        bytes[place] = 0xff;
    }
    let state = decoded(&rt, &bytes);
    let first = state.parts().processors[0];
    same(&rt, "version", first.version, 4_294_967_294);
    same(&rt, "number", first.number, 1);
    same(&rt, "accesses", state.accesses(), 2);
}

/// A timer of the HPET that format 2 brings: its registers at power on.
const FRESH_TIMER: [u8; 18] = [0, 0x28, 0, 0, 0, 0, 0, 0, 0, 0, 0, 0, 0, 0, 0, 0, 0, 0];

#[test]
fn an_upgrade_to_version_2(rt: HostRuntime) -> Result<(), Fail> {
    let old = saved();
    let state = decoded(&rt, &old);
    if state.format() > 2 {
        panic!(rt; "a later format");
    }
    let bytes = encode(rt.alloc(), &state.upgraded(2))?;
    same(&rt, "length", bytes.len(), 856);
    // where kept bytes are, where they were, and how many
    let kept = [(0, 0, 8), (10, 10, 308), (408, 318, 165), (786, 483, 70)];
    for (place, before, len) in kept {
        let seen = part(&rt, &bytes, place, len);
        same(&rt, place, seen, part(&rt, &old, before, len));
    }
    let zeros = [0; 213];
    are_at(
        &rt,
        &bytes,
        &[(8, [2, 0].as_slice()), (573, zeros.as_slice())],
    );
    for timer in 0..5 {
        are_at(&rt, &bytes, &[(318 + 18 * timer, FRESH_TIMER.as_slice())]);
    }
    Ok(())
}
