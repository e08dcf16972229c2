//! The saved state with each of its bytes set in turn: its fault, or the board that it is.
use super::saved;
use crate::checks::same;
use save_state::{StateFault, StateKind, decode, encode};
use std::alloc::Global;
use std::process::Abort;
use std::test::Fail;

/// No fault.
const NO: u64 = u64::MAX;

// What it is where a byte is set to a value: the last byte of each run of bytes, and where the fault is, by a board of
// another program.
const RUNS_00: [(usize, u64); 32] = [
    (7, 0),
    (8, 8),
    (9, NO),
    (10, 10),
    (13, NO),
    (14, 12),
    (43, NO),
    (45, 547),
    (46, 44),
    (78, NO),
    (79, 79),
    (80, 80),
    (92, NO),
    (93, 93),
    (94, 94),
    (106, NO),
    (107, 107),
    (108, 108),
    (135, NO),
    (136, 123),
    (264, NO),
    (265, 264),
    (282, NO),
    (283, 282),
    (300, NO),
    (301, 300),
    (526, NO),
    (527, 527),
    (549, NO),
    (550, 547),
    (551, 551),
    (552, 552),
];

const RUNS_7F: [(usize, u64); 82] = [
    (7, 0),
    (9, 8),
    (11, 10),
    (14, NO),
    (19, 12),
    (27, 36),
    (34, NO),
    (35, 28),
    (42, NO),
    (43, 36),
    (46, 547),
    (51, 44),
    (58, NO),
    (59, 52),
    (70, NO),
    (75, 68),
    (76, 76),
    (77, 77),
    (78, 78),
    (79, 79),
    (80, 80),
    (82, 81),
    (84, 83),
    (86, 85),
    (87, 87),
    (90, 88),
    (92, 91),
    (93, 93),
    (94, 94),
    (96, 95),
    (98, 97),
    (100, 99),
    (101, 101),
    (104, 102),
    (106, 105),
    (107, 107),
    (108, 108),
    (110, 109),
    (112, 111),
    (114, 113),
    (115, 115),
    (118, 116),
    (120, 119),
    (121, 121),
    (134, NO),
    (136, 123),
    (252, NO),
    (253, 253),
    (254, 254),
    (255, 255),
    (263, NO),
    (265, 264),
    (281, NO),
    (283, 282),
    (299, NO),
    (301, 300),
    (317, NO),
    (318, 318),
    (326, 319),
    (350, 343),
    (351, 351),
    (359, 352),
    (383, 376),
    (384, 384),
    (392, 385),
    (416, 409),
    (417, 417),
    (425, 418),
    (449, 442),
    (450, 450),
    (458, 451),
    (482, 475),
    (491, 491),
    (501, NO),
    (502, 499),
    (526, NO),
    (527, 527),
    (545, NO),
    (546, 539),
    (550, 547),
    (551, 551),
    (552, 552),
];

const RUNS_80: [(usize, u64); 85] = [
    (7, 0),
    (9, 8),
    (11, 10),
    (14, NO),
    (19, 12),
    (27, 36),
    (34, NO),
    (35, 28),
    (42, NO),
    (43, 36),
    (46, 547),
    (51, 44),
    (58, NO),
    (59, 52),
    (70, NO),
    (75, 68),
    (76, 76),
    (77, 77),
    (78, 78),
    (79, 79),
    (80, 80),
    (82, 81),
    (84, 83),
    (86, 85),
    (87, 87),
    (90, 88),
    (92, 91),
    (93, 93),
    (94, 94),
    (96, 95),
    (98, 97),
    (100, 99),
    (101, 101),
    (104, 102),
    (106, 105),
    (107, 107),
    (108, 108),
    (110, 109),
    (112, 111),
    (114, 113),
    (115, 115),
    (118, 116),
    (120, 119),
    (121, 121),
    (122, 122),
    (132, NO),
    (133, 123),
    (134, NO),
    (135, 123),
    (251, NO),
    (252, 251),
    (253, 253),
    (254, 254),
    (255, 255),
    (263, NO),
    (265, 264),
    (281, NO),
    (283, 282),
    (299, NO),
    (301, 300),
    (317, NO),
    (318, 318),
    (326, 319),
    (350, 343),
    (351, 351),
    (359, 352),
    (383, 376),
    (384, 384),
    (392, 385),
    (416, 409),
    (417, 417),
    (425, 418),
    (449, 442),
    (450, 450),
    (458, 451),
    (482, 475),
    (490, 491),
    (501, NO),
    (502, 499),
    (545, NO),
    (546, 539),
    (549, 547),
    (550, NO),
    (551, 551),
    (552, 552),
];

const RUNS_FF: [(usize, u64); 86] = [
    (7, 0),
    (9, 8),
    (11, 10),
    (13, NO),
    (19, 12),
    (27, 36),
    (34, NO),
    (35, 28),
    (42, NO),
    (43, 36),
    (45, 547),
    (51, 44),
    (58, NO),
    (59, 52),
    (70, NO),
    (75, 68),
    (76, 76),
    (77, 77),
    (78, 78),
    (79, 79),
    (80, 80),
    (82, 81),
    (84, 83),
    (86, 85),
    (87, 87),
    (90, 88),
    (92, 91),
    (93, 93),
    (94, 94),
    (96, 95),
    (98, 97),
    (100, 99),
    (101, 101),
    (104, 102),
    (106, 105),
    (107, 107),
    (108, 108),
    (110, 109),
    (112, 111),
    (114, 113),
    (115, 115),
    (118, 116),
    (120, 119),
    (121, 121),
    (122, 122),
    (132, NO),
    (133, 123),
    (134, NO),
    (136, 123),
    (251, NO),
    (252, 251),
    (253, 253),
    (254, 254),
    (255, 255),
    (263, NO),
    (265, 264),
    (281, NO),
    (283, 282),
    (299, NO),
    (301, 300),
    (317, NO),
    (318, 318),
    (326, 319),
    (350, 343),
    (351, 351),
    (359, 352),
    (383, 376),
    (384, 384),
    (392, 385),
    (416, 409),
    (417, 417),
    (425, 418),
    (449, 442),
    (450, 450),
    (458, 451),
    (482, 475),
    (491, 491),
    (501, NO),
    (502, 499),
    (526, NO),
    (527, 527),
    (545, NO),
    (546, 539),
    (550, 547),
    (551, 551),
    (552, 552),
];

/// What is at fault at a place.
fn kind_at(place: u64) -> StateKind {
    match place {
        0 => StateKind::Magic,
        8 => StateKind::Version,
        _ => StateKind::Field,
    }
}

/// Bytes have their fault at this place, or are those of the board that they are read as.
fn judge(
    rt: &impl Abort,
    alloc: Global,
    row: (u8, usize),
    bytes: &[u8],
    place: u64,
) -> Result<(), Fail> {
    match decode(bytes) {
        Ok(state) => {
            same(rt, row, NO, place);
            same(rt, row, encode(alloc, &state)?.as_slice(), bytes);
        }
        Err(fault) => {
            let kind = kind_at(place);
            same(rt, row, fault, StateFault { place, kind });
        }
    }
    Ok(())
}

/// The fault where a byte is set: that of its run.
fn fault_at(runs: &[(usize, u64)], at: usize) -> u64 {
    for (last, place) in runs {
        if at <= *last {
            return *place;
        }
    }
    NO
}

/// Sets each byte in turn.
fn set_each(rt: &impl Abort, alloc: Global, value: u8, runs: &[(usize, u64)]) -> Result<(), Fail> {
    for at in 0..553 {
        let mut bytes = saved();
        bytes[at] = value;
        judge(rt, alloc, (value, at), &bytes, fault_at(runs, at))?;
    }
    Ok(())
}

#[test]
fn each_byte_set_to_00(rt: HostRuntime) -> Result<(), Fail> {
    set_each(&rt, rt.alloc(), 0, &RUNS_00)
}

#[test]
fn each_byte_set_to_7f(rt: HostRuntime) -> Result<(), Fail> {
    set_each(&rt, rt.alloc(), 0x7f, &RUNS_7F)
}

#[test]
fn each_byte_set_to_80(rt: HostRuntime) -> Result<(), Fail> {
    set_each(&rt, rt.alloc(), 0x80, &RUNS_80)
}

#[test]
fn each_byte_set_to_ff(rt: HostRuntime) -> Result<(), Fail> {
    set_each(&rt, rt.alloc(), 0xff, &RUNS_FF)
}
