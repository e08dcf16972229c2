//! Odd bytes written to every port, and odd words to every place of the HPET, each on a board at power on: the write is
//! answered, and the board after it is written and read as itself.
ghost use Rattle.std.specs.Prelude.{◌≤◌};
ghost use Rattle.board_types.specs.declared.setup.TheConstants.{LAST_FORMAT};

use super::board;
use crate::boards::ask;
use crate::checks::same;
use board_core::Access;
use save_state::{decode, encode};
use std::alloc::Global;
use std::process::Abort;
use std::test::Fail;

/// The ports of the 8254 and of the MC146818.
const PORTS: [u8; 7] = [0x40, 0x41, 0x42, 0x43, 0x61, 0x70, 0x71];

/// No bit, all but the highest, the highest alone, all.
const BYTES_WRITTEN: [u8; 4] = [0, 0x7f, 0x80, 0xff];

/// The bytes of the HPET's block.
const BLOCK: u16 = 0x400;

/// The widths of an access to it, each with all its bits set.
const WIDTHS: [(u8, u64); 4] = [(1, 0xff), (2, 0xffff), (4, 0xffff_ffff), (8, u64::MAX)];

/// A write is answered by a board at power on, whose bytes are then read as a board of these bytes.
fn write_and_read_back(
    rt: &impl Abort,
    alloc: Global,
    format: u8,
    write: Access,
) -> Result<(), Fail>
    requires low { 1 ≤ format }
    requires high { format ≤ LAST_FORMAT }
{
    let mut board = board(format);
    let _ = ask(rt, &mut board, 5_000, write);
    let bytes = encode(alloc, &board)?;
    match decode(&bytes) {
        Ok(read) => same(rt, write, encode(alloc, &read)?, bytes),
        Err(fault) => panic!(rt; "{write:?}: {fault:?}"),
    }
    Ok(())
}

#[test]
fn each_port_takes_any_byte(rt: HostRuntime) -> Result<(), Fail> {
    for format in [1, 2] {
        for port in PORTS {
            for byte in BYTES_WRITTEN {
                let write = Access::PortOut { port, byte };
                write_and_read_back(&rt, rt.alloc(), format, write)?;
            }
        }
    }
    Ok(())
}

/// Format 2's block, whose first three of eight timers are those of format 1.
#[test]
fn each_place_of_the_hpet_takes_any_word(rt: HostRuntime) -> Result<(), Fail> {
    for offset in 0..BLOCK {
        for (width, ones) in WIDTHS {
            for value in [0, ones] {
                let write = Access::HpetWrite {
                    offset,
                    width,
                    value,
                };
                write_and_read_back(&rt, rt.alloc(), 2, write)?;
            }
        }
    }
    Ok(())
}
