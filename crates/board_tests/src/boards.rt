//! What tests ask of a board. A test ends where the board has no such processor, or refuses.
use board_core::{Access, BoardState, Reply};
use pvclock_page::{ClockReply, Page};
use std::process::Abort;

/// An access of a processor, which is legal and isn't refused.
pub(crate) fn ask_by(
    rt: &impl Abort,
    board: &mut BoardState,
    cpu: u8,
    h: u64,
    access: Access,
) -> Reply {
    if cpu >= board.cpus() || !access.legal(board.cpus(), board.format()) {
        panic!(rt; "{access:?} isn't legal");
    }
    match board.access(cpu, h, access) {
        Ok(reply) => reply,
        Err(refusal) => panic!(rt; "{access:?}: {refusal:?}"),
    }
}

/// An access of processor 0.
pub(crate) fn ask(rt: &impl Abort, board: &mut BoardState, h: u64, access: Access) -> Reply {
    ask_by(rt, board, 0, h, access)
}

/// The page of processor 0.
pub(crate) fn page(rt: &impl Abort, board: &BoardState) -> Page {
    if board.cpus() == 0 {
        panic!(rt; "no processor");
    }
    board.page(0)
}

/// What a processor reads of its clock.
pub(crate) fn clock(rt: &impl Abort, board: &mut BoardState, cpu: u8, h: u64) -> ClockReply {
    if cpu >= board.cpus() {
        panic!(rt; "no processor {cpu}");
    }
    match board.clock_of(cpu, h) {
        Ok(reply) => reply,
        Err(fault) => panic!(rt; "{fault:?}"),
    }
}
