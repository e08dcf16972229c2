//! The board for C: a static library of plain calls over `board_core`, `save_state` and `transfer`.
//!
//! A monitor in C, C++ or Rust keeps a board in memory of its own and hands each call one access with the count
//! of the host's counter. `c/clockboard.h` declares the calls, and docs/C_LIBRARY.md says how a monitor wires them
//! to its one timer and to its interrupt controller.
//!
//! No call has a condition on its numbers: a processor, port, register, width, line, source, setup or state that
//! no board has is answered by a code, and changes nothing. What a call answers is `told` or the like of specs/,
//! over the definitions of the crates below.
//!
//! What can't be checked is left to the caller: pointers lead to memory of the type that they name, no two calls
//! on one board overlap, and the bytes of a board are written by this library alone, or copied whole from a board.
//! Its first word is a seal, which is looked at before anything else of it: memory that no call has filled is
//! answered `NO_BOARD`.
#![tactic(auto)]

mod board;
mod calendar;
mod call;
mod code;
mod hv;
mod look;
mod pages;
mod ports;
mod power_on;
mod registers;
mod reply;
mod shared;
mod states;
mod timer;

pub use board::{
    ABI, Board, clockboard_abi, clockboard_blank, clockboard_reply_size, clockboard_size,
};
pub use calendar::{MARCH_2100, clockboard_setup_at};
pub use code::{
    ACCESSES_SPENT, AGAIN, BAD_FORMAT, BAD_RATE, BAD_SETUP, BAD_STATE, BEFORE_START, NO_BOARD,
    NO_EDGE, NO_MEMORY, NO_PROCESSOR, NO_ROOM, NOT_OURS, NOT_SHARED, OK, OUT_OF_RANGE, PAGE_OFF,
    SHARED, VERSIONS_SPENT,
};
pub use hv::{HvWords, clockboard_hv_page, clockboard_hv_time};
pub use look::{TscWords, ViewWords, clockboard_look, clockboard_tsc};
pub use pages::{PageWords, clockboard_clock, clockboard_page};
pub use ports::{clockboard_port_read, clockboard_port_write, clockboard_step};
pub use power_on::{SetupWords, clockboard_power_on};
pub use registers::{
    clockboard_acknowledge, clockboard_counts, clockboard_eoi, clockboard_hpet_read,
    clockboard_hpet_write, clockboard_msr_read, clockboard_msr_write, clockboard_refresh,
    clockboard_rises, clockboard_wall,
};
pub use reply::{BurstWords, EdgeWords, ReplyWords};
pub use shared::{
    FiveWords, RateWords, clockboard_hv_reading, clockboard_hv_words, clockboard_page_reading,
    clockboard_page_words, clockboard_share, clockboard_share_msr_write, clockboard_share_refresh,
    clockboard_unshare,
};
pub use states::{
    clockboard_load, clockboard_move, clockboard_reset, clockboard_save, clockboard_upgrade,
};
pub use timer::{
    clockboard_counter_of, clockboard_next_edge, clockboard_next_message, clockboard_next_tick,
};
